//! How a command ends.

ghost use Rattle.std.specs.Prelude.{◌≡◌};
ghost use Rattle.cds_desk.specs.Statuses.{exit_number};

/// How a command ends.
#[derive(Clone, Copy, Debug, PartialEq, Eq)]
pub enum Status {
    /// It was carried out.
    Done,
    /// `peaks` refused the trace, or the last response of a session tells a fault of the stream.
    Refused,
    /// The words are no command.
    NoCommand,
    /// The source failed.
    SourceFailed,
    /// The sink failed.
    SinkFailed,
    /// The keeper failed in a load.
    KeeperFailed,
    /// Memory is wanting.
    NoMemory,
    /// The door failed.
    DoorFailed,
    /// The store is damaged.
    Damaged,
}

impl Status {
    /// The number with which the program ends.
    pub fn number(self) -> u8
        ensures { result ≡ exit_number self }
    {
        match self {
            Status::Done => 0,
            Status::Refused => 1,
            Status::NoCommand => 2,
            Status::SourceFailed => 3,
            Status::SinkFailed => 4,
            Status::KeeperFailed => 5,
            Status::NoMemory => 6,
            Status::DoorFailed => 7,
            Status::Damaged => 8,
        }
    }
}
