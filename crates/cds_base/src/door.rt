ghost use Rattle.std.specs.Prelude.{◌≡◌, ◌+◌, ◌<◌, ◌≤◌, [], Some, option_map, get_or, IfOk, OnErr, IsErr, IfSome};
ghost use Rattle.cds_base.specs.Faults.{Rose};
ghost use Rattle.cds_base.specs.Door.{DoorTold, opened_at, first_taken, with_closed, before_closing, closed_of};

use crate::failed::Failed;
use crate::sink::Sink;
use crate::source::Source;

/// Where connections come from, each a pair of a source and a sink. It may tell its port, the connections to come
/// and the closed ones; whether it tells them stays as it is. Its count of faults never falls.
pub trait Door {
    /// What a connection sends.
    type In: Source + Drop;

    /// What is sent to a connection.
    type Out: Sink + Drop;

    /// What it tells: the port, the connections to come and the closed ones, where it tells them; how many pairs `next`
    /// answered that `close` didn't take back; and how many of its calls failed, up to 2^64 - 1.
    ghost told: { Self → DoorTold };

    /// Listens at this port. `Failed` comes only where the count of faults rose in this call; all else that the
    /// door tells is then as before.
    fn open(&mut self, port: u16) -> Result<(), Failed>
        ensures opens { IfOk result
            (λ _. (told self.new).connections ≡ option_map (opened_at port) (told self.old).connections) }
        ensures pairs_stay { (told self.new).pairs ≡ (told self.old).pairs }
        ensures counts { (told self.old).faults ≤ (told self.new).faults }
        ensures failed { OnErr result (Rose (told self.old).faults (told self.new).faults) }
        ensures kept { IfOk result (λ _. (told self.new).faults ≡ (told self.old).faults) }
        ensures told_stays { OnErr result ((told self.new).connections ≡ (told self.old).connections) };

    /// Waits for the next connection and answers its source and its sink, whose counts are 0 and which have given
    /// and written nothing. Where the door tells its connections, this is the first to come: its source and its
    /// sink tell their content, and the bytes that are left are those of the connection; a door without one
    /// fails. `Failed` comes only where the count of faults rose in this call; all else that the door tells is then
    /// as before.
    fn next(&mut self) -> Result<(Self::In, Self::Out), Failed>
        ensures takes { IfOk result
            (λ _. (told self.new).connections ≡ option_map first_taken (told self.old).connections) }
        ensures gives { IfOk result
            (λ pair. IfSome (told self.old).connections
            (λ door. (Self.In.told pair.0).left ≡ Some (get_or door.coming 0 []))) }
        ensures tells_given { IfOk result
            (λ pair. IfSome (told self.old).connections (λ _. (Self.In.told pair.0).given ≡ Some [])) }
        ensures tells_written { IfOk result
            (λ pair. IfSome (told self.old).connections (λ _. (Self.Out.told pair.1).written ≡ Some [])) }
        ensures none_comes { IfSome (told self.old).connections (λ door. door.coming ≡ [] → IsErr result) }
        ensures nothing_given { IfOk result (λ pair. IfSome (Self.In.told pair.0).given (λ given. given ≡ [])) }
        ensures nothing_written { IfOk result
            (λ pair. IfSome (Self.Out.told pair.1).written (λ written. written ≡ [])) }
        ensures no_source_fault { IfOk result (λ pair. (Self.In.told pair.0).faults ≡ 0) }
        ensures no_sink_fault { IfOk result (λ pair. (Self.Out.told pair.1).faults ≡ 0) }
        ensures one_more { IfOk result (λ _. (told self.new).pairs ≡ (told self.old).pairs + 1) }
        ensures counts { (told self.old).faults ≤ (told self.new).faults }
        ensures failed { OnErr result (Rose (told self.old).faults (told self.new).faults) }
        ensures kept { IfOk result (λ _. (told self.new).faults ≡ (told self.old).faults) }
        ensures told_stays { OnErr result ((told self.new).connections ≡ (told self.old).connections) }
        ensures pairs_stay { OnErr result ((told self.new).pairs ≡ (told self.old).pairs) };

    /// Closes a connection: takes back a pair that `next` answered. Where the door tells, the closed connection
    /// stands behind those before, with what the pair tells. It cannot fail, and takes no memory.
    fn close(&mut self, input: Self::In, output: Self::Out)
        requires taken { 0 < (told self.old).pairs }
        ensures closes { IfSome (closed_of (Self.In.told input) (Self.Out.told output))
            (λ connection. (told self.new).connections ≡ option_map (with_closed connection) (told self.old).connections) }
        ensures rest_stays { option_map before_closing (told self.new).connections ≡ (told self.old).connections }
        ensures one_less { (told self.new).pairs + 1 ≡ (told self.old).pairs }
        ensures faults_stay { (told self.new).faults ≡ (told self.old).faults };
}
