ghost use Rattle.std.specs.Prelude.{◌≡◌, ◌<◌, Option, option_map, IfSome};
ghost use Rattle.cds_base.specs.Clock.{Moments, moment_of, moments_after};

/// Moments are below this: the seconds from the start of 1970 to the end of the year 9999.
pub const MOMENT_LIMIT: u64 = 253_402_300_800;

/// What the time is. It may tell the moments that it will answer; whether it tells them stays as it is. It cannot
/// fail.
pub trait Clock {
    /// The moments to come and the last one, where it tells them.
    ghost moments: { Self → Option Moments };

    /// The moment, in seconds since the start of 1970, below `MOMENT_LIMIT`. Where it is told, this is the first of
    /// those to come, which is then gone, or the last moment where none is to come.
    fn now(&mut self) -> u64
        ensures within { result < MOMENT_LIMIT }
        ensures answers { IfSome (moments self.old) (λ told. result ≡ moment_of told) }
        ensures moves { moments self.new ≡ option_map moments_after (moments self.old) };
}
