ghost use Rattle.std.specs.Prelude.{◌≡◌, ◌+◌, ◌^◌, ◌<◌, ◌≤◌, [], ◌++◌, ◌-◌, length, take, drop, min, IfOk, OnErr, IfSome};
ghost use Rattle.cds_base.specs.Faults.{Rose};
ghost use Rattle.cds_base.specs.Source.{SourceTold};
ghost use Rattle.cds_base.specs.Told.{then_more, more_before};

use crate::failed::Failed;

/// Where bytes come from. It may tell the bytes that it has given and those that are left to read; whether it
/// tells them stays as it is. It can give fewer than 2^64 bytes more, and its count of faults never falls.
pub trait Source {
    /// What it tells: the bytes that it has given and those that are left, where it tells them; how many bytes it may
    /// still give; and how many of its calls failed, up to 2^64 - 1.
    ghost told: { Self → SourceTold };

    /// Puts the next bytes at the front of `buf` and answers how many; 0 is the end of input, and comes
    /// exactly where nothing is left. `Failed` comes only where the count of faults rose in this call, and the count
    /// is as before where the call succeeds; after `Failed` all
    /// else that the source tells is then as before.
    fn read(&mut self, buf: &mut [u8]) -> Result<usize, Failed>
        requires { 0 < length buf.old }
        ensures within { IfOk result (λ n. n ≤ length buf.old) }
        ensures gives { IfOk result (λ n. (told self.new).given ≡ then_more (told self.old).given (take n buf.new)) }
        ensures takes { IfOk result (λ n. (told self.old).left ≡ more_before (take n buf.new) (told self.new).left) }
        ensures ended { IfOk result (λ n. n ≡ 0 → IfSome (told self.new).left (λ rest. rest ≡ [])) }
        ensures nears { IfOk result (λ n. (told self.new).bound + n ≡ (told self.old).bound) }
        ensures bounded { (told self.old).bound < 2 ^ 64 }
        ensures counts { (told self.old).faults ≤ (told self.new).faults }
        ensures failed { OnErr result (Rose (told self.old).faults (told self.new).faults) }
        ensures kept { IfOk result (λ _. (told self.new).faults ≡ (told self.old).faults) }
        ensures given_stays { OnErr result ((told self.new).given ≡ (told self.old).given) }
        ensures left_stays { OnErr result ((told self.new).left ≡ (told self.old).left) }
        ensures bound_stays { OnErr result ((told self.new).bound ≡ (told self.old).bound) };
}

/// Gives the bytes that stand from the place `at` on: as many as are there, `buf` has room for and `most` says.
pub(crate) fn give(bytes: &[u8], at: usize, most: usize, buf: &mut [u8]) -> usize
    requires { at ≤ length bytes.now }
    ensures count { result ≡ min (min (length bytes.now - at) (length buf.old)) most }
    ensures given { take result buf.new ≡ take result (drop at bytes.now) }
{
    let rest = &bytes[at..];
    let count = rest.len().min(buf.len()).min(most);
    put_front(buf, &rest[..count]);
    count
}

/// Puts these bytes at the front of `buf`.
pub(crate) fn put_front(buf: &mut [u8], bytes: &[u8])
    requires { length bytes.now ≤ length buf.old }
    ensures { buf.new ≡ bytes.now ++ drop (length bytes.now) buf.old }
{
    buf[..bytes.len()].copy_from_slice(bytes);
}
