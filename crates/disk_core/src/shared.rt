ghost use Rattle.std.specs.Prelude.{◌≡◌, ◌<◌, ◌≤◌, List, ℕ, length, take, OnOk, IfOk, IfErr};
ghost use Rattle.disk_core.specs.declared.fault.DiskFault.TheVariants.{Read, Sync};
ghost use Rattle.disk_core.specs.Shared.{InTurn};

use crate::DiskFault;

/// A file that another process writes while it is read here. What it holds is a list of bytes at each moment; moments are
/// numbered, and each call lasts from one moment to another.
///
/// **Its user's premise**, which no call shows: what a sync finds is on the device when it succeeds (`synced`).
pub trait Shared {
    /// What the file holds at each moment, before and behind now.
    ghost held: { Self → ℕ → List ℕ };

    /// The moment at which the last call ended.
    ghost now: { Self → ℕ };

    /// What the file held at the moments below this one has reached the device, or what was written over it since. 0: no
    /// sync has succeeded.
    ghost synced: { Self → ℕ };

    /// The answers so far were those of this file.
    ghost keeps: { Self → Type 0 };

    /// Fills `out` with the bytes from `at` on. Each of them stood at its place at some moment of this call, and no two
    /// need have stood at the same one; none is read before one in front of it. Where it fails, as where the file ends
    /// before, `out` may hold anything.
    fn read_at(&mut self, at: u64, out: &mut [u8]) -> Result<(), DiskFault>
        ensures each { keeps self.new → OnOk result (InTurn (held self.old) (now self.old) (now self.new) at out.new) }
        ensures same { held self.new ≡ held self.old }
        ensures time { now self.old ≤ now self.new }
        ensures settles_none { synced self.new ≡ synced self.old }
        ensures cause { IfErr result (λ fault. fault ≡ Read) }
        ensures model { keeps self.new → keeps self.old };

    /// Reads bytes from `at` on into the front of `out`, and answers how many: fewer than it takes where the file ends
    /// before, and maybe elsewhere; 0 where it has none there. They stood at their places as those of `read_at` do.
    fn read_some(&mut self, at: u64, out: &mut [u8]) -> Result<usize, DiskFault>
        ensures bound { IfOk result (λ count. count ≤ length out.new) }
        ensures each { keeps self.new → IfOk result (λ count. InTurn (held self.old) (now self.old) (now self.new) at (take count out.new)) }
        ensures same { held self.new ≡ held self.old }
        ensures time { now self.old ≤ now self.new }
        ensures settles_none { synced self.new ≡ synced self.old }
        ensures cause { IfErr result (λ fault. fault ≡ Read) }
        ensures model { keeps self.new → keeps self.old };

    /// What the file held when the call began is on the device when it succeeds.
    fn sync(&mut self) -> Result<(), DiskFault>
        ensures settled { OnOk result (now self.old < synced self.new) }
        ensures keeps_settled { synced self.old ≤ synced self.new }
        ensures same { held self.new ≡ held self.old }
        ensures time { now self.old ≤ now self.new }
        ensures cause { IfErr result (λ fault. fault ≡ Sync) }
        ensures model { keeps self.new → keeps self.old };
}
