ghost use Rattle.std.specs.Prelude.{◌≡◌, ◌+◌, ◌<◌, ◌≤◌, ◌^◌, ◌∷◌, List, ℕ, length, slice_range, IfOk, OnOk, OnErr};
ghost use Rattle.record_core.specs.Bytes.{IsBytes};
ghost use Rattle.disk_core.specs.declared.fault.DiskFault.TheVariants.{Length, Read, Write, Sync};
ghost use Rattle.disk_core.specs.State.{State, now, IsImage};
ghost use Rattle.disk_core.specs.Calls.{bytes_of, AddsMoment, Stays, Writes, TearsWrite, Settles};
ghost use Rattle.disk_core.specs.Moments.{clock};
ghost use Rattle.disk_core.specs.Fault.{IsCounted};

use crate::DiskFault;

/// One file of bytes that may lose what was not synced. Places and lengths are in bytes.
///
/// A call may fail at any time. Whatever it did is told by its clauses: those on the past, the clock and faults hold
/// of every disk, those on bytes and on what a crash may leave of one that has kept the model.
pub trait Disk {
    /// What the disk was at each moment so far, the newest first: each call adds one, and nothing else does (`past`).
    /// The clock, and what a crash now or at some moment may leave, are read from this list.
    ghost states: { Self → List State };

    /// How often a call has failed.
    ghost faults: { Self → ℕ };

    /// The disk has kept the model so far: what its clauses say of bytes was so. Of a disk in memory that always
    /// holds. Of a real file no program can know beforehand what it will answer: there a call whose answer is not
    /// the model's ends it. A length, a read, a write that succeeds and a sync end it in no other way (`goes_on`); a
    /// write that fails may. No later call brings it back (`model`), and none takes away what was known of the
    /// moments before it (`past`).
    ghost keeps: { Self → Type 0 };

    /// The length in bytes. Nothing changes.
    fn len(&mut self) -> Result<u64, DiskFault>
        ensures value { keeps self.new → IfOk result (λ n. n ≡ length (bytes_of (states self.old))) }
        ensures same { keeps self.old → Stays (states self.old) (states self.new) }
        ensures past { AddsMoment (states self.old) (states self.new) }
        ensures time { clock (states self.new) ≡ clock (states self.old) + 1 }
        ensures cause { IsCounted Length (faults self.old) (faults self.new) result }
        ensures model { keeps self.new → keeps self.old }
        ensures goes_on { keeps self.old
            → IfOk result (λ n. n ≡ length (bytes_of (states self.old))) → keeps self.new };

    /// Fills `out` with the bytes that stand from `at` on. Where it fails, `out` may hold anything.
    fn read_at(&mut self, at: u64, out: &mut [u8]) -> Result<(), DiskFault>
        requires { keeps self.old → at + length out.old ≤ length (bytes_of (states self.old)) }
        ensures value { keeps self.new
            → OnOk result (out.new ≡ slice_range (bytes_of (states self.old)) at (at + length out.old)) }
        ensures same { keeps self.old → Stays (states self.old) (states self.new) }
        ensures past { AddsMoment (states self.old) (states self.new) }
        ensures time { clock (states self.new) ≡ clock (states self.old) + 1 }
        ensures cause { IsCounted Read (faults self.old) (faults self.new) result }
        ensures model { keeps self.new → keeps self.old }
        ensures goes_on { keeps self.old
            → OnOk result (out.new ≡ slice_range (bytes_of (states self.old)) at (at + length out.old))
            → keeps self.new };

    /// Writes `bytes` from `at` on, over what is there and past the end. Until a sync succeeds, a crash may leave
    /// anything in their place. Where it fails, a read too may give anything in their place, and the disk may have
    /// any length up to where they would have ended.
    fn write_at(&mut self, at: u64, bytes: &[u8]) -> Result<(), DiskFault>
        requires inside { keeps self.old → at ≤ length (bytes_of (states self.old)) }
        requires fits { at + length bytes.now < 2 ^ 64 }
        ensures done { keeps self.old
            → OnOk result (Writes at bytes.now (states self.old) (states self.new)) }
        ensures torn { keeps self.new
            → OnErr result (TearsWrite at (length bytes.now) (states self.old) (states self.new)) }
        ensures past { AddsMoment (states self.old) (states self.new) }
        ensures time { clock (states self.new) ≡ clock (states self.old) + 1 }
        ensures cause { IsCounted Write (faults self.old) (faults self.new) result }
        ensures model { keeps self.new → keeps self.old }
        ensures goes_on { keeps self.old → OnOk result (keeps self.new) };

    /// After it succeeds, a crash leaves what a read gives. After it fails, what it might have left before.
    fn sync(&mut self) -> Result<(), DiskFault>
        ensures done { keeps self.old → OnOk result (Settles (states self.old) (states self.new)) }
        ensures same { keeps self.old → OnErr result (Stays (states self.old) (states self.new)) }
        ensures past { AddsMoment (states self.old) (states self.new) }
        ensures time { clock (states self.new) ≡ clock (states self.old) + 1 }
        ensures cause { IsCounted Sync (faults self.old) (faults self.new) result }
        ensures model { keeps self.new → keeps self.old }
        ensures goes_on { keeps self.old → keeps self.new };

    /// A crash may leave the bytes as they read.
    ghost reads_an_image: { (disk : Self) → keeps disk
        → IsImage (now (states disk)) (bytes_of (states disk)) };

    /// What a read gives is bytes: each number is below 256.
    ghost reads_bytes: { (disk : Self) → keeps disk → IsBytes (bytes_of (states disk)) };
}
