//! The records of consecutive positions are read from where they stand.

ghost use Rattle.std.specs.Prelude.{◌≡◌, ◌≤◌, ◌<◌, ◌+◌, ◌*◌, ◌^◌, ℕ, List, length, OnOk};
ghost use Rattle.std.specs.List.{AllByRecursion};
ghost use Rattle.disk_core.specs.Fault.{CountsFailures};
ghost use Rattle.disk_core.specs.State.{now, IsImage};
ghost use Rattle.disk_core.specs.Calls.{bytes_of};
ghost use Rattle.disk_core.specs.Moments.{LeavesOnly};
ghost use Rattle.segment_core.specs.Frame.{Frame};
ghost use Rattle.segment_core.specs.Vector.{place_among, HasVector};
ghost use Rattle.segment_core.specs.Raw.{raw};
ghost use Rattle.segment_core.specs.Found.{home_among};
ghost use Rattle.segment_core.specs.FrameWalk.{EndsInside};
ghost use Rattle.pen_core.specs.Framing.{IsFramedOn};
ghost use Rattle.pen_core.specs.Window.{AreLaidOver, AreCellsFrom};

use disk_core::{Disk, DiskFault};
use segment_core::{Framed, Home};

/// Consecutive positions: `count` of them, from `from` on.
#[derive(Clone, Copy)]
struct Positions {
    from: u64,
    count: u64,
}

/// Reads what stands in a home over its positions of the window.
fn lay_home<D: Disk>(
    disk: &mut D,
    size: u64,
    width: u64,
    home: Home,
    window: Positions,
    out: &mut [u8],
) -> Result<(), DiskFault>
    requires length { D.keeps disk.old → size ≤ length (bytes_of (D.states disk.old)) }
    requires inside { EndsInside width size home }
    requires short { window.from + window.count < 2 ^ 64 }
    requires filled { length out.old ≡ window.count * width }
    ensures laid { D.keeps disk.new → OnOk result (AreLaidOver width window.from window.count (bytes_of (D.states disk.old))
        (place_among width home.place home.position home.count) out.old out.new) }
    ensures same { D.keeps disk.new → now (D.states disk.new) ≡ now (D.states disk.old) }
    ensures images { D.keeps disk.new → LeavesOnly (D.states disk.old) (D.states disk.new) (IsImage (now (D.states disk.old))) }
    ensures faults { CountsFailures (λ _. 1) (D.faults disk.old) (D.faults disk.new) result }
    ensures model { D.keeps disk.new → D.keeps disk.old }
{
    let first = home.position.max(window.from);
    let last = home
        .position
        .saturating_add(home.count)
        .min(window.from + window.count);
    if first >= last {
        return Ok(());
    }
    let at = home.place + (first - home.position) * width;
    let start = (first - window.from) * width;
    let end = (last - window.from) * width;
    disk.read_at(at, &mut out[start as usize..end as usize])
}

/// The same of homes, one after the other.
fn lay_homes<D: Disk>(
    disk: &mut D,
    size: u64,
    width: u64,
    homes: &[Home],
    window: Positions,
    out: &mut [u8],
) -> Result<(), DiskFault>
    requires length { D.keeps disk.old → size ≤ length (bytes_of (D.states disk.old)) }
    requires inside { AllByRecursion (EndsInside width size) homes.now }
    requires short { window.from + window.count < 2 ^ 64 }
    requires filled { length out.old ≡ window.count * width }
    ensures laid { D.keeps disk.new → OnOk result (AreLaidOver width window.from window.count (bytes_of (D.states disk.old)) (home_among width homes.now) out.old out.new) }
    ensures same { D.keeps disk.new → now (D.states disk.new) ≡ now (D.states disk.old) }
    ensures images { D.keeps disk.new → LeavesOnly (D.states disk.old) (D.states disk.new) (IsImage (now (D.states disk.old))) }
    ensures faults { CountsFailures (λ _. 1) (D.faults disk.old) (D.faults disk.new) result }
    ensures model { D.keeps disk.new → D.keeps disk.old }
{
    for k in 0..homes.len() {
        let home = homes[k];
        lay_home(disk, size, width, home, window, out)?;
    }
    Ok(())
}

/// Reads the records of consecutive positions, as their bytes, over all of `out`: `count` of them, from `from` on, of a
/// file whose frames were walked. It reads what of them stands in each home, and what in each run of the live changes
/// over that. Refused where a read failed: then `out` may hold anything.
pub fn read_window<D: Disk>(
    disk: &mut D,
    framed: &Framed,
    from: u64,
    count: u64,
    out: &mut [u8],
) -> Result<(), DiskFault>
    requires framed { (size : ℕ) × IsFramedOn (D.keeps disk.old) (bytes_of (D.states disk.old)) size framed.now }
    requires inside { from + count ≤ framed.now.tally.size }
    requires filled { length out.old ≡ count * framed.now.shape.width }
    ensures cells { D.keeps disk.new → OnOk result ((frames : List Frame) (cells : List (List ℕ))
        → HasVector framed.now.shape.format (raw framed.now.shape.width) (bytes_of (D.states disk.old)) frames cells
        → AreCellsFrom framed.now.shape.width from count cells out.new) }
    ensures same { D.keeps disk.new → now (D.states disk.new) ≡ now (D.states disk.old) }
    ensures images { D.keeps disk.new → LeavesOnly (D.states disk.old) (D.states disk.new) (IsImage (now (D.states disk.old))) }
    ensures faults { CountsFailures (λ _. 1) (D.faults disk.old) (D.faults disk.new) result }
    ensures model { D.keeps disk.new → D.keeps disk.old }
{
    let width = framed.shape.width as u64;
    let window = Positions { from, count };
    lay_homes(disk, framed.gate, width, &framed.homes.homes, window, out)?;
    lay_homes(disk, framed.gate, width, &framed.live, window, out)
}
