//! A file is made: its header behind a closed first byte, a sync, that byte opened, a sync.

ghost use Rattle.std.specs.Prelude.{◌≡◌, ◌≤◌, ◌<◌, ◌+◌, ◌-◌, ◌^◌, ◌++◌, ◌∷◌, [], length, Ok, Err, OnOk, IfOk, IfErr, MatchResult};
ghost use Rattle.disk_core.specs.Fault.{CountsFailures};
ghost use Rattle.disk_core.specs.State.{now, settled, touched, overlay, IsImage};
ghost use Rattle.disk_core.specs.Calls.{bytes_of};
ghost use Rattle.disk_core.specs.Moments.{LeavesOnly, clock};
ghost use Rattle.segment_core.specs.declared.format.Format.TheVariants.{One};
ghost use Rattle.segment_core.specs.Frame.{header};
ghost use Rattle.pen_core.specs.Births.{AreLooks, AreCallsUntil, EndsAt, calls_of_creation, first_calls, write_calls, IsExisting, AreContents, IsClear, IsUnbornOrEmpty, StaysUnbornOrEmpty};
ghost use Rattle.pen_core.specs.Births.{WritesNothing, IsCreateFault, IsCreation};
ghost use Rattle.pen_core.specs.Pen.{failed_calls};

use crate::fault::PenFault;
use crate::fold::Fold;
use crate::pen::Pen;
use disk_core::{Disk, DiskFault};
use segment_core::{
    CLOSED_GATE, EMPTY_FILE_LEN, Format, HEADER_LEN, Homes, OPEN_GATE, Shape, Tally, empty_file,
};
use std::alloc::Global;

/// What a disk holds before a file is made on it.
#[derive(Clone, Copy)]
pub(crate) enum FoundFile {
    /// A file.
    File,
    /// At most one byte.
    Blank,
    /// A first byte that is closed, and no more than an empty file.
    Closed,
}

/// What the disk holds.
fn look<D: Disk>(disk: &mut D) -> Result<FoundFile, DiskFault>
    ensures found { D.keeps disk.new → IfOk result (λ seen. AreContents (bytes_of (D.states disk.old)) seen) }
    ensures same { D.keeps disk.new → now (D.states disk.new) ≡ now (D.states disk.old) }
    ensures images { D.keeps disk.new → LeavesOnly (D.states disk.old) (D.states disk.new) (IsImage (now (D.states disk.old))) }
    ensures time { clock (D.states disk.new) ≤ clock (D.states disk.old) + 2 }
    ensures blank_time { result ≡ Ok FoundFile.Blank → clock (D.states disk.new) ≡ clock (D.states disk.old) + 1 }
    ensures later { clock (D.states disk.old) < clock (D.states disk.new) }
    ensures calls { D.keeps disk.new → MatchResult result
        (λ seen. AreLooks (bytes_of (D.states disk.old)) (first_calls (bytes_of (D.states disk.old))) seen (clock (D.states disk.new) - clock (D.states disk.old)))
        (λ cause. EndsAt (first_calls (bytes_of (D.states disk.old))) cause (clock (D.states disk.new) - clock (D.states disk.old))) }
    ensures faults { CountsFailures (λ _. 1) (D.faults disk.old) (D.faults disk.new) result }
    ensures model { D.keeps disk.new → D.keeps disk.old }
{
    let len = disk.len()?;
    if len > EMPTY_FILE_LEN as u64 {
        return Ok(FoundFile::File);
    }
    if len < 2 {
        return Ok(FoundFile::Blank);
    }
    let mut first = [0];
    disk.read_at(0, &mut first)?;
    if first[0] == OPEN_GATE {
        return Ok(FoundFile::File);
    }
    Ok(FoundFile::Closed)
}

/// Writes the bytes and syncs them.
fn write_synced<D: Disk>(disk: &mut D, at: u64, bytes: &[u8]) -> Result<(), DiskFault>
    requires inside { D.keeps disk.old → at ≤ length (bytes_of (D.states disk.old)) }
    requires fits { at + length bytes.now < 2 ^ 64 }
    ensures images { D.keeps disk.new → LeavesOnly (D.states disk.old) (D.states disk.new) (IsImage (touched (now (D.states disk.old)) at (length bytes.now) (bytes_of (D.states disk.old)))) }
    ensures done { D.keeps disk.new → OnOk result (now (D.states disk.new) ≡ settled (overlay (bytes_of (D.states disk.old)) at bytes.now)) }
    ensures time { clock (D.states disk.new) ≤ clock (D.states disk.old) + 2 }
    ensures later { clock (D.states disk.old) < clock (D.states disk.new) }
    ensures calls { MatchResult result
        (λ _. clock (D.states disk.new) ≡ clock (D.states disk.old) + 2)
        (λ cause. EndsAt write_calls cause (clock (D.states disk.new) - clock (D.states disk.old))) }
    ensures faults { CountsFailures (λ _. 1) (D.faults disk.old) (D.faults disk.new) result }
    ensures model { D.keeps disk.new → D.keeps disk.old }
{
    disk.write_at(at, bytes)?;
    disk.sync()
}

/// Closes the first byte of a disk that holds no file, and syncs it.
fn close_first<D: Disk>(disk: &mut D) -> Result<(), PenFault>
    requires settled { D.keeps disk.old → now (D.states disk.old) ≡ settled (bytes_of (D.states disk.old)) }
    ensures clear { D.keeps disk.new → OnOk result (IsClear (now (D.states disk.new))) }
    ensures born { D.keeps disk.new → (IsExisting (bytes_of (D.states disk.old)) → ⊥) → (shape : Shape)
        → LeavesOnly (D.states disk.old) (D.states disk.new) (IsUnbornOrEmpty shape) }
    ensures none_existed { D.keeps disk.new → OnOk result (IsExisting (bytes_of (D.states disk.old)) → ⊥) }
    ensures existed { D.keeps disk.new → IsExisting (bytes_of (D.states disk.old))
        → LeavesOnly (D.states disk.old) (D.states disk.new) (IsImage (now (D.states disk.old))) × (now (D.states disk.new) ≡ now (D.states disk.old)) }
    ensures exists { D.keeps disk.new → result ≡ Err PenFault.Exists → IsExisting (bytes_of (D.states disk.old)) }
    ensures refused { IfErr result IsCreateFault }
    ensures time { clock (D.states disk.new) ≤ clock (D.states disk.old) + 3 }
    ensures later { clock (D.states disk.old) < clock (D.states disk.new) }
    ensures calls { D.keeps disk.new → MatchResult result
        (λ _. clock (D.states disk.new) ≡ clock (D.states disk.old) + length (first_calls (bytes_of (D.states disk.old))))
        (λ fault. AreCallsUntil (bytes_of (D.states disk.old)) (first_calls (bytes_of (D.states disk.old))) fault (clock (D.states disk.new) - clock (D.states disk.old))) }
    ensures faults { CountsFailures failed_calls (D.faults disk.old) (D.faults disk.new) result }
    ensures model { D.keeps disk.new → D.keeps disk.old }
{
    let contents = match look(disk) {
        Ok(contents) => contents,
        Err(fault) => return Err(PenFault::Disk(fault)),
    };
    match contents {
        FoundFile::File => Err(PenFault::Exists),
        FoundFile::Closed => Ok(()),
        FoundFile::Blank => match write_synced(disk, 0, &[CLOSED_GATE]) {
            Ok(()) => Ok(()),
            Err(fault) => Err(PenFault::Disk(fault)),
        },
    }
}

/// Writes an empty file over a closed first byte: all behind that byte, a sync, that byte opened, a sync.
fn write_header<D: Disk>(disk: &mut D, shape: Shape, bytes: &[u8]) -> Result<(), DiskFault>
    requires spelled { bytes.now ≡ header shape ++ 0 ∷ [] }
    requires clear { D.keeps disk.old → IsClear (now (D.states disk.old)) }
    ensures born { D.keeps disk.new → LeavesOnly (D.states disk.old) (D.states disk.new) (IsUnbornOrEmpty shape) }
    ensures done { D.keeps disk.new → OnOk result (now (D.states disk.new) ≡ settled (header shape ++ 0 ∷ [])) }
    ensures time { clock (D.states disk.new) ≤ clock (D.states disk.old) + 4 }
    ensures later { clock (D.states disk.old) < clock (D.states disk.new) }
    ensures calls { MatchResult result
        (λ _. clock (D.states disk.new) ≡ clock (D.states disk.old) + 4)
        (λ cause. EndsAt (write_calls ++ write_calls) cause (clock (D.states disk.new) - clock (D.states disk.old))) }
    ensures faults { CountsFailures (λ _. 1) (D.faults disk.old) (D.faults disk.new) result }
    ensures model { D.keeps disk.new → D.keeps disk.old }
{
    write_synced(disk, 1, &bytes[1..])?;
    write_synced(disk, 0, &[OPEN_GATE])
}

/// Makes an empty file, unless there is a file.
fn make<D: Disk>(disk: &mut D, shape: Shape, bytes: &[u8]) -> Result<(), PenFault>
    requires spelled { bytes.now ≡ header shape ++ 0 ∷ [] }
    ensures born { D.keeps disk.new → StaysUnbornOrEmpty shape (D.states disk.old) (D.states disk.new) }
    ensures done { D.keeps disk.new → OnOk result (now (D.states disk.new) ≡ settled (header shape ++ 0 ∷ [])) }
    ensures none_existed { D.keeps disk.new → OnOk result (IsExisting (bytes_of (D.states disk.old)) → ⊥) }
    ensures existed { D.keeps disk.new → IsExisting (bytes_of (D.states disk.old)) → WritesNothing (D.states disk.old) (D.states disk.new) }
    ensures exists { D.keeps disk.new → result ≡ Err PenFault.Exists → IsExisting (bytes_of (D.states disk.old)) }
    ensures refused { IfErr result IsCreateFault }
    ensures time { clock (D.states disk.new) ≤ clock (D.states disk.old) + 8 }
    ensures later { clock (D.states disk.old) < clock (D.states disk.new) }
    ensures calls { D.keeps disk.new → MatchResult result
        (λ _. clock (D.states disk.new) ≡ clock (D.states disk.old) + length (calls_of_creation (bytes_of (D.states disk.old))))
        (λ fault. AreCallsUntil (bytes_of (D.states disk.old)) (calls_of_creation (bytes_of (D.states disk.old))) fault (clock (D.states disk.new) - clock (D.states disk.old))) }
    ensures faults { CountsFailures failed_calls (D.faults disk.old) (D.faults disk.new) result }
    ensures model { D.keeps disk.new → D.keeps disk.old }
{
    if let Err(fault) = disk.sync() {
        return Err(PenFault::Disk(fault));
    }
    close_first(disk)?;
    if let Err(fault) = write_header(disk, shape, bytes) {
        return Err(PenFault::Disk(fault));
    }
    Ok(())
}

impl<D: Disk> Pen<D> {
    /// Makes a file whose records have this width, in bytes: at least 1.
    ///
    /// It takes its memory first; then it syncs, and reads the length and the first byte. Refused: `Memory`, with no
    /// call of the disk; `Disk`, at the call that failed; `Exists`, where there is a file already, to which nothing is
    /// written, also where a later call fails. Every refusal hands the disk back.
    ///
    /// From the first sync on, where it succeeded and there was no file, each image that a crash may leave is no file
    /// yet or the empty one; after `Ok` each is the empty one.
    pub fn create_as(
        alloc: Global,
        disk: D,
        width: u16,
        format: Format,
    ) -> Result<Pen<D>, (D, PenFault)>
        requires { 1 ≤ width }
        ensures { IsCreation D.keeps D.states D.faults (record { format = format; width = width }) disk result }
    {
        let mut disk = disk;
        let Ok(bytes) = Vec::from_slice(alloc, &empty_file(format, width)) else {
            return Err((disk, PenFault::Memory));
        };
        let shape = Shape {
            format,
            width: width as usize,
        };
        if let Err(fault) = make(&mut disk, shape, &bytes) {
            return Err((disk, fault));
        }
        let tally = Tally {
            size: 0,
            changes: 0,
            folded: 0,
        };
        Ok(Pen {
            disk,
            shape,
            gate: HEADER_LEN as u64,
            tally,
            next: tally,
            bytes,
            step: None,
            homes: Homes::new(alloc),
            live: 0,
            fold: Fold::none(alloc),
            broken: false,
        })
    }

    /// Makes a file of version 1. `create_as` says more.
    pub fn create(alloc: Global, disk: D, width: u16) -> Result<Pen<D>, (D, PenFault)>
        requires { 1 ≤ width }
        ensures { IsCreation D.keeps D.states D.faults (record { format = One; width = width }) disk result }
    {
        Pen::create_as(alloc, disk, width, Format::One)
    }
}
