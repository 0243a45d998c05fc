//! The frames on a disk are walked: of each is read what stands before its records, and no record.

ghost use Rattle.std.specs.Prelude.{◌≡◌, ◌≤◌, ◌<◌, ◌+◌, ◌^◌, [], ℕ, length, OnOk, IfOk, IfErr};
ghost use Rattle.disk_core.specs.Fault.{CountsFailures};
ghost use Rattle.disk_core.specs.State.{now, settled, IsImage};
ghost use Rattle.disk_core.specs.Calls.{bytes_of};
ghost use Rattle.disk_core.specs.Moments.{LeavesOnly, clock};
ghost use Rattle.segment_core.specs.Fault.{IsSound};
ghost use Rattle.segment_core.specs.Raw.{raw};
ghost use Rattle.pen_core.specs.Opening.{OnlySyncs, IsOpenRefusal, failed_openings};
ghost use Rattle.pen_core.specs.Framing.{HoldsPiece, Covers, IsPieceFault, HasGone, StopsWalk, IsOnWay, IsThrough, IsFramedOn};

use crate::fault::OpenFault;
use disk_core::Disk;
use segment_core::{Advance, FRONT_LEN, FrameWalk, Framed, HEADER_LEN, ScanFault};
use std::alloc::Global;

/// The bytes of a read, where many frames may stand in them, and no frame has more before its records.
const PIECE_LEN: u64 = 4096;

/// The same, where the records of the frame before were passed over, as those of the next will be: long frames come behind
/// one another, and copying what isn't looked at would take most of the time.
const FRONT_PIECE_LEN: u64 = 256;

/// A piece of a file that is in memory.
#[derive(Drop)]
struct FilePiece {
    bytes: Vec<u8>,
    /// Where it begins in the file.
    start: u64,
}

impl FilePiece {
    /// An empty one. It takes no memory.
    fn new(alloc: Global) -> FilePiece
        ensures empty { result.bytes.items ≡ [] }
        ensures start { result.start ≡ 0 }
    {
        FilePiece {
            bytes: Vec::new(alloc),
            start: 0,
        }
    }

    /// Lets the piece begin at `at`, with `n` bytes at least, of a file of `size`, by one read.
    fn read<D: Disk>(&mut self, disk: &mut D, at: u64, n: u64, size: u64) -> Result<(), OpenFault>
        requires length { D.keeps disk.old → size ≡ length (bytes_of (D.states disk.old)) }
        requires inside { at + n ≤ size }
        requires ends { self.old.start + length self.old.bytes.items ≤ size }
        ensures holds { OnOk result (HoldsPiece (D.keeps disk.new) (bytes_of (D.states disk.old)) size self.new) }
        ensures covers { OnOk result (Covers at n self.new) }
        ensures same { D.keeps disk.new → now (D.states disk.new) ≡ now (D.states disk.old) }
        ensures images { D.keeps disk.new → LeavesOnly (D.states disk.old) (D.states disk.new) (IsImage (now (D.states disk.old))) }
        ensures cause { IfErr result IsPieceFault }
        ensures faults { CountsFailures failed_openings (D.faults disk.old) (D.faults disk.new) result }
        ensures model { D.keeps disk.new → D.keeps disk.old }
    {
        let passed = self.start + (self.bytes.len() as u64) < at;
        let most = if passed { FRONT_PIECE_LEN } else { PIECE_LEN };
        let len = n.max(most).min(size - at);
        let Ok(()) = self.bytes.resize(len as usize, 0) else {
            return Err(OpenFault::Scan(ScanFault::Memory));
        };
        self.start = at;
        match disk.read_at(at, &mut self.bytes) {
            Ok(()) => Ok(()),
            Err(fault) => Err(OpenFault::Disk(fault)),
        }
    }

    /// Lets the piece have the first `n` bytes from `at` on, of a file of `size`, by one read where it doesn't yet.
    fn hold<D: Disk>(&mut self, disk: &mut D, at: u64, n: u64, size: u64) -> Result<(), OpenFault>
        requires length { D.keeps disk.old → size ≡ length (bytes_of (D.states disk.old)) }
        requires inside { at + n ≤ size }
        requires holds { HoldsPiece (D.keeps disk.old) (bytes_of (D.states disk.old)) size self.old }
        ensures holds { OnOk result (HoldsPiece (D.keeps disk.new) (bytes_of (D.states disk.old)) size self.new) }
        ensures covers { OnOk result (Covers at n self.new) }
        ensures same { D.keeps disk.new → now (D.states disk.new) ≡ now (D.states disk.old) }
        ensures images { D.keeps disk.new → LeavesOnly (D.states disk.old) (D.states disk.new) (IsImage (now (D.states disk.old))) }
        ensures cause { IfErr result IsPieceFault }
        ensures faults { CountsFailures failed_openings (D.faults disk.old) (D.faults disk.new) result }
        ensures model { D.keeps disk.new → D.keeps disk.old }
    {
        if self.start <= at && at + n <= self.start + self.bytes.len() as u64 {
            return Ok(());
        }
        self.read(disk, at, n, size)
    }
}

/// Takes in the next frame of a file of so many bytes, if there is one.
fn take_next<D: Disk>(
    disk: &mut D,
    size: u64,
    piece: &mut FilePiece,
    walk: &mut FrameWalk,
) -> Result<bool, OpenFault>
    requires length { D.keeps disk.old → size ≡ length (bytes_of (D.states disk.old)) }
    requires holds { HoldsPiece (D.keeps disk.old) (bytes_of (D.states disk.old)) size piece.old }
    requires on_way { IsOnWay (D.keeps disk.old) (bytes_of (D.states disk.old)) size walk.old }
    ensures gone { IfOk result (HasGone (D.keeps disk.new) (bytes_of (D.states disk.old)) size walk.old walk.new) }
    ensures holds { OnOk result (HoldsPiece (D.keeps disk.new) (bytes_of (D.states disk.old)) size piece.new) }
    ensures stopped { D.keeps disk.new → IfErr result (StopsWalk walk.old (bytes_of (D.states disk.old))) }
    ensures same { D.keeps disk.new → now (D.states disk.new) ≡ now (D.states disk.old) }
    ensures images { D.keeps disk.new → LeavesOnly (D.states disk.old) (D.states disk.new) (IsImage (now (D.states disk.old))) }
    ensures faults { CountsFailures failed_openings (D.faults disk.old) (D.faults disk.new) result }
    ensures model { D.keeps disk.new → D.keeps disk.old }
{
    let at = walk.at();
    let left = size - at;
    let mut need = FRONT_LEN as u64;
    loop {
        piece.hold(disk, at, need.min(left), size)?;
        let front = &piece.bytes[(at - piece.start) as usize..];
        match walk.advance(front, left) {
            Ok(Advance::Closed) => return Ok(false),
            Ok(Advance::Taken) => return Ok(true),
            Ok(Advance::Needs(n)) => need = n,
            Err(fault) => return Err(OpenFault::Scan(fault)),
        }
    }
}

/// Takes in all frames of a file of so many bytes whose header is sound.
fn walk_frames<D: Disk>(
    disk: &mut D,
    size: u64,
    piece: &mut FilePiece,
    walk: FrameWalk,
) -> Result<FrameWalk, OpenFault>
    requires length { D.keeps disk.old → size ≡ length (bytes_of (D.states disk.old)) }
    requires sound { D.keeps disk.old → IsSound walk.shape.width walk.shape.format (bytes_of (D.states disk.old)) }
    requires holds { HoldsPiece (D.keeps disk.old) (bytes_of (D.states disk.old)) size piece.old }
    requires on_way { IsOnWay (D.keeps disk.old) (bytes_of (D.states disk.old)) size walk }
    ensures through { IfOk result (λ end. (end.shape ≡ walk.shape) × IsThrough (D.keeps disk.new) (bytes_of (D.states disk.old)) size end) }
    ensures refused { D.keeps disk.new → IfErr result (IsOpenRefusal (raw walk.shape.width) (bytes_of (D.states disk.old))) }
    ensures same { D.keeps disk.new → now (D.states disk.new) ≡ now (D.states disk.old) }
    ensures images { D.keeps disk.new → LeavesOnly (D.states disk.old) (D.states disk.new) (IsImage (now (D.states disk.old))) }
    ensures faults { CountsFailures failed_openings (D.faults disk.old) (D.faults disk.new) result }
    ensures model { D.keeps disk.new → D.keeps disk.old }
{
    let mut walk = walk;
    while take_next(disk, size, piece, &mut walk)? {}
    Ok(walk)
}

/// What the frames of a file of so many bytes leave.
fn read_frames<D: Disk>(
    alloc: Global,
    disk: &mut D,
    size: u64,
    width: u16,
) -> Result<Framed, OpenFault>
    requires length { D.keeps disk.old → size ≡ length (bytes_of (D.states disk.old)) }
    requires wide { 1 ≤ width }
    ensures framed { IfOk result (λ framed. (framed.shape.width ≡ width) × IsFramedOn (D.keeps disk.new) (bytes_of (D.states disk.old)) size framed) }
    ensures refused { D.keeps disk.new → IfErr result (IsOpenRefusal (raw width) (bytes_of (D.states disk.old))) }
    ensures same { D.keeps disk.new → now (D.states disk.new) ≡ now (D.states disk.old) }
    ensures images { D.keeps disk.new → LeavesOnly (D.states disk.old) (D.states disk.new) (IsImage (now (D.states disk.old))) }
    ensures faults { CountsFailures failed_openings (D.faults disk.old) (D.faults disk.new) result }
    ensures model { D.keeps disk.new → D.keeps disk.old }
{
    let mut header = [0; HEADER_LEN];
    let first = (HEADER_LEN as u64).min(size) as usize;
    if let Err(fault) = disk.read_at(0, &mut header[..first]) {
        return Err(OpenFault::Disk(fault));
    }
    let walk = match FrameWalk::begin(alloc, &header[..first], size, width) {
        Ok(walk) => walk,
        Err(fault) => return Err(OpenFault::Scan(fault)),
    };
    let mut piece = FilePiece::new(alloc);
    let walk = walk_frames(disk, size, &mut piece, walk)?;
    match walk.finish() {
        Ok(framed) => Ok(framed),
        Err(fault) => Err(OpenFault::Scan(fault)),
    }
}

/// Syncs the disk, so that what is read is what a crash leaves, and walks the frames of its file, whose records have this
/// width in bytes: reads the length, the header, and of each frame what stands before its records, through a piece of
/// 4,096 bytes that takes in many small frames at a time, and of 256 where frames are long. Nothing is written.
pub fn walk_disk<D: Disk>(alloc: Global, disk: &mut D, width: u16) -> Result<Framed, OpenFault>
    requires { 1 ≤ width }
    ensures framed { IfOk result (λ framed. (framed.shape.width ≡ width) × ((size : ℕ) × (size < 2 ^ 64) × IsFramedOn (D.keeps disk.new) (bytes_of (D.states disk.old)) size framed)) }
    ensures settled { D.keeps disk.new → OnOk result (now (D.states disk.new) ≡ settled (bytes_of (D.states disk.old))) }
    ensures refused { D.keeps disk.new → IfErr result (IsOpenRefusal (raw width) (bytes_of (D.states disk.old))) }
    ensures only_syncs { D.keeps disk.new → OnlySyncs (D.states disk.old) (D.states disk.new) }
    ensures faults { CountsFailures failed_openings (D.faults disk.old) (D.faults disk.new) result }
    ensures model { D.keeps disk.new → D.keeps disk.old }
{
    if let Err(fault) = disk.sync() {
        return Err(OpenFault::Disk(fault));
    }
    let size = match disk.len() {
        Ok(size) => size,
        Err(fault) => return Err(OpenFault::Disk(fault)),
    };
    read_frames(alloc, disk, size, width)
}
