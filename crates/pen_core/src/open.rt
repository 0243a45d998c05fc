//! A file is opened: a sync, the length, and reads of one piece after the other.

ghost use Rattle.std.specs.Prelude.{◌≡◌, ◌≤◌, ◌+◌, ◌-◌, ℕ, List, length, IfOk, IfErr, MatchResult};
ghost use Rattle.disk_core.specs.Calls.{bytes_of};
ghost use Rattle.disk_core.specs.Moments.{clock};
ghost use Rattle.segment_core.specs.Frame.{Frame};
ghost use Rattle.segment_core.specs.Vector.{HasVector};
ghost use Rattle.segment_core.specs.Raw.{raw};
ghost use Rattle.segment_core.specs.Blanked.{all_blanked};
ghost use Rattle.pen_core.specs.Framing.{IsKnownFile};
ghost use Rattle.pen_core.specs.Opening.{IsAtRest, IsOpened, OnlySyncs, IsOpenRefusal, IsFoundOn, failed_openings, AreCallsDone, AreCallsMade, AreNeeded, AreReadsMade};
ghost use Rattle.pen_core.specs.Pen.{IsKept};

use crate::fault::OpenFault;
use crate::fold::Fold;
use crate::framing::walk_disk;
use crate::pen::Pen;
use crate::scanning::scan_disk;
use disk_core::Disk;
use record_core::Record;
use segment_core::{Format, Homes, Scanned, Shape, Tally};
use std::alloc::Global;

/// The bytes of a read at most.
const PIECE_LEN: usize = 4096;

impl<D: Disk> Pen<D> {
    /// A pen at rest, over a file whose frames leave this.
    fn over(alloc: Global, disk: D, shape: Shape, gate: u64, tally: Tally, homes: Homes) -> Pen<D>
        requires { IsKnownFile (D.keeps disk) (D.states disk) shape gate tally homes }
        ensures disk { result.disk ≡ disk }
        ensures rests { IsAtRest shape.width tally.size result }
        ensures counts { (result.shape ≡ shape) × (result.gate ≡ gate) × (result.tally ≡ tally) }
        ensures seen { D.keeps disk → (frames : List Frame) (cells : List (List ℕ)) → HasVector shape.format (raw shape.width) (bytes_of (D.states disk)) frames cells
            → (result.frames ≡ all_blanked frames) × (result.vector ≡ cells) }
        ensures kept { D.keeps disk → IsKept (D.states disk) result }
    {
        Pen {
            disk,
            shape,
            gate,
            tally,
            next: tally,
            bytes: Vec::new(alloc),
            step: None,
            live: homes.live.len(),
            homes,
            fold: Fold::none(alloc),
            broken: false,
        }
    }

    /// A pen that goes on with the file that was found on the disk.
    fn go_on<R: Record>(alloc: Global, disk: D, scanned: &Scanned<R>, homes: Homes) -> Pen<D>
        requires { IsFoundOn R.form (D.keeps disk) (D.states disk) scanned.now homes }
        ensures disk { result.disk ≡ disk }
        ensures rests { IsAtRest R.form.width (length scanned.now.records.items) result }
        ensures opened { D.keeps disk → IsOpened R.form (bytes_of (D.states disk)) result scanned.now.records.items }
        ensures kept { D.keeps disk → IsKept (D.states disk) result }
    {
        let format = match Format::from_version(scanned.version) {
            Some(format) => format,
            None => unreachable!(),
        };
        let shape = Shape {
            format,
            width: scanned.width as usize,
        };
        let tally = Tally {
            size: scanned.records.len() as u64,
            changes: scanned.changes,
            folded: scanned.folded,
        };
        Pen::over(alloc, disk, shape, scanned.gate, tally, homes)
    }

    /// Opens the file on the disk, whose records have this width in bytes, by its frames alone: it gives no vector, and
    /// reads no records. The pen is that which `open` gives where all bytes of the width are a record.
    ///
    /// It syncs first, so that what it reads is what a crash leaves; then it reads the length, the header, and of each
    /// frame what stands before its records, up to the closed gate or the first fault. Nothing is written. Memory is taken
    /// for the homes, the runs of the live changes, one piece of the file, and one frame. Refused: `Disk`, at the call that
    /// failed; `Scan`, for the file's first fault, where any bytes are a record, or, once its header is read, for want
    /// of memory. Every refusal hands the disk back.
    pub fn open_frames(alloc: Global, disk: D, width: u16) -> Result<Pen<D>, (D, OpenFault)>
        requires { 1 ≤ width }
        ensures rests { IfOk result (λ pen. IsAtRest width pen.tally.size pen) }
        ensures opened { IfOk result (λ pen. D.keeps pen.disk → IsOpened (raw width) (bytes_of (D.states disk)) pen pen.vector) }
        ensures kept { IfOk result (λ pen. D.keeps pen.disk → IsKept (D.states pen.disk) pen) }
        ensures refused { IfErr result (λ r. D.keeps r.0 → IsOpenRefusal (raw width) (bytes_of (D.states disk)) r.1) }
        ensures only_syncs { MatchResult result
            (λ pen. D.keeps pen.disk → OnlySyncs (D.states disk) (D.states pen.disk))
            (λ r. D.keeps r.0 → OnlySyncs (D.states disk) (D.states r.0)) }
        ensures faults { MatchResult result
            (λ pen. D.faults pen.disk ≡ D.faults disk)
            (λ r. D.faults r.0 ≡ D.faults disk + failed_openings r.1) }
        ensures model { MatchResult result (λ pen. D.keeps pen.disk → D.keeps disk) (λ r. D.keeps r.0 → D.keeps disk) }
    {
        let mut disk = disk;
        match walk_disk(alloc, &mut disk, width) {
            Ok(framed) => Ok(Pen::over(
                alloc,
                disk,
                framed.shape,
                framed.gate,
                framed.tally,
                framed.homes,
            )),
            Err(fault) => Err((disk, fault)),
        }
    }

    /// Opens the file on the disk, whose records are of this type, and gives its vector.
    ///
    /// It syncs first, so that what it reads is what a crash leaves; then it reads the length, and the bytes in
    /// pieces of 4,096, one behind the other, up to where no more can change the answer: behind the closed gate, or
    /// behind the first fault. Nothing is written. Refused: `Disk`, at the call that failed; `Scan`, for the file's
    /// first fault, or, once its header is read, for want of memory. Every refusal hands the disk back.
    pub fn open<R: Record>(alloc: Global, disk: D) -> Result<(Pen<D>, Vec<R>), (D, OpenFault)>
        ensures rests { IfOk result (λ r. IsAtRest R.form.width (length r.1.items) r.0) }
        ensures opened { IfOk result (λ r. D.keeps r.0.disk → IsOpened R.form (bytes_of (D.states disk)) r.0 r.1.items) }
        ensures kept { IfOk result (λ r. D.keeps r.0.disk → IsKept (D.states r.0.disk) r.0) }
        ensures refused { IfErr result (λ r. D.keeps r.0 → IsOpenRefusal R.form (bytes_of (D.states disk)) r.1) }
        ensures only_syncs { MatchResult result
            (λ r. D.keeps r.0.disk → OnlySyncs (D.states disk) (D.states r.0.disk))
            (λ r. D.keeps r.0 → OnlySyncs (D.states disk) (D.states r.0)) }
        ensures time { MatchResult result
            (λ r. (len : ℕ) × (D.keeps r.0.disk → len ≡ length (bytes_of (D.states disk)))
            × AreCallsDone len (clock (D.states r.0.disk) - clock (D.states disk)))
            (λ r. (len : ℕ) × (D.keeps r.0 → len ≡ length (bytes_of (D.states disk)))
            × AreCallsMade len r.1 (clock (D.states r.0) - clock (D.states disk))) }
        ensures reads { MatchResult result
            (λ r. D.keeps r.0.disk → AreNeeded 4096 R.form (bytes_of (D.states disk)) (clock (D.states r.0.disk) - clock (D.states disk) - 2))
            (λ r. D.keeps r.0 → AreReadsMade 4096 R.form (bytes_of (D.states disk)) r.1 (clock (D.states r.0) - clock (D.states disk) - 2)) }
        ensures faults { MatchResult result
            (λ r. D.faults r.0.disk ≡ D.faults disk)
            (λ r. D.faults r.0 ≡ D.faults disk + failed_openings r.1) }
        ensures model { MatchResult result (λ r. D.keeps r.0.disk → D.keeps disk) (λ r. D.keeps r.0 → D.keeps disk) }
    {
        let mut disk = disk;
        match scan_disk::<D, R>(alloc, &mut disk, &mut [0; PIECE_LEN]) {
            Ok((scanned, homes)) => {
                let pen = Pen::go_on(alloc, disk, &scanned, homes);
                Ok((pen, scanned.records))
            }
            Err(fault) => Err((disk, fault)),
        }
    }
}
