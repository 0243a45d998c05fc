//! A vault over a new file, and over one that is there.

ghost use Rattle.std.specs.Prelude.{◌≡◌, ◌⊎◌, ℕ, ◌≤◌, ◌+◌, ◌-◌, [], length, IfOk, IfErr, MatchResult};
ghost use Rattle.disk_core.specs.Calls.{bytes_of};
ghost use Rattle.disk_core.specs.Moments.{clock};
ghost use Rattle.segment_core.specs.declared.format.Format.TheVariants.{One};
ghost use Rattle.pen_core.specs.Opening.{IsAtRest, IsOpened, IsOpenRefusal, OnlySyncs, AreCallsDone, AreCallsMade, failed_openings};
ghost use Rattle.vault_core.specs.Making.{IsMade};
ghost use Rattle.vault_core.specs.Vault.{list_of};

use crate::blocks::Blocks;
use crate::vault::Vault;
use disk_core::Disk;
use pen_core::{OpenFault, Pen, PenFault};
use record_core::{Record, width_of};
use segment_core::{Format, ScanFault};
use std::alloc::Global;

impl<R: Record, D: Disk> Vault<R, D> {
    /// Makes an empty file of this version on a disk that has none.
    ///
    /// Refused, with the disk handed back: `Memory`, before any call; `Disk`, at the call that failed; `Exists`, where the
    /// disk has a file or other bytes, and then nothing is written. `Pen::create_as` has the calls in their order.
    pub fn create_as(alloc: Global, disk: D, format: Format) -> Result<Vault<R, D>, (D, PenFault)>
        ensures { IsMade D.keeps D.states D.faults (record { format = format; width = R.form.width }) disk result }
    {
        let pen = Pen::create_as(alloc, disk, width_of::<R>() as u16, format)?;
        Ok(Vault {
            pen,
            blocks: Blocks::new(alloc),
            parts: Vec::new(alloc),
            alloc,
        })
    }

    /// Makes an empty file of version 1, as `create_as` does.
    pub fn create(alloc: Global, disk: D) -> Result<Vault<R, D>, (D, PenFault)>
        ensures { IsMade D.keeps D.states D.faults (record { format = One; width = R.form.width }) disk result }
    {
        Vault::create_as(alloc, disk, Format::One)
    }

    /// Opens the file on the disk. `Pen::open` says more.
    pub fn open(alloc: Global, disk: D) -> Result<Vault<R, D>, (D, OpenFault)>
        ensures rests { IfOk result (λ v. IsAtRest R.form.width (length (list_of v)) v.pen) }
        ensures opened { IfOk result (λ v. D.keeps v.pen.disk → IsOpened R.form (bytes_of (D.states disk)) v.pen (list_of v)) }
        ensures sure { IfOk result (λ v. D.keeps v.pen.disk → v.sure ≡ list_of v) }
        ensures refused { IfErr result (λ r. D.keeps r.0 → IsOpenRefusal R.form (bytes_of (D.states disk)) r.1) }
        ensures only_syncs { MatchResult result
            (λ v. D.keeps v.pen.disk → OnlySyncs (D.states disk) (D.states v.pen.disk))
            (λ r. D.keeps r.0 → OnlySyncs (D.states disk) (D.states r.0)) }
        ensures time { MatchResult result
            (λ v. (len : ℕ) × (D.keeps v.pen.disk → len ≡ length (bytes_of (D.states disk)))
            × AreCallsDone len (clock (D.states v.pen.disk) - clock (D.states disk)))
            (λ r. (len : ℕ) × (D.keeps r.0 → len ≡ length (bytes_of (D.states disk)))
            × AreCallsMade len r.1 (clock (D.states r.0) - clock (D.states disk))) }
        ensures faults { MatchResult result
            (λ v. D.faults v.pen.disk ≡ D.faults disk)
            (λ r. D.faults r.0 ≡ D.faults disk + failed_openings r.1) }
        ensures model { MatchResult result (λ v. D.keeps v.pen.disk → D.keeps disk) (λ r. D.keeps r.0 → D.keeps disk) }
    {
        let (pen, records) = Pen::open::<R>(alloc, disk)?;
        // No vector is longer than its blocks may be, and no record wider than a header tells.
        let _size = pen.len();
        let _width = width_of::<R>();
        let Ok(blocks) = Blocks::of(alloc, records) else {
            return Err((pen.into_disk(), OpenFault::Scan(ScanFault::Memory)));
        };
        Ok(Vault {
            pen,
            blocks,
            parts: Vec::new(alloc),
            alloc,
        })
    }
}
