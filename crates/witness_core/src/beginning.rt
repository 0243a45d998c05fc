//! The begins of a pen that is witnessed: they make no call of the disk.

ghost use Rattle.std.specs.Prelude.{◌≡◌, ◌≤◌, ◌<◌, length, map, take, OnOk, OnErr, IfOk};
ghost use Rattle.std.specs.List.{AllByRecursion};
ghost use Rattle.segment_core.specs.Frame.{Shrink, records_of_runs};
ghost use Rattle.segment_core.specs.Runs.{runs_given, change_frame};
ghost use Rattle.segment_core.specs.Written.{group_frame, joined};
ghost use Rattle.pen_core.specs.Pen.{BeginsFrame, IsFoldAnswer, IsUnchanged};
ghost use Rattle.pen_core.specs.Refusals.{IsReadied};
ghost use Rattle.witness_core.specs.Witnessed.{WitnessStart, IsWitnessed};

use disk_core::Disk;
use pen_core::{Pen, PenFault};
use record_core::Record;
use segment_core::GrowthList;

/// `Pen::begin_growths`, whose pen stays witnessed.
pub fn begin_growths<D: Disk, R: Record, G: GrowthList<R>>(
    pen: &mut Pen<D>,
    growths: &G,
) -> Result<(), PenFault>
    requires width { R.form.width ≡ pen.old.shape.width }
    requires some { 0 < length (G.growths growths.now) }
    requires each { AllByRecursion (λ growth. 0 < length growth) (G.growths growths.now) }
    ensures witnessed { D.keeps pen.new.disk → (from : WitnessStart) → IsWitnessed from (D.states pen.old.disk) pen.old → IsWitnessed from (D.states pen.new.disk) pen.new }
    ensures begun { OnOk result (BeginsFrame (group_frame R.form (G.growths growths.now)) pen.old pen.new) }
    ensures unchanged { OnErr result (IsUnchanged pen.old pen.new) }
{
    pen.begin_growths::<R, G>(growths)
}

/// `Pen::begin_runs_from`, whose pen stays witnessed.
pub fn begin_runs_from<D: Disk, R: Record, G: GrowthList<R>>(
    pen: &mut Pen<D>,
    runs: &[(u64, u64)],
    pieces: &G,
) -> Result<(), PenFault>
    requires width { R.form.width ≡ pen.old.shape.width }
    requires some { 0 < length runs.now }
    requires filled { length (joined (G.growths pieces.now)) ≡ records_of_runs (runs_given runs.now) }
    ensures witnessed { D.keeps pen.new.disk → (from : WitnessStart) → IsWitnessed from (D.states pen.old.disk) pen.old → IsWitnessed from (D.states pen.new.disk) pen.new }
    ensures begun { OnOk result (BeginsFrame (change_frame R.form (runs_given runs.now) (G.growths pieces.now)) pen.old pen.new) }
    ensures unchanged { OnErr result (IsUnchanged pen.old pen.new) }
{
    pen.begin_runs_from::<R, G>(runs, pieces)
}

/// `Pen::begin_shrink`, whose pen stays witnessed.
pub fn begin_shrink<D: Disk>(pen: &mut Pen<D>, n: u64) -> Result<(), PenFault>
    ensures witnessed { D.keeps pen.new.disk → (from : WitnessStart) → IsWitnessed from (D.states pen.old.disk) pen.old → IsWitnessed from (D.states pen.new.disk) pen.new }
    ensures begun { OnOk result (BeginsFrame (Shrink n) pen.old pen.new) }
    ensures unchanged { OnErr result (IsUnchanged pen.old pen.new) }
{
    pen.begin_shrink(n)
}

/// `Pen::begin_fold_from`, whose pen stays witnessed.
pub fn begin_fold_from<D: Disk, R: Record, G: GrowthList<R>>(
    pen: &mut Pen<D>,
    pieces: &G,
) -> Result<bool, PenFault>
    requires width { R.form.width ≡ pen.old.shape.width }
    requires all { pen.old.tally.size ≤ length (joined (G.growths pieces.now)) }
    requires values { D.keeps pen.old.disk → pen.old.vector ≡ map R.form.bytes_of (take pen.old.tally.size (joined (G.growths pieces.now))) }
    ensures witnessed { D.keeps pen.new.disk → (from : WitnessStart) → IsWitnessed from (D.states pen.old.disk) pen.old → IsWitnessed from (D.states pen.new.disk) pen.new }
    ensures begun { IfOk result (λ begun. IsFoldAnswer pen.old pen.new begun) }
    ensures unchanged { OnErr result (IsUnchanged pen.old pen.new) }
{
    pen.begin_fold_from::<R, G>(pieces)
}

/// `Pen::ready_runs`, whose pen stays witnessed.
pub fn ready_runs<D: Disk>(pen: &mut Pen<D>, runs: &[(u64, u64)]) -> Result<(), PenFault>
    requires some { 0 < length runs.now }
    ensures witnessed { D.keeps pen.new.disk → (from : WitnessStart) → IsWitnessed from (D.states pen.old.disk) pen.old → IsWitnessed from (D.states pen.new.disk) pen.new }
    ensures ready { OnOk result (IsReadied pen.new (runs_given runs.now)) }
    ensures unchanged { IsUnchanged pen.old pen.new }
{
    pen.ready_runs(runs)
}
