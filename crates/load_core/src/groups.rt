//! Growths of a row, committed group by group.

ghost use Rattle.std.specs.Prelude.{◌≡◌, ◌⊎◌, ◌+◌, ◌-◌, ◌≤◌, ◌<◌, ◌^◌, ◌++◌, [], ℕ, List, length, OnErr, OnOk, IfErr, MatchResult};
ghost use Rattle.std.specs.List.{AllByRecursion};
ghost use Rattle.std.proofs.Props.{props};
ghost use Rattle.record_core.specs.Limits.{record_limit};
ghost use Rattle.segment_core.specs.Written.{joined};
ghost use Rattle.pen_core.specs.Pen.{failed_calls};
ghost use Rattle.load_core.specs.Groups.{IsCommitFault, IsGroupEnd, IsPenOver, IsReadyPen, IsRowSettled, IsRowStop, begun_by, row_part};

use disk_core::Disk;
use pen_core::{Pen, PenFault};
use record_core::{RECORD_LIMIT, Record, width_of};
use segment_core::{COUNT_LEN, GrowthList, Growths};

/// Some growths of a row, one behind the other.
#[derive(Drop)]
struct RowPart<'a, R> {
    row: &'a Growths<R>,
    /// The number of the first.
    from: usize,
    /// That of the growth behind the last.
    to: usize,
    ghost inside: { (from ≤ to) × (to ≤ length row.now.0) } by { Prim.hlevel props },
}

impl<'a, R: Copy> GrowthList<R> for RowPart<'a, R> {
    ghost growths = { λ part. row_part part.row.now.0 part.from (part.to - part.from) };

    fn count(&self) -> usize {
        self.to - self.from
    }

    fn growth(&self, k: usize) -> &[R] {
        self.row.growth(self.from + k)
    }
}

/// Where a group ends of the growths of a row from one on: before the first that one payload of so many bytes takes no more,
/// or a vector with room for so many records.
fn group_end<R: Record>(row: &Growths<R>, from: usize, limit: usize, room: u64) -> usize
    requires inside { from ≤ length row.now.0 }
    requires limit { (4 ≤ limit) × (limit ≤ 2 ^ 24) }
    requires room { room ≤ 2 ^ 32 }
    ensures { IsGroupEnd R.form.width limit room row.now.0 from result }
{
    let width = width_of::<R>();
    let mut payload = COUNT_LEN;
    let mut records: u64 = 0;
    for k in from..row.count() {
        let len = row.growth(k).len() as u64;
        if len > room - records {
            return k;
        }
        let bytes = COUNT_LEN + len as usize * width;
        if bytes > limit - payload {
            return k;
        }
        payload += bytes;
        records += len;
    }
    row.count()
}

/// Commits growths as one group: begins it, and makes all its calls of the disk.
fn settle_group<R: Record, G: GrowthList<R>, D: Disk>(
    pen: &mut Pen<D>,
    group: &G,
) -> Result<(), PenFault>
    requires ready { IsReadyPen R.form.width pen.old }
    requires some { 0 < length (G.growths group.now) }
    requires each { AllByRecursion (λ growth. 0 < length growth) (G.growths group.now) }
    ensures ready { OnOk result (IsReadyPen R.form.width pen.new) }
    ensures over { (disk : D) → (made : List (List R)) → (D.keeps pen.old.disk → IsPenOver R.form D.states disk pen.old made []) → D.keeps pen.new.disk → MatchResult result
        (λ _. IsPenOver R.form D.states disk pen.new (made ++ G.growths group.now) [])
        (λ fault. IsPenOver R.form D.states disk pen.new made (begun_by (failed_calls fault) (G.growths group.now))) }
    ensures past { IfErr result (λ fault. fault ≡ PenFault.OutOfRange → record_limit < pen.new.tally.size + length (joined (G.growths group.now))) }
    ensures cause { IfErr result (λ fault. (fault ≡ PenFault.OutOfRange) ⊎ IsCommitFault fault) }
    ensures stays { OnErr result (pen.new.tally ≡ pen.old.tally) }
    ensures shape { pen.new.shape ≡ pen.old.shape }
    ensures model { D.keeps pen.new.disk → D.keeps pen.old.disk }
{
    pen.begin_growths::<R, G>(group)?;
    pen.settle_log()
}

/// Commits the growths of a row in groups, each of as many as one payload takes, and a vector. Answers how many are settled,
/// the first, and why not all are.
pub(crate) fn settle_row<R: Record, D: Disk>(
    pen: &mut Pen<D>,
    row: &Growths<R>,
) -> (usize, Result<(), PenFault>)
    requires ready { IsReadyPen R.form.width pen.old }
    requires each { AllByRecursion (λ growth. 0 < length growth) row.now.0 }
    ensures all { OnOk result.1 (result.0 ≡ length row.now.0) }
    ensures ready { OnOk result.1 (IsReadyPen R.form.width pen.new) }
    ensures settled { OnOk result.1 (IsRowSettled R.form D.keeps D.states row.now.0 pen.old pen.new) }
    ensures stopped { IfErr result.1 (IsRowStop R.form D.keeps D.states row.now.0 result.0 pen.old pen.new) }
    ensures shape { pen.new.shape ≡ pen.old.shape }
    ensures model { D.keeps pen.new.disk → D.keeps pen.old.disk }
{
    let count = row.count();
    let mut from = 0;
    while from < count {
        let room = RECORD_LIMIT - pen.len();
        let end = group_end::<R>(row, from, pen.format().payload_limit(), room);
        // The pen refuses one growth that is too long alone.
        let to = end.max(from + 1);
        let group = RowPart { row, from, to };
        if let Err(fault) = settle_group::<R, RowPart<'_, R>, D>(pen, &group) {
            return (from, Err(fault));
        }
        from = to;
    }
    (count, Ok(()))
}
