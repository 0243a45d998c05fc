//! Records to which positions are changed.

ghost use Rattle.std.specs.Prelude.{◌≡◌, ◌∷◌, [], ◌<◌, ◌^◌, ◌-◌, Option};
ghost use Rattle.drive_core.specs.Given.{run_record_at};

use block_core::Touch;
use record_core::Record;

/// The record that a run of records from `start` on has at a position, if it reaches it.
fn record_in<R: Copy>(start: u64, records: &[R], at: u64) -> Option<R>
    ensures { result ≡ run_record_at (start, records.now) at }
{
    if at < start {
        return None;
    }
    records.get((at - start) as usize).copied()
}

/// The records to which the positions from `start` on are changed.
#[derive(Drop)]
pub(crate) struct Given<'a, R: Record> {
    pub(crate) start: u64,
    pub(crate) records: &'a [R],
}

impl<'a, R: Record> Touch<R> for Given<'a, R> {
    ghost use Rattle.drive_core.specs.Given.{given_by_runs};

    ghost one = { λ touch. given_by_runs ((touch.start, touch.records.now) ∷ []) };

    fn one(&self, at: u64, r: R) -> R {
        record_in(self.start, self.records, at).unwrap_or(r)
    }
}

/// The records to which runs of positions are changed, each run by its start.
#[derive(Drop)]
pub(crate) struct GivenRuns<'a, R: Record> {
    pub(crate) runs: &'a [(u64, Vec<R>)],
}

impl<'a, R: Record> Touch<R> for GivenRuns<'a, R> {
    ghost use Rattle.drive_core.specs.Given.{given_by_runs, pieces_of};

    ghost one = { λ touch. given_by_runs (pieces_of touch.runs.now) };

    fn one(&self, at: u64, r: R) -> R {
        for (start, records) in self.runs {
            if let Some(record) = record_in(*start, records.as_slice(), at) {
                return record;
            }
        }
        r
    }
}
