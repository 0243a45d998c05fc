//! What a fold writes: the values of covered positions, as their bytes.

ghost use Rattle.std.specs.Prelude.{◌≡◌, ◌≤◌, ◌<◌, ◌+◌, ◌-◌, ◌*◌, ◌^◌, ◌++◌, All, length, map, OnOk};
ghost use Rattle.segment_core.specs.Written.{joined};
ghost use Rattle.pen_core.specs.InHand.{write_of};
ghost use Rattle.pen_core.specs.HomeRuns.{AreAscending};
ghost use Rattle.pen_core.specs.Values.{IsPassed, bytes_at, writes_for};

use crate::fold::Write;
use record_core::{Record, append_records};
use segment_core::{GrowthList, Home};
use std::alloc::AllocError;

/// How many pieces are behind a walk over them, and how many records these have.
#[derive(Clone, Copy)]
pub(crate) struct Passed {
    pub(crate) pieces: usize,
    pub(crate) records: u64,
}

/// Appends the bytes of the records from `from` up to `to`. The walk over the pieces stands before them, and goes on
/// no further than up to the last.
pub(crate) fn append_values<R: Record, G: GrowthList<R>>(
    pieces: &G,
    from: u64,
    to: u64,
    passed: &mut Passed,
    bytes: &mut Vec<u8>,
) -> Result<(), AllocError>
    requires passed { IsPassed (G.growths pieces.now) passed.old }
    requires ahead { passed.old.records ≤ from }
    requires some { from ≤ to }
    requires inside { to ≤ length (joined (G.growths pieces.now)) }
    requires small { (to - from) * R.form.width ≤ 2 ^ 48 }
    ensures values { OnOk result (bytes.new.items ≡ bytes.old.items ++ bytes_at R.form (joined (G.growths pieces.now)) from (to - from)) }
    ensures passed { OnOk result (IsPassed (G.growths pieces.now) passed.new) }
    ensures before { OnOk result (passed.new.records ≤ to) }
{
    let mut at = from;
    for k in passed.pieces..pieces.count() {
        let piece = pieces.growth(k);
        let len = piece.len() as u64;
        let skipped = at - passed.records;
        if skipped < len {
            let count = (to - at).min(len - skipped);
            append_records(&piece[skipped as usize..(skipped + count) as usize], bytes)?;
            at += count;
        }
        if at == to {
            return Ok(());
        }
        passed.pieces = k + 1;
        passed.records += len;
    }
    Ok(())
}

/// The writes that put the records of these runs into their home bytes, and what they write. The pieces begin with the
/// vector; the runs ascend. Each piece is looked at once, and none behind the last run.
pub(crate) fn home_writes<R: Record, G: GrowthList<R>>(
    pieces: &G,
    runs: &[Home],
    writes: &mut Vec<Write>,
    bytes: &mut Vec<u8>,
) -> Result<(), AllocError>
    requires width { R.form.width < 2 ^ 16 }
    requires ascend { AreAscending 0 (length (joined (G.growths pieces.now))) runs.now }
    requires few { AreAscending 0 (2 ^ 32) runs.now }
    ensures writes { OnOk result (map (write_of bytes.new.items) writes.new.items ≡ writes_for R.form (joined (G.growths pieces.now)) runs.now) }
    ensures inside { OnOk result (All (λ write. (write.from ≤ write.to) × (write.to ≤ length bytes.new.items)) writes.new.items) }
{
    writes.clear();
    bytes.clear();
    writes.reserve(runs.len())?;
    let mut passed = Passed {
        pieces: 0,
        records: 0,
    };
    for k in 0..runs.len() {
        let run = runs[k];
        let from = bytes.len();
        let end = run.position + run.count;
        append_values::<R, G>(pieces, run.position, end, &mut passed, bytes)?;
        writes.push_reserved(Write {
            place: run.place,
            from,
            to: bytes.len(),
        });
    }
    Ok(())
}
