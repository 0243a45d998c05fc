//! Covered positions in runs whose home bytes are adjacent, as a fold writes them.

ghost use Rattle.std.specs.Prelude.{◌≡◌, ◌≤◌, ◌<◌, ◌+◌, ◌-◌, ◌*◌, ◌^◌, ◌++◌, ℕ, [], ◌∷◌, Option, All, IfOk, OnOk, length, get_or};
ghost use Rattle.std.specs.List.{range_with_len};
ghost use Rattle.segment_core.specs.Found.{home_among};
ghost use Rattle.pen_core.specs.Covered.{StandApart};
ghost use Rattle.pen_core.specs.HomeRuns.{positions_at, AreHomesTo, IsAdjacent, AreGreatest, AreGreatestRuns, IsBounded, behind, AreHomeRuns};

use segment_core::Home;
use std::alloc::{AllocError, Global};

/// The records that one write puts into their home bytes at most.
const WRITE_LIMIT: u64 = 4096;

/// The number of the home that has this position.
fn home_at(homes: &[Home], position: u64, size: u64, width: u64) -> usize
    requires homes { AreHomesTo width size homes.now }
    requires inside { position < size }
    ensures inside { result < length homes.now }
    ensures from { (d : Home) → (get_or homes.now result d).position ≤ position }
    ensures to { (d : Home) → position < (get_or homes.now result d).position + (get_or homes.now result d).count }
{
    homes.partition_point(|home| home.position <= position) - 1
}

/// Makes the last run longer by the first positions of a part, as many as its write still takes, where that begins right
/// behind it, in the vector and in the file. Answers how many.
fn lengthen_last(part: Home, width: u64, runs: &mut [Home]) -> u64
    requires bounded { All (IsBounded width) runs.old }
    ensures some { result ≤ part.count }
    ensures positions { positions_at runs.new ≡ positions_at runs.old ++ range_with_len part.position result }
    ensures runs { (home : ℕ → Option ℕ) → IsAdjacent width home part → AreGreatestRuns width home part.position runs.old → AreGreatestRuns width home (part.position + result) runs.new }
    ensures next { AreGreatest width runs.old → result < part.count → AreGreatest width (runs.new ++ behind width part result ∷ []) }
{
    let Some(last) = runs.last_mut() else {
        return 0;
    };
    if last.position + last.count != part.position
        || last.place + last.count * width != part.place
    {
        return 0;
    }
    let count = part.count.min(WRITE_LIMIT - last.count);
    last.count += count;
    count
}

/// Appends a part, which is positions whose home bytes are adjacent: what the last run doesn't take, in runs of as many
/// as one write takes.
fn append_part(part: Home, width: u64, runs: &mut Vec<Home>) -> Result<(), AllocError>
    requires bounded { All (IsBounded width) runs.old.items }
    requires short { part.position + part.count ≤ 2 ^ 32 }
    requires placed { 0 < part.count → part.place + part.count * width ≤ 2 ^ 48 }
    ensures positions { OnOk result (positions_at runs.new.items ≡ positions_at runs.old.items ++ range_with_len part.position part.count) }
    ensures runs { OnOk result ((home : ℕ → Option ℕ) → IsAdjacent width home part → AreGreatestRuns width home part.position runs.old.items
        → AreGreatestRuns width home (part.position + part.count) runs.new.items) }
{
    let mut done = lengthen_last(part, width, runs);
    while done < part.count {
        let count = (part.count - done).min(WRITE_LIMIT);
        runs.push(Home {
            position: part.position + done,
            place: part.place + done * width,
            count,
        })?;
        done += count;
    }
    Ok(())
}

/// Appends the positions from `from` up to `to`, home by home.
fn append_run(
    homes: &[Home],
    from: u64,
    to: u64,
    size: u64,
    width: u64,
    runs: &mut Vec<Home>,
) -> Result<(), AllocError>
    requires homes { AreHomesTo width size homes.now }
    requires some { from < to }
    requires inside { to ≤ size }
    requires runs { AreGreatestRuns width (home_among width homes.now) from runs.old.items }
    ensures positions { OnOk result (positions_at runs.new.items ≡ positions_at runs.old.items ++ range_with_len from (to - from)) }
    ensures runs { OnOk result (AreGreatestRuns width (home_among width homes.now) to runs.new.items) }
{
    let mut at = from;
    for k in home_at(homes, from, size, width)..homes.len() {
        if at == to {
            return Ok(());
        }
        let home = homes[k];
        let end = to.min(home.position + home.count);
        let part = Home {
            position: at,
            place: home.place + (at - home.position) * width,
            count: end - at,
        };
        append_part(part, width, runs)?;
        at = end;
    }
    Ok(())
}

/// The positions that these runs cover, which stand apart, in order, in the greatest runs whose home bytes are adjacent,
/// each few enough for one write. The homes are those of the vector's positions, and maybe of positions behind them; of
/// each run the first is found by a binary search.
pub(crate) fn home_runs(
    alloc: Global,
    cover: &[(u64, u64)],
    homes: &[Home],
    size: u64,
    width: u64,
) -> Result<Vec<Home>, AllocError>
    requires homes { AreHomesTo width size homes.now }
    requires apart { StandApart 0 cover.now }
    requires inside { All (λ run. run.0 + run.1 ≤ size) cover.now }
    ensures { IfOk result (λ runs. AreHomeRuns width size homes.now cover.now runs.items) }
{
    let mut runs = Vec::new(alloc);
    for k in 0..cover.len() {
        let (start, count) = cover[k];
        append_run(homes, start, start + count, size, width, &mut runs)?;
    }
    Ok(runs)
}
