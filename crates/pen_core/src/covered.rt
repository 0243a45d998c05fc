//! The positions that the runs of live changes cover.

ghost use Rattle.std.specs.Prelude.{◌≡◌, ◌≤◌, ◌<◌, ◌+◌, ◌^◌, All, IfOk, IsPermutation};
ghost use Rattle.std.specs.List.Sorted.{IsNonDecreasingBy};
ghost use Rattle.pen_core.specs.Covered.{IsCover};

use std::alloc::{AllocError, Global};

/// These runs in the order in which they begin.
fn in_order(alloc: Global, runs: &[(u64, u64)]) -> Result<Vec<(u64, u64)>, AllocError>
    ensures moved { IfOk result (λ sorted. IsPermutation runs.now sorted.items) }
    ensures ascend { IfOk result (λ sorted. IsNonDecreasingBy (λ run. run.0) sorted.items) }
{
    let mut sorted = Vec::from_slice(alloc, runs)?;
    sorted.sort_unstable_by_key(|run| run.0);
    Ok(sorted)
}

/// The positions that runs cover of which none begins before an earlier one.
fn sweep(alloc: Global, runs: &[(u64, u64)]) -> Result<Vec<(u64, u64)>, AllocError>
    requires some { All (λ run. 0 < run.1) runs.now }
    requires inside { All (λ run. run.0 + run.1 ≤ 2 ^ 32) runs.now }
    requires ascend { IsNonDecreasingBy (λ run. run.0) runs.now }
    ensures { IfOk result (λ cover. IsCover runs.now cover.items) }
{
    let mut cover = Vec::with_capacity(alloc, runs.len())?;
    if runs.is_empty() {
        return Ok(cover);
    }
    let (mut start, first) = runs[0];
    let mut end = start + first;
    for k in 1..runs.len() {
        let (next, count) = runs[k];
        if end < next {
            cover.push_reserved((start, end - start));
            start = next;
            end = next + count;
        } else {
            end = end.max(next + count);
        }
    }
    cover.push_reserved((start, end - start));
    Ok(cover)
}

/// The positions that these runs cover, in as few runs as can be, in ascending order. A run is its first position
/// and how many positions it has. It takes one sort and one sweep.
pub(crate) fn cover(alloc: Global, runs: &[(u64, u64)]) -> Result<Vec<(u64, u64)>, AllocError>
    requires some { All (λ run. 0 < run.1) runs.now }
    requires inside { All (λ run. run.0 + run.1 ≤ 2 ^ 32) runs.now }
    ensures { IfOk result (λ cover. IsCover runs.now cover.items) }
{
    sweep(alloc, &in_order(alloc, runs)?)
}
