//! A row of starts is searched for the last one at or before a position.

ghost use Rattle.std.specs.Prelude.{◌≡◌, ◌+◌, ◌<◌, ◌≤◌, IsTrue, length, slice_index};
ghost use Rattle.record_core.specs.Limits.{record_limit};
ghost use Rattle.directory_core.specs.Finding.{IsBetween};

/// How far round the guess it is looked first.
const NEAR: usize = 8;

/// Where position `i` would stand if all slices had one length.
fn guess_of(i: u64, size: u64, known: usize) -> usize
    requires inside { (i < size) × (size ≤ record_limit) }
    requires known { (0 < known) × (known ≤ record_limit) }
    ensures { result < known }
{
    (i * known as u64 / size) as usize
}

/// Two places near the guess between which the last start at or before `i` stands; where it isn't near, the guess
/// and one end.
fn narrow(starts: &[u32], i: u64, guess: usize) -> (usize, usize)
    requires guess { (guess < length starts.now) × (length starts.now ≤ record_limit) }
    requires first { slice_index starts.now 0 ≤ i }
    ensures { IsBetween starts.now i result.0 result.1 }
{
    if starts[guess] as u64 <= i {
        if guess + NEAR < starts.len() && i < starts[guess + NEAR] as u64 {
            return (guess, guess + NEAR);
        }
        return (guess, starts.len());
    }
    if guess >= NEAR && starts[guess - NEAR] as u64 <= i {
        return (guess - NEAR, guess);
    }
    (0, guess)
}

/// The place of the last start at or before `i`.
fn search(starts: &[u32], i: u64, low: usize, high: usize) -> usize
    requires { IsBetween starts.now i low high }
    ensures { IsBetween starts.now i result (result + 1) }
{
    let mut low = low;
    let mut high = high;
    while high - low > 1 {
        let middle = low + (high - low) / 2;
        if starts[middle] as u64 <= i {
            low = middle;
        } else {
            high = middle;
        }
    }
    low
}

/// Whether the last start at or before `i` stands at `low` or behind it, and before `high`.
fn is_between(starts: &[u32], i: u64, low: usize, high: usize) -> bool
    ensures { IsTrue result → IsBetween starts.now i low high }
{
    low < high
        && high <= starts.len()
        && starts[low] as u64 <= i
        && (high == starts.len() || i < starts[high] as u64)
}

/// Where position `i` would stand so, by how many slices there are for a record in parts of 2^32; of 0 by a division.
fn guess_by(ratio: u64, i: u64, size: u64, known: usize) -> usize
    requires inside { (i < size) × (size ≤ record_limit) }
    requires known { (0 < known) × (known ≤ record_limit) }
{
    match ratio {
        0 => guess_of(i, size, known),
        _ => (i.wrapping_mul(ratio) >> 32) as usize,
    }
}

/// The place of the last start at or before position `i`, of slices with so many records together. It is looked for
/// at the guess, near it, and by halves where it isn't there. Nothing rests on the ratio.
pub(crate) fn last_start_by(starts: &[u32], size: u64, i: u64, ratio: u64) -> usize
    requires inside { (i < size) × (size ≤ record_limit) }
    requires some { (0 < length starts.now) × (length starts.now ≤ record_limit) }
    requires first { slice_index starts.now 0 ≤ i }
    ensures { IsBetween starts.now i result (result + 1) }
{
    let guess = guess_by(ratio, i, size, starts.len()).min(starts.len() - 1);
    if is_between(starts, i, guess, guess + 1) {
        return guess;
    }
    let (low, high) = narrow(starts, i, guess);
    search(starts, i, low, high)
}

/// The same where no ratio is known.
pub fn last_start(starts: &[u32], size: u64, i: u64) -> usize
    requires inside { (i < size) × (size ≤ record_limit) }
    requires some { (0 < length starts.now) × (length starts.now ≤ record_limit) }
    requires first { slice_index starts.now 0 ≤ i }
    ensures { IsBetween starts.now i result (result + 1) }
{
    last_start_by(starts, size, i, 0)
}

/// As `last_start`, for who was told that it stands from `low` on and before `high`. That may be wrong: then it is looked
/// for everywhere.
pub fn last_start_near(starts: &[u32], size: u64, i: u64, low: usize, high: usize) -> usize
    requires inside { (i < size) × (size ≤ record_limit) }
    requires some { (0 < length starts.now) × (length starts.now ≤ record_limit) }
    requires first { slice_index starts.now 0 ≤ i }
    ensures { IsBetween starts.now i result (result + 1) }
{
    if is_between(starts, i, low, high) {
        return search(starts, i, low, high);
    }
    last_start(starts, size, i)
}
