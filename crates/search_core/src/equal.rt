//! Records that are the one wanted, counted and found by one thread. That `==` calls no others equal is a law of `Record`.

ghost use Rattle.std.specs.Prelude.{◌≡◌};
ghost use Rattle.std.specs.List.{count_by};
ghost use Rattle.search_core.specs.Search.{IsFirst};

use record_core::Record;

/// How many of the records are this one.
pub fn count_equal<R: Record>(records: &[R], wanted: R) -> u64
    ensures { result ≡ count_by (λ r. R.Eq.eq r wanted) records.now }
{
    let mut count: u64 = 0;
    for r in records {
        if *r == wanted {
            count += 1;
        }
    }
    count
}

/// The place of the first of the records that is this one.
pub fn first_equal<R: Record>(records: &[R], wanted: R) -> Option<u64>
    ensures { IsFirst (λ r. R.Eq.eq r wanted) records.now result }
{
    for k in 0..records.len() {
        if records[k] == wanted {
            return Some(k as u64);
        }
    }
    None
}
