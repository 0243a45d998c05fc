//! Rows of slices: each growth's records as one.

ghost use Rattle.std.specs.Prelude.{◌≡◌, ◌+◌, ◌-◌, ◌≤◌, ◌++◌, length, take, drop, map, vec_len, vec_capacity};

use book_core::Live;
use directory_core::Pass;
use record_core::Record;

/// Puts the records of the growths from that number up to the other behind a row of slices: each growth's as one.
pub(crate) fn push_growths<'a, R: Record>(
    row: &mut Vec<&'a [R]>,
    live: &'a Live<R>,
    pass: &mut Pass<R>,
    from: u64,
    to: u64,
)
    requires of { pass.old.of ≡ live.now.directory }
    requires known { (from ≤ to) × (to ≤ length pass.old.entries) }
    requires room { vec_len row.old + to ≤ vec_capacity row.old + from }
    ensures same { pass.new ≡ pass.old }
    ensures pushed { map (λ growth. growth.now) row.new.items
        ≡ map (λ growth. growth.now) row.old.items ++ map (λ e. e.records) (take (to - from) (drop from pass.old.entries)) }
{
    for number in from..to {
        let Some(entry) = live.entry(pass, number) else {
            unreachable!()
        };
        row.push_reserved(entry.records());
    }
}
