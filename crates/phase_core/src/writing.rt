//! Records that are written over others.

ghost use Rattle.std.specs.Prelude.{◌-◌, get_or};

use block_core::Touch;
use record_core::Record;

/// Records that stand from that position on once they are written.
#[derive(Drop)]
pub(crate) struct Written<'a, R: Record> {
    pub(crate) start: u64,
    pub(crate) records: &'a [R],
}

impl<'a, R: Record> Touch<R> for Written<'a, R> {
    ghost one = { λ written at r. get_or written.records.now (at - written.start) r };

    fn one(&self, at: u64, r: R) -> R {
        match self.records.get(at.saturating_sub(self.start) as usize) {
            Some(record) => *record,
            None => r,
        }
    }
}
