//! A growth as it stands among others.

ghost use Rattle.std.specs.Prelude.{◌≡◌, length};
ghost use Rattle.block_core.specs.Length.{IsBlockLength};

use record_core::Record;
use std::marker::Model;

/// What names a growth among those of its phase. It is as narrow as its numbers allow: of a small growth most of the time
/// goes to the first touch of its memory.
#[derive(Clone, Copy)]
pub struct Label {
    /// How many growths stand before it.
    pub number: u32,
    /// How many records stand before it.
    pub start: u32,
    /// How many growths of that seat stand before it.
    pub serial: u32,
    /// Whose growth it is.
    pub seat: u16,
}

/// A growth: a label, and at least one record, few enough for one frame of the segment file. What it is can't be
/// changed, so many threads may read it. `Fresh::seal` makes it.
#[derive(Drop)]
pub struct Entry<R: Record> {
    pub(crate) label: Label,
    pub(crate) records: Vec<R>,
}

impl<R: Record> Model for Entry<R> {
    ghost use Rattle.std.specs.Prelude.{length};
    ghost use Rattle.block_core.specs.Growth.{Growth, labelled};
    ghost use Rattle.block_core.specs.Length.{IsBlockLength};

    ghost Value = { Growth R };

    ghost view = { λ entry. labelled entry.label entry.records.items };

    ghost invariant = { λ entry. IsBlockLength R.form.width (length entry.records.items) };
}

impl<R: Record> Entry<R> {
    ghost use Rattle.std.specs.Borrow.{sem};
    ghost use Rattle.block_core.specs.LentEntry.{LendsEntry};

    /// How many growths stand before it.
    pub fn number(&self) -> u64
        ensures { result ≡ self.now.number }
    {
        self.label.number as u64
    }

    /// How many records stand before it.
    pub fn start(&self) -> u64
        ensures { result ≡ self.now.start }
    {
        self.label.start as u64
    }

    /// Whose growth it is.
    pub fn seat(&self) -> u16
        ensures { result ≡ self.now.seat }
    {
        self.label.seat
    }

    /// How many growths of its seat stand before it.
    pub fn serial(&self) -> u64
        ensures { result ≡ self.now.serial }
    {
        self.label.serial as u64
    }

    /// The records in order.
    pub fn records(&self) -> &[R]
        ensures value { result.now ≡ self.now.records }
        ensures in_a_frame { IsBlockLength R.form.width (length self.now.records) }
    {
        self.records.as_slice()
    }

    /// The records in order, to be written over before the growth is published. It has what is left in them.
    pub(crate) fn records_mut(&mut self) -> &mut [R]
        ensures value { result.now ≡ self.old.records }
        ensures in_a_frame { IsBlockLength R.form.width (length self.old.records) }
        ensures* writes_back { sem 𝓛 (LendsEntry R.row R.Record.own R.PartialEq self.entry result) }
    {
        self.records.as_mut_slice()
    }
}
