//! A block of records that nobody else sees yet.

ghost use Rattle.std.specs.Prelude.{◌≡◌, ◌≤◌, ◌<◌, ◌++◌, length, replicate, MatchResult};

use crate::entry::{Entry, Label};
use crate::fault::FreshFault;
use crate::filling::touch_parts;
use crate::touching::Touch;
use record_core::{GROWTH_HEAD_LEN, PAYLOAD_LIMIT, Record, width_of};
use std::alloc::Global;
use std::marker::Model;
use std::slice::ChunksMut;
use std::thread::Threads;

/// At least one record, and few enough for one frame of the segment file, in the buffer and the box in which
/// they will be published. Until then nobody else sees them.
#[derive(Drop)]
pub struct Fresh<R: Record> {
    entry: Box<Entry<R>>,
}

impl<R: Record> Model for Fresh<R> {
    ghost use Rattle.std.specs.Prelude.{List};

    ghost Value = { List R };

    ghost view = { λ fresh. fresh.entry.value.records };
}

impl<R: Record> Fresh<R> {
    ghost use Rattle.std.specs.Borrow.{sem};
    ghost use Rattle.std.specs.Slice.Iter.{chunks_mut_rest, chunks_mut_size};
    ghost use Rattle.block_core.specs.Growth.{labelled};
    ghost use Rattle.block_core.specs.Length.{IsBlockLength, IsLengthFault, IsBlockRefusal};
    ghost use Rattle.block_core.specs.Lent.{LendsRecords, LendsHalves};
    ghost use Rattle.block_core.specs.Touched.{TouchedFrom};

    /// Whether a block may have `n` records: none is `Empty`, more than fit one frame is `TooLarge`. It takes no
    /// memory and never answers `Memory`.
    pub fn check_len(n: u64) -> Result<(), FreshFault>
        ensures { MatchResult result (λ _. IsBlockLength R.form.width n) (IsLengthFault R.form.width n) }
    {
        if n == 0 {
            return Err(FreshFault::Empty);
        }
        match n.checked_mul(width_of::<R>() as u64) {
            Some(bytes) if bytes <= (PAYLOAD_LIMIT - GROWTH_HEAD_LEN) as u64 => Ok(()),
            _ => Err(FreshFault::TooLarge),
        }
    }

    /// A block of `n` blank records.
    pub fn new(alloc: Global, n: u64) -> Result<Fresh<R>, FreshFault>
        ensures { MatchResult result
            (λ fresh. (fresh ≡ replicate n R.blank_value) × IsBlockLength R.form.width n)
            (IsBlockRefusal R.form.width n) }
    {
        Fresh::filled(alloc, n, R::blank())
    }

    /// A block of copies of these records.
    pub fn from_slice(alloc: Global, records: &[R]) -> Result<Fresh<R>, FreshFault>
        ensures { MatchResult result
            (λ fresh. (fresh ≡ records.now) × IsBlockLength R.form.width (length records.now))
            (IsBlockRefusal R.form.width (length records.now)) }
    {
        Fresh::<R>::check_len(records.len() as u64)?;
        let copies = Vec::from_slice(alloc, records)?;
        Fresh::boxed(alloc, copies).map_err(|_| FreshFault::Memory)
    }

    /// A block of `n` copies of `v`.
    pub fn filled(alloc: Global, n: u64, v: R) -> Result<Fresh<R>, FreshFault>
        ensures { MatchResult result
            (λ fresh. (fresh ≡ replicate n v) × IsBlockLength R.form.width n)
            (IsBlockRefusal R.form.width n) }
    {
        Fresh::<R>::check_len(n)?;
        let len = n as usize;
        let mut copies = Vec::with_capacity(alloc, len)?;
        copies.resize(len, v)?;
        Fresh::boxed(alloc, copies).map_err(|_| FreshFault::Memory)
    }

    /// The block of these records, which come back where it is refused. They aren't copied: the block has their buffer,
    /// with what room that has beside them.
    pub fn from_vec(alloc: Global, records: Vec<R>) -> Result<Fresh<R>, (Vec<R>, FreshFault)>
        ensures { MatchResult result
            (λ fresh. (fresh ≡ records.items) × IsBlockLength R.form.width (length records.items))
            (λ refused. (refused.0.items ≡ records.items) × IsBlockRefusal R.form.width (length records.items) refused.1) }
    {
        if let Err(fault) = Fresh::<R>::check_len(records.len() as u64) {
            return Err((records, fault));
        }
        Fresh::boxed(alloc, records).map_err(|records| (records, FreshFault::Memory))
    }

    /// The block of these records, in its box. They come back where that wasn't to be had.
    fn boxed(alloc: Global, records: Vec<R>) -> Result<Fresh<R>, Vec<R>>
        requires { IsBlockLength R.form.width (length records.items) }
        ensures { MatchResult result
            (λ fresh. fresh ≡ records.items)
            (λ refused. refused.items ≡ records.items) }
    {
        let label = Label {
            number: 0,
            start: 0,
            serial: 0,
            seat: 0,
        };
        match Box::new(alloc, Entry { label, records }) {
            Ok(entry) => Ok(Fresh { entry }),
            Err(refused) => Err(refused.value.records),
        }
    }

    /// Its records, in the buffer that it has. The block is given up.
    pub fn into_vec(self) -> Vec<R>
        ensures { result.items ≡ self }
    {
        Box::into_inner(self.entry).records
    }

    /// How many records it has.
    pub fn len(&self) -> u64
        ensures len { result ≡ length self.now }
        ensures in_a_frame { IsBlockLength R.form.width result }
    {
        self.entry.records().len() as u64
    }

    /// The records in order.
    pub fn records(&self) -> &[R]
        ensures value { result.now ≡ self.now }
        ensures in_a_frame { IsBlockLength R.form.width (length self.now) }
    {
        self.entry.records()
    }

    /// The records in order, to be written over. The block has what is left in them.
    pub fn records_mut(&mut self) -> &mut [R]
        ensures value { result.now ≡ self.old }
        ensures* writes_back { sem 𝓛 (LendsRecords R.row R.Record.own R.PartialEq self.entry result) }
    {
        self.entry.records_mut()
    }

    /// The records in order as disjoint parts of `len` records, the last of which may have fewer.
    pub fn parts_mut(&mut self, len: usize) -> ChunksMut<'_, R>
        requires { 0 < len }
        ensures joined { chunks_mut_rest result ≡ self.old }
        ensures each { chunks_mut_size result ≡ len }
    {
        self.records_mut().chunks_mut(len)
    }

    /// Two halves, the first of which has `at` records. The block has what is left in them.
    pub fn split_mut(&mut self, at: usize) -> (&mut [R], &mut [R])
        requires { at ≤ length self.old }
        ensures joined { self.old ≡ result.0.now ++ result.1.now }
        ensures front { length result.0.now ≡ at }
        ensures* writes_back { sem 𝓛 (LendsHalves R.row R.Record.own R.PartialEq self.entry result) }
    {
        self.records_mut().split_at_mut(at)
    }

    /// Touches every record, the first of which stands at the place 0, as `touch_parts` does.
    pub fn fill<E: Threads + Sync, T: Touch<R>>(&mut self, rt: &E, part: usize, touch: &T)
        requires { 0 < part }
        ensures { TouchedFrom (T.one touch.now) 0 self.old self.new }
    {
        touch_parts(rt, 0, self.entry.records_mut(), part, touch);
    }

    /// The growth that is to be published under this label.
    pub fn seal(self, label: Label) -> Box<Entry<R>>
        ensures { result.value ≡ labelled label self }
    {
        let mut entry = self.entry;
        entry.label = label;
        entry
    }

    /// The block of a growth that was not published. Its label is forgotten.
    pub fn unseal(entry: Box<Entry<R>>) -> Fresh<R>
        ensures { result ≡ entry.value.records }
    {
        Fresh { entry }
    }
}
