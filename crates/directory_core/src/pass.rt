//! What one thread knows of a directory.

ghost use Rattle.std.specs.Prelude.{[], false, true, ◌↔◌, IsTrue, Ok, vec_capacity, ◌≡◌, ◌+◌, ◌<◌, ◌≤◌, ◌++◌, length, take, slice_get, slice_index, slice_index_or, option_to_list, Some, None, MatchOption, IfSome};
ghost use Rattle.directory_core.specs.Limits.{place_limit};
ghost use Rattle.record_core.specs.Limits.{record_limit};
ghost use Rattle.directory_core.specs.Chain.{total, IsChained, AreBlocks, Agree, IsLongerOf};
ghost use Rattle.directory_core.specs.Finding.{IsPlaceOf};
ghost use Rattle.directory_core.specs.Known.{KnowsAll};
ghost use Rattle.directory_core.specs.Spot.{IsSpot};
ghost use Rattle.directory_core.specs.Notes.{cells_of, HasCell, StandsIn, IsNextInLimit, EndsIn, IsEndedAt};
ghost use Rattle.directory_core.specs.Judging.{IsJudged};

use crate::address::{PLACE_LIMIT, spot};
use crate::bucket::Bucket;
use crate::ending::Ends;
use crate::fault::DirFault;
use crate::finding::last_start_by;
use block_core::Entry;
use once_cell::race::Note;
use record_core::Record;
use std::marker::Model;

/// The growths of a directory that one thread knows, in order: the growth at each place has that number, and starts
/// where the one before it ends. Contracts see it as the directory that it is of and the list of those growths.
///
/// A note of a cell speaks through `&mut` alone, so some calls that change nothing take `&mut Pass` and say that the
/// pass is as it was.
#[derive(Drop)]
pub struct Pass<R: Record> {
    buckets: Vec<Note<Bucket<R>>>,
    notes: Vec<Note<Entry<R>>>,
    starts: Vec<u32>,
    size: u64,
    /// How many growths there were for each record when it last looked, in parts of 2^32. A guess by it takes no division.
    ratio: u64,
    room: u64,
    limit: u64,
    /// Whether the end stands behind the growths that it knows, and the note of the cell that holds it: none where
    /// their bucket has no such place.
    ended: bool,
    end: Option<Note<Entry<R>>>,
    /// Whether its last look found a growth there that doesn't follow.
    strayed: bool,
    /// What it would end the directory by.
    ends: Option<Ends<R>>,
}

impl<R: Record> Model for Pass<R> {
    ghost use Rattle.std.specs.Prelude.{vec_capacity};
    ghost use Rattle.directory_core.specs.Known.{Known};
    ghost use Rattle.directory_core.specs.Notes.{cells_of, known_of, somes, PassHolds};

    ghost Value = { Known R };

    ghost view = { λ pass. record {
      of = record { name = record { buckets = cells_of pass.buckets.items }; room = pass.room; limit = pass.limit };
      entries = somes (known_of pass.notes.items);
      ended = pass.ended;
      strayed = pass.strayed;
      held = record { buckets = known_of pass.buckets.items; cells = cells_of pass.notes.items };
    } };

    ghost invariant = { λ pass. PassHolds R.form.width pass.room pass.limit
        (known_of pass.buckets.items) (cells_of pass.notes.items) (known_of pass.notes.items)
        pass.starts.items pass.size (vec_capacity pass.notes) (vec_capacity pass.starts) pass.ended pass.end };
}

impl<R: Record> Pass<R> {
    /// A pass that knows nothing, with the room that these rows have.
    pub(crate) fn of(
        buckets: Vec<Note<Bucket<R>>>,
        notes: Vec<Note<Entry<R>>>,
        starts: Vec<u32>,
        room: u64,
        limit: u64,
        ends: Ends<R>,
    ) -> Pass<R>
        requires buckets { length buckets.items ≡ 26 }
        requires notes { (length notes.items ≡ 0) × (room ≤ vec_capacity notes) }
        requires starts { (length starts.items ≡ 0) × (room ≤ vec_capacity starts) }
        requires limits { (room ≤ place_limit) × (limit ≤ record_limit) }
        ensures of { result.of ≡ record {
          name = record { buckets = cells_of buckets.items };
          room = room;
          limit = limit;
        } }
        ensures none { (result.entries ≡ []) × (result.ended ≡ false) }
    {
        Pass {
            buckets,
            notes,
            starts,
            size: 0,
            ratio: 0,
            room,
            limit,
            ended: false,
            end: None,
            strayed: false,
            ends: Some(ends),
        }
    }

    /// How many growths it knows.
    pub fn known(&self) -> u64
        ensures count { result ≡ length self.now.entries }
        ensures chained { IsChained self.now.entries }
        ensures in_a_frame { AreBlocks R.form.width self.now.entries }
        ensures in_room { (result ≤ self.now.of.room) × (self.now.of.room ≤ place_limit) }
        ensures in_limit { total self.now.entries ≤ self.now.of.limit }
    {
        self.starts.len() as u64
    }

    /// How many records these have.
    pub fn size(&self) -> u64
        ensures sum { result ≡ total self.now.entries }
        ensures in_limit { (result ≤ self.now.of.limit) × (self.now.of.limit ≤ record_limit) }
    {
        self.size
    }

    /// Whether it found the end behind the growths that it knows.
    pub fn is_ended(&self) -> bool
        ensures { result ≡ self.now.ended }
    {
        self.ended
    }

    /// Whether no growth can stand behind those that it knows.
    pub fn knows_all(&self) -> bool
        ensures { IsTrue result ↔ KnowsAll self.now }
    {
        self.ended || self.known() >= self.room
    }

    /// A copy of the note of a bucket.
    pub(crate) fn bucket_note(&mut self, bucket: usize) -> Note<Bucket<R>>
        requires { bucket < 26 }
        ensures same { self.new ≡ self.old }
        ensures cell { result.cell ≡ slice_index self.old.of.name.buckets bucket }
        ensures known { result.known ≡ slice_index_or self.old.held.buckets bucket None }
    {
        self.buckets[bucket].again()
    }

    /// A copy of the note of a growth's cell.
    pub(crate) fn note(&mut self, number: usize) -> Note<Entry<R>>
        requires { number < length self.old.entries }
        ensures same { self.new ≡ self.old }
        ensures cell { result.cell ≡ slice_index self.old.held.cells number }
        ensures filed { HasCell self.old.held.buckets number result.cell }
        ensures known { result.known ≡ slice_get self.old.entries number }
    {
        self.notes[number].again()
    }

    /// Takes in the next growth, which has `len` records.
    pub(crate) fn add(
        &mut self,
        bucket: usize,
        place: usize,
        bucket_note: Note<Bucket<R>>,
        note: Note<Entry<R>>,
        len: u64,
    )
        requires room { length self.old.entries < self.old.of.room }
        requires bucket { (bucket < 26) × (bucket_note.cell ≡ slice_index self.old.of.name.buckets bucket) }
        requires keeps { IfSome
            (slice_index_or self.old.held.buckets bucket None)
            (λ names. bucket_note.known ≡ Some names) }
        requires stands { StandsIn (length self.old.entries) bucket place bucket_note.known note.cell }
        requires follows { MatchOption note.known
            ⊥
            (IsNextInLimit R.form.width self.old.of.limit self.old.entries len) }
        requires open { self.old.ended ≡ false }
        ensures of { self.new.of ≡ self.old.of }
        ensures entries { self.new.entries ≡ self.old.entries ++ option_to_list note.known }
        ensures open { self.new.ended ≡ false }
        ensures strayed { self.new.strayed ≡ self.old.strayed }
    {
        self.buckets[bucket] = bucket_note;
        self.notes.push_reserved(note);
        self.starts.push_reserved(self.size as u32);
        self.size += len;
    }

    /// Learns that the end stands behind the growths that it knows, or that their bucket has no place there.
    pub(crate) fn end_at(
        &mut self,
        bucket: usize,
        place: usize,
        bucket_note: Note<Bucket<R>>,
        end: Option<Note<Entry<R>>>,
    )
        requires bucket { (bucket < 26) × (bucket_note.cell ≡ slice_index self.old.of.name.buckets bucket) }
        requires keeps { IfSome
            (slice_index_or self.old.held.buckets bucket None)
            (λ names. bucket_note.known ≡ Some names) }
        requires spot { IsSpot (length self.old.entries) bucket place }
        requires ends { MatchOption bucket_note.known ⊥ (EndsIn place end) }
        ensures of { self.new.of ≡ self.old.of }
        ensures entries { self.new.entries ≡ self.old.entries }
        ensures ended { (self.new.ended ≡ true) × (self.new.strayed ≡ false) }
    {
        self.buckets[bucket] = bucket_note;
        self.end = end;
        self.ended = true;
        self.strayed = false;
    }

    /// Notes how many growths there are for each record, where it knows more of them than these.
    pub(crate) fn lay_ratio(&mut self, known: u64)
        ensures { self.new ≡ self.old }
    {
        let more = self.starts.len() as u64;
        if more > known {
            self.ratio = (more << 32).checked_div(self.size).unwrap_or(0);
        }
    }

    /// Nothing was found behind the growths that it knows.
    pub(crate) fn find_nothing(&mut self)
        ensures { self.new ≡ record self.old { strayed = false } }
    {
        self.strayed = false;
    }

    /// Judges what was found behind the growths that it knows: `true` where it is the next growth, which it then knows
    /// too; `false` where it is the end; `Strayed` of the number where it is neither.
    pub(crate) fn judge(
        &mut self,
        bucket: usize,
        place: usize,
        bucket_note: Note<Bucket<R>>,
        note: Note<Entry<R>>,
        entry: &Entry<R>,
    ) -> Result<bool, DirFault>
        requires room { length self.old.entries < self.old.of.room }
        requires bucket { (bucket < 26) × (bucket_note.cell ≡ slice_index self.old.of.name.buckets bucket) }
        requires keeps { IfSome
            (slice_index_or self.old.held.buckets bucket None)
            (λ names. bucket_note.known ≡ Some names) }
        requires stands { StandsIn (length self.old.entries) bucket place bucket_note.known note.cell }
        requires found { note.known ≡ Some entry.now }
        requires open { self.old.ended ≡ false }
        ensures of { self.new.of ≡ self.old.of }
        ensures judged { IsJudged R.form.width self.old self.new entry.now result }
    {
        let number = self.known();
        if entry.number() == PLACE_LIMIT {
            self.end_at(bucket, place, bucket_note, Some(note));
            return Ok(false);
        }
        let len = entry.records().len() as u64;
        if entry.number() != number
            || entry.start() != self.size()
            || len > self.limit - self.size()
        {
            self.strayed = true;
            return Err(DirFault::Strayed(number));
        }
        self.add(bucket, place, bucket_note, note, len);
        self.strayed = false;
        Ok(true)
    }

    /// What it would end the directory by, which it then has no more.
    pub(crate) fn take_ends(&mut self) -> Option<Ends<R>>
        ensures { self.new ≡ self.old }
    {
        self.ends.take()
    }

    /// Has again what it would end the directory by.
    pub(crate) fn keep_ends(&mut self, ends: Ends<R>)
        ensures { self.new ≡ self.old }
    {
        self.ends = Some(ends);
    }

    /// How many records a growth has.
    fn len_at(&self, number: usize) -> u64
        requires { number < length self.now.entries }
        ensures { MatchOption (slice_get self.now.entries number)
            ⊥
            (IsNextInLimit R.form.width self.now.of.limit (take number self.now.entries) result) }
    {
        let start = self.starts[number] as u64;
        if number + 1 < self.starts.len() {
            self.starts[number + 1] as u64 - start
        } else {
            self.size - start
        }
    }

    /// Two passes of one directory know the same growth of a number.
    fn agree_at(&mut self, other: &mut Pass<R>, number: usize)
        requires of { self.old.of ≡ other.old.of }
        requires number { number < place_limit }
        requires mine { number < length self.old.entries }
        requires theirs { number < length other.old.entries }
        ensures same { (self.new ≡ self.old) × (other.new ≡ other.old) }
        ensures agree { slice_get self.old.entries number ≡ slice_get other.old.entries number }
    {
        let (at, _place) = spot(number as u64);
        let mut bucket = self.bucket_note(at);
        bucket.compare(other.bucket_note(at));
        let mut note = self.note(number);
        note.compare(other.note(number));
    }

    /// A copy of the note of the cell that holds the end.
    fn end_note(&mut self) -> Option<Note<Entry<R>>>
        requires { self.old.ended ≡ true }
        ensures same { self.new ≡ self.old }
        ensures ended { IsEndedAt self.old.held.buckets (length self.old.entries) result }
    {
        match &mut self.end {
            Some(end) => Some(end.again()),
            None => None,
        }
    }

    /// A pass that found the end knows no fewer growths than any other of its directory.
    fn covers(&mut self, other: &mut Pass<R>)
        requires of { self.old.of ≡ other.old.of }
        requires ended { self.old.ended ≡ true }
        ensures same { (self.new ≡ self.old) × (other.new ≡ other.old) }
        ensures covers { length other.old.entries ≤ length self.old.entries }
    {
        let number = self.known();
        if other.known() <= number {
            return;
        }
        let (at, _place) = spot(number);
        let mut bucket = self.bucket_note(at);
        bucket.compare(other.bucket_note(at));
        let theirs = other.note(number as usize);
        let Some(mut end) = self.end_note() else {
            unreachable!()
        };
        end.compare(theirs);
        unreachable!()
    }

    /// Takes in the next growth, which the other knows.
    fn take_next(&mut self, other: &mut Pass<R>, number: u64)
        requires of { self.old.of ≡ other.old.of }
        requires open { self.old.ended ≡ false }
        requires number { number ≡ length self.old.entries }
        requires room { (number < self.old.of.room) × (number < place_limit) }
        requires longer { number < length other.old.entries }
        requires begins { take number other.old.entries ≡ self.old.entries }
        ensures same { other.new ≡ other.old }
        ensures of { self.new.of ≡ self.old.of }
        ensures next { self.new.entries ≡ take (number + 1) other.old.entries }
        ensures open { self.new.ended ≡ false }
    {
        let (at, place) = spot(number);
        let mut bucket = other.bucket_note(at);
        let mut mine = self.bucket_note(at);
        mine.compare(bucket.again());
        let note = other.note(number as usize);
        let len = other.len_at(number as usize);
        self.add(at, place, bucket, note, len);
    }

    /// Learns what the other pass of the same directory knows. It then knows what either knew; one of the two lists
    /// begins the other, since both passes know the same growth of each number that both know. One that knows all
    /// learns nothing: the other knows no growth behind those.
    pub fn meet(&mut self, other: &mut Pass<R>)
        requires of { self.old.of ≡ other.old.of }
        ensures of { self.new.of ≡ self.old.of }
        ensures same { other.new ≡ other.old }
        ensures agree { Agree self.old.entries other.old.entries }
        ensures meets { IsLongerOf self.old.entries other.old.entries self.new.entries }
        ensures ended { self.new.ended ≡ self.old.ended }
        ensures all { KnowsAll self.old → length other.old.entries ≤ length self.old.entries }
    {
        let mine = self.known() as usize;
        let theirs = other.known() as usize;
        for number in 0..mine.min(theirs) {
            self.agree_at(other, number);
        }
        if self.ended {
            self.covers(other);
            return;
        }
        if mine < theirs {
            for number in mine..theirs {
                self.take_next(other, number as u64);
            }
        }
    }

    /// The number of the growth that has position `i`, and the place there. `None` past the end.
    pub fn find(&self, i: u64) -> Option<(u64, usize)>
        ensures place { MatchOption result
            (total self.now.entries ≤ i)
            (λ found. IsPlaceOf self.now.entries i found.0 found.1) }
        ensures in_directory { IfSome result (λ found. found.0 < place_limit) }
    {
        if i >= self.size {
            return None;
        }
        let starts = self.starts.as_slice();
        let number = last_start_by(starts, self.size, i, self.ratio);
        Some((number as u64, (i - starts[number] as u64) as usize))
    }
}
