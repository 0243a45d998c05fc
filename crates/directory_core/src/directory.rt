//! The growths that all threads share.

ghost use Rattle.std.specs.Prelude.{◌≡◌, ◌+◌, ◌<◌, ◌≤◌, ◌∷◌, [], ◌++◌, false, true, ◌↔◌, if◌then◌else◌, length, slice_get, Some, MatchOption, MatchResult, IfOk, IfErr, IfSome, IsTrue};
ghost use Rattle.directory_core.specs.Limits.{place_limit};
ghost use Rattle.record_core.specs.Limits.{record_limit};
ghost use Rattle.directory_core.specs.Spot.{span};
ghost use Rattle.directory_core.specs.Chain.{total, grown_records, IsNextGrowth, IsPrefix};
ghost use Rattle.directory_core.specs.Fault.{IsPublishRefusal};
ghost use Rattle.directory_core.specs.Known.{KnowsAll};
ghost use Rattle.directory_core.specs.Finding.{IsPieceAt, IsRestAt};

use crate::address::{BUCKETS, spot};
use crate::bucket::Bucket;
use crate::ending::Ends;
use crate::fault::DirFault;
use crate::pass::Pass;
use block_core::Entry;
use once_cell::race::OnceBox;
use record_core::{RECORD_LIMIT, Record};
use std::alloc::{AllocError, Global};
use std::marker::Model;

/// The growths that many threads publish and find, each in a cell that is set once. The cells stand in buckets of
/// 8, 16, 32, .. places; a bucket is made when its first growth is published, and set once too. Contracts see which
/// directory it is, and its bounds.
#[derive(Drop)]
pub struct Directory<R: Record> {
    buckets: Vec<OnceBox<Bucket<R>>>,
    room: u64,
    limit: u64,
    alloc: Global,
}

impl<R: Record> Model for Directory<R> {
    ghost use Rattle.std.specs.Prelude.{◌≤◌, ◌≡◌, length, map};
    ghost use Rattle.once_cell.specs.Once.{cell_name};
    ghost use Rattle.directory_core.specs.Identity.{Identity};
    ghost use Rattle.directory_core.specs.Limits.{place_limit};
    ghost use Rattle.record_core.specs.Limits.{record_limit};

    ghost Value = { Identity };

    ghost view = { λ directory. record {
      name = record { buckets = map cell_name directory.buckets.items };
      room = directory.room;
      limit = directory.limit;
    } };

    ghost invariant = { λ directory.
        (length directory.buckets.items ≡ 26)
        × (directory.room ≤ place_limit)
        × (directory.limit ≤ record_limit) };
}

impl<R: Record> Directory<R> {
    /// An empty directory with room for so many growths, of 2^32 records together at most.
    pub fn new(alloc: Global, room: u64) -> Result<Directory<R>, DirFault>
        requires { room ≤ place_limit }
        ensures { MatchResult result
            (λ directory. (directory.room ≡ room) × (directory.limit ≡ record_limit))
            (λ fault. fault ≡ DirFault.Memory) }
    {
        Directory::with_limit(alloc, room, RECORD_LIMIT)
    }

    /// An empty directory with room for so many growths, of so many records together at most.
    pub fn with_limit(alloc: Global, room: u64, limit: u64) -> Result<Directory<R>, DirFault>
        requires { (room ≤ place_limit) × (limit ≤ record_limit) }
        ensures { MatchResult result
            (λ directory. (directory.room ≡ room) × (directory.limit ≡ limit))
            (λ fault. fault ≡ DirFault.Memory) }
    {
        let mut buckets = Vec::with_capacity(alloc, BUCKETS)?;
        for _ in 0..BUCKETS {
            buckets.push_reserved(OnceBox::new(alloc));
        }
        Ok(Directory {
            buckets,
            room,
            limit,
            alloc,
        })
    }

    /// A pass that knows nothing. Its memory for all growths that the directory has room for is taken here: 4 bytes
    /// each, which are touched only as far as it knows growths.
    pub fn pass(&self) -> Result<Pass<R>, DirFault>
        ensures { MatchResult result
            (λ pass. (pass.of ≡ self.now) × (pass.entries ≡ []) × (pass.ended ≡ false))
            (λ fault. fault ≡ DirFault.Memory) }
    {
        let mut buckets = Vec::with_capacity(self.alloc, BUCKETS)?;
        for bucket in &self.buckets {
            buckets.push_reserved(bucket.note());
        }
        let notes = Vec::with_capacity(self.alloc, self.room as usize)?;
        let starts = Vec::with_capacity(self.alloc, self.room as usize)?;
        let ends = Ends::new(self.alloc)?;
        Ok(Pass::of(buckets, notes, starts, self.room, self.limit, ends))
    }

    /// Publishes the growth behind those that the pass knows, which then knows it too. Where it is refused, the
    /// growth comes back, the pass knows what it knew, and the next growth takes the same number. It is refused, in
    /// this order,
    /// - `Full` where the pass knows as many growths as the directory has room for;
    /// - `Strayed` of its number where it would pass the limit of the directory's records;
    /// - `Taken` where another growth has the number, or the list ends before it;
    /// - `Memory` where it is the first of a bucket, and none was left to make that.
    pub fn publish(
        &self,
        pass: &mut Pass<R>,
        entry: Box<Entry<R>>,
    ) -> Result<(), (Box<Entry<R>>, DirFault)>
        requires of { pass.old.of ≡ self.now }
        requires next { IsNextGrowth pass.old.entries entry.value }
        ensures of { pass.new.of ≡ self.now }
        ensures list { MatchResult result
            (λ _. pass.new.entries ≡ pass.old.entries ++ entry.value ∷ [])
            (λ refused. (refused.0.value ≡ entry.value) × (pass.new.entries ≡ pass.old.entries)) }
        ensures fault { IfErr result (λ refused.
            IsPublishRefusal self.now pass.old.entries entry.value refused.1) }
    {
        let number = pass.known();
        if number >= self.room {
            return Err((entry, DirFault::Full));
        }
        let len = entry.records().len() as u64;
        if len > self.limit - pass.size() {
            return Err((entry, DirFault::Strayed(number)));
        }
        if pass.is_ended() {
            return Err((entry, DirFault::Taken));
        }
        let (at, place) = spot(number);
        let alloc = self.alloc;
        let mut bucket_note = pass.bucket_note(at);
        let made = self.buckets[at].get_or_try_init_as(
            move || -> Result<Box<Bucket<R>>, AllocError>
                requires { at < 26 }
                ensures { IfOk result (λ bucket. length bucket.value ≡ span at) }
            { Bucket::boxed(alloc, at) },
            &mut bucket_note,
        );
        let Ok(bucket) = made else {
            return Err((entry, DirFault::Memory));
        };
        let Some(cell) = bucket.cell(place) else {
            return Err((entry, DirFault::Strayed(number)));
        };
        let mut note = cell.note();
        match cell.set_as(entry, &mut note) {
            Ok(()) => {
                pass.add(at, place, bucket_note, note, len);
                Ok(())
            }
            Err(entry) => Err((entry, DirFault::Taken)),
        }
    }

    /// Takes in the next growth, if it is there.
    fn learn(&self, pass: &mut Pass<R>) -> Result<bool, DirFault>
        requires of { pass.old.of ≡ self.now }
        ensures of { pass.new.of ≡ self.now }
        ensures longer { IsPrefix pass.old.entries pass.new.entries }
        ensures more { IfOk result (λ found.
            length pass.new.entries ≡ length pass.old.entries + (if found then 1 else 0)) }
        ensures fault { IfErr result (λ fault. fault ≡ DirFault.Strayed (length pass.new.entries)) }
        ensures in_room { IfErr result (λ _. length pass.new.entries < self.now.room) }
        ensures strayed { MatchResult result (λ _. pass.new.strayed ≡ false) (λ _. pass.new.strayed ≡ true) }
        ensures all { KnowsAll pass.old → (result ≡ Ok false) × (pass.new.entries ≡ pass.old.entries) }
    {
        let number = pass.known();
        if pass.knows_all() {
            pass.find_nothing();
            return Ok(false);
        }
        let (at, place) = spot(number);
        let mut bucket_note = pass.bucket_note(at);
        let Some(bucket) = self.buckets[at].get_as(&mut bucket_note) else {
            pass.find_nothing();
            return Ok(false);
        };
        let Some(cell) = bucket.cell(place) else {
            pass.end_at(at, place, bucket_note, None);
            return Ok(false);
        };
        let mut note = cell.note();
        let Some(entry) = cell.get_as(&mut note) else {
            pass.find_nothing();
            return Ok(false);
        };
        pass.judge(at, place, bucket_note, note, entry)
    }

    /// Takes in the growths that are there, one after another up to the first number that no growth has, and
    /// answers how many the pass then knows. `Strayed` names the first number whose growth doesn't follow those
    /// before it, which the pass then knows; there is room for a growth of that number. Of a growth that strays the
    /// pass keeps that it was found (`strayed`), until a look finds none.
    pub fn look(&self, pass: &mut Pass<R>) -> Result<u64, DirFault>
        requires of { pass.old.of ≡ self.now }
        ensures of { pass.new.of ≡ self.now }
        ensures longer { IsPrefix pass.old.entries pass.new.entries }
        ensures count { MatchResult result
            (λ known. known ≡ length pass.new.entries)
            (λ fault. fault ≡ DirFault.Strayed (length pass.new.entries)) }
        ensures in_room { IfErr result (λ _. length pass.new.entries < self.now.room) }
        ensures strayed { MatchResult result (λ _. pass.new.strayed ≡ false) (λ _. pass.new.strayed ≡ true) }
        ensures all { KnowsAll pass.old → pass.new.entries ≡ pass.old.entries }
    {
        pass.find_nothing();
        let known = pass.known();
        for _ in 0..self.room {
            if !self.learn(pass)? {
                break;
            }
        }
        pass.lay_ratio(known);
        Ok(pass.known())
    }

    /// Ends the list behind the growths that the pass knows, so that none is published any more, and answers whether
    /// it has. It has not where another growth came first, or something strayed: a look finds it.
    pub fn end(&self, pass: &mut Pass<R>) -> bool
        requires of { pass.old.of ≡ self.now }
        ensures of { pass.new.of ≡ self.now }
        ensures same { pass.new.entries ≡ pass.old.entries }
        ensures all { IsTrue result ↔ KnowsAll pass.new }
    {
        if pass.knows_all() {
            return true;
        }
        let Some(ends) = pass.take_ends() else {
            return false;
        };
        let (at, place) = spot(pass.known());
        let mut bucket_note = pass.bucket_note(at);
        let Ends { entry, bucket } = ends;
        let unused = self.buckets[at].set_as(bucket, &mut bucket_note);
        let Some(found) = self.buckets[at].get_as(&mut bucket_note) else {
            unreachable!()
        };
        let Some(cell) = found.cell(place) else {
            pass.end_at(at, place, bucket_note, None);
            return true;
        };
        let mut note = cell.note();
        match (cell.set_as(entry, &mut note), unused) {
            (Ok(()), _) => {
                pass.end_at(at, place, bucket_note, Some(note));
                true
            }
            (Err(entry), Err(bucket)) => {
                pass.keep_ends(Ends { entry, bucket });
                false
            }
            (Err(_), Ok(())) => false,
        }
    }

    /// Whether a growth of that number was published, for who would wait for one. It takes no pass, so no clause says
    /// more than that there is room for that number.
    pub fn has(&self, number: u64) -> bool
        ensures { IsTrue result → number < self.now.room }
    {
        if number >= self.room {
            return false;
        }
        let (at, place) = spot(number);
        match self.buckets[at].get().and_then(|bucket| bucket.cell(place)) {
            Some(cell) => cell.get().is_some(),
            None => false,
        }
    }

    /// The growth of that number, lent for the life of the directory. `None` where the pass doesn't know it.
    pub fn entry<'a>(&'a self, pass: &mut Pass<R>, number: u64) -> Option<&'a Entry<R>>
        requires of { pass.old.of ≡ self.now }
        ensures same { pass.new ≡ pass.old }
        ensures value { MatchOption result
            (length pass.old.entries ≤ number)
            (λ entry. slice_get pass.old.entries number ≡ Some entry.now) }
    {
        if number >= pass.known() {
            return None;
        }
        let (at, place) = spot(number);
        let mut note = pass.note(number as usize);
        let mut bucket_note = pass.bucket_note(at);
        let Some(bucket) = self.buckets[at].get_as(&mut bucket_note) else {
            unreachable!()
        };
        let Some(cell) = bucket.cell(place) else {
            unreachable!()
        };
        cell.get_as(&mut note)
    }

    /// The records from position `i` to the end of the growth that has it, lent for the life of the directory.
    /// `None` where the pass knows no such position.
    pub fn piece<'a>(&'a self, pass: &mut Pass<R>, i: u64) -> Option<&'a [R]>
        requires of { pass.old.of ≡ self.now }
        ensures same { pass.new ≡ pass.old }
        ensures value { MatchOption result
            (total pass.old.entries ≤ i)
            (λ piece. IsRestAt pass.old.entries i piece.now) }
        ensures in_order { IfSome result (λ piece. IsPieceAt (grown_records pass.old.entries) i piece.now) }
    {
        let Some((number, place)) = pass.find(i) else {
            return None;
        };
        let Some(entry) = self.entry(pass, number) else {
            unreachable!()
        };
        Some(&entry.records()[place..])
    }

    /// The record at position `i`, lent for the life of the directory. `None` where the pass knows no such position.
    pub fn get<'a>(&'a self, pass: &mut Pass<R>, i: u64) -> Option<&'a R>
        requires of { pass.old.of ≡ self.now }
        ensures same { pass.new ≡ pass.old }
        ensures value { MatchOption result
            (total pass.old.entries ≤ i)
            (λ found. slice_get (grown_records pass.old.entries) i ≡ Some found.now) }
    {
        match self.piece(pass, i) {
            Some(piece) => Some(&piece[0]),
            None => None,
        }
    }
}
