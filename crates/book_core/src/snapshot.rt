//! The whole list that a seat knows, laid out for reads at any position.

ghost use Rattle.std.specs.Prelude.{◌≡◌, ◌+◌, ◌-◌, ◌<◌, ◌≤◌, ◌++◌, length, map, take, drop, slice_get, Some, MatchOption, MatchResult, [], IsTrue, ◌↔◌, IfErr, IfSome, OnOk};
ghost use Rattle.record_core.specs.Limits.{record_limit};
ghost use Rattle.directory_core.specs.Chain.{Agree, total};
ghost use Rattle.directory_core.specs.Finding.{IsPieceAt};
ghost use Rattle.book_core.specs.Lists.{IsSeatOf, IsRestOfPiece, opening_of, joined_pieces};
ghost use Rattle.book_core.specs.Snapshots.{ShowsSeat, AreFull, AreFoundAt, HasRoomFor, pieces_in, list_in, growth_records};

use crate::fault::GrowFault;
use crate::live::Live;
use crate::seat::Seat;
use directory_core::Pass;
use record_core::Record;
use std::marker::Model;

mod dividing;
mod hints;
mod records;
mod slices;

pub use records::Records;
use slices::Slices;

/// The records that a seat knew, from before the phase and of the phase's growths, in slices with a row of their
/// starts: a read at random takes a multiplication, where all slices but the last have one length, and else a short search in
/// that row from a hint on, and nothing else. Many threads may read one snapshot, and what
/// it lends lives as long as the phase, whatever becomes of the snapshot. Contracts see it as the phase that it is of
/// and the records of each growth that it has; its list is `list_in`.
#[derive(Drop)]
pub struct Snapshot<'a, R: Record> {
    live: &'a Live<R>,
    slices: Slices<'a, R>,
    /// How many slices are from before the phase.
    blocks: usize,
}

impl<'a, R: Record> Model for Snapshot<'a, R> {
    ghost use Rattle.std.specs.Prelude.{◌≡◌, ◌+◌, ◌≤◌, length, take, drop};
    ghost use Rattle.record_core.specs.Limits.{record_limit};
    ghost use Rattle.book_core.specs.Lists.{opening_of};
    ghost use Rattle.book_core.specs.Snapshots.{Shown, full_of};

    ghost Value = { Shown R };

    ghost view = { λ shown. record {
      of = shown.live.now;
      growths = drop shown.blocks shown.slices.pieces;
    } };

    ghost invariant = { λ shown.
        (shown.blocks ≤ length shown.slices.pieces)
        × (take shown.blocks shown.slices.pieces ≡ full_of shown.live.now.blocks)
        × (shown.live.now.directory.limit + length (opening_of shown.live.now) ≡ record_limit) };
}

/// Puts the growths that the pass knows from that number on behind the slices, which end with those before it.
fn add_growths<'a, R: Record>(
    slices: &mut Slices<'a, R>,
    live: &'a Live<R>,
    pass: &mut Pass<R>,
    from: usize,
)
    requires of { pass.old.of ≡ live.now.directory }
    requires from { from ≤ length pass.old.entries }
    requires room { HasRoomFor slices.old (length pass.old.entries - from) }
    requires limit { live.now.directory.limit + length (opening_of live.now) ≡ record_limit }
    requires behind { length (joined_pieces slices.old.pieces) ≡ length (opening_of live.now) + total (take from pass.old.entries) }
    ensures same { pass.new ≡ pass.old }
    ensures pieces { slices.new.pieces ≡ slices.old.pieces ++ drop from (map (λ e. e.records) pass.old.entries) }
{
    let known = pass.known() as usize;
    for number in from..known {
        let Some(entry) = live.entry(pass, number as u64) else {
            unreachable!()
        };
        slices.push(entry.records());
    }
}

impl<R: Record> Live<R> {
    /// Lays out what the seat knows, for reads at random. It takes 20 bytes for each block from before the phase and
    /// each growth, and at most 8 more where they have many lengths; `Memory` where the 20 weren't there.
    pub fn snapshot<'a>(&'a self, seat: &mut Seat<R>) -> Result<Snapshot<'a, R>, GrowFault>
        requires of { IsSeatOf self.now seat.old }
        ensures same { seat.new ≡ seat.old }
        ensures list { MatchResult result (ShowsSeat self.now seat.old) (λ fault. fault ≡ GrowFault.Memory) }
    {
        let slices = Slices::of_blocks(self.alloc, self.opening.blocks.as_slice())?;
        let blocks = slices.count();
        let mut snapshot = Snapshot {
            live: self,
            slices,
            blocks,
        };
        snapshot.update(seat)?;
        Ok(snapshot)
    }
}

impl<'a, R: Record> Snapshot<'a, R> {
    /// Adds the growths that the seat knows and the snapshot doesn't have, of memory as much as `Live::snapshot` takes.
    /// The two must agree on the growths that both have, as they do where the seat is the one that it was made from, or
    /// has met that. Where the seat knows no more, and on `Memory`, it stays as it is.
    pub fn update(&mut self, seat: &mut Seat<R>) -> Result<(), GrowFault>
        requires of { IsSeatOf self.old.of seat.old }
        requires agree { Agree self.old.growths (growth_records seat.old) }
        ensures same { seat.new ≡ seat.old }
        ensures more { OnOk result (
            length self.old.growths ≤ length seat.old.pass.entries → ShowsSeat self.old.of seat.old self.new) }
        ensures no_more { length seat.old.pass.entries ≤ length self.old.growths → self.new ≡ self.old }
        ensures of { self.new.of ≡ self.old.of }
        ensures refused { IfErr result (λ fault. (fault ≡ GrowFault.Memory)
            × (length self.old.growths < length seat.old.pass.entries)
            × (self.new ≡ self.old)) }
    {
        let has = self.slices.count() - self.blocks;
        let knows = seat.known() as usize;
        if knows <= has {
            return Ok(());
        }
        self.slices.reserve(knows - has)?;
        add_growths(&mut self.slices, self.live, &mut seat.pass, has);
        self.slices.lay_hints();
        Ok(())
    }

    /// How many records it has.
    pub fn len(&self) -> u64
        ensures is { result ≡ length (list_in self.now) }
        ensures in_limit { result ≤ record_limit }
    {
        self.slices.len()
    }

    /// Whether it has no record.
    pub fn is_empty(&self) -> bool
        ensures { IsTrue result ↔ (list_in self.now ≡ []) }
    {
        self.len() == 0
    }

    /// The record at position `i`. `None` past the end.
    #[inline]
    pub fn get(&self, i: u64) -> Option<&'a R>
        ensures { MatchOption result
            (length (list_in self.now) ≤ i)
            (λ found. slice_get (list_in self.now) i ≡ Some found.now) }
    {
        self.slices.get(i)
    }

    /// The record at each of the positions, over what stands in `out`. None of the records is read, so who then reads them
    /// one after another has many under way at once: a few dozen positions in a call do.
    pub fn get_many(&self, positions: &[u64], out: &mut [Option<&'a R>])
        requires { length positions.now ≡ length out.old }
        ensures as_many { length out.new ≡ length out.old }
        ensures each { AreFoundAt (list_in self.now) positions.now out.new }
    {
        for (at, i) in positions.iter().enumerate() {
            out[at] = self.get(*i);
        }
    }

    /// The records from position `i` to the end of its slice. `None` past the end.
    pub fn piece(&self, i: u64) -> Option<&'a [R]>
        ensures value { MatchOption result
            (length (list_in self.now) ≤ i)
            (λ piece. IsRestOfPiece (pieces_in self.now) i piece.now) }
        ensures in_order { IfSome result (λ piece. IsPieceAt (list_in self.now) i piece.now) }
    {
        self.slices.piece(i)
    }

    /// All its slices, in order.
    pub fn pieces(&self) -> &[&'a [R]]
        ensures are { map (λ piece. piece.now) result.now ≡ pieces_in self.now }
        ensures full { AreFull (pieces_in self.now) }
    {
        self.slices.as_slice()
    }

    /// All its records, in order.
    pub fn iter(&self) -> Records<'_, 'a, R>
        ensures { result ≡ list_in self.now }
    {
        Records::of(self.slices.as_slice(), self.slices.len() as usize)
    }
}
