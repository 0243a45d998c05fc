//! Growths that are dealt to the growers of a crew, one after the other, slice by slice.

ghost use Rattle.std.specs.Prelude.{◌≡◌, ◌<◌, ◌≤◌, ◌^◌, ◌+◌, ◌-◌, ◌*◌, List, [], length, drop, true, false, MatchOption};
ghost use Rattle.load_core.specs.Dealt.{behind_slice, count_for, dealt, slice_limit, slice_of};
ghost use Rattle.load_core.specs.Loading.{AreDealtBy};

use block_core::{Fresh, FreshFault};
use crew_core::Source;
use directory_core::GROWTH_LIMIT;
use record_core::Record;
use segment_core::Growths;
use std::alloc::Global;

/// A source that is made of growths, and has one slice of them after the other in hand: as many as a phase takes, so that
/// growth `k` of them all, counted from 0, is for grower `k` modulo the number of growers.
pub trait Deck<R: Record>: Source<R> {
    /// All growths.
    ghost growths_of: { Self → List (List R) };

    /// Those of the slice in hand, and those behind it.
    ghost left_of: { Self → List (List R) };

    /// Deals the first slice of growths to so many growers. `None`: there is no grower.
    fn deal(growths: Growths<R>, growers: u16) -> Option<Self>
        ensures { MatchOption result (growers ≡ 0) (λ deck. (Self.growers_of deck ≡ growers) × (Self.growths_of deck ≡ growths.0) × (Self.left_of deck ≡ growths.0)
            × AreDealtBy (slice_of growers (Self.left_of deck)) growers (Self.growers_of deck) (Self.count_of deck) (Self.block_of deck)) };

    /// How many growths there are up to the end of the slice in hand.
    fn dealt_so_far(&self) -> u64
        ensures { result ≡ length (Self.growths_of self.now) - length (behind_slice (Self.growers_of self.now) (Self.left_of self.now)) };

    /// Deals the next slice. `false`: none is left.
    fn go_on(&mut self) -> bool
        ensures same { (Self.growers_of self.new ≡ Self.growers_of self.old) × (Self.growths_of self.new ≡ Self.growths_of self.old) }
        ensures goes { result ≡ true → (Self.left_of self.new ≡ behind_slice (Self.growers_of self.old) (Self.left_of self.old)) × (length (Self.left_of self.new) < length (Self.left_of self.old))
            × AreDealtBy (slice_of (Self.growers_of self.old) (Self.left_of self.new)) (Self.growers_of self.old) (Self.growers_of self.new) (Self.count_of self.new) (Self.block_of self.new) }
        ensures ends { result ≡ false → behind_slice (Self.growers_of self.old) (Self.left_of self.old) ≡ [] };
}

/// Growths, each for one of so many growers.
#[derive(Drop)]
pub struct Dealt<R> {
    growths: Growths<R>,
    growers: u16,
    count: usize,
    /// Where the slice in hand begins.
    from: usize,
    ghost some: { 0 < growers },
    ghost count_is: { (count ≡ length growths.0) × (count < 2 ^ 64) },
    ghost inside: { from ≤ count },
}

/// How many growths a phase of so many growers takes.
fn slice_limit(growers: u16) -> usize
    requires { 0 < growers }
    ensures { result ≡ slice_limit growers }
{
    let growers = growers as usize;
    GROWTH_LIMIT as usize / growers * growers
}

/// How many of the growths of a slice are for a grower.
fn count_for(growths: usize, growers: u16, grower: u16) -> u32
    requires some { 0 < growers }
    requires few { growths ≤ slice_limit growers }
    ensures { result ≡ count_for growths growers grower }
{
    growths
        .saturating_sub(grower as usize)
        .div_ceil(growers as usize) as u32
}

impl<R: Copy> Dealt<R> {
    fn new(growths: Growths<R>, growers: u16) -> Option<Dealt<R>>
        ensures { MatchOption result (growers ≡ 0) (λ deck. (deck.growths ≡ growths) × (deck.growers ≡ growers) × (deck.from ≡ 0)) }
    {
        if growers == 0 {
            return None;
        }
        let count = growths.count();
        Some(Dealt {
            growths,
            growers,
            count,
            from: 0,
        })
    }

    /// How many growths the slice in hand has.
    fn in_hand(&self) -> usize
        ensures is { result ≡ length (slice_of self.now.growers (drop self.now.from self.now.growths.0)) }
        ensures few { result ≤ slice_limit self.now.growers }
        ensures inside { self.now.from + result ≤ length self.now.growths.0 }
    {
        (self.count - self.from).min(slice_limit(self.growers))
    }

    /// A grower's growth of that number.
    fn growth(&self, grower: u16, k: u32) -> &[R]
        requires grower { grower < self.now.growers }
        requires k { k < count_for (length (slice_of self.now.growers (drop self.now.from self.now.growths.0))) self.now.growers grower }
        ensures { result.now ≡ dealt (slice_of self.now.growers (drop self.now.from self.now.growths.0)) self.now.growers grower k }
    {
        let within = k as usize * self.growers as usize + grower as usize;
        self.growths.growth(self.from + within)
    }
}

/// It lends each growth, so a crew asks for no block. Who asks for one is answered `Memory`: the toolchain passes no method of
/// a trait, over each `R: Record` at once, that calls a function over such an `R`, as what makes a block is.
impl<R: Record> Source<R> for Dealt<R> {
    ghost growers_of = { λ s. s.growers };

    ghost count_of = { λ s. count_for (length (slice_of s.growers (drop s.from s.growths.0))) s.growers };

    ghost block_of = { λ s. dealt (slice_of s.growers (drop s.from s.growths.0)) s.growers };

    fn growers(&self) -> u16 {
        self.growers
    }

    fn count(&self, grower: u16) -> u32 {
        count_for(self.in_hand(), self.growers, grower)
    }

    fn block(&self, _alloc: Global, _grower: u16, _k: u32) -> Result<Fresh<R>, FreshFault> {
        Err(FreshFault::Memory)
    }

    fn records(&self, grower: u16, k: u32) -> Option<&[R]>
        requires grower { grower < self.now.growers }
        requires k { k < count_for (length (slice_of self.now.growers (drop self.now.from self.now.growths.0))) self.now.growers grower }
        ensures { MatchOption result ⊥ (λ records. records.now ≡ dealt (slice_of self.now.growers (drop self.now.from self.now.growths.0)) self.now.growers grower k) }
    {
        Some(self.growth(grower, k))
    }
}

impl<R: Record> Deck<R> for Dealt<R> {
    ghost growths_of = { λ s. s.growths.0 };

    ghost left_of = { λ s. drop s.from s.growths.0 };

    fn deal(growths: Growths<R>, growers: u16) -> Option<Dealt<R>>
        ensures { MatchOption result (growers ≡ 0) (λ deck. (deck.growers ≡ growers) × (deck.growths.0 ≡ growths.0) × (drop deck.from deck.growths.0 ≡ growths.0)
            × AreDealtBy (slice_of growers (drop deck.from deck.growths.0)) growers deck.growers (count_for (length (slice_of deck.growers (drop deck.from deck.growths.0))) deck.growers)
            (dealt (slice_of deck.growers (drop deck.from deck.growths.0)) deck.growers)) }
    {
        Dealt::new(growths, growers)
    }

    fn dealt_so_far(&self) -> u64
        ensures { result ≡ length self.now.growths.0 - length (behind_slice self.now.growers (drop self.now.from self.now.growths.0)) }
    {
        (self.from + self.in_hand()) as u64
    }

    fn go_on(&mut self) -> bool
        ensures same { (self.new.growers ≡ self.old.growers) × (self.new.growths.0 ≡ self.old.growths.0) }
        ensures goes { result ≡ true → (drop self.new.from self.new.growths.0 ≡ behind_slice self.old.growers (drop self.old.from self.old.growths.0))
            × (length (drop self.new.from self.new.growths.0) < length (drop self.old.from self.old.growths.0))
            × AreDealtBy (slice_of self.old.growers (drop self.new.from self.new.growths.0)) self.old.growers self.new.growers
            (count_for (length (slice_of self.new.growers (drop self.new.from self.new.growths.0))) self.new.growers)
            (dealt (slice_of self.new.growers (drop self.new.from self.new.growths.0)) self.new.growers) }
        ensures ends { result ≡ false → behind_slice self.old.growers (drop self.old.from self.old.growths.0) ≡ [] }
    {
        let next = self.from + self.in_hand();
        if next == self.count {
            return false;
        }
        self.from = next;
        true
    }
}
