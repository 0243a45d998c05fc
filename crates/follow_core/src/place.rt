//! A place in a file from which a follower can go on, as one word.

ghost use Rattle.std.specs.Prelude.{◌≡◌, ◌≢◌, ◌<◌, ◌^◌, ℕ, List, decimal, IfSome, IfNone, OnOk};
ghost use Rattle.std.specs.Io.KnownBytes.{Appends};
ghost use Rattle.text_core.specs.Halves.{halves_text};
ghost use Rattle.follow_core.specs.Place.{IsPlace, place_text};

use beside_core::Bookmark;
use segment_core::Tally;
use std::io;
use std::io::Write;
use text_core::{TextRecord, cut, write_number};

/// A bookmark as numbers. As a word it is these in their order, with a colon between each two.
#[derive(Clone, Copy, Debug, PartialEq, Eq)]
pub struct Place {
    /// The byte at which the next frame begins.
    pub gate: u64,
    /// The vector's length in records there.
    pub size: u64,
    /// The changes of the file before it.
    pub changes: u64,
    /// Those of them that stand in their home bytes.
    pub folded: u64,
}

/// The number before the first colon, and what stands behind that.
fn number_before_colon(text: &[u8]) -> Option<(u64, &[u8])>
    ensures found { IfSome result (λ found. (found.0 < 2 ^ 64) × (text.now ≡ halves_text (decimal found.0) found.1.now)) }
    ensures refused { IfNone result ((n : ℕ) → n < 2 ^ 64 → (rest : List ℕ) → text.now ≢ halves_text (decimal n) rest) }
{
    let (first, rest) = cut(text, b':');
    match rest {
        None => None,
        Some(behind) => match u64::parse(first) {
            None => None,
            Some(number) => Some((number, behind)),
        },
    }
}

/// The place that this word is. `None`: it is none.
pub fn read_place(word: &[u8]) -> Option<Place>
    ensures found { IfSome result (λ place. IsPlace place × (place_text place ≡ word.now)) }
    ensures one { IfSome result (λ place. (other : Place) → IsPlace other → place_text other ≡ word.now → other ≡ place) }
    ensures refused { IfNone result ((place : Place) → IsPlace place → place_text place ≢ word.now) }
{
    let (gate, rest) = number_before_colon(word)?;
    let (size, rest) = number_before_colon(rest)?;
    let (changes, rest) = number_before_colon(rest)?;
    let folded = u64::parse(rest)?;
    Some(Place {
        gate,
        size,
        changes,
        folded,
    })
}

/// Writes a place as a word.
pub fn write_place<W: Write>(place: Place, writer: &mut W) -> io::Result<()>
    ensures { OnOk result (Appends (W.contents writer.old) (W.contents writer.new) (place_text place)) }
{
    write_number(writer, place.gate)?;
    writer.write_all(b":")?;
    write_number(writer, place.size)?;
    writer.write_all(b":")?;
    write_number(writer, place.changes)?;
    writer.write_all(b":")?;
    write_number(writer, place.folded)
}

impl Place {
    ghost use Rattle.std.specs.Prelude.{◌≡◌};
    ghost use Rattle.follow_core.specs.Place.{IsPlaceOf};

    /// Where a bookmark lies.
    pub(crate) fn of(mark: &Bookmark) -> Place
        ensures { IsPlaceOf mark.now result }
    {
        let Tally {
            size,
            changes,
            folded,
        } = mark.tally();
        Place {
            gate: mark.gate(),
            size,
            changes,
            folded,
        }
    }

    /// What the frames before it leave.
    pub(crate) fn tally(&self) -> Tally
        ensures size { result.size ≡ self.now.size }
        ensures changes { result.changes ≡ self.now.changes }
        ensures folded { result.folded ≡ self.now.folded }
    {
        Tally {
            size: self.size,
            changes: self.changes,
            folded: self.folded,
        }
    }
}
