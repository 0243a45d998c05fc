//! Lines of floats as lines of the numbers that have their bits.

ghost use Rattle.std.specs.Prelude.{◌≡◌, ◌++◌, ◌∷◌, ◌<◌, ◌⊎◌, ℕ, List, [], true, length, take, slice_index, MatchOption, OnOk, decimal};
ghost use Rattle.float_core.specs.Encoded.{first_place, ends_word, IsBehind, IsFloatWord, IsGiven, IsWordGiven, IsPlain, IsEncoded};

use crate::float::FloatType;
use std::alloc::{AllocError, Global};
use std::marker::Model;
use std::mem;
use text_core::BAR;

/// The bytes that a word may have at most to be a float: each has a text of fewer, with all its digits.
const WORD_LIMIT: usize = 4096;

/// Which words of the lines of an input are records.
#[derive(Clone, Copy, Debug, PartialEq, Eq)]
pub enum FloatLines {
    /// All of them: growths, and groups of growths with bars between them.
    Growths,
    /// Those of the steps of a script: behind the verb and a number, and behind a bar and a number. `share` has numbers alone.
    Steps,
}

/// What the next word of a line is.
#[derive(Clone, Copy, Debug, PartialEq, Eq)]
pub enum Place {
    Verb,
    Number,
    Record,
    /// Neither this word nor one behind it is a record.
    Nowhere,
}

/// Appends the number that has the bits of the float that the word is. A word that is none stays: it is no number then.
pub fn append_bits(float: FloatType, word: &[u8], out: &mut Vec<u8>) -> Result<(), AllocError>
    ensures { OnOk result (((bits : ℕ) × IsFloatWord float word.now bits × (out.new.items ≡ out.old.items ++ decimal bits))
        ⊎ (((bits : ℕ) → ¬ (IsFloatWord float word.now bits)) × (out.new.items ≡ out.old.items ++ word.now))) }
{
    if word.len() > WORD_LIMIT {
        return out.extend_from_slice(word);
    }
    match float.bits_of_text(word) {
        Some(bits) => out.extend_from_slice(itoa::Buffer::new().format(bits).as_bytes()),
        None => out.extend_from_slice(word),
    }
}

/// Appends what is given for a word at this place of its line.
fn append_given(
    float: FloatType,
    place: Place,
    word: &[u8],
    out: &mut Vec<u8>,
) -> Result<(), AllocError>
    ensures { OnOk result ((given : List ℕ) × (out.new.items ≡ out.old.items ++ given) × IsGiven float place word.now given) }
{
    match place {
        Place::Record => append_bits(float, word, out),
        _ => out.extend_from_slice(word),
    }
}

/// How many bytes stand before the first that ends a word. `None`: no word ends.
fn word_len(bytes: &[u8]) -> Option<usize>
    ensures { MatchOption result (IsPlain bytes.now) (λ at. (at < length bytes.now) × IsPlain (take at bytes.now) × (ends_word (slice_index bytes.now at) ≡ true)) }
{
    bytes.iter().position(|b| *b == b' ' || *b == b'\n')
}

/// What the first word of a line is.
fn first_place(lines: FloatLines) -> Place
    ensures { result ≡ first_place lines }
{
    match lines {
        FloatLines::Growths => Place::Record,
        FloatLines::Steps => Place::Verb,
    }
}

/// What the word behind this one is.
fn place_behind(lines: FloatLines, place: Place, word: &[u8]) -> Place
    ensures { IsBehind lines place word.now result }
{
    match (lines, place) {
        (FloatLines::Growths, _) => Place::Record,
        (FloatLines::Steps, Place::Verb) if word == b"share".as_slice() => Place::Nowhere,
        (FloatLines::Steps, Place::Verb) => Place::Number,
        (FloatLines::Steps, Place::Number) => Place::Record,
        (FloatLines::Steps, Place::Record) if word == BAR => Place::Number,
        (FloatLines::Steps, _) => place,
    }
}

/// Takes the bytes of an input piece by piece. A word that has no end yet is held back.
#[derive(Drop)]
pub struct Encoder {
    pub(crate) float: FloatType,
    pub(crate) lines: FloatLines,
    pub(crate) place: Place,
    pub(crate) held: Vec<u8>,
}

impl Model for Encoder {
    ghost use Rattle.std.specs.Prelude.{◌≤◌, length};
    ghost use Rattle.float_core.specs.Encoded.{Reading, IsPlain};

    ghost Value = { Reading };

    ghost view = { λ encoder. record {
      float = encoder.float;
      lines = encoder.lines;
      place = encoder.place;
      held = encoder.held.items;
    } };

    ghost invariant = { λ encoder. IsPlain encoder.held.items × (length encoder.held.items ≤ 4096) };
}

impl Encoder {
    pub fn new(alloc: Global, float: FloatType, lines: FloatLines) -> Encoder
        ensures { (result.float ≡ float) × (result.lines ≡ lines) × (result.place ≡ first_place lines) × (result.held ≡ []) }
    {
        Encoder {
            float,
            lines,
            place: first_place(lines),
            held: Vec::new(alloc),
        }
    }

    /// Appends what is given for a word, and what the next one is is known then.
    fn append_word(&mut self, word: &[u8], out: &mut Vec<u8>) -> Result<(), AllocError>
        ensures given { OnOk result ((given : List ℕ) × (out.new.items ≡ out.old.items ++ given) × IsGiven self.old.float self.old.place word.now given
            × IsBehind self.old.lines self.old.place word.now self.new.place) }
        ensures same { (self.new.float ≡ self.old.float) × (self.new.lines ≡ self.old.lines) × (self.new.held ≡ self.old.held) }
    {
        append_given(self.float, self.place, word, out)?;
        self.place = place_behind(self.lines, self.place, word);
        Ok(())
    }

    /// Appends what is given for the word that ends with these bytes, if there is one.
    fn end_word(&mut self, tail: &[u8], out: &mut Vec<u8>) -> Result<(), AllocError>
        requires { IsPlain tail.now }
        ensures plain { IsPlain (self.old.held ++ tail.now) }
        ensures given { OnOk result ((given : List ℕ) × (out.new.items ≡ out.old.items ++ given)
            × IsWordGiven self.old.float self.old.lines self.old.place (self.old.held ++ tail.now) given self.new.place × (self.new.held ≡ [])) }
        ensures same { (self.new.float ≡ self.old.float) × (self.new.lines ≡ self.old.lines) }
    {
        if self.held.is_empty() {
            return if tail.is_empty() {
                Ok(())
            } else {
                self.append_word(tail, out)
            };
        }
        self.held.extend_from_slice(tail)?;
        let alloc = *self.held.allocator();
        let mut word = mem::replace(&mut self.held, Vec::new(alloc));
        self.append_word(word.as_slice(), out)?;
        word.clear();
        self.held = word;
        Ok(())
    }

    /// Holds bytes of a word back. Those of too long a word, which is no float, are given as they are.
    fn hold(&mut self, bytes: &[u8], out: &mut Vec<u8>) -> Result<(), AllocError>
        requires { IsPlain bytes.now }
        ensures { OnOk result ((own : List ℕ) × (out.new.items ≡ out.old.items ++ own) × IsEncoded self.old bytes.now own self.new) }
    {
        if self.held.len().saturating_add(bytes.len()) <= WORD_LIMIT {
            return self.held.extend_from_slice(bytes);
        }
        out.extend_from_slice(self.held.as_slice())?;
        out.extend_from_slice(bytes)?;
        self.held.clear();
        Ok(())
    }

    /// Takes the last bytes of a word, and what ends it.
    fn take_word(&mut self, tail: &[u8], end: u8, out: &mut Vec<u8>) -> Result<(), AllocError>
        requires { IsPlain tail.now × (ends_word end ≡ true) }
        ensures { OnOk result ((own : List ℕ) × (out.new.items ≡ out.old.items ++ own) × IsEncoded self.old (tail.now ++ end ∷ []) own self.new) }
    {
        self.end_word(tail, out)?;
        out.push(end)?;
        if end == b'\n' {
            self.place = first_place(self.lines);
        }
        Ok(())
    }

    /// Appends what is given for these bytes and for those that had been held back.
    pub fn append_encoded(&mut self, bytes: &[u8], out: &mut Vec<u8>) -> Result<(), AllocError>
        ensures { OnOk result ((own : List ℕ) × (out.new.items ≡ out.old.items ++ own) × IsEncoded self.old bytes.now own self.new) }
    {
        let mut rest = bytes;
        while let Some(at) = word_len(rest) {
            self.take_word(&rest[..at], rest[at], out)?;
            rest = &rest[at + 1..];
        }
        self.hold(rest, out)
    }

    /// Appends what is given for the bytes that are held back: the input has ended.
    pub fn end(&mut self, out: &mut Vec<u8>) -> Result<(), AllocError>
        ensures { OnOk result ((given : List ℕ) × (out.new.items ≡ out.old.items ++ given)
            × IsWordGiven self.old.float self.old.lines self.old.place self.old.held given self.new.place × (self.new.held ≡ [])) }
    {
        self.end_word(&[], out)
    }
}
