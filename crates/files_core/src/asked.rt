//! What the words of a command ask for.

ghost use Rattle.std.specs.Prelude.{◌≡◌, ◌-◌, ◌^◌, ◌⊎◌, ℕ, MatchResult, IfOk, IfErr};
ghost use Rattle.std.specs.Option.{option_copied};
ghost use Rattle.files_core.specs.Asked.{IsNumber, IsNumberOr, IsNoNumber, IsRecord, SpellsRecords, IsRecordsRefusal};

use crate::fault::{FileFault, Word};
use std::alloc::Global;
use text_core::{Refusal, TextRecord, cut};

/// What `set` is asked for: these records from position `start` on.
#[derive(Drop)]
pub struct Setting<R> {
    pub start: u64,
    pub records: Vec<R>,
}

/// What `resize` is asked for: so many records, new ones as this one.
#[derive(Clone, Copy)]
pub struct Resizing<R> {
    pub len: u64,
    pub filler: R,
}

/// Which positions `list` lists: `count` of them at most, from `from` on.
#[derive(Clone, Copy)]
pub struct Window {
    pub from: u64,
    pub count: u64,
}

impl Window {
    /// All positions.
    pub const ALL: Window = Window {
        from: 0,
        count: u64::MAX,
    };
}

/// The number that a word is, in decimal digits, without a zero in front.
fn number_of(text: &[u8], word: Word) -> Result<u64, FileFault>
    ensures { MatchResult result (IsNumber text.now) (λ fault. (fault ≡ FileFault.Word word) × ((n : ℕ) → IsNumber text.now n → ⊥)) }
{
    u64::parse(text).ok_or(FileFault::Word(word))
}

/// The record that a word is: RECORD of `count` and `find`. Refused: `Word`.
pub fn read_record<R: TextRecord>(text: &[u8]) -> Result<R, FileFault>
    ensures { MatchResult result (IsRecord R.spelling text.now) (λ fault. (fault ≡ FileFault.Word Word.Record) × ((r : R) → IsRecord R.spelling text.now r → ⊥)) }
{
    R::parse(text).ok_or(FileFault::Word(Word::Record))
}

/// The position that a word is: START of `set`. Refused: `Word`.
pub fn read_start(text: &[u8]) -> Result<u64, FileFault>
    ensures { MatchResult result (IsNumber text.now) (λ fault. (fault ≡ FileFault.Word Word.Start) × ((n : ℕ) → IsNumber text.now n → ⊥)) }
{
    number_of(text, Word::Start)
}

/// The records of a word, with a comma between each two: RECORDS of `set`. Refused: `Word`; and `Input` for want of memory.
pub fn read_records<R: TextRecord>(alloc: Global, text: &[u8]) -> Result<Vec<R>, FileFault>
    ensures read { IfOk result (λ records. SpellsRecords R.spelling text.now records.items) }
    ensures refused { IfErr result (IsRecordsRefusal R.spelling text.now) }
{
    let mut records = Vec::new(alloc);
    let mut rest = Some(text);
    while let Some(words) = rest {
        let (word, after) = cut(words, b',');
        let Some(value) = R::parse(word) else {
            return Err(FileFault::Word(Word::Records));
        };
        match records.push(value) {
            Ok(()) => {}
            Err(_) => return Err(FileFault::Input(Refusal::Memory)),
        }
        rest = after;
    }
    Ok(records)
}

/// What the words N and RECORD of `resize` ask for. Refused, in this order: `Word(Length)`, `Word(Record)`.
pub fn read_resizing<R: TextRecord>(len: &[u8], text: &[u8]) -> Result<Resizing<R>, FileFault>
    ensures read { IfOk result (λ resizing. IsNumber len.now resizing.len × IsRecord R.spelling text.now resizing.filler) }
    ensures refused { IfErr result (λ fault. ((fault ≡ FileFault.Word Word.Length) × ((n : ℕ) → IsNumber len.now n → ⊥))
        ⊎ ((fault ≡ FileFault.Word Word.Record) × ((n : ℕ) × IsNumber len.now n) × ((r : R) → IsRecord R.spelling text.now r → ⊥))) }
{
    let len = match number_of(len, Word::Length) {
        Ok(len) => len,
        Err(fault) => return Err(fault),
    };
    match read_record(text) {
        Ok(filler) => Ok(Resizing { len, filler }),
        Err(fault) => Err(fault),
    }
}

/// The number that a word is, or another where there is no word.
fn number_or(text: Option<&[u8]>, other: u64, word: Word) -> Result<u64, FileFault>
    ensures { MatchResult result (IsNumberOr (option_copied text.entry) other) (λ fault. (fault ≡ FileFault.Word word) × IsNoNumber (option_copied text.entry)) }
{
    match text {
        Some(text) => number_of(text, word),
        None => Ok(other),
    }
}

/// What the words FROM and COUNT of `list` ask for: all positions, where they aren't there. Refused, in this order:
/// `Word(From)`, `Word(Count)`.
pub fn read_window(from: Option<&[u8]>, count: Option<&[u8]>) -> Result<Window, FileFault>
    ensures read { IfOk result (λ window. IsNumberOr (option_copied from.entry) 0 window.from × IsNumberOr (option_copied count.entry) (2 ^ 64 - 1) window.count) }
    ensures refused { IfErr result (λ fault. ((fault ≡ FileFault.Word Word.From) × IsNoNumber (option_copied from.entry))
        ⊎ ((fault ≡ FileFault.Word Word.Count) × ((n : ℕ) × IsNumberOr (option_copied from.entry) 0 n) × IsNoNumber (option_copied count.entry))) }
{
    let from = match number_or(from, Window::ALL.from, Word::From) {
        Ok(from) => from,
        Err(fault) => return Err(fault),
    };
    match number_or(count, Window::ALL.count, Word::Count) {
        Ok(count) => Ok(Window { from, count }),
        Err(fault) => Err(fault),
    }
}
