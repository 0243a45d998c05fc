//! Lines of records, one growth each.

ghost use Rattle.std.specs.Prelude.{◌≡◌, ◌≢◌, ◌≤◌, ◌↔◌, ◌+◌, ◌++◌, ◌∷◌, ◌<◌, ◌^◌, [], ℕ, List, None, length, OnOk, IfOk, IfErr, IfSome, MatchResult};
ghost use Rattle.record_core.specs.Limits.{payload_limit};
ghost use Rattle.block_core.specs.Length.{payload_len};
ghost use Rattle.text_core.specs.Refusals.{input_limit};
ghost use Rattle.text_core.specs.Words.{BringsRecord};
ghost use Rattle.lines_core.specs.Excerpts.{IsRefusedShown};
ghost use Rattle.lines_core.specs.GrowthLines.{AllGrowthsFit, AreGrowthLines, IsFirstTooLarge, IsGrowthLine, IsGrowthLineOf, IsLinesRefusal, IsSpellingRefusal};

use crate::excerpt::Excerpt;
use record_core::{GROWTH_HEAD_LEN, PAYLOAD_LIMIT, width_of};
use segment_core::Growths;
use std::alloc::Global;
use std::io::Read;
use text_core::{LineFault, Refusal, TextRecord, cut, cut_far, read_input};

/// Takes in one word of a growth line: a record.
fn take_word<R: TextRecord>(word: &[u8], growths: &mut Growths<R>) -> Result<(), LineFault>
    ensures ok { OnOk result (BringsRecord R.spelling word.now growths.old.0 growths.old.1 growths.new.0 growths.new.1) }
    ensures bad { result ≡ Err LineFault.Bad → (r : R) → R.spelling.is_value r → R.spelling.text_of r ≢ word.now }
{
    match R::parse(word) {
        None => Err(LineFault::Bad),
        Some(value) => match growths.push(value) {
            Ok(()) => Ok(()),
            Err(_) => Err(LineFault::Memory),
        },
    }
}

/// Reads the growth that a line spells, its records with a space between each two, behind those that were read.
fn read_growth<R: TextRecord>(line: &[u8], growths: &mut Growths<R>) -> Result<(), LineFault>
    requires { growths.old.1 ≡ [] }
    ensures read { OnOk result ((growth : List R) × IsGrowthLineOf R.spelling line.now growth × (growths.new ≡ (growths.old.0 ++ growth ∷ [], []))) }
    ensures bad { result ≡ Err LineFault.Bad → ¬ (IsGrowthLine R.spelling line.now) }
{
    let mut rest = Some(line);
    while let Some(text) = rest {
        let (word, after) = cut(text, b' ');
        take_word(word, growths)?;
        rest = after;
    }
    if !growths.is_begun() {
        return Err(LineFault::Bad);
    }
    growths.end().map_err(|_| LineFault::Memory)
}

/// How many records a growth has at most.
fn greatest_growth<R: TextRecord>() -> usize
    ensures { (n : ℕ) → (n ≤ result) ↔ (payload_len R.form.width n ≤ payload_limit) }
{
    (PAYLOAD_LIMIT - GROWTH_HEAD_LEN) / width_of::<R>()
}

/// Whether each growth fits one frame. Refused: `TooLargeAtLine`, with the number, from 1, of the first that doesn't.
pub(crate) fn check_sizes<R: TextRecord>(growths: &Growths<R>) -> Result<(), Refusal>
    ensures { MatchResult result (λ _. AllGrowthsFit R.form.width growths.now.0) (λ refusal. (k : ℕ) × IsFirstTooLarge R.form.width growths.now.0 k × (refusal ≡ Refusal.TooLargeAtLine (k + 1))) }
{
    let greatest = greatest_growth::<R>();
    for k in 0..growths.count() {
        if growths.growth(k).len() > greatest {
            return Err(Refusal::TooLargeAtLine(k as u64 + 1));
        }
    }
    Ok(())
}

/// The growths that the lines spell, one each, whatever their sizes. Of a line that is refused an excerpt is left.
pub(crate) fn read_lines<R: TextRecord>(
    alloc: Global,
    input: &[u8],
    shown: &mut Option<Excerpt>,
) -> Result<Growths<R>, Refusal>
    ensures read { IfOk result (λ growths. AreGrowthLines R.spelling input.now growths.0) }
    ensures refused { IfErr result (IsSpellingRefusal R.spelling input.now) }
    ensures shown { IfSome shown.new (IsRefusedShown R.spelling input.now result) }
    ensures none { IfOk result (λ _. shown.new ≡ None) }
{
    *shown = None;
    let mut growths = Growths::<R>::new(alloc);
    let mut lines = 0u64;
    let mut rest = input;
    while !rest.is_empty() {
        let (line, after) = cut_far(rest, b'\n');
        lines += 1;
        match read_growth(line, &mut growths) {
            Ok(()) => {}
            Err(LineFault::Bad) => {
                *shown = Some(Excerpt::of_bad_word::<R>(line, b' '));
                return Err(Refusal::Line(lines));
            }
            Err(LineFault::Memory) => return Err(Refusal::Memory),
        }
        rest = after.unwrap_or(&[]);
    }
    Ok(growths)
}

/// The growths that the lines spell, one each. Each line is read before a size is tested.
fn growths_of_lines<R: TextRecord>(
    alloc: Global,
    input: &[u8],
    shown: &mut Option<Excerpt>,
) -> Result<Growths<R>, Refusal>
    ensures read { IfOk result (λ growths. AreGrowthLines R.spelling input.now growths.0 × AllGrowthsFit R.form.width growths.0) }
    ensures refused { IfErr result (IsLinesRefusal R.form.width R.spelling input.now) }
    ensures shown { IfSome shown.new (IsRefusedShown R.spelling input.now result) }
    ensures none { IfOk result (λ _. shown.new ≡ None) }
{
    let growths = read_lines(alloc, input, shown)?;
    match check_sizes(&growths) {
        Ok(()) => Ok(growths),
        Err(refusal) => Err(refusal),
    }
}

/// Reads an input: lines of records with a space between each two, one growth each, of at most `INPUT_LIMIT` bytes. Empty
/// input is no growth.
///
/// Refused: `Input`, where a read failed; `InputTooLong`; `Line`, for the first line that isn't of the form; `TooLargeAtLine`,
/// where all lines are, for the first one whose growth is past the longest payload; `Memory`. Where it is `Line`, an excerpt
/// of that line is left.
pub fn growths_of_input<R: TextRecord, I: Read>(
    alloc: Global,
    reader: &mut I,
    shown: &mut Option<Excerpt>,
) -> Result<Growths<R>, Refusal>
    ensures read { IfOk result (λ growths. IfSome (I.remaining reader.old) (λ input. AreGrowthLines R.spelling input growths.0)) }
    ensures within { IfOk result (λ _. IfSome (I.remaining reader.old) (λ input. length input ≤ input_limit)) }
    ensures fit { IfOk result (λ growths. AllGrowthsFit R.form.width growths.0) }
    ensures refused { IfErr result (λ refusal. IfSome (I.remaining reader.old) (λ input. IsLinesRefusal R.form.width R.spelling input refusal)) }
    ensures shown { IfSome shown.new (λ excerpt. IfSome (I.remaining reader.old) (λ input. IsRefusedShown R.spelling input result excerpt)) }
    ensures none { IfOk result (λ _. shown.new ≡ None) }
{
    *shown = None;
    let input = match read_input(alloc, reader) {
        Ok(input) => input,
        Err(refusal) => return Err(refusal),
    };
    growths_of_lines::<R>(alloc, input.as_slice(), shown)
}
