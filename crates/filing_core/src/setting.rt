//! What `set` is asked for: its records are those of a word, or of the input.

ghost use Rattle.std.specs.Prelude.{◌≡◌, ◌≤◌, ℕ, None, length, IfOk, IfErr, IfSome, MatchOption};
ghost use Rattle.std.specs.Option.{option_copied};
ghost use Rattle.text_core.specs.Refusals.{input_limit};
ghost use Rattle.files_core.specs.Asked.{IsNumber};
ghost use Rattle.lines_core.specs.Excerpts.{IsBadLineShown};
ghost use Rattle.lines_core.specs.GrowthLines.{AreLineRecords};
ghost use Rattle.filing_core.specs.Asked.{AreSetRecords, IsNoSetRecords, IsNoSetting};

use files_core::{FileFault, Setting, read_records, read_start};
use lines_core::{Excerpt, records_of_input};
use std::alloc::Global;
use std::io::Read;
use text_core::{Refusal, TextRecord};

/// The bytes of a word, if there is one.
pub fn bytes_of_word(word: Option<&str>) -> Option<&[u8]>
    ensures { option_copied result ≡ option_copied word.entry }
{
    match word {
        Some(word) => Some(word.as_bytes()),
        None => None,
    }
}

/// The records of a word, or where there is none those of all lines of the input. Of a line that is no growth line an excerpt
/// is left.
fn records_of<R: TextRecord, I: Read>(
    alloc: Global,
    word: Option<&[u8]>,
    reader: &mut I,
    shown: &mut Option<Excerpt>,
) -> Result<Vec<R>, FileFault>
    requires { shown.old ≡ None }
    ensures read { IfOk result (λ records. AreSetRecords R.spelling (option_copied word.entry) (I.remaining reader.old) records.items) }
    ensures refused { IfErr result (IsNoSetRecords R.spelling (option_copied word.entry) (I.remaining reader.old)) }
    ensures shown { MatchOption (option_copied word.entry)
        (IfSome shown.new (λ excerpt. IfSome (I.remaining reader.old) (λ input.
        (n : ℕ) × (result ≡ Err (FileFault.Input (Refusal.Line n))) × IsBadLineShown R.spelling input n excerpt)))
        (λ _. shown.new ≡ None) }
    ensures none { IfOk result (λ _. shown.new ≡ None) }
{
    if let Some(word) = word {
        return read_records::<R>(alloc, word);
    }
    match records_of_input::<R, I>(alloc, reader, shown) {
        Ok(records) => Ok(records),
        Err(refusal) => Err(FileFault::Input(refusal)),
    }
}

/// What the word START and a word of records, or where there is none the input, ask for. Refused, in this order: `Word(Start)`;
/// as `read_records`, or `Input` as `records_of_input` is.
pub fn setting_of<R: TextRecord, I: Read>(
    alloc: Global,
    start: &[u8],
    word: Option<&[u8]>,
    reader: &mut I,
    shown: &mut Option<Excerpt>,
) -> Result<Setting<R>, FileFault>
    requires { shown.old ≡ None }
    ensures read { IfOk result (λ setting. IsNumber start.now setting.start × AreSetRecords R.spelling (option_copied word.entry) (I.remaining reader.old) setting.records.items) }
    ensures refused { IfErr result (IsNoSetting R.spelling start.now (option_copied word.entry) (I.remaining reader.old)) }
    ensures shown { MatchOption (option_copied word.entry)
        (IfSome shown.new (λ excerpt. IfSome (I.remaining reader.old) (λ input.
        (n : ℕ) × (result ≡ Err (FileFault.Input (Refusal.Line n))) × IsBadLineShown R.spelling input n excerpt)))
        (λ _. shown.new ≡ None) }
    ensures none { IfOk result (λ _. shown.new ≡ None) }
{
    let start = match read_start(start) {
        Ok(start) => start,
        Err(fault) => return Err(fault),
    };
    match records_of::<R, I>(alloc, word, reader, shown) {
        Ok(records) => Ok(Setting { start, records }),
        Err(fault) => Err(fault),
    }
}
