//! The records of lines, whatever the line that each stands in.

ghost use Rattle.std.specs.Prelude.{◌≡◌, ◌≤◌, None, length, IfOk, IfErr, IfSome};
ghost use Rattle.segment_core.specs.Written.{joined};
ghost use Rattle.text_core.specs.Refusals.{input_limit};
ghost use Rattle.lines_core.specs.Excerpts.{IsRefusedShown};
ghost use Rattle.lines_core.specs.GrowthLines.{AreLineRecords, IsSpellingRefusal};

use crate::excerpt::Excerpt;
use crate::growth_lines::read_lines;
use segment_core::Growths;
use std::alloc::{AllocError, Global};
use std::io::Read;
use text_core::{Refusal, TextRecord, read_input};

/// The records of all growths, in order.
fn joined_records<R: Copy>(alloc: Global, growths: &Growths<R>) -> Result<Vec<R>, AllocError>
    ensures { IfOk result (λ records. records.items ≡ joined growths.now.0) }
{
    let mut records = Vec::new(alloc);
    for k in 0..growths.count() {
        records.extend_from_slice(growths.growth(k))?;
    }
    Ok(records)
}

/// The records of all lines, in order. Of a line that is refused an excerpt is left.
fn records_of_lines<R: TextRecord>(
    alloc: Global,
    input: &[u8],
    shown: &mut Option<Excerpt>,
) -> Result<Vec<R>, Refusal>
    ensures read { IfOk result (λ records. AreLineRecords R.spelling input.now records.items) }
    ensures refused { IfErr result (IsSpellingRefusal R.spelling input.now) }
    ensures shown { IfSome shown.new (IsRefusedShown R.spelling input.now result) }
    ensures none { IfOk result (λ _. shown.new ≡ None) }
{
    let growths = read_lines::<R>(alloc, input, shown)?;
    match joined_records(alloc, &growths) {
        Ok(records) => Ok(records),
        Err(_) => Err(Refusal::Memory),
    }
}

/// Reads the records of an input: lines of records with a space between each two, of at most `INPUT_LIMIT` bytes in all. Empty
/// input has none.
///
/// Refused: `Input`, where a read failed; `InputTooLong`; `Line`, for the first line that isn't of the form; `Memory`. Where it
/// is `Line`, an excerpt of that line is left.
pub fn records_of_input<R: TextRecord, I: Read>(
    alloc: Global,
    reader: &mut I,
    shown: &mut Option<Excerpt>,
) -> Result<Vec<R>, Refusal>
    ensures read { IfOk result (λ records. IfSome (I.remaining reader.old) (λ input. AreLineRecords R.spelling input records.items)) }
    ensures within { IfOk result (λ _. IfSome (I.remaining reader.old) (λ input. length input ≤ input_limit)) }
    ensures refused { IfErr result (λ refusal. IfSome (I.remaining reader.old) (λ input. IsSpellingRefusal R.spelling input refusal)) }
    ensures shown { IfSome shown.new (λ excerpt. IfSome (I.remaining reader.old) (λ input. IsRefusedShown R.spelling input result excerpt)) }
    ensures none { IfOk result (λ _. shown.new ≡ None) }
{
    *shown = None;
    let input = match read_input(alloc, reader) {
        Ok(input) => input,
        Err(refusal) => return Err(refusal),
    };
    records_of_lines::<R>(alloc, input.as_slice(), shown)
}
