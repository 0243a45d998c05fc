//! The input of `load`.

ghost use Rattle.std.specs.Prelude.{◌≡◌, ◌≤◌, ℕ, None, length, IfOk, IfErr, IfSome};
ghost use Rattle.text_core.specs.Refusals.{input_limit};
ghost use Rattle.text_core.specs.declared.refusal.Refusal.{Refusal};
ghost use Rattle.files_core.specs.declared.fault.FileFault.TheVariants as faults;
ghost use Rattle.lines_core.specs.Excerpts.{IsBadLineShown};
ghost use Rattle.lines_core.specs.GrowthLines.{AllGrowthsFit, AreGrowthLines, IsLinesRefusal};

use files_core::FileFault;
use lines_core::{Excerpt, growths_of_input};
use segment_core::Growths;
use std::alloc::Global;
use std::io::Read;
use text_core::{Refusal, TextRecord};

/// Reads the growths of all lines of an input, one each. Refused: `Input`, as `growths_of_input` refuses; of a line that is
/// no growth line an excerpt is left.
pub fn read_growth_lines<R: TextRecord, I: Read>(
    alloc: Global,
    reader: &mut I,
    shown: &mut Option<Excerpt>,
) -> Result<Growths<R>, FileFault>
    ensures read { IfOk result (λ growths. IfSome (I.remaining reader.old) (λ input. AreGrowthLines R.spelling input growths.0)) }
    ensures within { IfOk result (λ _. IfSome (I.remaining reader.old) (λ input. length input ≤ input_limit)) }
    ensures fit { IfOk result (λ growths. AllGrowthsFit R.form.width growths.0) }
    ensures refused { IfErr result (λ fault. (refusal : Refusal) × (fault ≡ faults.Input refusal) × IfSome (I.remaining reader.old) (λ input. IsLinesRefusal R.form.width R.spelling input refusal)) }
    ensures shown { IfSome shown.new (λ excerpt. IfSome (I.remaining reader.old) (λ input.
        (n : ℕ) × (result ≡ Err (FileFault.Input (Refusal.Line n))) × IsBadLineShown R.spelling input n excerpt)) }
    ensures none { IfOk result (λ _. shown.new ≡ None) }
{
    match growths_of_input::<R, I>(alloc, reader, shown) {
        Ok(growths) => Ok(growths),
        Err(refusal) => Err(FileFault::Input(refusal)),
    }
}
