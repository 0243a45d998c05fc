//! Runs of records as words: a number and the records behind it, with a bar between each two runs.

ghost use Rattle.std.specs.Prelude.{◌≡◌, ◌≢◌, ℕ, List, [], ◌++◌, map, IfOk, OnOk};
ghost use Rattle.std.specs.List.{AllByRecursion};
ghost use Rattle.drive_core.specs.Given.{pieces_of};
ghost use Rattle.play_core.specs.LineWords.{words_left, StartsWithNone};
ghost use Rattle.play_core.specs.LineRuns.{IsLineRun, IsPushed, AreLineRuns, run_words, runs_words};

use crate::line_words::{is_ended, next_value, next_word};
use std::alloc::{AllocError, Global};
use text_core::{BAR, LineFault, TextRecord};

/// Reads records up to the first word that is none. Behind them comes what is left.
fn read_records<'a, R: TextRecord>(
    alloc: Global,
    text: Option<&'a [u8]>,
) -> Result<(Vec<R>, Option<&'a [u8]>), AllocError>
    ensures read { IfOk result (λ read. AllByRecursion R.spelling.is_value read.0.items × (words_left text.entry ≡ map R.spelling.text_of read.0.items ++ words_left read.1)) }
    ensures all { IfOk result (λ read. StartsWithNone R.spelling (words_left read.1)) }
{
    let mut records = Vec::new(alloc);
    let mut rest = text;
    while let Some((record, after)) = next_value::<R>(rest) {
        records.push(record)?;
        rest = after;
    }
    Ok((records, rest))
}

/// Reads a number and records, one at least, up to the first word that is none. Behind them comes what is left.
fn read_some<'a, R: TextRecord>(
    alloc: Global,
    text: Option<&'a [u8]>,
) -> Result<(u64, Vec<R>, Option<&'a [u8]>), LineFault>
    ensures read { IfOk result (λ read. IsLineRun R.spelling (read.0, read.1.items) × (words_left text.entry ≡ run_words R.spelling.text_of (read.0, read.1.items) ++ words_left read.2)) }
    ensures all { IfOk result (λ read. StartsWithNone R.spelling (words_left read.2)) }
    ensures bad { result ≡ Err LineFault.Bad → (run : ℕ × List R) (tail : List (List ℕ)) → IsLineRun R.spelling run → words_left text.entry ≢ run_words R.spelling.text_of run ++ tail }
{
    let Some((number, behind)) = next_value::<u64>(text) else {
        return Err(LineFault::Bad);
    };
    let (records, rest) = read_records(alloc, behind)?;
    if records.is_empty() {
        return Err(LineFault::Bad);
    }
    Ok((number, records, rest))
}

/// Reads a number and records behind it, one at least, up to the line's end.
pub fn read_run<R: TextRecord>(
    alloc: Global,
    text: Option<&[u8]>,
) -> Result<(u64, Vec<R>), LineFault>
    ensures read { IfOk result (λ run. IsLineRun R.spelling (run.0, run.1.items) × (words_left text.entry ≡ run_words R.spelling.text_of (run.0, run.1.items))) }
    ensures bad { result ≡ Err LineFault.Bad → (run : ℕ × List R) → IsLineRun R.spelling run → words_left text.entry ≢ run_words R.spelling.text_of run }
{
    let (number, records, rest) = read_some(alloc, text)?;
    if !is_ended(rest) {
        return Err(LineFault::Bad);
    }
    Ok((number, records))
}

/// Reads one more run, up to the first word that is none. Gives what is left.
fn push_run<'a, R: TextRecord>(
    runs: &mut Vec<(u64, Vec<R>)>,
    alloc: Global,
    text: Option<&'a [u8]>,
) -> Result<Option<&'a [u8]>, LineFault>
    ensures read { IfOk result (λ rest. IsPushed R.spelling (words_left text.entry) (pieces_of runs.old.items) (pieces_of runs.new.items) (words_left rest)) }
    ensures bad { result ≡ Err LineFault.Bad → (run : ℕ × List R) (tail : List (List ℕ)) → IsLineRun R.spelling run → words_left text.entry ≢ run_words R.spelling.text_of run ++ tail }
{
    let (start, records, rest) = read_some(alloc, text)?;
    runs.push((start, records))?;
    Ok(rest)
}

/// Reads runs with a bar between each two, one at least, up to the line's end, where none is read yet.
fn read_into<R: TextRecord>(
    runs: &mut Vec<(u64, Vec<R>)>,
    alloc: Global,
    text: Option<&[u8]>,
) -> Result<(), LineFault>
    requires { runs.old.items ≡ [] }
    ensures read { OnOk result (AreLineRuns R.spelling (pieces_of runs.new.items) × (words_left text.entry ≡ runs_words R.spelling.text_of (pieces_of runs.new.items))) }
    ensures bad { result ≡ Err LineFault.Bad → (runs : List (ℕ × List R)) → AreLineRuns R.spelling runs → words_left text.entry ≢ runs_words R.spelling.text_of runs }
{
    let mut rest = push_run(runs, alloc, text)?;
    while let Some((word, behind)) = next_word(rest) {
        if word != BAR {
            return Err(LineFault::Bad);
        }
        rest = push_run(runs, alloc, behind)?;
    }
    Ok(())
}

/// Reads runs with a bar between each two, one at least, up to the line's end.
pub fn read_runs<R: TextRecord>(
    alloc: Global,
    text: Option<&[u8]>,
) -> Result<Vec<(u64, Vec<R>)>, LineFault>
    ensures read { IfOk result (λ runs. AreLineRuns R.spelling (pieces_of runs.items) × (words_left text.entry ≡ runs_words R.spelling.text_of (pieces_of runs.items))) }
    ensures bad { result ≡ Err LineFault.Bad → (runs : List (ℕ × List R)) → AreLineRuns R.spelling runs → words_left text.entry ≢ runs_words R.spelling.text_of runs }
{
    let mut runs = Vec::new(alloc);
    read_into(&mut runs, alloc, text)?;
    Ok(runs)
}
