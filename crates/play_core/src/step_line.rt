//! One line of a script: a verb and its words.

ghost use Rattle.std.specs.Prelude.{◌≡◌, ◌≢◌, ◌∷◌, [], ◌<◌, ◌^◌, ℕ, decimal, Ok, IfOk, IfSome, IfNone};
ghost use Rattle.hex.specs.Hex.{decode_of};
ghost use Rattle.drive_core.specs.Asked.{step_of};
ghost use Rattle.play_core.specs.LineWords.{words_left};
ghost use Rattle.play_core.specs.StepLine.{Alone, Asks, AsksNothing, IsCrash, IsStepLineOf, IsStepLine, asked_of};

use crate::asked::Asked;
use crate::line_runs::{read_run, read_runs};
use crate::line_words::{is_ended, next_value, next_word, only_value, only_word};
use crate::verb::{Verb, verb_of};
use disk_core::{Choice, ImageLength, PendingBytes};
use drive_core::Step;
use hex::FromHex;
use std::alloc::Global;
use text_core::{LineFault, TextRecord, cut};

/// How `create` names a file of the second format.
const SECOND_FORMAT: &[u8] = b"2";

/// How `look` names the flusher.
const FLUSHER: &[u8] = b"f";

/// The step of a verb that stands alone.
fn read_alone<R: TextRecord>(rest: Option<&[u8]>, step: Step<R>) -> Result<Asked<R>, LineFault>
    ensures read { IfOk result (λ asked. Alone (words_left rest.entry) (asked_of asked) (step_of step)) }
    ensures bad { result ≡ Err LineFault.Bad → words_left rest.entry ≢ [] }
{
    if !is_ended(rest) {
        return Err(LineFault::Bad);
    }
    Ok(Asked::Step(step))
}

fn read_create<R: TextRecord>(rest: Option<&[u8]>) -> Result<Asked<R>, LineFault>
    ensures read { IfOk result (λ asked. Asks R.spelling Verb.Create (words_left rest.entry) (asked_of asked)) }
    ensures bad { result ≡ Err LineFault.Bad → AsksNothing R.spelling Verb.Create (words_left rest.entry) }
{
    if is_ended(rest) {
        return Ok(Asked::Step(Step::Create));
    }
    let Some(word) = only_word(rest) else {
        return Err(LineFault::Bad);
    };
    if word != SECOND_FORMAT {
        return Err(LineFault::Bad);
    }
    Ok(Asked::Step(Step::CreateTwo))
}

fn read_share<R: TextRecord>(rest: Option<&[u8]>) -> Result<Asked<R>, LineFault>
    ensures read { IfOk result (λ asked. Asks R.spelling Verb.Share (words_left rest.entry) (asked_of asked)) }
    ensures bad { result ≡ Err LineFault.Bad → AsksNothing R.spelling Verb.Share (words_left rest.entry) }
{
    let Some((room, after)) = next_value::<u64>(rest) else {
        return Err(LineFault::Bad);
    };
    let Some(seats) = only_value::<u64>(after) else {
        return Err(LineFault::Bad);
    };
    Ok(Asked::Step(Step::Share(room, seats)))
}

fn read_put<R: TextRecord>(alloc: Global, rest: Option<&[u8]>) -> Result<Asked<R>, LineFault>
    ensures read { IfOk result (λ asked. Asks R.spelling Verb.Put (words_left rest.entry) (asked_of asked)) }
    ensures bad { result ≡ Err LineFault.Bad → AsksNothing R.spelling Verb.Put (words_left rest.entry) }
{
    let (seat, records) = read_run(alloc, rest)?;
    Ok(Asked::Step(Step::Put(seat, records)))
}

fn read_look<R: TextRecord>(rest: Option<&[u8]>) -> Result<Asked<R>, LineFault>
    ensures read { IfOk result (λ asked. Asks R.spelling Verb.Look (words_left rest.entry) (asked_of asked)) }
    ensures bad { result ≡ Err LineFault.Bad → AsksNothing R.spelling Verb.Look (words_left rest.entry) }
{
    let Some(word) = only_word(rest) else {
        return Err(LineFault::Bad);
    };
    if word == FLUSHER {
        return Ok(Asked::Step(Step::Look(None)));
    }
    let Some(seat) = u64::parse(word) else {
        return Err(LineFault::Bad);
    };
    Ok(Asked::Step(Step::Look(Some(seat))))
}

fn read_view<R: TextRecord>(rest: Option<&[u8]>) -> Result<Asked<R>, LineFault>
    ensures read { IfOk result (λ asked. Asks R.spelling Verb.View (words_left rest.entry) (asked_of asked)) }
    ensures bad { result ≡ Err LineFault.Bad → AsksNothing R.spelling Verb.View (words_left rest.entry) }
{
    let Some(seat) = only_value::<u64>(rest) else {
        return Err(LineFault::Bad);
    };
    Ok(Asked::Step(Step::View(seat)))
}

fn read_settled<R: TextRecord>(rest: Option<&[u8]>) -> Result<Asked<R>, LineFault>
    ensures read { IfOk result (λ asked. Asks R.spelling Verb.Settled (words_left rest.entry) (asked_of asked)) }
    ensures bad { result ≡ Err LineFault.Bad → AsksNothing R.spelling Verb.Settled (words_left rest.entry) }
{
    let Some(seat) = only_value::<u64>(rest) else {
        return Err(LineFault::Bad);
    };
    Ok(Asked::Step(Step::Settled(seat)))
}

fn read_change<R: TextRecord>(alloc: Global, rest: Option<&[u8]>) -> Result<Asked<R>, LineFault>
    ensures read { IfOk result (λ asked. Asks R.spelling Verb.Change (words_left rest.entry) (asked_of asked)) }
    ensures bad { result ≡ Err LineFault.Bad → AsksNothing R.spelling Verb.Change (words_left rest.entry) }
{
    let (start, records) = read_run(alloc, rest)?;
    Ok(Asked::Step(Step::Change(start, records)))
}

fn read_changes<R: TextRecord>(alloc: Global, rest: Option<&[u8]>) -> Result<Asked<R>, LineFault>
    ensures read { IfOk result (λ asked. Asks R.spelling Verb.Changes (words_left rest.entry) (asked_of asked)) }
    ensures bad { result ≡ Err LineFault.Bad → AsksNothing R.spelling Verb.Changes (words_left rest.entry) }
{
    let runs = read_runs(alloc, rest)?;
    Ok(Asked::Step(Step::Changes(runs)))
}

fn read_resize<R: TextRecord>(rest: Option<&[u8]>) -> Result<Asked<R>, LineFault>
    ensures read { IfOk result (λ asked. Asks R.spelling Verb.Resize (words_left rest.entry) (asked_of asked)) }
    ensures bad { result ≡ Err LineFault.Bad → AsksNothing R.spelling Verb.Resize (words_left rest.entry) }
{
    let Some((size, after)) = next_value::<u64>(rest) else {
        return Err(LineFault::Bad);
    };
    let Some(value) = only_value::<R>(after) else {
        return Err(LineFault::Bad);
    };
    Ok(Asked::Step(Step::Resize(size, value)))
}

/// The byte of two hex digits, of either case.
fn byte_of_hex(digits: &[u8]) -> Option<u8>
    ensures found { IfSome result (λ byte. decode_of digits.now ≡ Ok (byte ∷ [])) }
    ensures none { IfNone result ((byte : ℕ) → decode_of digits.now ≢ Ok (byte ∷ [])) }
{
    match <[u8; 1] as FromHex>::from_hex(digits) {
        Ok(bytes) => Some(bytes[0]),
        Err(_) => None,
    }
}

/// The image that a word behind `crash` names.
fn choice_of(word: &[u8]) -> Option<Choice>
    ensures named { IfSome result (IsCrash word.now) }
    ensures unnamed { IfNone result ((choice : _) → ¬ (IsCrash word.now choice)) }
{
    match word {
        b"old" => Some(Choice {
            length: ImageLength::Old,
            pending: PendingBytes::Old,
        }),
        b"new" => Some(Choice {
            length: ImageLength::Greatest,
            pending: PendingBytes::New,
        }),
        _ => Some(Choice {
            length: ImageLength::Greatest,
            pending: PendingBytes::Fill(byte_of_hex(word)?),
        }),
    }
}

fn read_crash<R: TextRecord>(rest: Option<&[u8]>) -> Result<Asked<R>, LineFault>
    ensures read { IfOk result (λ asked. Asks R.spelling Verb.Crash (words_left rest.entry) (asked_of asked)) }
    ensures bad { result ≡ Err LineFault.Bad → AsksNothing R.spelling Verb.Crash (words_left rest.entry) }
{
    let Some(word) = only_word(rest) else {
        return Err(LineFault::Bad);
    };
    let Some(choice) = choice_of(word) else {
        return Err(LineFault::Bad);
    };
    Ok(Asked::Crash(choice))
}

/// What a verb asks for with its words.
fn read_words<R: TextRecord>(
    alloc: Global,
    verb: Verb,
    rest: Option<&[u8]>,
) -> Result<Asked<R>, LineFault>
    ensures read { IfOk result (λ asked. Asks R.spelling verb (words_left rest.entry) (asked_of asked)) }
    ensures bad { result ≡ Err LineFault.Bad → AsksNothing R.spelling verb (words_left rest.entry) }
{
    match verb {
        Verb::Create => read_create(rest),
        Verb::Open => read_alone(rest, Step::Open),
        Verb::Share => read_share(rest),
        Verb::Put => read_put(alloc, rest),
        Verb::Look => read_look(rest),
        Verb::View => read_view(rest),
        Verb::Settled => read_settled(rest),
        Verb::Take => read_alone(rest, Step::Take),
        Verb::Raise => read_alone(rest, Step::Raise),
        Verb::Close => read_alone(rest, Step::Close),
        Verb::Gather => read_alone(rest, Step::Gather),
        Verb::Change => read_change(alloc, rest),
        Verb::Changes => read_changes(alloc, rest),
        Verb::Resize => read_resize(rest),
        Verb::Clear => read_alone(rest, Step::Clear),
        Verb::List => read_alone(rest, Step::List),
        Verb::Fold => read_alone(rest, Step::Fold),
        Verb::Log => read_alone(rest, Step::Log),
        Verb::Home => read_alone(rest, Step::Home),
        Verb::Crash => read_crash(rest),
    }
}

/// Reads what a line asks for.
pub fn read_step_line<R: TextRecord>(alloc: Global, line: &[u8]) -> Result<Asked<R>, LineFault>
    ensures read { IfOk result (λ asked. IsStepLineOf R.spelling line.now (asked_of asked)) }
    ensures bad { result ≡ Err LineFault.Bad → ¬ (IsStepLine R.spelling line.now) }
{
    let (name, rest) = cut(line, b' ');
    let Some(verb) = verb_of(name) else {
        return Err(LineFault::Bad);
    };
    read_words(alloc, verb, rest)
}
