//! What is wrong with words that ask for nothing, and which may be meant.

ghost use Rattle.std.specs.Prelude.{◌≡◌, ◌≤◌, length, nat_eq, IfOk, IfSome};
ghost use Rattle.std.specs.Str.{chars};
ghost use Rattle.strsim.specs.Edits.{levenshtein_row};

use crate::commands::{COMMANDS, options_of};
use crate::help::{HELP, help_of};
use crate::usage::{Look, Usage};
use crate::words::{WordsFault, matches_of, read_words};
use clap::Error;
use std::alloc::{AllocError, Global};
use std::convert::AsStr;
use strsim::levenshtein;

/// The bytes of a word that may be a command or an option with two edits at most.
const NEAR_LEN: usize = 10;

/// The error's own words, without the usage behind them. `None`: it is a request for help.
fn sentence_of(alloc: Global, error: &Error) -> Result<Option<String>, AllocError> {
    if !error.use_stderr() {
        return Ok(None);
    }
    let text = format!(in alloc; "{error}")?;
    match text.as_str().split_once("\n\n") {
        Some((sentence, _)) => Ok(Some(String::from_str(alloc, sentence)?)),
        None => Ok(Some(text)),
    }
}

/// What is wrong with the words, as `clap` says it. `None`: nothing is wrong, or they ask for help.
fn fault_of_words<S: AsStr>(alloc: Global, words: &[S]) -> Result<Option<String>, AllocError> {
    if let Err(error) = matches_of(alloc, words) {
        return sentence_of(alloc, &error);
    }
    let sentence = match read_words(alloc, words) {
        Err(WordsFault::Seats) => "error: the value of --seats is a number from 1 to 64",
        Err(WordsFault::Block) => "error: the value of --block is a number from 1 to 4294967295",
        Err(WordsFault::Every) =>
            "error: the value of --every is a number of milliseconds from 1 to 60000",
        Err(WordsFault::Poll) =>
            "error: the value of --poll is a number of milliseconds from 1 to 60000",
        Err(WordsFault::Wait) => "error: the value of --wait is a number of seconds",
        Err(WordsFault::Last) => "error: the value of --last is a number of records",
        Err(WordsFault::Rotate) => "error: the value of --rotate is a number of records from 1 on",
        _ => return Ok(None),
    };
    Ok(Some(String::from_str(alloc, sentence)?))
}

/// The word where a command stands, or, behind `help`, the one that this is asked of.
fn command_word<'a, S: AsStr>(words: &'a [S]) -> Option<&'a str> {
    match words {
        [first, second, ..] if first.as_str() == "help" => Some(second.as_str()),
        [first, ..] => Some(first.as_str()),
        [] => None,
    }
}

/// The name of the command that the word is.
fn command_named(word: &str) -> Option<&'static str>
    ensures { IfSome result (λ name. name.now ≡ word.now) }
{
    for name in COMMANDS.iter() {
        if *name == word {
            return Some(*name);
        }
    }
    None
}

/// The first of the names that so many edits make of the word.
fn name_within(
    alloc: Global,
    word: &str,
    names: &[&'static str],
    edits: usize,
) -> Result<Option<&'static str>, AllocError>
    ensures { IfOk result (λ found. IfSome found (λ name.
        levenshtein_row nat_eq (chars word.now) (chars name.now) (length (chars name.now)) ≤ edits)) }
{
    for name in names {
        if levenshtein(alloc, word, *name)? <= edits {
            return Ok(Some(*name));
        }
    }
    Ok(None)
}

/// The name that is nearest to the word, by two edits at most.
fn nearest_of(
    alloc: Global,
    word: &str,
    names: &[&'static str],
) -> Result<Option<&'static str>, AllocError>
    ensures { IfOk result (λ found. IfSome found (λ name.
        levenshtein_row nat_eq (chars word.now) (chars name.now) (length (chars name.now)) ≤ 2)) }
{
    if word.len() > NEAR_LEN {
        return Ok(None);
    }
    match name_within(alloc, word, names, 1)? {
        Some(name) => Ok(Some(name)),
        None => name_within(alloc, word, names, 2),
    }
}

/// The name of the option that a word gives: without its dashes, and the value behind it.
fn option_name(word: &str) -> Option<&str> {
    let name = word.strip_prefix("--")?;
    match name.split_once("=") {
        Some((name, _)) => Some(name),
        None => Some(name),
    }
}

/// The first option that is given, and is none of these.
fn wrong_option<'a, S: AsStr>(words: &'a [S], options: &[&'static str]) -> Option<&'a str> {
    for word in words {
        if let Some(name) = option_name(word.as_str()) {
            if !options.iter().any(|option| *option == name) {
                return Some(name);
            }
        }
    }
    None
}

/// Where to read on about wrong words of a command, and which of its options may be meant.
fn look_of_command<S: AsStr>(
    alloc: Global,
    name: &'static str,
    words: &[S],
) -> Result<Look, AllocError> {
    let options = options_of(alloc, name)?;
    let Some(word) = wrong_option(words, options.as_slice()) else {
        return Ok(Look::Command(name));
    };
    match nearest_of(alloc, word, options.as_slice())? {
        Some(option) => Ok(Look::NearestOption(name, option)),
        None => Ok(Look::Command(name)),
    }
}

/// Where to read on about words that are wrong.
fn look_of<S: AsStr>(alloc: Global, words: &[S]) -> Result<Look, AllocError> {
    let Some(word) = command_word(words) else {
        return Ok(Look::Commands);
    };
    if let Some(name) = command_named(word) {
        return look_of_command(alloc, name, words);
    }
    match nearest_of(alloc, word, COMMANDS.as_slice())? {
        Some(name) => Ok(Look::Nearest(name)),
        None => Ok(Look::Commands),
    }
}

/// The help that words ask for with `--help`: of their command, or of all.
fn asked_help<S: AsStr>(words: &[S]) -> &'static [u8] {
    match command_word(words) {
        Some(word) => help_of(word).unwrap_or(HELP),
        None => HELP,
    }
}

/// What is told of words that ask for nothing.
pub fn usage_of<S: AsStr>(alloc: Global, words: &[S]) -> Result<Usage, AllocError> {
    let look = look_of(alloc, words)?;
    match fault_of_words(alloc, words)? {
        Some(sentence) => Ok(Usage::Wrong(sentence, look)),
        None => Ok(Usage::Help(asked_help(words))),
    }
}
