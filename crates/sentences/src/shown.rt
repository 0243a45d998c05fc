//! A text that is refused, as it is shown, and what is wrong with it.

use lines_core::Excerpt;
use std::fmt::{self, Formatter};
use text_core::{TextRecord, cut};
use words_core::RecordType;

/// The bytes of a text that are shown at most.
const SHOWN_LEN: usize = 40;

/// What is told behind a flaw that `--lenient` takes.
const LENIENT: &str = ", which --lenient takes";

/// What is wrong with a word that is no record.
#[derive(Clone, Copy)]
enum Flaw {
    /// A tab is in it.
    Tab,
    /// It is the last of its line, and ends with a carriage return.
    CarriageReturn,
    /// A zero stands in front of other digits.
    Zero,
    /// It has a sign, and no such number has it.
    Sign,
    /// Such a number isn't so large or so small.
    Range,
    /// Something else.
    Form,
}

impl Flaw {
    /// The same behind the word.
    fn words(self) -> &'static str {
        match self {
            Flaw::Tab => "has a tab",
            Flaw::CarriageReturn => "ends with a carriage return, as lines of Windows do",
            Flaw::Zero => "has a zero in front",
            Flaw::Sign => "has a sign that no such number has",
            Flaw::Range => "is out of range",
            Flaw::Form => "is no record",
        }
    }
}

/// What is wrong with digits that are no number, or behind a minus none.
fn flaw_of_digits(digits: &[u8]) -> Flaw {
    match digits {
        [] | [b'0'] => Flaw::Form,
        _ if digits.iter().any(|b| !b.is_ascii_digit()) => Flaw::Form,
        [b'0', ..] => Flaw::Zero,
        _ => Flaw::Range,
    }
}

/// What is wrong with a text that is no number of a type, which may have numbers below 0.
fn flaw_of_number(text: &[u8], has_minus: bool) -> Flaw {
    match text {
        [b'+', ..] => Flaw::Sign,
        [b'-', ..] if !has_minus => Flaw::Sign,
        [b'-', digits @ ..] => flaw_of_digits(digits),
        digits => flaw_of_digits(digits),
    }
}

/// What is wrong with a text that is no pair, or no key with a flag.
fn flaw_of_keyed(text: &[u8], record_type: RecordType) -> Flaw {
    let (key, behind) = cut(text, b':');
    let Some(value) = behind else {
        return Flaw::Form;
    };
    if u64::parse(key).is_none() {
        return flaw_of_number(key, false);
    }
    match record_type {
        RecordType::Pair => flaw_of_number(value, true),
        _ => Flaw::Form,
    }
}

/// What is wrong with a word that is no record of the type, by what is known of it.
fn flaw_by_type(word: &[u8], record_type: RecordType) -> Flaw {
    match record_type {
        RecordType::U8 | RecordType::U16 | RecordType::U32 | RecordType::U64 => {
            flaw_of_number(word, false)
        }
        RecordType::I32 | RecordType::I64 => flaw_of_number(word, true),
        RecordType::Pair | RecordType::Flagged => flaw_of_keyed(word, record_type),
        RecordType::F32
        | RecordType::F64
        | RecordType::Bytes16
        | RecordType::Bytes24
        | RecordType::Bytes32
        | RecordType::Bytes64 => Flaw::Form,
    }
}

/// Whether other bytes stood in the input for what is shown of a line: those of floats, which come as the numbers with their bits.
fn is_turned(record_type: RecordType) -> bool {
    matches!(record_type, RecordType::F32 | RecordType::F64)
}

/// What stands behind what is known of a word.
#[derive(Clone, Copy)]
enum WordEnd {
    /// The word ends there, and another may follow.
    Nothing,
    /// Its line ends there.
    LineEnd,
    /// More of the word.
    More,
}

/// What is wrong with a word that is no record of the type.
fn flaw_of(word: &[u8], behind: WordEnd, record_type: RecordType) -> Flaw {
    if word.contains(&b'\t') {
        return Flaw::Tab;
    }
    match (behind, word) {
        (WordEnd::LineEnd, [.., b'\r']) => Flaw::CarriageReturn,
        (WordEnd::More, _) => Flaw::Form,
        _ => flaw_by_type(word, record_type),
    }
}

/// What stands around a text that is shown.
const QUOTE: u8 = b'\x22';

/// A digit of a byte in hex.
fn hex_digit(of: u8) -> char {
    let digit = of % 16;
    let code = if digit < 10 {
        b'0' + digit
    } else {
        b'A' + (digit - 10)
    };
    code as char
}

/// Writes a byte as it is shown.
fn write_byte<W: fmt::Write>(f: &mut Formatter<W>, byte: u8) -> fmt::Result {
    match byte {
        b'\t' => f.write_str("\\t"),
        b'\r' => f.write_str("\\r"),
        QUOTE | b'\\' => {
            f.write_str("\\")?;
            f.write_char(byte as char)
        }
        b' '..=b'~' => f.write_char(byte as char),
        _ => {
            f.write_str("\\x")?;
            f.write_char(hex_digit(byte / 16))?;
            f.write_char(hex_digit(byte))
        }
    }
}

/// Writes the first bytes of a text in quotes, and where more follow two dots.
pub fn write_quoted<W: fmt::Write>(
    f: &mut Formatter<W>,
    text: &[u8],
    has_more: bool,
) -> fmt::Result {
    let len = text.len().min(SHOWN_LEN);
    f.write_str("\"")?;
    for byte in text[..len].iter() {
        write_byte(f, *byte)?;
    }
    f.write_str("\"")?;
    if has_more || len < text.len() {
        f.write_str("..")?;
    }
    Ok(())
}

/// Writes what is wrong with a word that begins there, and of which this is known.
fn write_word_at<W: fmt::Write>(
    f: &mut Formatter<W>,
    word: &[u8],
    behind: WordEnd,
    place: usize,
    record_type: RecordType,
) -> fmt::Result {
    let flaw = flaw_of(word, behind, record_type);
    let words = flaw.words();
    write_quoted(f, word, matches!(behind, WordEnd::More))?;
    if !is_turned(record_type) {
        write!(f, " at its byte {place}")?;
    }
    write!(f, " {words}")?;
    match flaw {
        Flaw::Tab | Flaw::CarriageReturn => f.write_str(LENIENT),
        _ => Ok(()),
    }
}

/// Writes what is wrong with a line from its first word on that is no record, and whether `--lenient` takes it, unless it was given.
pub fn write_bad_word<W: fmt::Write>(
    f: &mut Formatter<W>,
    excerpt: &Excerpt,
    record_type: RecordType,
    lenient: bool,
) -> fmt::Result {
    let text = excerpt.text();
    let place = excerpt.before.saturating_add(1);
    let is_whole = excerpt.behind == 0;
    match cut(text, b' ') {
        ([], None) if place == 1 => f.write_str("it is empty"),
        ([], None) => {
            f.write_str("it ends with a blank too many")?;
            f.write_str(LENIENT)
        }
        ([], Some(_)) if is_turned(record_type) => {
            f.write_str("it has a blank too many")?;
            f.write_str(LENIENT)
        }
        ([], Some(_)) => {
            write_quoted(f, text, !is_whole)?;
            write!(f, " at its byte {place} begins with a blank too many")?;
            f.write_str(LENIENT)
        }
        (word, Some(_)) => write_word_at(f, word, WordEnd::Nothing, place, record_type),
        (word, None) if !is_whole => write_word_at(f, word, WordEnd::More, place, record_type),
        (word, None) if lenient => write_word_at(f, word, WordEnd::Nothing, place, record_type),
        (word, None) => write_word_at(f, word, WordEnd::LineEnd, place, record_type),
    }
}

/// Writes a word of a command, and what is wrong with it.
pub fn write_given<W: fmt::Write>(
    f: &mut Formatter<W>,
    word: &[u8],
    record_type: RecordType,
) -> fmt::Result {
    write_quoted(f, word, false)?;
    match flaw_of(word, WordEnd::Nothing, record_type) {
        Flaw::Form => Ok(()),
        flaw => {
            let flaw = flaw.words();
            write!(f, ", which {flaw}")
        }
    }
}

/// The same of the first record of several that is none, from which on this is known.
pub fn write_given_of<W: fmt::Write>(
    f: &mut Formatter<W>,
    excerpt: &Excerpt,
    record_type: RecordType,
) -> fmt::Result {
    match cut(excerpt.text(), b',') {
        (word, None) if excerpt.behind > 0 => write_quoted(f, word, true),
        (word, _) => write_given(f, word, record_type),
    }
}
