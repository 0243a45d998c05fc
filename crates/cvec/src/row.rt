//! The files of a row, which `append` fills one behind the other: FILE, and those with the numbers behind its own.

use std::alloc::{AllocError, Global};
use std::fs::{self, File};
use std::rt::Files;

/// The digits of a number in a name.
const DIGITS: usize = 6;

/// A row of files.
#[derive(Clone, Copy)]
pub struct Row<'a> {
    /// The first one.
    file: &'a str,
    /// Its number: that of its name, as 7 in `t-000007.cv`, else 1.
    pub number: u64,
    /// What the names of the others begin with, and what they end with.
    base: &'a str,
    tail: &'a str,
}

/// The number that these digits are, if they are some.
fn number_of(digits: &[u8]) -> Option<u64> {
    let mut number: u64 = 0;
    for digit in digits {
        if !digit.is_ascii_digit() {
            return None;
        }
        number = number
            .saturating_mul(10)
            .saturating_add(u64::from(digit.saturating_sub(b'0')));
    }
    Some(number)
}

/// What stands before the number of a name, and the number. None: it has none.
fn cut_number(name: &[u8]) -> Option<(&[u8], u64)> {
    let begin = name.len().checked_sub(DIGITS + 1)?;
    if name[begin] != b'-' {
        return None;
    }
    let number = number_of(&name[begin + 1..])?;
    Some((&name[..begin], number))
}

/// Where the ending of a file's name begins: at its last dot, where that isn't the first of the name.
fn tail_start(path: &[u8]) -> usize {
    let name_start = match path.iter().rposition(|b| *b == b'/') {
        Some(slash) => slash + 1,
        None => 0,
    };
    match path.iter().rposition(|b| *b == b'.') {
        Some(dot) if dot > name_start => dot,
        _ => path.len(),
    }
}

/// The text of bytes that a text was cut into at an ASCII character.
fn text_of(bytes: &[u8]) -> &str {
    str::from_utf8(bytes).unwrap_or("")
}

/// The zeros in front of a number in a name.
fn zeros_before(number: u64) -> &'static str {
    match number {
        0..=9 => "00000",
        10..=99 => "0000",
        100..=999 => "000",
        1_000..=9_999 => "00",
        10_000..=99_999 => "0",
        _ => "",
    }
}

impl<'a> Row<'a> {
    /// The row that begins with this file.
    pub fn of(file: &'a str) -> Row<'a> {
        let path = file.as_bytes();
        let (name, tail) = path.split_at(tail_start(path).min(path.len()));
        let (base, number) = cut_number(name).unwrap_or((name, 1));
        Row {
            file,
            number,
            base: text_of(base),
            tail: text_of(tail),
        }
    }

    /// The name of the file of this number.
    pub fn name(&self, alloc: Global, number: u64) -> Result<String, AllocError> {
        if number <= self.number {
            return String::from_str(alloc, self.file);
        }
        let (base, tail) = (self.base, self.tail);
        let zeros = zeros_before(number);
        format!(in alloc; "{base}-{zeros}{number}{tail}")
    }

    /// The number of the last file: behind it there is none of the next number.
    pub fn last<F: Files<File = File>>(&self, alloc: Global, files: &F) -> Result<u64, AllocError> {
        for number in self.number..u64::MAX {
            let next = self.name(alloc, number + 1)?;
            if fs::metadata(files, next.as_str()).is_err() {
                return Ok(number);
            }
        }
        Ok(u64::MAX)
    }
}
