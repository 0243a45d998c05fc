//! The words of a line.

use text_core::{TextRecord, cut};

/// What stands between a line's step and its answer.
const ARROW: &[u8] = b" -> ";

/// What the line asks: all of it before the arrow, or the whole line.
pub fn asked_in(line: &[u8]) -> &[u8] {
    for (at, four) in line.windows(4).enumerate() {
        if four == ARROW {
            return line.get(..at).unwrap_or(line);
        }
    }
    line
}

/// The next word, and what is left behind it.
pub fn next_word(rest: Option<&[u8]>) -> Option<(&[u8], Option<&[u8]>)> {
    Some(cut(rest?, b' '))
}

/// The number that the next word spells, and what is left behind it.
pub fn next_number(rest: Option<&[u8]>) -> Option<(u64, Option<&[u8]>)> {
    let (word, after) = next_word(rest)?;
    Some((u64::parse(word)?, after))
}

/// The number that is all that is left.
pub fn last_number(rest: Option<&[u8]>) -> Option<u64> {
    u64::parse(rest?)
}
