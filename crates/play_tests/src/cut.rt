//! How a disk stops or fails, and behind how many of its calls.

use crate::words::{next_number, next_word};
use disk_core::Blow;
use text_core::{TextRecord, cut};

/// A disk that blows so, behind each of these numbers of calls.
#[derive(Clone, Copy)]
pub struct Cut {
    pub blow: Blow,
    pub first: u64,
    pub last: u64,
}

/// The numbers of `K` or `K-L`.
fn range_of(word: &[u8]) -> Option<(u64, u64)> {
    let (first, last) = cut(word, b'-');
    let first = u64::parse(first)?;
    match last {
        Some(last) => Some((first, u64::parse(last)?)),
        None => Some((first, first)),
    }
}

/// How many bytes arrive of a write that fails: `N` or `all`.
fn next_arriving(rest: Option<&[u8]>) -> Option<(u64, Option<&[u8]>)> {
    match next_word(rest)? {
        (b"all", after) => Some((u64::MAX, after)),
        _ => next_number(rest),
    }
}

/// Reads `stop K-L` or `fail N K-L`, and gives what is left behind it.
pub fn read_cut<'a>(verb: &[u8], rest: Option<&'a [u8]>) -> Option<(Cut, Option<&'a [u8]>)> {
    let (blow, rest) = match verb {
        b"stop" => (Blow::Stop, rest),
        b"fail" => {
            let (arriving, after) = next_arriving(rest)?;
            (Blow::FailOnce(arriving), after)
        }
        _ => return None,
    };
    let (word, after) = next_word(rest)?;
    let (first, last) = range_of(word)?;
    Some((Cut { blow, first, last }, after))
}
