//! Steps that a line says several times or in short, with numbers that grow from one round to the next.

use std::alloc::Global;
use std::io;
use text_core::{TextRecord, cut, write_number};

/// The most numbers of a step.
const NUMBER_LIMIT: u32 = 10_000;

/// The most times that a word stands in a row.
const TIMES_LIMIT: u64 = 10_000_000;

/// Writes the word so many times, with a space between each two.
fn write_times(word: &[u8], times: u64, out: &mut Vec<u8>) -> io::Result<()> {
    for k in 0..times.min(TIMES_LIMIT) {
        if k > 0 {
            out.push(b' ')?;
        }
        out.extend_from_slice(word)?;
    }
    Ok(())
}

/// Writes what stands between braces: of `R*N` the word R so many times, of `A+B` a number that grows.
fn write_braced(text: &[u8], round: u64, out: &mut Vec<u8>) -> io::Result<()> {
    match cut(text, b'*') {
        (word, Some(times)) => write_times(word, u64::parse(times).unwrap_or(0), out),
        (_, None) => write_grown(text, round, out),
    }
}

/// Writes the number that `A+B` spells in a round: A and as often B as there were rounds before it.
fn write_grown(text: &[u8], round: u64, out: &mut Vec<u8>) -> io::Result<()> {
    let (first, by) = cut(text, b'+');
    let first = u64::parse(first).unwrap_or(0);
    let by = u64::parse(by.unwrap_or(b"")).unwrap_or(0);
    write_number(out, first.wrapping_add(by.wrapping_mul(round)))
}

/// A step as it stands in a round, with what its braces say in their place.
pub fn step_in(alloc: Global, step: &[u8], round: u64) -> io::Result<Vec<u8>> {
    let mut text = Vec::new(alloc);
    let mut rest = step;
    for _ in 0..NUMBER_LIMIT {
        let (before, braced) = cut(rest, b'{');
        text.extend_from_slice(before)?;
        let Some(braced) = braced else { break };
        let (inner, after) = cut(braced, b'}');
        write_braced(inner, round, &mut text)?;
        rest = after.unwrap_or(b"");
    }
    Ok(text)
}
