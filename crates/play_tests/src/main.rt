//! Runs a script of steps over a disk in memory that may stop or fail, and writes it again with each answer computed.
//! `docs/proof/scripts.md` tells the lines.
#![tactic(auto)]

mod choice;
mod cut;
mod distinct_texts;
mod look;
mod player;
mod repeat;
mod upgrading;
mod words;

use crate::player::Player;
use crate::words::asked_in;
use record_core::{Bytes24, Flagged, Pair};
use std::alloc::Global;
use std::io;
use std::process::ExitCode;
use std::sync::Wait;
use std::thread::Threads;
use text_core::{TextRecord, read_input, write_text};

/// The most lines of a script.
const LINE_LIMIT: u32 = 100_000;

/// Writes a line of the script, and its answer where it asks for one.
fn write_line<R: TextRecord, E: Threads + Wait + Sync>(
    rt: &E,
    player: &mut Player<R>,
    line: &[u8],
    text: &mut Vec<u8>,
) -> io::Result<()> {
    if line.is_empty() || line[0] == b'#' {
        text.extend_from_slice(line)?;
        return Ok(());
    }
    let asked = asked_in(line);
    text.extend_from_slice(asked)?;
    text.extend_from_slice(b" -> ")?;
    player.answer(rt, asked.trim_ascii_end(), text)
}

/// The script with all answers computed, over records of this type.
fn answered<R: TextRecord, E: Threads + Wait + Sync>(
    alloc: Global,
    rt: &E,
    input: &[u8],
) -> io::Result<Vec<u8>> {
    let mut text = Vec::new(alloc);
    let mut player = Player::<R>::new(alloc);
    let mut rest = Some(input);
    for _ in 0..LINE_LIMIT {
        let Some(lines) = rest else { break };
        if lines.is_empty() {
            break;
        }
        let (line, after) = text_core::cut(lines, b'\n');
        write_line(rt, &mut player, line, &mut text)?;
        text.push(b'\n')?;
        rest = after;
    }
    Ok(text)
}

/// The record type's word, by the first line that names one.
fn type_in(input: &[u8]) -> &[u8] {
    let mut rest = Some(input);
    for _ in 0..LINE_LIMIT {
        let Some(lines) = rest else { break };
        let (line, after) = text_core::cut(lines, b'\n');
        if let (b"type", Some(word)) = text_core::cut(asked_in(line).trim_ascii_end(), b' ') {
            return word;
        }
        rest = after;
    }
    b"u64"
}

/// The script with all answers computed.
fn answered_by_type<E: Threads + Wait + Sync>(
    alloc: Global,
    rt: &E,
    input: &[u8],
) -> io::Result<Vec<u8>> {
    match type_in(input) {
        b"u8" => answered::<u8, E>(alloc, rt, input),
        b"u32" => answered::<u32, E>(alloc, rt, input),
        b"i64" => answered::<i64, E>(alloc, rt, input),
        b"pair" => answered::<Pair, E>(alloc, rt, input),
        b"flagged" => answered::<Flagged, E>(alloc, rt, input),
        b"bytes24" => answered::<Bytes24, E>(alloc, rt, input),
        _ => answered::<u64, E>(alloc, rt, input),
    }
}

fn main(rt: HostRuntime) -> io::Result<ExitCode> {
    let Ok(input) = read_input(rt.alloc(), &mut rt.stdin()) else {
        return Ok(ExitCode::FAILURE);
    };
    let text = answered_by_type(rt.alloc(), &rt, input.as_slice())?;
    write_text(text.as_slice(), &mut io::writer(&rt))?;
    Ok(ExitCode::SUCCESS)
}
