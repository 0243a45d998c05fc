//! `cvec_hex`: segment files as hex, made of lines of records and listed as such, as the two commands of `cvec` do it.
#![tactic(auto)]

mod program;
mod request;

use crate::program::run;
use crate::request::{HexRequest, request_of};
use std::env;
use std::io::{self, BufWriter, ErrorKind, Write};
use std::process::ExitCode;
use text_core::{Refusal, Status, refuse, write_text};

const OUTPUT_BUFFER_LEN: usize = 65_536;

/// What the words may be.
const USAGE: &[u8] = b"usage: cvec image TYPE, or cvec show TYPE

image TYPE     makes a segment file of group lines, and writes it as hex
show TYPE      lists the records of a segment file, which is given as hex

TYPE is u8, u16, u32, u64, i32, i64, pair (a u64 and an i64, as 7:-3), flagged (a u64 and 0 or 1, as 5:1),
or bytes16, bytes24, bytes32, bytes64 (so many bytes, as hex digits in lower case).
This is the small program that serves until cvec is built, which tells what is wrong with the words.
";

fn main(rt: HostRuntime) -> ExitCode {
    let status = match words_of(&rt) {
        Ok(words) => answer(&rt, request_of(words.as_slice())),
        Err(error) if error.kind() == ErrorKind::InvalidData => answer(&rt, None),
        Err(_) => refuse(&mut io::writer(&rt), Refusal::Memory),
    };
    ExitCode::from(status.code())
}

/// The words that the program was started with, behind its name. An error: one of them is no UTF-8
/// (`InvalidData`), or memory was refused.
fn words_of(rt: &HostRuntime) -> io::Result<Vec<String>> {
    Ok(env::args(rt)?.skip(1).collect(rt.alloc())?)
}

/// Does what is asked for on standard input and output, or tells how the program is used.
fn answer(rt: &HostRuntime, asked: Option<HexRequest>) -> Status {
    let Some(request) = asked else {
        let _ = write_text(USAGE, &mut rt.stderr());
        return Status::Usage;
    };
    let alloc = rt.alloc();
    let Ok(mut output) = BufWriter::with_capacity(alloc, OUTPUT_BUFFER_LEN, io::writer(rt)) else {
        return refuse(&mut io::writer(rt), Refusal::Memory);
    };
    let status = run(alloc, request, &mut rt.stdin(), &mut output);
    if status == Status::OutputFailed {
        tell_failed_write(rt, &mut output);
    }
    status
}

/// Tells why output failed: what couldn't be written is in the buffer still, and a further try tells why.
fn tell_failed_write<W: Write>(rt: &HostRuntime, output: &mut W) {
    if let Err(error) = output.flush() {
        let _ = eprintln!(rt; "cvec: standard output: {error}");
    }
}
