//! Three programs over the vector in one, each in a file of its own: `examples collect`, `examples postings WORD ..` over
//! standard input, and `examples samples FILE`.
#![tactic(auto)]

mod collect;
mod postings;
mod sample;
mod samples;

use std::{env, io};

const USAGE: &str = "which example: collect, postings WORD .. or samples FILE?";

/// Starts the example that the first word names, with the words behind it.
fn main(rt: HostRuntime) -> io::Result<()> {
    let words: Vec<String> = env::args(&rt)?.skip(1).collect(rt.alloc())?;
    let Some((name, further)) = words.as_slice().split_first() else {
        return println!(rt; "{USAGE}");
    };
    match name.as_str() {
        "collect" => collect::tell(&rt, rt.alloc()),
        "postings" => {
            let text = io::read_to_string(rt.alloc(), rt.stdin())?;
            postings::tell(&rt, rt.alloc(), text.as_str(), further)
        }
        "samples" => samples::tell(&rt, rt.alloc(), further),
        _ => println!(rt; "{USAGE}"),
    }
}
