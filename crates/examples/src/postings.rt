//! Postings lists: the words of the input's lines are gathered as postings (word, line), a growth for each line, by a crew
//! of threads. Further words are then looked up.

ghost use Rattle.std.specs.Prelude.{◌==◌};

use concurrent_vector::{Fault, Format, Lists, OpenGate, Pair, Pick, RamDisk, Vault, crew};
use std::alloc::Global;
use std::io;
use std::sync::Wait;
use std::thread::Threads;

/// How many threads gather.
const GROWERS: u32 = 3;

type Index = Vault<Pair, RamDisk>;

/// The number of a word, by its letters and digits, whichever are capital.
fn number_of(word: &str) -> u64 {
    let mut number: u64 = 0xcbf2_9ce4_8422_2325;
    for byte in word.as_bytes() {
        if byte.is_ascii_alphanumeric() {
            number = (number ^ byte.to_ascii_lowercase() as u64).wrapping_mul(0x100_0000_01b3);
        }
    }
    number
}

/// Picks the postings of the word of that number.
#[derive(Clone, Copy)]
struct PostingsOf(u64);

impl Pick<Pair> for PostingsOf {
    ghost picks_of = { λ word posting. posting.key == word.0 };

    fn picks(&self, posting: &Pair) -> bool {
        posting.key == self.0
    }
}

/// The postings of one line's words.
fn postings_of(alloc: Global, text: &str, line: u32) -> Result<Vec<Pair>, Fault> {
    let mut postings = Vec::new(alloc);
    for word in text.split_ascii_whitespace() {
        let (key, value) = (number_of(word), line as i64);
        postings.push(Pair { key, value })?;
    }
    Ok(postings)
}

/// The postings of each line that is for this grower and has words.
fn blocks_of(alloc: Global, text: &str, grower: u32) -> Result<Vec<Vec<Pair>>, Fault> {
    let mut blocks = Vec::new(alloc);
    let mut line: u32 = 0;
    for text in text.lines() {
        line = line.wrapping_add(1);
        if line % GROWERS == grower {
            let postings = postings_of(alloc, text, line)?;
            if !postings.is_empty() {
                blocks.push(postings)?;
            }
        }
    }
    Ok(blocks)
}

/// The postings that each grower is to gather.
fn lists_of(alloc: Global, text: &str) -> Result<Vec<Vec<Vec<Pair>>>, Fault> {
    let mut lists = Vec::new(alloc);
    for grower in 0..GROWERS {
        lists.push(blocks_of(alloc, text, grower)?)?;
    }
    Ok(lists)
}

/// A vault in memory with all postings of these lists, in whichever order the growers came.
fn index_of<E: Threads + Wait + Sync>(
    rt: &E,
    alloc: Global,
    lists: &[Vec<Vec<Pair>>],
) -> Result<Index, Fault> {
    let source = Lists::try_new(lists).ok_or(Fault::Memory)?;
    let vault = Vault::create_as(alloc, RamDisk::new(alloc), Format::Two)?;
    let crewed = crew(rt, alloc, vault, &source, &OpenGate)?;
    Ok(crewed.vault)
}

/// The same of the words of a text.
fn index<E: Threads + Wait + Sync>(rt: &E, alloc: Global, text: &str) -> Result<Index, Fault> {
    let lists = lists_of(alloc, text)?;
    index_of(rt, alloc, lists.as_slice())
}

/// The lines that have the word, ascending, each once.
fn lines_with(alloc: Global, index: &Index, word: &PostingsOf) -> Result<Vec<i64>, Fault> {
    let mut lines = Vec::new(alloc);
    for piece in index.pieces() {
        for posting in piece.iter().filter(|posting| word.picks(*posting)) {
            lines.push(posting.value)?;
        }
    }
    lines.sort_unstable();
    lines.dedup();
    Ok(lines)
}

/// Writes how often a word stands in the text, and in which lines.
fn tell_word<E: Threads + Wait + Print + Sync>(
    rt: &E,
    alloc: Global,
    index: &Index,
    text: &str,
) -> io::Result<()> {
    let word = PostingsOf(number_of(text));
    let count = index.count_where(rt, &word);
    match lines_with(alloc, index, &word) {
        Ok(lines) => println!(rt; "{text}: {count} times, in lines {lines:?}"),
        Err(fault) => println!(rt; "{fault}"),
    }
}

/// Writes the same of each word.
fn tell_each<E: Threads + Wait + Print + Sync>(
    rt: &E,
    alloc: Global,
    index: &Index,
    words: &[String],
) -> io::Result<()> {
    for word in words {
        tell_word(rt, alloc, index, word.as_str())?;
    }
    Ok(())
}

/// Writes how often each word stands in the text, and in which lines.
pub fn tell<E: Threads + Wait + Print + Sync>(
    rt: &E,
    alloc: Global,
    text: &str,
    words: &[String],
) -> io::Result<()> {
    match index(rt, alloc, text) {
        Ok(index) => tell_each(rt, alloc, &index, words),
        Err(fault) => println!(rt; "{fault}"),
    }
}
