//! Texts, and how often each has come.

use drive_core::Answer;
use play_core::write_answers;
use std::alloc::{AllocError, Global};
use std::io;
use text_core::{TextRecord, write_number};

/// What stands between two texts.
pub const BAR: &[u8] = b" | ";

#[derive(Drop)]
struct CountedText {
    text: Vec<u8>,
    count: u64,
}

/// Texts in the order in which each came first, and how often each has come.
#[derive(Drop)]
pub struct DistinctTexts {
    alloc: Global,
    entries: Vec<CountedText>,
}

impl DistinctTexts {
    pub fn new(alloc: Global) -> DistinctTexts {
        DistinctTexts {
            alloc,
            entries: Vec::new(alloc),
        }
    }

    /// Counts a text.
    pub fn add(&mut self, text: Vec<u8>) -> Result<(), AllocError> {
        for entry in self.entries.iter_mut() {
            if entry.text == text {
                entry.count = entry.count.saturating_add(1);
                return Ok(());
            }
        }
        self.entries.push(CountedText { text, count: 1 })?;
        Ok(())
    }

    /// Counts the answers of steps.
    pub fn add_answers<R: TextRecord>(
        &mut self,
        answers: &[Answer<R>],
        from: usize,
    ) -> io::Result<()> {
        for answer in answers.get(from..).unwrap_or(&[]) {
            let mut text = Vec::new(self.alloc);
            write_answers(&mut text, std::slice::from_ref(answer))?;
            text.pop();
            self.add(text)?;
        }
        Ok(())
    }

    /// Writes the text that alone has come, or all of them with their counts.
    pub fn write_one(&self, out: &mut Vec<u8>) -> io::Result<()> {
        if let [entry] = self.entries.as_slice() {
            out.extend_from_slice(entry.text.as_slice())?;
            return Ok(());
        }
        self.write(b"; ", out)
    }

    /// Writes the texts, each with its count where it came more than once, with these bytes between each two.
    pub fn write(&self, between: &[u8], out: &mut Vec<u8>) -> io::Result<()> {
        for (k, entry) in self.entries.iter().enumerate() {
            if k > 0 {
                out.extend_from_slice(between)?;
            }
            if entry.count > 1 {
                write_number(out, entry.count)?;
                out.extend_from_slice(b" x ")?;
            }
            out.extend_from_slice(entry.text.as_slice())?;
        }
        Ok(())
    }
}
