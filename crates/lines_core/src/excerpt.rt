//! What is kept of a line that is refused, so that it can be shown.

ghost use Rattle.std.specs.Prelude.{◌≡◌, ◌≤◌, length};
ghost use Rattle.lines_core.specs.Excerpts.{IsExcerptOf, excerpt_text};

use text_core::{TextRecord, cut};

/// The bytes of a line that are kept at most.
const EXCERPT_LEN: usize = 48;

/// A part of a line.
#[derive(Clone, Copy)]
pub struct Excerpt {
    /// How many bytes of the line stand before it.
    pub before: usize,
    /// How many bytes of the line stand behind it.
    pub behind: usize,
    bytes: [u8; EXCERPT_LEN],
    /// How many of the bytes are of the line.
    len: usize,
}

impl Excerpt {
    /// The bytes of the line, which are 48 at most.
    pub fn text(&self) -> &[u8]
        ensures { result.now ≡ excerpt_text self.now }
    {
        &self.bytes[..self.len.min(EXCERPT_LEN)]
    }

    /// The bytes of a line from this place on.
    fn at(line: &[u8], before: usize) -> Excerpt
        requires { before ≤ length line.now }
        ensures { IsExcerptOf line.now result }
    {
        let rest = &line[before..];
        let len = rest.len().min(EXCERPT_LEN);
        let mut bytes = [0; EXCERPT_LEN];
        bytes[..len].copy_from_slice(&rest[..len]);
        Excerpt {
            before,
            behind: rest.len() - len,
            bytes,
            len,
        }
    }

    /// The bytes of a line from its first word on that is no record. Words have a separator between each two.
    pub fn of_bad_word<R: TextRecord>(line: &[u8], separator: u8) -> Excerpt
        ensures { IsExcerptOf line.now result }
    {
        Excerpt::at(line, bad_word_at::<R>(line, separator))
    }
}

/// Where the first word of a line begins that is no record: at its end, where nothing stands behind its last separator.
fn bad_word_at<R: TextRecord>(line: &[u8], separator: u8) -> usize
    ensures { result ≤ length line.now }
{
    for at in 0..line.len() {
        let begins_word = at == 0 || line[at - 1] == separator;
        if begins_word && R::parse(cut(&line[at..], separator).0).is_none() {
            return at;
        }
    }
    line.len()
}
