//! A text that is cut at a separator, and the lines of an input.

ghost use Rattle.std.specs.Prelude.{◌≡◌, ◌≢◌, ◌≤◌, [], ◌∷◌, ◌++◌, All, IsTrue, MatchOption, length, take};
ghost use Rattle.text_core.specs.Lines.{IsFirstLine};

/// What stands before the first separator, and behind it, if it is there.
pub fn cut(text: &[u8], separator: u8) -> (&[u8], Option<&[u8]>)
    ensures whole { MatchOption result.1 (text.now ≡ result.0.now) (λ rest. text.now ≡ result.0.now ++ separator ∷ rest.now) }
    ensures first { All (λ b. b ≢ separator) result.0.now }
{
    match text.iter().position(|b| *b == separator) {
        Some(at) => (&text[..at], Some(&text[at + 1..])),
        None => (text, None),
    }
}

/// The bytes that are compared at once.
const BLOCK_LEN: usize = 32;

/// Whether these bytes lack the separator. Each is looked at, also behind one, so that many are compared at once.
fn lacks(bytes: &[u8], separator: u8) -> bool
    ensures { IsTrue result → All (λ b. b ≢ separator) bytes.now }
{
    let mut lacks = true;
    for k in 0..bytes.len() {
        lacks = lacks & (bytes[k] != separator);
    }
    lacks
}

/// How many bytes of the front lack the separator, by whole blocks: more may.
fn plain_len(text: &[u8], separator: u8) -> usize
    ensures within { result ≤ length text.now }
    ensures plain { All (λ b. b ≢ separator) (take result text.now) }
{
    let mut len = 0;
    while text.len() - len >= BLOCK_LEN && lacks(&text[len..len + BLOCK_LEN], separator) {
        len += BLOCK_LEN;
    }
    len
}

/// As `cut`, and quicker where the first separator stands far behind.
pub fn cut_far(text: &[u8], separator: u8) -> (&[u8], Option<&[u8]>)
    ensures whole { MatchOption result.1 (text.now ≡ result.0.now) (λ rest. text.now ≡ result.0.now ++ separator ∷ rest.now) }
    ensures first { All (λ b. b ≢ separator) result.0.now }
{
    let plain = plain_len(text, separator);
    let (behind, rest) = cut(&text[plain..], separator);
    (&text[..plain + behind.len()], rest)
}

/// The first line, without its LF, and what stands behind it. `None`: there is nothing left.
pub fn next_line(text: &[u8]) -> Option<(&[u8], &[u8])>
    ensures { MatchOption result (text.now ≡ []) (λ cut. IsFirstLine text.now cut.0.now cut.1.now) }
{
    if text.is_empty() {
        return None;
    }
    let (line, rest) = cut(text, b'\n');
    Some((line, rest.unwrap_or(&[])))
}
