//! Texts of two halves with a colon between them.

ghost use Rattle.std.specs.Prelude.{◌≡◌, IfSome, IfNone};
ghost use Rattle.text_core.specs.Halves.{halves_text, HasNoColon};

use crate::line::cut;

/// What stands before the first colon of the text, and behind it.
pub fn halves_of(text: &[u8]) -> Option<(&[u8], &[u8])>
    ensures found { IfSome result (λ halves. (text.now ≡ halves_text halves.0.now halves.1.now) × HasNoColon halves.0.now) }
    ensures none { IfNone result (HasNoColon text.now) }
{
    let (first, rest) = cut(text, b':');
    let second = rest?;
    Some((first, second))
}
