//! The words of a line: what is left of them stands behind those that were read.

ghost use Rattle.std.specs.Prelude.{◌≡◌, ◌≢◌, ℕ, List, ◌∷◌, [], ◌↔◌, IfSome, IfNone, IsTrue};
ghost use Rattle.play_core.specs.LineWords.{words_left, StartsWithNone};

use text_core::{TextRecord, cut};

/// Whether no word is left.
pub fn is_ended(rest: Option<&[u8]>) -> bool
    ensures { IsTrue result ↔ (words_left rest.entry ≡ []) }
{
    rest.is_none()
}

/// The next word, and what is left behind it.
pub fn next_word(rest: Option<&[u8]>) -> Option<(&[u8], Option<&[u8]>)>
    ensures found { IfSome result (λ next. words_left rest.entry ≡ next.0.now ∷ words_left next.1) }
    ensures none { IfNone result (words_left rest.entry ≡ []) }
{
    Some(cut(rest?, b' '))
}

/// The only word that is left.
pub fn only_word(rest: Option<&[u8]>) -> Option<&[u8]>
    ensures found { IfSome result (λ word. words_left rest.entry ≡ word.now ∷ []) }
    ensures none { IfNone result ((word : List ℕ) → words_left rest.entry ≢ word ∷ []) }
{
    let (word, after) = next_word(rest)?;
    is_ended(after).then_some(word)
}

/// The value that the next word is the text of, and what is left behind it.
pub fn next_value<R: TextRecord>(rest: Option<&[u8]>) -> Option<(R, Option<&[u8]>)>
    ensures found { IfSome result (λ next. R.spelling.is_value next.0 × (words_left rest.entry ≡ R.spelling.text_of next.0 ∷ words_left next.1)) }
    ensures none { IfNone result (StartsWithNone R.spelling (words_left rest.entry)) }
{
    let (word, after) = next_word(rest)?;
    Some((R::parse(word)?, after))
}

/// The value that the only word left is the text of.
pub fn only_value<R: TextRecord>(rest: Option<&[u8]>) -> Option<R>
    ensures found { IfSome result (λ r. R.spelling.is_value r × (words_left rest.entry ≡ R.spelling.text_of r ∷ [])) }
    ensures none { IfNone result ((r : R) → R.spelling.is_value r → words_left rest.entry ≢ R.spelling.text_of r ∷ []) }
{
    let (value, after) = next_value(rest)?;
    is_ended(after).then_some(value)
}
