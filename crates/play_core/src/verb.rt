//! The words that lines of steps begin with.

ghost use Rattle.std.specs.Prelude.{◌≡◌, ◌≢◌, All, IfSome, IfNone};
ghost use Rattle.play_core.specs.Verbs.{verb_word};

/// What a line asks for, by its first word.
#[derive(Clone, Copy)]
pub enum Verb {
    Create,
    Open,
    Share,
    Put,
    Look,
    View,
    Settled,
    Take,
    Raise,
    Close,
    Gather,
    Change,
    Changes,
    Resize,
    Clear,
    List,
    Fold,
    Log,
    Home,
    Crash,
}

/// All verbs.
const VERBS: [Verb; 20] = [
    Verb::Create,
    Verb::Open,
    Verb::Share,
    Verb::Put,
    Verb::Look,
    Verb::View,
    Verb::Settled,
    Verb::Take,
    Verb::Raise,
    Verb::Close,
    Verb::Gather,
    Verb::Change,
    Verb::Changes,
    Verb::Resize,
    Verb::Clear,
    Verb::List,
    Verb::Fold,
    Verb::Log,
    Verb::Home,
    Verb::Crash,
];

impl Verb {
    /// The word that names it.
    fn word(self) -> &'static [u8]
        ensures { result.now ≡ verb_word self }
    {
        match self {
            Verb::Create => b"create",
            Verb::Open => b"open",
            Verb::Share => b"share",
            Verb::Put => b"put",
            Verb::Look => b"look",
            Verb::View => b"view",
            Verb::Settled => b"settled",
            Verb::Take => b"take",
            Verb::Raise => b"raise",
            Verb::Close => b"close",
            Verb::Gather => b"gather",
            Verb::Change => b"change",
            Verb::Changes => b"changes",
            Verb::Resize => b"resize",
            Verb::Clear => b"clear",
            Verb::List => b"list",
            Verb::Fold => b"fold",
            Verb::Log => b"log",
            Verb::Home => b"home",
            Verb::Crash => b"crash",
        }
    }
}

/// The first of these verbs that a word is.
fn verb_among(word: &[u8], verbs: &[Verb]) -> Option<Verb>
    ensures named { IfSome result (λ verb. word.now ≡ verb_word verb) }
    ensures unnamed { IfNone result (All (λ verb. word.now ≢ verb_word verb) verbs.now) }
{
    for verb in verbs {
        if word == verb.word() {
            return Some(*verb);
        }
    }
    None
}

/// The verb that a word is.
pub fn verb_of(word: &[u8]) -> Option<Verb>
    ensures named { IfSome result (λ verb. word.now ≡ verb_word verb) }
    ensures unnamed { IfNone result ((verb : Verb) → word.now ≢ verb_word verb) }
{
    verb_among(word, &VERBS)
}
