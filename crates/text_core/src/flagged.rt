//! Keys with a flag as text: the key, a colon, 1 for a flag that is set and 0 for one that isn't.

ghost use Rattle.std.specs.Prelude.{◌≡◌, ◌≢◌, Bool, IfSome, IfNone};
ghost use Rattle.text_core.specs.Flags.{flag_text};
ghost use Rattle.text_core.specs.Keyed.{flagged_spelling, IsWord-flagged, one_flagged};

use crate::halves::halves_of;
use crate::text::TextRecord;
use record_core::Flagged;
use std::io;
use std::io::Write;

/// The flag that the text is one of.
fn flag_of_text(text: &[u8]) -> Option<bool>
    ensures read { IfSome result (λ flag. flag_text flag ≡ text.now) }
    ensures refused { IfNone result ((flag : Bool) → flag_text flag ≢ text.now) }
{
    match text {
        b"0" => Some(false),
        b"1" => Some(true),
        _ => None,
    }
}

impl TextRecord for Flagged {
    ghost spelling = { flagged_spelling };

    fn parse(text: &[u8]) -> Option<Flagged> {
        let (key_text, flag_text) = halves_of(text)?;
        let key = u64::parse(key_text)?;
        let flag = flag_of_text(flag_text)?;
        Some(Flagged { key, flag })
    }

    fn write_text<W: Write>(&self, writer: &mut W) -> io::Result<()> {
        self.key.write_text(writer)?;
        writer.write_all(if self.flag { b":1" } else { b":0" })
    }

    ghost is_word = { IsWord-flagged };

    ghost one_value = { one_flagged };
}
