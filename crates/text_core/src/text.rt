//! What a record type has to offer so that its records can be read and written as text.

ghost use Rattle.std.specs.Prelude.{◌≡◌, ◌≢◌, IfSome, IfNone, OnOk};
ghost use Rattle.std.specs.Io.KnownBytes.{Appends};
ghost use Rattle.text_core.specs.Text.{Spelling, AreWords, HasOneValue};

use record_core::Record;
use std::io;
use std::io::Write;

/// A record with a text form. The text is one word: it isn't empty, and no byte of it is LF, a space or a
/// bar. Each value has one text, and no two values have the same.
pub trait TextRecord: Record {
    /// What the type's text form is: its values, and the text of each.
    ghost spelling: { Spelling Self };

    /// The value that this is the text of. `None`: it is the text of no value.
    fn parse(text: &[u8]) -> Option<Self>
        ensures read { IfSome result (λ r. spelling.is_value r × (spelling.text_of r ≡ text.now)) }
        ensures refused { IfNone result ((r : Self) → spelling.is_value r → spelling.text_of r ≢ text.now) };

    /// Writes the text, and takes no memory of its own.
    fn write_text<W: Write>(&self, writer: &mut W) -> io::Result<()>
        ensures { OnOk result (Appends (W.contents writer.old) (W.contents writer.new) (spelling.text_of self.now)) };

    ghost is_word: { AreWords spelling };

    ghost one_value: { HasOneValue spelling };
}
