//! Pairs as text: the key, a colon, the value.

ghost use Rattle.text_core.specs.Keyed.{pair_spelling, IsWord-pair, one_pair};

use crate::halves::halves_of;
use crate::text::TextRecord;
use record_core::Pair;
use std::io;
use std::io::Write;

impl TextRecord for Pair {
    ghost spelling = { pair_spelling };

    fn parse(text: &[u8]) -> Option<Pair> {
        let (key_text, value_text) = halves_of(text)?;
        let key = u64::parse(key_text)?;
        let value = i64::parse(value_text)?;
        Some(Pair { key, value })
    }

    fn write_text<W: Write>(&self, writer: &mut W) -> io::Result<()> {
        self.key.write_text(writer)?;
        writer.write_all(b":")?;
        self.value.write_text(writer)
    }

    ghost is_word = { IsWord-pair };

    ghost one_value = { one_pair };
}
