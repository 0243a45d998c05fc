//! Numbers as text: decimal digits with no zero in front.

ghost use Rattle.std.specs.Prelude.{◌<◌, ◌≤◌, ◌^◌, ◌↔◌, decimal, length, OnOk, IsTrue};
ghost use Rattle.std.specs.Io.KnownBytes.{Appends};
ghost use Rattle.std.specs.Option.{SomeIff};
ghost use Rattle.std.specs.Str.Parse.{AllDigits, digits_value};
ghost use Rattle.std.proofs.Common.{lit≤};
ghost use Rattle.text_core.specs.Numbers.{BeginsAsNumber, number_spelling, IsWord-decimal, one_decimal};

use crate::text::TextRecord;
use itoa::Integer;
use std::io;
use std::io::Write;

/// Writes a number in decimal digits, with a minus in front of one below 0.
pub fn write_number<N: Integer, W: Write>(writer: &mut W, n: N) -> io::Result<()>
    ensures { OnOk result (Appends (W.contents writer.old) (W.contents writer.new) (N.text n)) }
{
    let mut buffer = itoa::Buffer::new();
    writer.write_all(buffer.format(n).as_bytes())
}

/// Whether the text is not empty and has neither a plus nor a zero in front, which `str::parse` takes and the
/// text of no number has. The one text with a zero in front is that zero.
fn begins_as_number(text: &[u8]) -> bool
    ensures { IsTrue result ↔ BeginsAsNumber text.now }
{
    !text.is_empty() && text[0] != b'+' && (text[0] != b'0' || text.len() == 1)
}

/// The digits that any number may have: as many nines are below 2^64.
const SHORT_LEN: usize = 19;

/// The number that the digits of a short text write. `None`: it has something else than digits.
fn short_number(text: &[u8]) -> Option<u64>
    requires { length text.now ≤ 19 }
    ensures { SomeIff result (AllDigits 10 text.now) (digits_value 10 text.now) }
{
    let mut number: u64 = 0;
    for k in 0..text.len() {
        let byte = text[k];
        if byte < b'0' || byte > b'9' {
            return None;
        }
        number = number * 10 + (byte - b'0') as u64;
    }
    Some(number)
}

impl TextRecord for u64 {
    ghost spelling = { number_spelling 64 };

    fn parse(text: &[u8]) -> Option<u64> {
        if !begins_as_number(text) {
            return None;
        }
        // std's own parse would test at each digit whether the number is too large.
        if text.len() <= SHORT_LEN {
            return short_number(text);
        }
        let Ok(text) = str::from_utf8(text) else {
            return None;
        };
        text.parse().ok()
    }

    fn write_text<W: Write>(&self, writer: &mut W) -> io::Result<()> {
        write_number(writer, *self)
    }

    ghost is_word = { IsWord-decimal 64 (lit≤ tt) };

    ghost one_value = { one_decimal 64 (lit≤ tt) };
}

impl TextRecord for u32 {
    ghost spelling = { number_spelling 32 };

    fn parse(text: &[u8]) -> Option<u32> {
        u32::try_from(u64::parse(text)?).ok()
    }

    fn write_text<W: Write>(&self, writer: &mut W) -> io::Result<()> {
        write_number(writer, *self)
    }

    ghost is_word = { IsWord-decimal 32 (lit≤ tt) };

    ghost one_value = { one_decimal 32 (lit≤ tt) };
}

impl TextRecord for u16 {
    ghost spelling = { number_spelling 16 };

    fn parse(text: &[u8]) -> Option<u16> {
        u16::try_from(u64::parse(text)?).ok()
    }

    fn write_text<W: Write>(&self, writer: &mut W) -> io::Result<()> {
        write_number(writer, *self)
    }

    ghost is_word = { IsWord-decimal 16 (lit≤ tt) };

    ghost one_value = { one_decimal 16 (lit≤ tt) };
}

impl TextRecord for u8 {
    ghost spelling = { number_spelling 8 };

    fn parse(text: &[u8]) -> Option<u8> {
        u8::try_from(u64::parse(text)?).ok()
    }

    fn write_text<W: Write>(&self, writer: &mut W) -> io::Result<()> {
        write_number(writer, *self)
    }

    ghost is_word = { IsWord-decimal 8 (lit≤ tt) };

    ghost one_value = { one_decimal 8 (lit≤ tt) };
}
