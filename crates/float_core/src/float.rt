//! The texts of floats, by their bits.

ghost use Rattle.std.specs.Prelude.{◌≡◌, ◌↔◌, ◌*◌, ◌<◌, ◌≤◌, ◌⊎◌, ℕ, List, Some, None, IfSome, IfNone, MatchOption, OnOk, IsTrue, IsFalse, codes, not, ◌&&◌, nat_le, decimal, ◌++◌, is_nan, from_bits};
ghost use Rattle.std.specs.Io.KnownBytes.{Appends};
ghost use Rattle.std.specs.List.{AllPass};
ghost use Rattle.std.specs.Float.{float_is_infinite, NotNan};
ghost use Rattle.std.specs.Float.Ieee as Ieee;
ghost use Rattle.std.specs.Float.Ieee.{nan, top, ones, hid};
ghost use Rattle.std.specs.Float.Parse.{parse_float};
ghost use Rattle.float_core.specs.Floats.{format_of, quiet_nan, is_digit, HasNoDigit, AreBits, AreNanBits, IsNamedNan, IsFloatText, IsNumberText, IsNanWord};

use ryu::{Buffer, Float};
use std::io::{self, Write};
use text_core::{TextRecord, write_number};

/// What stands in front of the bits of a NaN.
const NAN: &[u8] = b"NaN:";

/// Whether a digit is in it.
fn has_digit(text: &[u8]) -> bool
    ensures { IsFalse result ↔ HasNoDigit text.now }
{
    text.iter().any(|b| b.is_ascii_digit())
}

/// The bits of the float that a text is read as: of a NaN, these.
fn bits_of<F: Float>(text: &[u8], quiet_nan: u64) -> Option<u64>
    ensures { MatchOption result (parse_float F.format text.now ≡ None) (λ bits. (x : Ieee.Float) × (parse_float F.format text.now ≡ Some x)
        × (((x ≡ nan) × (bits ≡ quiet_nan)) ⊎ (NotNan x × (from_bits F.format bits ≡ x) × (bits < 2 * top F.format)))) }
{
    let x: F = fast_float::parse(text).ok()?;
    Some(if x.is_number() {
        x.raw_bits()
    } else {
        quiet_nan
    })
}

/// Writes a text by which the float is read again.
fn write_float<F: Float, W: Write>(x: F, writer: &mut W) -> io::Result<()>
    ensures { OnOk result ((text : List ℕ) × Appends (W.contents writer.old) (W.contents writer.new) text
        × (parse_float F.format text ≡ Some (F.value x))
        × (IsTrue (float_is_infinite (F.value x)) → HasNoDigit text)) }
{
    writer.write_all(Buffer::new().format(x).as_bytes())
}

/// The floats of a width, those of IEEE 754. Each is known by its bits.
#[derive(Clone, Copy, Debug, PartialEq, Eq)]
pub enum FloatType {
    F32,
    F64,
}

impl FloatType {
    /// The bits of the NaN without a sign and a payload.
    fn quiet_nan(self) -> u64
        ensures { result ≡ quiet_nan self }
    {
        match self {
            FloatType::F32 => 0x7fc0_0000,
            FloatType::F64 => 0x7ff8_0000_0000_0000,
        }
    }

    /// Whether these are bits of a NaN.
    fn is_nan(self, bits: u64) -> bool
        ensures { IsTrue result ↔ AreNanBits self bits }
    {
        match self {
            FloatType::F32 => bits < 1 << 32 && 0x7f80_0000 < bits % (1 << 31),
            FloatType::F64 => 0x7ff0_0000_0000_0000 < bits % (1 << 63),
        }
    }

    /// Whether a float of the type has these bits.
    pub fn has(self, bits: u64) -> bool
        ensures { IsTrue result ↔ AreBits self bits }
    {
        match self {
            FloatType::F32 => bits < 1 << 32,
            FloatType::F64 => true,
        }
    }

    /// Whether these are bits of an infinity.
    fn is_infinite(self, bits: u64) -> bool
        requires { AreBits self bits × NotNan (from_bits (format_of self) bits) }
        ensures { result ≡ float_is_infinite (from_bits (format_of self) bits) }
    {
        match self {
            FloatType::F32 => f32::from_bits(bits as u32).is_infinite(),
            FloatType::F64 => f64::from_bits(bits).is_infinite(),
        }
    }

    /// The bits of the float that a text is read as.
    fn bits_read(self, text: &[u8]) -> Option<u64>
        ensures { MatchOption result (parse_float (format_of self) text.now ≡ None) (λ bits. (x : Ieee.Float) × (parse_float (format_of self) text.now ≡ Some x)
            × (((x ≡ nan) × (bits ≡ quiet_nan self)) ⊎ (NotNan x × (from_bits (format_of self) bits ≡ x) × (bits < 2 * top (format_of self))))) }
    {
        match self {
            FloatType::F32 => bits_of::<f32>(text, self.quiet_nan()),
            FloatType::F64 => bits_of::<f64>(text, self.quiet_nan()),
        }
    }

    /// The bits of the number that a text is, or of the quiet NaN.
    fn bits_of_number(self, text: &[u8]) -> Option<u64>
        ensures read { IfSome result (λ bits. IsNumberText self text.now bits ⊎ IsNanWord self text.now bits) }
        ensures refused { IfNone result ((bits : ℕ) → ¬ (IsNumberText self text.now bits) × ¬ (IsNanWord self text.now bits)) }
    {
        let bits = self.bits_read(text)?;
        if !self.is_nan(bits) && self.is_infinite(bits) && has_digit(text) {
            return None;
        }
        Some(bits)
    }

    /// The bits of a NaN that are behind its name.
    fn bits_of_nan(self, text: &[u8]) -> Option<u64>
        ensures read { IfSome result (λ bits. IsNamedNan self text.now bits) }
        ensures refused { IfNone result ((bits : ℕ) → ¬ (IsNamedNan self text.now bits)) }
    {
        let bits = u64::parse(text.strip_prefix(NAN)?)?;
        if self.is_nan(bits) { Some(bits) } else { None }
    }

    /// The bits of the float whose text this is: a decimal in any form, of which the nearest float is taken, `inf`, `infinity` or
    /// `nan` in any case, and what `write_text` writes. A decimal that is too large for a float is none.
    pub fn bits_of_text(self, text: &[u8]) -> Option<u64>
        ensures read { IfSome result (λ bits. IsFloatText self text.now bits) }
        ensures refused { IfNone result ((bits : ℕ) → ¬ (IsFloatText self text.now bits)) }
    {
        match self.bits_of_number(text) {
            Some(bits) => Some(bits),
            None => self.bits_of_nan(text),
        }
    }

    /// Writes a text by which the float is read again, bit for bit: few digits, `inf`, `-inf`, or `NaN`, behind which a colon and
    /// its bits stand where it isn't the quiet one without a sign and a payload. Takes no memory.
    pub fn write_text<W: Write>(self, bits: u64, writer: &mut W) -> io::Result<()>
        requires { AreBits self bits }
        ensures { OnOk result ((text : List ℕ) × Appends (W.contents writer.old) (W.contents writer.new) text × IsFloatText self text bits) }
    {
        if !self.is_nan(bits) {
            return self.write_number(bits, writer);
        }
        if bits == self.quiet_nan() {
            return writer.write_all(b"NaN");
        }
        writer.write_all(NAN)?;
        write_number(writer, bits)
    }

    /// Writes a text of a number.
    fn write_number<W: Write>(self, bits: u64, writer: &mut W) -> io::Result<()>
        requires { AreBits self bits × NotNan (from_bits (format_of self) bits) }
        ensures { OnOk result ((text : List ℕ) × Appends (W.contents writer.old) (W.contents writer.new) text × IsNumberText self text bits) }
    {
        match self {
            FloatType::F32 => write_float(f32::from_bits(bits as u32), writer),
            FloatType::F64 => write_float(f64::from_bits(bits), writer),
        }
    }
}
