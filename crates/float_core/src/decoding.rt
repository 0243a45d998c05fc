//! Lines of numbers as lines of the floats that have their bits.

ghost use Rattle.std.specs.Prelude.{◌≡◌, ◌≢◌, ◌++◌, ◌∷◌, ◌⊎◌, ◌&&◌, ℕ, List, [], true, false, OnOk};
ghost use Rattle.std.specs.Io.KnownBytes.{Appends};
ghost use Rattle.float_core.specs.Floats.{is_digit};
ghost use Rattle.float_core.specs.Decoded.{may_be_record, spot_behind, spot_behind_digits, AreDigitsAt, IsNumberGiven, IsDecoded};

use crate::float::FloatType;
use arrayvec::ArrayVec;
use std::io::{self, Write};
use std::marker::Model;
use text_core::TextRecord;

/// The most digits that a number of 64 bits has.
const DIGITS_LIMIT: usize = 20;

/// Where the next records of a line stand.
#[derive(Clone, Copy, Debug, PartialEq, Eq)]
pub enum Spot {
    /// The line begins.
    Begin,
    /// Behind two blanks.
    Change,
    /// Behind a blank.
    Event,
    /// All numbers from here on are records.
    Records,
    /// No more of them.
    Nowhere,
}

impl Spot {
    /// Whether a number here is a record.
    fn may_be_record(self) -> bool
        ensures { result ≡ may_be_record self }
    {
        self == Spot::Begin || self == Spot::Records
    }

    /// Where the next records stand behind a byte that is no digit of one.
    fn behind(self, byte: u8) -> Spot
        ensures { result ≡ spot_behind self byte }
    {
        match (self, byte) {
            (_, b'\n') => Spot::Begin,
            (Spot::Begin, b'+') => Spot::Event,
            (Spot::Begin, b'=') => Spot::Change,
            (Spot::Begin, _) => Spot::Nowhere,
            (Spot::Change, b' ') => Spot::Event,
            (Spot::Event, b' ') => Spot::Records,
            _ => self,
        }
    }
}

/// Writes the float whose number these digits are. What is no number of a float stays.
fn write_given<W: Write>(float: FloatType, digits: &[u8], writer: &mut W) -> io::Result<()>
    ensures { OnOk result ((given : List ℕ) × Appends (W.contents writer.old) (W.contents writer.new) given × IsNumberGiven float digits.now given) }
{
    let Some(bits) = u64::parse(digits) else {
        return writer.write_all(digits);
    };
    if float.has(bits) {
        float.write_text(bits, writer)
    } else {
        writer.write_all(digits)
    }
}

/// Takes the bytes of an output piece by piece. Records are the numbers of a line that begins with one, and of an event's line,
/// which begins with a plus or an equals sign, the last. All other lines stay.
#[derive(Drop)]
pub struct Decoder {
    pub(crate) float: FloatType,
    pub(crate) spot: Spot,
    /// Those of a record that has no end yet.
    pub(crate) digits: ArrayVec<u8, DIGITS_LIMIT>,
}

impl Model for Decoder {
    ghost use Rattle.float_core.specs.Floats.{is_digit};
    ghost use Rattle.float_core.specs.Decoded.{Writing, AreDigitsAt};

    ghost Value = { Writing };

    ghost view = { λ decoder. record {
      float = decoder.float;
      spot = decoder.spot;
      digits = decoder.digits.items;
    } };

    ghost invariant = { λ decoder. AreDigitsAt decoder.spot decoder.digits.items };
}

impl Decoder {
    pub fn new(float: FloatType) -> Decoder
        ensures { (result.float ≡ float) × (result.spot ≡ Spot.Begin) × (result.digits ≡ []) }
    {
        Decoder {
            float,
            spot: Spot::Begin,
            digits: ArrayVec::new(),
        }
    }

    /// Takes a byte that is no digit of a record.
    fn write_other<W: Write>(&mut self, byte: u8, writer: &mut W) -> io::Result<()>
        requires { (is_digit byte && may_be_record self.old.spot) ≡ false }
        ensures { OnOk result ((own : List ℕ) × Appends (W.contents writer.old) (W.contents writer.new) own × IsDecoded self.old (byte ∷ []) own self.new) }
    {
        if self.digits.is_empty() {
            writer.write_all(&[byte])?;
            self.spot = self.spot.behind(byte);
            return Ok(());
        }
        write_given(self.float, self.digits.as_slice(), writer)?;
        writer.write_all(&[byte])?;
        self.digits.clear();
        self.spot = Spot::Records.behind(byte);
        Ok(())
    }

    /// Takes a digit of a record. Behind too many for a number no more of the line is one.
    fn take_digit<W: Write>(&mut self, digit: u8, writer: &mut W) -> io::Result<()>
        requires { (is_digit digit ≡ true) × (may_be_record self.old.spot ≡ true) }
        ensures { OnOk result ((own : List ℕ) × Appends (W.contents writer.old) (W.contents writer.new) own × IsDecoded self.old (digit ∷ []) own self.new) }
    {
        if !self.digits.is_full() {
            self.digits.push(digit);
            return Ok(());
        }
        writer.write_all(self.digits.as_slice())?;
        writer.write_all(&[digit])?;
        self.digits.clear();
        self.spot = Spot::Nowhere;
        Ok(())
    }

    /// Takes a byte.
    fn write_byte<W: Write>(&mut self, byte: u8, writer: &mut W) -> io::Result<()>
        ensures { OnOk result ((own : List ℕ) × Appends (W.contents writer.old) (W.contents writer.new) own × IsDecoded self.old (byte ∷ []) own self.new) }
    {
        if self.spot.may_be_record() && byte.is_ascii_digit() {
            self.take_digit(byte, writer)
        } else {
            self.write_other(byte, writer)
        }
    }

    /// Writes what is given for these bytes and for the digits that had been held back.
    pub fn write_decoded<W: Write>(&mut self, bytes: &[u8], writer: &mut W) -> io::Result<()>
        ensures { OnOk result ((own : List ℕ) × Appends (W.contents writer.old) (W.contents writer.new) own × IsDecoded self.old bytes.now own self.new) }
    {
        for k in 0..bytes.len() {
            self.write_byte(bytes[k], writer)?;
        }
        Ok(())
    }
}
