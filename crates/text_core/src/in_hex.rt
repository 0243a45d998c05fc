//! Records whose text is the hex of their bytes, in lower case and in the order of the file.

ghost use Rattle.std.specs.Prelude.{◌≡◌, ◌≢◌, ◌≤◌, ◌↔◌, length, IfSome, IfNone, OnOk, IsTrue, ◌*◌};
ghost use Rattle.std.specs.Io.KnownBytes.{Appends};
ghost use Rattle.std.proofs.Common.{rules};
ghost use Rattle.hex.specs.Hex.{encode_lower};
ghost use Rattle.record_core.specs.ByteRecords.{bytes16, bytes24, bytes32, bytes64};
ghost use Rattle.text_core.specs.InHex.{IsReadAgain, hex_spelling, IsWord-hex, one_hex};

use crate::hex_line::write_hex;
use crate::text::TextRecord;
use record_core::{Bytes16, Bytes24, Bytes32, Bytes64, Record};
use std::io;
use std::io::Write;

/// The bytes of the widest record whose text is hex.
const WIDEST: usize = 64;

/// Whether the text is the hex of these bytes in lower case.
fn is_hex_of(text: &[u8], bytes: &[u8]) -> bool
    requires { length bytes.now ≤ 64 }
    ensures { IsTrue result ↔ (text.now ≡ encode_lower bytes.now) }
{
    let mut digits = [0u8; 2 * WIDEST];
    let digits = &mut digits[..2 * bytes.len()];
    hex::encode_to_slice(bytes, digits).unwrap();
    text == digits
}

/// The record whose bytes the text is the hex of.
fn record_of_hex<R: Record>(text: &[u8]) -> Option<R>
    requires { R.form.width ≤ 64 }
    ensures read { IfSome result (λ r. IsReadAgain R.form r × (encode_lower (R.form.bytes_of r) ≡ text.now)) }
    ensures refused { IfNone result ((r : R) → IsReadAgain R.form r → encode_lower (R.form.bytes_of r) ≢ text.now) }
{
    let mut bytes = [0u8; WIDEST];
    let bytes = &mut bytes[..R::WIDTH];
    if hex::decode_to_slice(text, bytes).is_err() || !is_hex_of(text, bytes) {
        return None;
    }
    R::take(bytes)
}

/// Writes the hex of the record's bytes.
fn write_in_hex<R: Record, W: Write>(value: &R, writer: &mut W) -> io::Result<()>
    requires { R.form.width ≤ 64 }
    ensures { OnOk result (Appends (W.contents writer.old) (W.contents writer.new) (encode_lower (R.form.bytes_of value.now))) }
{
    let mut bytes = [0u8; WIDEST];
    let bytes = &mut bytes[..R::WIDTH];
    value.put(bytes);
    let mut text = [0u8; 2 * WIDEST];
    write_hex(bytes, &mut text, writer)
}

impl TextRecord for Bytes16 {
    ghost spelling = { hex_spelling bytes16 };

    fn parse(text: &[u8]) -> Option<Bytes16> {
        record_of_hex(text)
    }

    fn write_text<W: Write>(&self, writer: &mut W) -> io::Result<()> {
        write_in_hex(self, writer)
    }

    ghost is_word = { IsWord-hex bytes16 (λ r. Prim.search rules) };

    ghost one_value = { one_hex bytes16 };
}

impl TextRecord for Bytes24 {
    ghost spelling = { hex_spelling bytes24 };

    fn parse(text: &[u8]) -> Option<Bytes24> {
        record_of_hex(text)
    }

    fn write_text<W: Write>(&self, writer: &mut W) -> io::Result<()> {
        write_in_hex(self, writer)
    }

    ghost is_word = { IsWord-hex bytes24 (λ r. Prim.search rules) };

    ghost one_value = { one_hex bytes24 };
}

impl TextRecord for Bytes32 {
    ghost spelling = { hex_spelling bytes32 };

    fn parse(text: &[u8]) -> Option<Bytes32> {
        record_of_hex(text)
    }

    fn write_text<W: Write>(&self, writer: &mut W) -> io::Result<()> {
        write_in_hex(self, writer)
    }

    ghost is_word = { IsWord-hex bytes32 (λ r. Prim.search rules) };

    ghost one_value = { one_hex bytes32 };
}

impl TextRecord for Bytes64 {
    ghost spelling = { hex_spelling bytes64 };

    fn parse(text: &[u8]) -> Option<Bytes64> {
        record_of_hex(text)
    }

    fn write_text<W: Write>(&self, writer: &mut W) -> io::Result<()> {
        write_in_hex(self, writer)
    }

    ghost is_word = { IsWord-hex bytes64 (λ r. Prim.search rules) };

    ghost one_value = { one_hex bytes64 };
}
