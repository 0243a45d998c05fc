//! Bytes as a hex line.

ghost use Rattle.std.specs.Prelude.{IfOk, IfErr, OnOk, ◌*◌, ◌≤◌, length};
ghost use Rattle.std.specs.Io.KnownBytes.{Appends};
ghost use Rattle.hex.specs.Hex.{encode_lower};
ghost use Rattle.text_core.specs.Text.{ended_line};
ghost use Rattle.text_core.specs.HexLine.{IsHexLine, IsWithoutLf};
ghost use Rattle.text_core.specs.Refusals.{IsHexRefusal};

use crate::refusal::Refusal;
use hex::FromHexError;
use std::alloc::Global;
use std::io;
use std::io::Write;

/// The bytes that are turned into hex at a time.
const PIECE_LEN: usize = 16_384;

/// The text without the LF at its end, if one stands there.
fn without_lf(text: &[u8]) -> &[u8]
    ensures { IsWithoutLf text.now result.now }
{
    match text {
        [front @ .., b'\n'] => front,
        _ => text,
    }
}

/// The bytes whose hex the input is: an even number of digits of either case, then one LF or none.
pub fn bytes_of_hex_line(alloc: Global, input: &[u8]) -> Result<Vec<u8>, Refusal>
    ensures read { IfOk result (λ bytes. IsHexLine input.now bytes.items) }
    ensures refused { IfErr result (IsHexRefusal input.now) }
{
    match hex::decode(alloc, without_lf(input)) {
        Ok(bytes) => Ok(bytes),
        Err(fault) => Err(match fault {
            FromHexError::OutOfMemory => Refusal::Memory,
            _ => Refusal::NotHex,
        }),
    }
}

/// Writes the hex of a piece, by way of the buffer.
pub(crate) fn write_hex<W: Write>(piece: &[u8], text: &mut [u8], writer: &mut W) -> io::Result<()>
    requires { 2 * length piece.now ≤ length text.old }
    ensures { OnOk result (Appends (W.contents writer.old) (W.contents writer.new) (encode_lower piece.now)) }
{
    let text = &mut text[..2 * piece.len()];
    hex::encode_to_slice(piece, text).unwrap();
    writer.write_all(text)
}

/// Writes the hex of the bytes and an LF, piece by piece. No memory is taken on the way.
pub fn write_hex_line<W: Write>(bytes: &[u8], writer: &mut W) -> io::Result<()>
    ensures { OnOk result (Appends (W.contents writer.old) (W.contents writer.new) (ended_line (encode_lower bytes.now))) }
{
    let mut text = [0u8; 2 * PIECE_LEN];
    let mut rest = bytes;
    while !rest.is_empty() {
        let (piece, after) = rest.split_at(rest.len().min(PIECE_LEN));
        write_hex(piece, &mut text, writer)?;
        rest = after;
    }
    writer.write_all(b"\n")?;
    writer.flush()
}
