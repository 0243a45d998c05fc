//! Output in which the numbers that are records become floats.

ghost use Rattle.std.specs.Prelude.{None, is_none, if◌then◌else◌};

use float_core::{Decoder, FloatType};
use std::io::{self, Write};

/// Writes to the writer inside, and the floats that have their bits for numbers that are records; or all as it is, where no floats
/// are asked for.
#[derive(Drop)]
pub struct Decoded<W> {
    inner: W,
    decoder: Option<Decoder>,
}

impl<W> Decoded<W> {
    pub fn new(inner: W, floats: Option<FloatType>) -> Decoded<W> {
        let decoder = match floats {
            Some(float) => Some(Decoder::new(float)),
            None => None,
        };
        Decoded { inner, decoder }
    }
}

impl<W: Write> Write for Decoded<W> {
    ghost contents = { λ decoded. if is_none decoded.decoder then W.contents decoded.inner else None };

    fn write(&mut self, buf: &[u8]) -> io::Result<usize> {
        match &mut self.decoder {
            Some(decoder) => {
                decoder.write_decoded(buf, &mut self.inner)?;
                Ok(buf.len())
            }
            None => self.inner.write(buf),
        }
    }

    fn flush(&mut self) -> io::Result<()> {
        self.inner.flush()
    }

    fn write_all(&mut self, buf: &[u8]) -> io::Result<()> {
        match &mut self.decoder {
            Some(decoder) => decoder.write_decoded(buf, &mut self.inner),
            None => self.inner.write_all(buf),
        }
    }
}
