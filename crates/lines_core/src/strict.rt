//! Lines that are taken leniently, as the strict lines that they stand for.

ghost use Rattle.std.specs.Prelude.{◌≡◌, ◌++◌, OnOk};
ghost use Rattle.lines_core.specs.Strict.{after_byte, after_bytes, held_bytes, strict_byte, strict_bytes};

use std::alloc::AllocError;

/// What is held back of a line until it is known whether another byte of it comes.
#[derive(Clone, Copy)]
pub struct Held {
    /// Something else than blanks stood in the line before that.
    pub has_begun: bool,
    /// A blank, or more.
    pub blank: bool,
    /// A carriage return behind them.
    pub carriage_return: bool,
}

/// What is held back where a line begins.
pub const NOTHING_HELD: Held = Held {
    has_begun: false,
    blank: false,
    carriage_return: false,
};

impl Held {
    /// Appends what is held back: more of the line comes. One blank stands for all, and none at the front.
    fn release(self, out: &mut Vec<u8>) -> Result<(), AllocError>
        ensures { OnOk result (out.new.items ≡ out.old.items ++ held_bytes self) }
    {
        if self.has_begun && self.blank {
            out.push(b' ')?;
        }
        if self.carriage_return {
            out.push(b'\r')?;
        }
        Ok(())
    }

    /// What is held back behind one more byte.
    fn after(self, byte: u8) -> Held
        ensures { result ≡ after_byte self byte }
    {
        let has_begun = self.has_begun || self.carriage_return;
        match byte {
            b'\n' => NOTHING_HELD,
            b' ' | b'\t' => Held {
                has_begun,
                blank: true,
                carriage_return: false,
            },
            b'\r' => Held {
                has_begun,
                blank: self.blank && !self.carriage_return,
                carriage_return: true,
            },
            _ => Held {
                has_begun: true,
                blank: false,
                carriage_return: false,
            },
        }
    }

    /// Appends the strict bytes that one more byte is known to stand for.
    fn append_byte(self, byte: u8, out: &mut Vec<u8>) -> Result<(), AllocError>
        ensures { OnOk result (out.new.items ≡ out.old.items ++ strict_byte self byte) }
    {
        match byte {
            b'\n' => {
                out.push(byte)?;
                Ok(())
            }
            b' ' | b'\t' | b'\r' if self.carriage_return => self.release(out),
            b' ' | b'\t' | b'\r' => Ok(()),
            _ => {
                self.release(out)?;
                out.push(byte)?;
                Ok(())
            }
        }
    }

    /// Appends the strict bytes that these are known to stand for, and holds back what isn't known.
    pub fn append_strict(&mut self, bytes: &[u8], out: &mut Vec<u8>) -> Result<(), AllocError>
        ensures { OnOk result ((out.new.items ≡ out.old.items ++ strict_bytes self.old bytes.now) × (self.new ≡ after_bytes self.old bytes.now)) }
    {
        for at in 0..bytes.len() {
            let byte = bytes[at];
            self.append_byte(byte, out)?;
            *self = self.after(byte);
        }
        Ok(())
    }
}
