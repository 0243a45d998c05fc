//! A writer that keeps why it failed.

ghost use Rattle.std.specs.Prelude.{◌≡◌};

use std::io::{self, Write};

/// Writes to the writer inside, and keeps the last error that this gave.
#[derive(Drop)]
pub struct Noting<W> {
    inner: W,
    error: Option<io::Error>,
}

impl<W> Noting<W> {
    pub fn new(inner: W) -> Noting<W> {
        Noting { inner, error: None }
    }

    /// The last error, if there was one.
    pub fn error(&self) -> Option<io::Error> {
        self.error
    }
}

/// The same answer, once its error is kept.
fn noted<T>(answer: io::Result<T>, error: &mut Option<io::Error>) -> io::Result<T>
    ensures { result ≡ answer }
{
    if let Err(fault) = &answer {
        *error = Some(*fault);
    }
    answer
}

impl<W: Write> Write for Noting<W> {
    ghost contents = { λ noting. W.contents noting.inner };

    fn write(&mut self, buf: &[u8]) -> io::Result<usize> {
        noted(self.inner.write(buf), &mut self.error)
    }

    fn flush(&mut self) -> io::Result<()> {
        noted(self.inner.flush(), &mut self.error)
    }

    fn write_all(&mut self, buf: &[u8]) -> io::Result<()> {
        noted(self.inner.write_all(buf), &mut self.error)
    }
}
