//! Why a server stops.

ghost use Rattle.std.specs.Prelude.{Some};
ghost use Rattle.serve_core.specs.Names.{serve_name};

use flush_core::FlushFault;
use pen_core::OpenFault;
use std::error::Error;
use std::fmt::{self, Display, Formatter};
use vault_core::VaultFault;

/// Why not all was served, or not all is settled.
#[derive(Clone, Copy, Debug)]
pub enum ServeFault {
    /// The file wasn't opened. Nothing was written to it.
    Open(OpenFault),
    /// No client was served: there are no pipes or more than 64 pairs, or there is no memory for them.
    Share(VaultFault),
    /// No client was served: the system didn't start a thread for each.
    Thread,
    /// The file refused: clients that waited were told that it is broken.
    Flush(FlushFault),
}

impl Display for ServeFault {
    ghost output = { λ fault. Some (serve_name fault) };

    fn fmt<W: fmt::Write>(&self, f: &mut Formatter<W>) -> fmt::Result {
        match *self {
            ServeFault::Open(fault) => Display::fmt(&fault, f),
            ServeFault::Share(fault) => Display::fmt(&fault, f),
            ServeFault::Thread => f.write_str("thread"),
            ServeFault::Flush(fault) => Display::fmt(&fault, f),
        }
    }
}

impl Error for ServeFault {}
