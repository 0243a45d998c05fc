//! A record that takes a byte of a file and no memory.

ghost use Rattle.std.specs.Prelude.{refl};
ghost use Rattle.std.proofs.Common.{rules};
ghost use Rattle.call_tests.specs.Nought.{nought, nought_back};

use record_core::Record;

/// The one record there is. Its byte is 0, and no other byte is a record.
#[derive(Clone, Copy, Debug, PartialEq, Eq)]
pub struct Nought;

impl Record for Nought {
    const WIDTH: usize = 1;

    ghost WIDTH = { 1 };

    ghost form = { nought };

    ghost blank_value = { record {} };

    fn put(&self, out: &mut [u8]) {
        out[0] = 0;
    }

    fn take(bytes: &[u8]) -> Option<Nought> {
        match bytes[0] {
            0 => Some(Nought),
            _ => None,
        }
    }

    fn blank() -> Nought {
        Nought
    }

    ghost width_is = { refl };

    ghost width_in_range = { Prim.search rules };

    ghost width_of_bytes = { λ _. refl };

    ghost writes_back = { nought_back };

    ghost exact = { λ x y _. refl };
}
