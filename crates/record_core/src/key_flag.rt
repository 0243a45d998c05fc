//! A key with a flag as a record.

ghost use Rattle.std.specs.Prelude.{false, nat_eq};
ghost use Rattle.std.specs.Cmp.{unsigned_Decides, booleans_Decides};
ghost use Rattle.std.specs.Int.{w64};
ghost use Rattle.std.proofs.Common.{rules, refl};
ghost use Rattle.std.proofs.Math.Bool.{beq};
ghost use Rattle.std.proofs.lemmas.Nat.{le_bytes_8};
ghost use Rattle.record_core.specs.Bytes.{flagged, flagged_parts, unsigned, boolean};
ghost use Rattle.record_core.specs.WritesBack.{unsigned_back, boolean_back, of_parts_back, of_parts_exact};

use crate::record::Record;

/// A key and whether it is flagged. C has it with the same layout.
#[repr(C)]
#[derive(Clone, Copy, Debug, PartialEq, Eq)]
pub struct Flagged {
    pub key: u64,
    pub flag: bool,
}

/// The key's bytes, then the byte 0 or 1. Bytes that end in another are no record.
impl Record for Flagged {
    const WIDTH: usize = 9;

    ghost WIDTH = { 9 };

    ghost form = { flagged };

    ghost blank_value = { record { key = 0; flag = false } };

    fn put(&self, out: &mut [u8]) {
        self.key.put(&mut out[..8]);
        out[8] = u8::from(self.flag);
    }

    fn take(bytes: &[u8]) -> Option<Flagged> {
        let key = u64::take(&bytes[..8])?;
        let flag = match bytes[8] {
            0 => false,
            1 => true,
            _ => return None,
        };
        Some(Flagged { key, flag })
    }

    fn blank() -> Flagged {
        Flagged {
            key: 0,
            flag: false,
        }
    }

    ghost width_is = { refl };

    ghost width_in_range = { Prim.search rules };

    ghost width_of_bytes = { λ _. refl };

    ghost writes_back = { of_parts_back flagged_parts (unsigned w64) boolean (unsigned_back w64 le_bytes_8) boolean_back };

    ghost exact = { of_parts_exact flagged_parts nat_eq beq (λ x y. (unsigned_Decides x y).0) (λ x y. (booleans_Decides x y).0) };
}
