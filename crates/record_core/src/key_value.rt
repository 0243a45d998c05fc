//! A key with a number as a record.

ghost use Rattle.std.specs.Prelude.{pos, nat_eq};
ghost use Rattle.std.specs.Cmp.{unsigned_Decides, signed_Decides};
ghost use Rattle.std.specs.Int.{w64};
ghost use Rattle.std.specs.Ordering.{int_eq};
ghost use Rattle.std.proofs.Common.{rules, refl};
ghost use Rattle.std.proofs.lemmas.Nat.{le_bytes_8};
ghost use Rattle.record_core.specs.Bytes.{pair, pair_parts, unsigned, signed};
ghost use Rattle.record_core.specs.WritesBack.{unsigned_back, signed_back, of_parts_back, of_parts_exact};

use crate::record::Record;

/// A key and a number of either sign. C has it with the same layout.
#[repr(C)]
#[derive(Clone, Copy, Debug, PartialEq, Eq)]
pub struct Pair {
    pub key: u64,
    pub value: i64,
}

/// The key's bytes, then the value's.
impl Record for Pair {
    const WIDTH: usize = 16;

    ghost WIDTH = { 16 };

    ghost form = { pair };

    ghost blank_value = { record { key = 0; value = pos 0 } };

    fn put(&self, out: &mut [u8]) {
        self.key.put(&mut out[..8]);
        self.value.put(&mut out[8..]);
    }

    fn take(bytes: &[u8]) -> Option<Pair> {
        let key = u64::take(&bytes[..8])?;
        let value = i64::take(&bytes[8..])?;
        Some(Pair { key, value })
    }

    fn blank() -> Pair {
        Pair { key: 0, value: 0 }
    }

    ghost width_is = { refl };

    ghost width_in_range = { Prim.search rules };

    ghost width_of_bytes = { λ _. refl };

    ghost writes_back = { of_parts_back pair_parts (unsigned w64) (signed w64) (unsigned_back w64 le_bytes_8) (signed_back w64 le_bytes_8) };

    ghost exact = { of_parts_exact pair_parts nat_eq int_eq (λ x y. (unsigned_Decides x y).0) (λ x y. (signed_Decides x y).0) };
}
