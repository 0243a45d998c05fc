//! Numbers as records, the lowest byte first.

ghost use Rattle.std.specs.Prelude.{pos};
ghost use Rattle.std.specs.Cmp.{unsigned_Decides, signed_Decides};
ghost use Rattle.std.specs.Int.{w8, w16, w32, w64};
ghost use Rattle.std.proofs.Common.{rules, refl};
ghost use Rattle.std.proofs.lemmas.Nat.{le_bytes_2, le_bytes_4, le_bytes_8};
ghost use Rattle.record_core.specs.Bytes.{unsigned, signed};
ghost use Rattle.record_core.specs.WritesBack.{le_bytes_1, unsigned_back, signed_back};

use crate::record::Record;
use byteorder::{ByteOrder, LittleEndian};

impl Record for u8 {
    const WIDTH: usize = 1;

    ghost WIDTH = { 1 };

    ghost form = { unsigned w8 };

    ghost blank_value = { 0 };

    fn put(&self, out: &mut [u8]) {
        out[0] = *self;
    }

    fn take(bytes: &[u8]) -> Option<u8> {
        Some(bytes[0])
    }

    fn blank() -> u8 {
        0u8
    }

    ghost width_is = { refl };

    ghost width_in_range = { Prim.search rules };

    ghost width_of_bytes = { λ _. refl };

    ghost writes_back = { unsigned_back w8 le_bytes_1 };

    ghost exact = { λ x y. (unsigned_Decides x y).0 };
}

impl Record for u16 {
    const WIDTH: usize = 2;

    ghost WIDTH = { 2 };

    ghost form = { unsigned w16 };

    ghost blank_value = { 0 };

    fn put(&self, out: &mut [u8]) {
        LittleEndian::write_u16(out, *self);
    }

    fn take(bytes: &[u8]) -> Option<u16> {
        let mut word = [0u8; 2];
        word.copy_from_slice(bytes);
        Some(u16::from_le_bytes(word))
    }

    fn blank() -> u16 {
        0u16
    }

    ghost width_is = { refl };

    ghost width_in_range = { Prim.search rules };

    ghost width_of_bytes = { λ _. refl };

    ghost writes_back = { unsigned_back w16 le_bytes_2 };

    ghost exact = { λ x y. (unsigned_Decides x y).0 };
}

impl Record for u32 {
    const WIDTH: usize = 4;

    ghost WIDTH = { 4 };

    ghost form = { unsigned w32 };

    ghost blank_value = { 0 };

    fn put(&self, out: &mut [u8]) {
        LittleEndian::write_u32(out, *self);
    }

    fn take(bytes: &[u8]) -> Option<u32> {
        let mut word = [0u8; 4];
        word.copy_from_slice(bytes);
        Some(u32::from_le_bytes(word))
    }

    fn blank() -> u32 {
        0u32
    }

    ghost width_is = { refl };

    ghost width_in_range = { Prim.search rules };

    ghost width_of_bytes = { λ _. refl };

    ghost writes_back = { unsigned_back w32 le_bytes_4 };

    ghost exact = { λ x y. (unsigned_Decides x y).0 };
}

impl Record for u64 {
    const WIDTH: usize = 8;

    ghost WIDTH = { 8 };

    ghost form = { unsigned w64 };

    ghost blank_value = { 0 };

    fn put(&self, out: &mut [u8]) {
        LittleEndian::write_u64(out, *self);
    }

    fn take(bytes: &[u8]) -> Option<u64> {
        let mut word = [0u8; 8];
        word.copy_from_slice(bytes);
        Some(u64::from_le_bytes(word))
    }

    fn blank() -> u64 {
        0u64
    }

    ghost width_is = { refl };

    ghost width_in_range = { Prim.search rules };

    ghost width_of_bytes = { λ _. refl };

    ghost writes_back = { unsigned_back w64 le_bytes_8 };

    ghost exact = { λ x y. (unsigned_Decides x y).0 };
}

/// In two's complement.
impl Record for i32 {
    const WIDTH: usize = 4;

    ghost WIDTH = { 4 };

    ghost form = { signed w32 };

    ghost blank_value = { pos 0 };

    fn put(&self, out: &mut [u8]) {
        LittleEndian::write_i32(out, *self);
    }

    fn take(bytes: &[u8]) -> Option<i32> {
        let mut word = [0u8; 4];
        word.copy_from_slice(bytes);
        Some(i32::from_le_bytes(word))
    }

    fn blank() -> i32 {
        0i32
    }

    ghost width_is = { refl };

    ghost width_in_range = { Prim.search rules };

    ghost width_of_bytes = { λ _. refl };

    ghost writes_back = { signed_back w32 le_bytes_4 };

    ghost exact = { λ x y. (signed_Decides x y).0 };
}

/// In two's complement.
impl Record for i64 {
    const WIDTH: usize = 8;

    ghost WIDTH = { 8 };

    ghost form = { signed w64 };

    ghost blank_value = { pos 0 };

    fn put(&self, out: &mut [u8]) {
        LittleEndian::write_i64(out, *self);
    }

    fn take(bytes: &[u8]) -> Option<i64> {
        let mut word = [0u8; 8];
        word.copy_from_slice(bytes);
        Some(i64::from_le_bytes(word))
    }

    fn blank() -> i64 {
        0i64
    }

    ghost width_is = { refl };

    ghost width_in_range = { Prim.search rules };

    ghost width_of_bytes = { λ _. refl };

    ghost writes_back = { signed_back w64 le_bytes_8 };

    ghost exact = { λ x y. (signed_Decides x y).0 };
}
