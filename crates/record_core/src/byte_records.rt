//! Records of 16, 24, 32 and 64 bytes, which are made of words. C has each with the same layout.
//!
//! Each is a type of its own, and no `Joined`: a type with arguments doesn't cross to C, and what is proved of a function on one takes
//! the longer the deeper its arguments are.

ghost use Rattle.record_core.specs.ByteRecords.{bytes16, bytes24, bytes32, bytes64, bytes16_blank, bytes24_blank, bytes32_blank, bytes64_blank, bytes16_back, bytes24_back, bytes32_back, bytes64_back, bytes16_exact, bytes24_exact, bytes32_exact, bytes64_exact};
ghost use Rattle.std.specs.Prelude.{refl};
ghost use Rattle.std.proofs.Common.{rules};

use crate::record::Record;

/// Any 16 bytes, as two words in the order of the file, of each the lowest byte first.
#[repr(C)]
#[derive(Clone, Copy, Debug, PartialEq, Eq)]
pub struct Bytes16 {
    pub front: u64,
    pub back: u64,
}

/// Any 24 bytes.
#[repr(C)]
#[derive(Clone, Copy, Debug, PartialEq, Eq)]
pub struct Bytes24 {
    pub front: Bytes16,
    pub back: u64,
}

/// Any 32 bytes.
#[repr(C)]
#[derive(Clone, Copy, Debug, PartialEq, Eq)]
pub struct Bytes32 {
    pub front: Bytes16,
    pub back: Bytes16,
}

/// Any 64 bytes.
#[repr(C)]
#[derive(Clone, Copy, Debug, PartialEq, Eq)]
pub struct Bytes64 {
    pub front: Bytes32,
    pub back: Bytes32,
}

impl Record for Bytes16 {
    const WIDTH: usize = 16;

    ghost WIDTH = { 16 };

    ghost form = { bytes16 };

    ghost blank_value = { bytes16_blank };

    fn put(&self, out: &mut [u8]) {
        self.front.put(&mut out[..8]);
        self.back.put(&mut out[8..]);
    }

    fn take(bytes: &[u8]) -> Option<Bytes16> {
        let front = u64::take(&bytes[..8])?;
        let back = u64::take(&bytes[8..])?;
        Some(Bytes16 { front, back })
    }

    fn blank() -> Bytes16 {
        Bytes16 { front: 0, back: 0 }
    }

    ghost width_is = { refl };

    ghost width_in_range = { Prim.search rules };

    ghost width_of_bytes = { λ _. refl };

    ghost writes_back = { bytes16_back };

    ghost exact = { bytes16_exact };
}

impl Record for Bytes24 {
    const WIDTH: usize = 24;

    ghost WIDTH = { 24 };

    ghost form = { bytes24 };

    ghost blank_value = { bytes24_blank };

    fn put(&self, out: &mut [u8]) {
        self.front.put(&mut out[..16]);
        self.back.put(&mut out[16..]);
    }

    fn take(bytes: &[u8]) -> Option<Bytes24> {
        let front = Bytes16::take(&bytes[..16])?;
        let back = u64::take(&bytes[16..])?;
        Some(Bytes24 { front, back })
    }

    fn blank() -> Bytes24 {
        Bytes24 {
            front: Bytes16::blank(),
            back: 0,
        }
    }

    ghost width_is = { refl };

    ghost width_in_range = { Prim.search rules };

    ghost width_of_bytes = { λ _. refl };

    ghost writes_back = { bytes24_back };

    ghost exact = { bytes24_exact };
}

impl Record for Bytes32 {
    const WIDTH: usize = 32;

    ghost WIDTH = { 32 };

    ghost form = { bytes32 };

    ghost blank_value = { bytes32_blank };

    fn put(&self, out: &mut [u8]) {
        self.front.put(&mut out[..16]);
        self.back.put(&mut out[16..]);
    }

    fn take(bytes: &[u8]) -> Option<Bytes32> {
        let front = Bytes16::take(&bytes[..16])?;
        let back = Bytes16::take(&bytes[16..])?;
        Some(Bytes32 { front, back })
    }

    fn blank() -> Bytes32 {
        Bytes32 {
            front: Bytes16::blank(),
            back: Bytes16::blank(),
        }
    }

    ghost width_is = { refl };

    ghost width_in_range = { Prim.search rules };

    ghost width_of_bytes = { λ _. refl };

    ghost writes_back = { bytes32_back };

    ghost exact = { bytes32_exact };
}

impl Record for Bytes64 {
    const WIDTH: usize = 64;

    ghost WIDTH = { 64 };

    ghost form = { bytes64 };

    ghost blank_value = { bytes64_blank };

    fn put(&self, out: &mut [u8]) {
        self.front.put(&mut out[..32]);
        self.back.put(&mut out[32..]);
    }

    fn take(bytes: &[u8]) -> Option<Bytes64> {
        let front = Bytes32::take(&bytes[..32])?;
        let back = Bytes32::take(&bytes[32..])?;
        Some(Bytes64 { front, back })
    }

    fn blank() -> Bytes64 {
        Bytes64 {
            front: Bytes32::blank(),
            back: Bytes32::blank(),
        }
    }

    ghost width_is = { refl };

    ghost width_in_range = { Prim.search rules };

    ghost width_of_bytes = { λ _. refl };

    ghost writes_back = { bytes64_back };

    ghost exact = { bytes64_exact };
}
