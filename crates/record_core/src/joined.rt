//! Two records behind one another, as one record.

ghost use Rattle.std.specs.Prelude.{◌<◌, ◌^◌, ◌+◌};
ghost use Rattle.std.proofs.Common.{rules};
ghost use Rattle.record_core.specs.Bytes.{of_parts};
ghost use Rattle.record_core.specs.Joined.{joined_parts, width_joined, range_joined, bytes_joined};
ghost use Rattle.record_core.specs.WritesBack.{of_parts_back, of_parts_exact};

use crate::byte_records::{Bytes16, Bytes32};
use crate::record::Record;

/// A record of at most 32,767 bytes: two of them are a record.
pub trait Half: Record {
    ghost narrow: { Self.Record.form.width < 2 ^ 15 };
}

/// One record, and another behind it. C has it with the same layout.
#[repr(C)]
#[derive(Clone, Copy, Debug, PartialEq, Eq)]
pub struct Joined<A, B> {
    pub front: A,
    pub back: B,
}

impl Half for u32 {
    ghost narrow = { Prim.search rules };
}

impl Half for u64 {
    ghost narrow = { Prim.search rules };
}

impl Half for i64 {
    ghost narrow = { Prim.search rules };
}

impl Half for Bytes16 {
    ghost narrow = { Prim.search rules };
}

impl Half for Bytes32 {
    ghost narrow = { Prim.search rules };
}

/// The bytes of the front, then those of the back.
impl<A: Half, B: Half> Record for Joined<A, B> {
    const WIDTH: usize = A::WIDTH + B::WIDTH;

    ghost WIDTH = { A.Record.WIDTH + B.Record.WIDTH };

    ghost form = { of_parts joined_parts A.Record.form B.Record.form };

    ghost blank_value = { record { front = A.Record.blank_value; back = B.Record.blank_value } };

    fn put(&self, out: &mut [u8]) {
        self.front.put(&mut out[..A::WIDTH]);
        self.back.put(&mut out[A::WIDTH..]);
    }

    fn take(bytes: &[u8]) -> Option<Joined<A, B>> {
        let front = A::take(&bytes[..A::WIDTH])?;
        let back = B::take(&bytes[A::WIDTH..])?;
        Some(Joined { front, back })
    }

    fn blank() -> Joined<A, B> {
        Joined {
            front: A::blank(),
            back: B::blank(),
        }
    }

    ghost width_is = { width_joined A.Record.WIDTH B.Record.WIDTH A.Record.form.width B.Record.form.width A.Record.width_is B.Record.width_is };

    ghost width_in_range = { range_joined A.Record.form.width B.Record.form.width A.Record.width_in_range.0 A.Half.narrow B.Half.narrow };

    ghost width_of_bytes = { bytes_joined joined_parts A.Record.form B.Record.form A.Record.width_of_bytes B.Record.width_of_bytes };

    ghost writes_back = { of_parts_back joined_parts A.Record.form B.Record.form A.Record.writes_back B.Record.writes_back };

    ghost exact = { of_parts_exact joined_parts A.PartialEq.eq B.PartialEq.eq A.Record.exact B.Record.exact };
}
