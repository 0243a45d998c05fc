//! A record of this program's own.

ghost use Rattle.std.specs.Prelude.{pos, nat_eq};
ghost use Rattle.std.specs.Cmp.{unsigned_Decides, signed_Decides};
ghost use Rattle.std.specs.Int.{w32, w64};
ghost use Rattle.std.specs.Ordering.{int_eq};
ghost use Rattle.std.proofs.Common.{rules, refl};
ghost use Rattle.std.proofs.lemmas.Nat.{le_bytes_4, le_bytes_8};
ghost use Rattle.concurrent_vector.specs.Bytes.{unsigned, signed};
ghost use Rattle.concurrent_vector.specs.WritesBack.{unsigned_back, signed_back, of_parts_back, of_parts_exact};
ghost use Rattle.examples.specs.Sample.{sample, sample_parts};

use concurrent_vector::Record;

/// What a sensor has measured.
#[derive(Clone, Copy, Debug, PartialEq, Eq)]
pub struct Sample {
    pub sensor: u32,
    pub value: i64,
}

impl Record for Sample {
    const WIDTH: usize = 12;

    ghost WIDTH = { 12 };

    ghost form = { sample };

    ghost blank_value = { record { sensor = 0; value = pos 0 } };

    fn put(&self, out: &mut [u8]) {
        self.sensor.put(&mut out[..4]);
        self.value.put(&mut out[4..]);
    }

    fn take(bytes: &[u8]) -> Option<Sample> {
        let sensor = u32::take(&bytes[..4])?;
        let value = i64::take(&bytes[4..])?;
        Some(Sample { sensor, value })
    }

    fn blank() -> Sample {
        Sample {
            sensor: 0,
            value: 0,
        }
    }

    ghost width_is = { refl };

    ghost width_in_range = { Prim.search rules };

    ghost width_of_bytes = { λ _. refl };

    ghost writes_back = { of_parts_back sample_parts (unsigned w32) (signed w64) (unsigned_back w32 le_bytes_4) (signed_back w64 le_bytes_8) };

    ghost exact = { of_parts_exact sample_parts nat_eq int_eq (λ x y. (unsigned_Decides x y).0) (λ x y. (signed_Decides x y).0) };
}
