//! Signed numbers as text: a minus stands before the digits of a number below 0.

ghost use Rattle.std.specs.Prelude.{◌≡◌, ◌≢◌, ◌<◌, ◌≤◌, ◌^◌, ◌∷◌, pos, slice_index, FitsSigned, MatchOption};
ghost use Rattle.std.specs.Fmt.{signed_decimal};
ghost use Rattle.std.specs.Int.{w32, w64};
ghost use Rattle.std.specs.Option.{SomeIff};
ghost use Rattle.std.proofs.Common.{neg_ℤ, lit≤};
ghost use Rattle.text_core.specs.SignedNumbers.{signed_spelling, IsWord-signed, one_signed};

use crate::number::write_number;
use crate::text::TextRecord;
use std::io;
use std::io::Write;

/// What stands behind a minus in front, if one stands there.
fn behind_minus(text: &[u8]) -> Option<&[u8]>
    ensures { MatchOption result (slice_index text.now 0 ≢ 45) (λ behind. text.now ≡ 45 ∷ behind.now) }
{
    match text {
        [b'-', behind @ ..] => Some(behind),
        _ => None,
    }
}

/// The number below 0 that is so far from it.
fn number_below_zero(distance: u64) -> Option<i64>
    ensures { SomeIff result ((0 < distance) × (distance ≤ 2 ^ 63)) (neg_ℤ (pos distance)) }
{
    match distance {
        0 => None,
        _ => 0i64.checked_sub_unsigned(distance),
    }
}

impl TextRecord for i64 {
    ghost spelling = { signed_spelling w64 };

    fn parse(text: &[u8]) -> Option<i64> {
        match behind_minus(text) {
            Some(digits) => number_below_zero(u64::parse(digits)?),
            None => i64::try_from(u64::parse(text)?).ok(),
        }
    }

    fn write_text<W: Write>(&self, writer: &mut W) -> io::Result<()> {
        write_number(writer, *self)
    }

    ghost is_word = { IsWord-signed w64 (lit≤ tt) };

    ghost one_value = { one_signed w64 (lit≤ tt) };
}

impl TextRecord for i32 {
    ghost spelling = { signed_spelling w32 };

    fn parse(text: &[u8]) -> Option<i32> {
        i32::try_from(i64::parse(text)?).ok()
    }

    fn write_text<W: Write>(&self, writer: &mut W) -> io::Result<()> {
        write_number(writer, *self)
    }

    ghost is_word = { IsWord-signed w32 (lit≤ tt) };

    ghost one_value = { one_signed w32 (lit≤ tt) };
}
