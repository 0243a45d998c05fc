//! A division by a number that stays, without the processor's.

ghost use Rattle.std.specs.Prelude.{◌≡◌, ◌<◌, ◌/◌, ◌%◌};

/// What `divided` multiplies by, for `step`: 2^32 / step + 1. Of positions below 2^32 its guess is then off by one at most. It stays
/// for who `had` the same step.
pub(super) fn reciprocal_of(step: u64, had: u64, reciprocal: u64) -> u64 {
    if step == had {
        return reciprocal;
    }
    (1u64 << 32).checked_div(step).unwrap_or(0) + 1
}

/// Quotient and rest. Nothing rests on the reciprocal: where the guess isn't right it is divided.
#[inline]
#[tactic(auto, using(crate::proofs::Dividing::divides))]
pub(super) fn divided(i: u64, step: u64, reciprocal: u64) -> (u64, u64)
    requires { 0 < step }
    ensures { (result.0 ≡ i / step) × (result.1 ≡ i % step) }
{
    let guess = i.wrapping_mul(reciprocal) >> 32;
    let number = if guess.wrapping_mul(step) > i {
        guess.wrapping_sub(1)
    } else {
        guess
    };
    if let Some(start) = number.checked_mul(step) {
        if start <= i && i - start < step {
            return (number, i - start);
        }
    }
    (i / step, i % step)
}
