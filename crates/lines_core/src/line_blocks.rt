//! Lines of records, gathered: a growth for so many lines.

ghost use Rattle.std.specs.Prelude.{◌≡◌, IfOk, IfSome, Some, None, IsSome, MatchOption};
ghost use Rattle.std.specs.NonZero.{non_zero_u32_get};
ghost use Rattle.lines_core.specs.Excerpts.{IsFrontShown, IsRefusedShown};
ghost use Rattle.lines_core.specs.GrowthLines.{AllGrowthsFit};
ghost use Rattle.lines_core.specs.InputBlocks.{AreInputBlocks, AreOfFirstLines};

use crate::excerpt::Excerpt;
use crate::gathering::{first_blocks, gather};
use crate::growth_lines::{check_sizes, read_lines};
use segment_core::Growths;
use std::alloc::Global;
use std::num::NonZeroU32;
use text_core::{Refusal, TextRecord};

/// Growths of lines.
#[derive(Drop)]
pub(crate) struct LineBlocks<R> {
    pub growths: Growths<R>,
    /// How many lines they are of.
    pub lines: u64,
}

/// The growths of the lines that are good, up to a block with one that isn't.
#[derive(Drop)]
pub(crate) struct Front<R> {
    pub blocks: LineBlocks<R>,
    /// Why the lines behind them are refused, by their number among all of these lines.
    pub refusal: Option<Refusal>,
    /// Of a line that is refused.
    pub shown: Option<Excerpt>,
}

/// The number of the first line of a growth, from the growth's own number: both are counted from 1.
fn first_line(growth: u64, block: u32) -> u64 {
    growth
        .saturating_sub(1)
        .saturating_mul(block as u64)
        .saturating_add(1)
}

/// The growths that the lines spell, one for so many lines; the last one may have fewer. Each line is read before a size is
/// tested. `TooLargeAtLine` has the number of the growth's first line.
pub(crate) fn read_blocks<R: TextRecord>(
    alloc: Global,
    input: &[u8],
    block: NonZeroU32,
    shown: &mut Option<Excerpt>,
) -> Result<LineBlocks<R>, Refusal>
    ensures read { IfOk result (λ blocks. AreInputBlocks R.spelling (non_zero_u32_get block) input.now blocks.growths.0 blocks.lines) }
    ensures fit { IfOk result (λ blocks. AllGrowthsFit R.form.width blocks.growths.0) }
    ensures shown { IfSome shown.new (IsRefusedShown R.spelling input.now result) }
{
    let spelled = read_lines::<R>(alloc, input, shown)?;
    let lines = spelled.count() as u64;
    let Ok(growths) = gather(alloc, spelled, block) else {
        return Err(Refusal::Memory);
    };
    match check_sizes(&growths) {
        Ok(()) => Ok(LineBlocks { growths, lines }),
        Err(Refusal::TooLargeAtLine(n)) => {
            Err(Refusal::TooLargeAtLine(first_line(n, block.get())))
        }
        Err(refusal) => Err(refusal),
    }
}

/// How many lines stand before those that are refused so.
fn lines_before(refusal: Refusal) -> u64 {
    match refusal {
        Refusal::Line(n) | Refusal::TooLargeAtLine(n) => n.saturating_sub(1),
        _ => 0,
    }
}

/// How often the front is read again at most: a bad line may have a block that is too large before it, and none else.
const FRONTS: u32 = 2;

/// The growths that the lines spell which stand before those that are refused so.
fn read_before<R: TextRecord>(
    alloc: Global,
    input: &[u8],
    block: NonZeroU32,
    refusal: Refusal,
    shown: Option<Excerpt>,
) -> Front<R>
    requires { IfSome shown (IsFrontShown R.spelling (Some input.now) refusal) }
    ensures refused { IsSome result.refusal }
    ensures first { AreOfFirstLines R.spelling (non_zero_u32_get block) (Some input.now) result.blocks.growths.0 }
    ensures shown { MatchOption result.refusal (result.shown ≡ None) (λ refusal. IfSome result.shown (IsFrontShown R.spelling (Some input.now) refusal)) }
{
    let mut refusal = refusal;
    let mut shown = shown;
    let mut len = input.len();
    for _ in 0..FRONTS {
        len = first_blocks(&input[..len], block, lines_before(refusal));
        let mut before = None;
        match read_blocks::<R>(alloc, &input[..len], block, &mut before) {
            Ok(blocks) => {
                return Front {
                    blocks,
                    refusal: Some(refusal),
                    shown,
                };
            }
            Err(earlier) => {
                refusal = earlier;
                shown = before;
            }
        }
    }
    let blocks = LineBlocks {
        growths: Growths::new(alloc),
        lines: 0,
    };
    Front {
        blocks,
        refusal: Some(refusal),
        shown,
    }
}

/// The growths that the lines spell, up to the first block that has none. Where that is for a line that is no growth line, with
/// an excerpt of it.
pub(crate) fn read_front<R: TextRecord>(alloc: Global, input: &[u8], block: NonZeroU32) -> Front<R>
    ensures front { MatchOption result.refusal
        (AreInputBlocks R.spelling (non_zero_u32_get block) input.now result.blocks.growths.0 result.blocks.lines)
        (λ refusal. AreOfFirstLines R.spelling (non_zero_u32_get block) (Some input.now) result.blocks.growths.0) }
    ensures shown { MatchOption result.refusal (result.shown ≡ None) (λ refusal. IfSome result.shown (IsFrontShown R.spelling (Some input.now) refusal)) }
{
    let mut shown = None;
    match read_blocks::<R>(alloc, input, block, &mut shown) {
        Ok(blocks) => Front {
            blocks,
            refusal: None,
            shown: None,
        },
        Err(refusal) => read_before(alloc, input, block, refusal, shown),
    }
}
