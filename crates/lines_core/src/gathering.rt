//! Lines that are gathered: so many of them are a block.

ghost use Rattle.std.specs.Prelude.{◌≡◌, ◌<◌, ◌≤◌, ◌++◌, [], length, take, OnOk, IfOk};
ghost use Rattle.std.specs.NonZero.{non_zero_u32_get};
ghost use Rattle.lines_core.specs.Batches.{EndsWithLf, HasWholeBlocks};
ghost use Rattle.lines_core.specs.LineBlocks.{AreLineBlocks};

use segment_core::Growths;
use std::alloc::{AllocError, Global};
use std::num::NonZeroU32;

/// Appends records to the growth that has not ended.
fn extend<R: Copy>(growths: &mut Growths<R>, records: &[R]) -> Result<(), AllocError>
    ensures { OnOk result (growths.new ≡ (growths.old.0, growths.old.1 ++ records.now)) }
{
    for k in 0..records.len() {
        growths.push(records[k])?;
    }
    Ok(())
}

/// Gathers so many growths into one each, behind none; those behind them, which are fewer, into a last one.
fn gather_into<R: Copy>(
    lines: &Growths<R>,
    block: u32,
    growths: &mut Growths<R>,
) -> Result<(), AllocError>
    requires some { 0 < block }
    requires none { growths.old ≡ ([], []) }
    ensures { OnOk result (AreLineBlocks block lines.now.0 growths.new.0) }
{
    let mut held: u32 = 0;
    for k in 0..lines.count() {
        extend(growths, lines.growth(k))?;
        held += 1;
        if held == block {
            growths.end()?;
            held = 0;
        }
    }
    if held > 0 {
        growths.end()?;
    }
    Ok(())
}

/// Gathers so many growths into one each; those behind them, which are fewer, into a last one.
fn gather_some<R: Copy>(
    alloc: Global,
    lines: &Growths<R>,
    block: u32,
) -> Result<Growths<R>, AllocError>
    requires { 0 < block }
    ensures { IfOk result (λ growths. AreLineBlocks block lines.now.0 growths.0) }
{
    let mut growths = Growths::new(alloc);
    gather_into(lines, block, &mut growths)?;
    Ok(growths)
}

/// The same. Where each line is a block the lines are the growths, and nothing is copied.
pub(crate) fn gather<R: Copy>(
    alloc: Global,
    lines: Growths<R>,
    block: NonZeroU32,
) -> Result<Growths<R>, AllocError>
    ensures { IfOk result (λ growths. AreLineBlocks (non_zero_u32_get block) lines.0 growths.0) }
{
    if block.get() == 1 {
        return Ok(lines);
    }
    gather_some(alloc, &lines, block.get())
}

/// How many bytes the whole lines have.
fn whole_lines(buffer: &[u8]) -> usize
    ensures within { result ≤ length buffer.now }
    ensures ends { EndsWithLf (take result buffer.now) }
{
    let mut len = buffer.len();
    while len > 0 && buffer[len - 1] != b'\n' {
        len -= 1;
    }
    len
}

/// How many bytes the whole blocks have, each of so many lines, that stand within the first lines, so many at most.
pub(crate) fn first_blocks(buffer: &[u8], block: NonZeroU32, most: u64) -> usize
    ensures within { result ≤ length buffer.now }
    ensures whole { HasWholeBlocks (non_zero_u32_get block) (take result buffer.now) }
{
    let size = block.get();
    let mut lines: u64 = 0;
    let mut held: u32 = 0;
    let mut whole = 0;
    for k in 0..buffer.len() {
        if lines == most {
            return whole;
        }
        if buffer[k] == b'\n' {
            lines += 1;
            held += 1;
            if held == size {
                whole = k + 1;
                held = 0;
            }
        }
    }
    whole
}

/// How many bytes the whole blocks have, each of so many lines.
pub(crate) fn whole_blocks(buffer: &[u8], block: NonZeroU32) -> usize
    ensures within { result ≤ length buffer.now }
    ensures whole { HasWholeBlocks (non_zero_u32_get block) (take result buffer.now) }
{
    if block.get() == 1 {
        return whole_lines(buffer);
    }
    first_blocks(buffer, block, u64::MAX)
}
