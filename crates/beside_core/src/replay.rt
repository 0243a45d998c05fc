//! Frames that were read, one behind the other.

ghost use Rattle.std.specs.Prelude.{◌≡◌, ◌≤◌, ◌+◌, ◌*◌, ◌^◌, ℕ, length, IfOk};
ghost use Rattle.beside_core.specs.Tail.{FillsTail, ReplaysFrames, ReplaysText};

use crate::bookmark::Bookmark;
use crate::fault::LookFault;
use crate::laying::{Laid, lay};
use record_core::Record;
use segment_core::read_frame;
use std::alloc::Global;

/// Takes in the frames that stand behind a bookmark, up to a closed gate. It answers the bookmark behind them, and how many
/// they are. Refused
/// as `NoRecord`: a change of a record that was known brings bytes that are none of the type.
pub(crate) fn replay<R: Record>(
    alloc: Global,
    text: &[u8],
    mark: Bookmark,
) -> Result<(Laid<R>, Bookmark, u64), LookFault>
    requires placed { mark.gate + length text.now ≤ 2 ^ 48 }
    requires wide { mark.shape.width ≡ R.form.width }
    ensures frames { ReplaysFrames R.form mark text.now result }
    ensures text { ReplaysText R.form mark text.now result }
    ensures tail { IfOk result (λ found. FillsTail R.form.width found.0.base found.1.tally.size found.0.tail.items) }
{
    let shape = mark.shape;
    let mut laid = Laid {
        base: mark.tally.size,
        edits: Vec::new(alloc),
        tail: Vec::new(alloc),
    };
    let mut gate = mark.gate;
    let mut tally = mark.tally;
    let mut used = 0;
    let mut frames = 0;
    loop {
        let left = &text[used..];
        match read_frame(left, gate as usize, shape) {
            Ok(Some(frame)) => {
                if let Err(fault) = tally.check(&frame) {
                    return Err(LookFault::Scan(fault));
                }
                lay(&frame, &mut laid)?;
                tally = tally.after(&frame);
                gate += frame.len() as u64;
                used += frame.len();
                frames += 1;
            }
            Ok(None) => return Ok((laid, Bookmark { shape, gate, tally }, frames)),
            Err(unread) => return Err(LookFault::Scan(unread.fault(gate, left.len() as u64))),
        }
    }
}
