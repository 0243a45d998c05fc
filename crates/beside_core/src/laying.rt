//! What a frame does to a vector: edits of its first records, and the bytes of its last ones.

ghost use Rattle.std.specs.Prelude.{◌≡◌, ◌<◌, ◌≤◌, ◌+◌, ◌*◌, ◌^◌, ◌++◌, ℕ, ◌∷◌, [], length, take, drop, OnOk, IfErr};
ghost use Rattle.record_core.specs.Limits.{record_limit};
ghost use Rattle.segment_core.specs.declared.tally.Tally.{Tally};
ghost use Rattle.segment_core.specs.Layout.{IsFrame};
ghost use Rattle.beside_core.specs.Tail.{FillsTail, MayFollowTail, IsDecodeFault, IsReplayFault, NotesRun, ReplacesRun, IsReplacedIn, TakesFrame};

use crate::fault::LookFault;
use crate::news::Edit;
use record_core::{Record, width_of};
use segment_core::{FrameKind, FrameReader};

/// What frames have made of a vector that was known: edits of the records before a position, and those from there on as
/// their bytes.
#[derive(Drop)]
pub(crate) struct Laid<R> {
    pub(crate) base: u64,
    pub(crate) edits: Vec<Edit<R>>,
    pub(crate) tail: Vec<u8>,
}

/// Notes that the records from a position on are replaced by those of these bytes.
fn note<R: Record>(
    bytes: &[u8],
    start: u64,
    count: u64,
    edits: &mut Vec<Edit<R>>,
) -> Result<(), LookFault>
    requires filled { length bytes.now ≡ count * R.form.width }
    requires placed { start + count < 2 ^ 64 }
    ensures noted { OnOk result (NotesRun R.form start count bytes.now edits.old.items edits.new.items) }
    ensures bad { IfErr result (IsDecodeFault R.form start bytes.now count) }
{
    let width = width_of::<R>();
    for k in 0..count {
        let at = k as usize * width;
        let Some(record) = R::take(&bytes[at..at + width]) else {
            return Err(LookFault::NoRecord(start + k));
        };
        let position = start + k;
        if edits.push(Edit::Set { position, record }).is_err() {
            return Err(LookFault::Memory);
        }
    }
    Ok(())
}

/// Writes these bytes over those from this place on.
fn overwrite(tail: &mut Vec<u8>, at: usize, bytes: &[u8])
    requires { at + length bytes.now ≤ length tail.old.items }
    ensures { tail.new.items ≡ take at tail.old.items ++ bytes.now ++ drop (at + length bytes.now) tail.old.items }
{
    tail[at..at + bytes.len()].copy_from_slice(bytes);
}

/// Replaces the records from a position on by those of these bytes: by edits those before the tail, and the others in it.
fn replace_run<R: Record>(
    bytes: &[u8],
    start: u64,
    count: u64,
    laid: &mut Laid<R>,
) -> Result<(), LookFault>
    requires filled { length bytes.now ≡ count * R.form.width }
    requires fits { (size : ℕ) × (start + count ≤ size) × (size ≤ record_limit) × FillsTail R.form.width laid.old.base size laid.old.tail.items }
    ensures replaced { OnOk result ((size : ℕ) → start + count ≤ size → FillsTail R.form.width laid.old.base size laid.old.tail.items
        → ReplacesRun R.form start count bytes.now size laid.old laid.new) }
    ensures bad { IfErr result (IsDecodeFault R.form start bytes.now count) }
    ensures below { IfErr result (λ fault. (i : ℕ) → fault ≡ LookFault.NoRecord i → i < laid.old.base) }
{
    let width = width_of::<R>();
    let below = count.min(laid.base.saturating_sub(start));
    let cut = below as usize * width;
    note(&bytes[..cut], start, below, &mut laid.edits)?;
    let at = start.saturating_sub(laid.base) as usize * width;
    overwrite(&mut laid.tail, at, &bytes[cut..]);
    Ok(())
}

/// Replaces the records of a change.
fn replace<R: Record>(frame: &FrameReader<'_>, laid: &mut Laid<R>) -> Result<(), LookFault>
    requires wide { frame.now.shape.width ≡ R.form.width }
    requires whole { IsFrame frame.now.shape frame.now.frame }
    requires fits { (tally : Tally) × MayFollowTail R.form.width laid.old.base tally frame.now.frame laid.old.tail.items }
    ensures replaced { OnOk result ((tally : Tally) → MayFollowTail R.form.width laid.old.base tally frame.now.frame laid.old.tail.items
        → IsReplacedIn R.form tally.size frame.now.frame laid.old laid.new) }
    ensures bad { IfErr result (IsReplayFault R.form laid.old.base (frame.now.frame ∷ [])) }
{
    let width = width_of::<R>();
    let area = frame.record_area();
    let mut at = 0;
    for k in 0..frame.runs() {
        let (start, count) = frame.run(k);
        let len = count as usize * width;
        replace_run(&area[at..at + len], start, count, laid)?;
        at += len;
    }
    Ok(())
}

/// Takes in the next frame.
pub(crate) fn lay<R: Record>(frame: &FrameReader<'_>, laid: &mut Laid<R>) -> Result<(), LookFault>
    requires wide { frame.now.shape.width ≡ R.form.width }
    requires whole { IsFrame frame.now.shape frame.now.frame }
    requires fits { (tally : Tally) × MayFollowTail R.form.width laid.old.base tally frame.now.frame laid.old.tail.items }
    ensures taken { OnOk result ((tally : Tally) → MayFollowTail R.form.width laid.old.base tally frame.now.frame laid.old.tail.items
        → TakesFrame R.form tally frame.now.frame laid.old laid.new) }
    ensures bad { IfErr result (IsReplayFault R.form laid.old.base (frame.now.frame ∷ [])) }
{
    match frame.kind() {
        FrameKind::Group => match laid.tail.extend_from_slice(frame.record_area()) {
            Ok(()) => Ok(()),
            Err(_) => Err(LookFault::Memory),
        },
        FrameKind::Change => replace(frame, laid),
        FrameKind::Shrink => {
            let size = frame.new_length();
            if size < laid.base {
                if laid.edits.push(Edit::Cut(size)).is_err() {
                    return Err(LookFault::Memory);
                }
                laid.base = size;
            }
            let left = (size - laid.base) as usize * width_of::<R>();
            laid.tail.truncate(left);
            Ok(())
        }
        FrameKind::Fold => Ok(()),
    }
}
