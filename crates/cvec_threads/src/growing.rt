//! What a thread calls by its own handle.

ghost use Rattle.std.specs.Prelude.{◌≡◌, ◌≢◌, None};
ghost use Rattle.handle_core.specs.Roles.{Grows, Reads, Counts, Finds, Sizes, Tells, TellsPieces, RefusesGrowth, RefusesLook, RefusesSearch, IsNoGrower};
ghost use Rattle.handle_core.specs.Handles.{end_of, Refused};
ghost use Rattle.handle_core.specs.Ends.{Becomes, AtAny};
ghost use Rattle.cvec_threads.specs.Answers.{receipt_of, state_of};
ghost use Rattle.cvec_threads.specs.Begins.{IsLeft};
ghost use Rattle.cvec_threads.specs.Blocks.{HasBlock, IsNoBlock, HasGrownBy, IsNotGrownBy};

use book_core::{MarkState, Receipt};
use c_core::Refusal;
use handle_core::Handle;
use phase_core::Piece;
use std::alloc::Global;

/// Where a growth stands.
#[repr(C)]
#[derive(Clone, Copy)]
pub struct CvecReceipt {
    /// How many growths stand before it.
    pub number: u64,
    /// How many records stand before it.
    pub start: u64,
    /// How many records it has.
    pub len: u64,
    /// How many growths of its seat stand before it.
    pub serial: u64,
    /// Whose growth it is.
    pub seat: u16,
}

impl CvecReceipt {
    pub(crate) fn of(receipt: Receipt) -> CvecReceipt
        ensures { receipt_of result ≡ receipt }
    {
        CvecReceipt {
            number: receipt.number,
            start: receipt.start,
            len: receipt.len,
            serial: receipt.serial,
            seat: receipt.seat,
        }
    }
}

/// The number of a state of the mark.
fn state_code(state: MarkState) -> u32
    ensures { state_of result ≡ state }
{
    match state {
        MarkState::Running => 0,
        MarkState::Ended => 1,
        MarkState::Broken => 2,
    }
}

/// How many growths are durable, and whether more may be: 0 yes, 1 no more, 2 no more, since the file refused.
#[unsafe(no_mangle)]
pub extern "C" fn cvec_phase_settled(
    alloc: Global,
    grower: &mut Handle,
    count: &mut u64,
    state: &mut u32,
) -> u32
    ensures told { result ≡ 0 → Becomes (AtAny (λ _ _ _. Tells count.new (state_of state.new))) (end_of grower.old) (end_of grower.new) }
    ensures refused { result ≢ 0 → Refused (λ refusal. AtAny (λ _ _ _. IsNoGrower refusal)) result (end_of grower.old) (end_of grower.new) × (count.new ≡ count.old) × (state.new ≡ state.old) }
{
    let (settled, told) = answer_of!(alloc, grower, end => end.settled());
    *count = settled;
    *state = state_code(told);
    0
}

/// Learns what others grew, and how many records there are.
#[unsafe(no_mangle)]
pub extern "C" fn cvec_phase_size(alloc: Global, grower: &mut Handle, size: &mut u64) -> u32
    ensures size { result ≡ 0 → Becomes (AtAny (λ _ _ _. Sizes size.new)) (end_of grower.old) (end_of grower.new) }
    ensures refused { result ≢ 0 → Refused (λ refusal. AtAny (λ _ _ _. RefusesLook refusal)) result (end_of grower.old) (end_of grower.new) × (size.new ≡ size.old) }
{
    let found = answer_of!(alloc, grower, end => end.size());
    *size = found;
    0
}

/// Grows by the records that these bytes are, as one block behind all that was grown before.
#[unsafe(no_mangle)]
pub extern "C" fn cvec_phase_grow(
    alloc: Global,
    grower: &mut Handle,
    records: &[u8],
    receipt: &mut CvecReceipt,
) -> u32
    ensures grown { result ≡ 0 → Becomes (AtAny (λ _ _ _. Grows records.now (receipt_of receipt.new))) (end_of grower.old) (end_of grower.new) }
    ensures refused { result ≢ 0 → Refused (λ refusal. AtAny (λ _ _ _. RefusesGrowth records.now refusal)) result (end_of grower.old) (end_of grower.new) × (receipt.new ≡ receipt.old) }
{
    let grown = answer_of!(alloc, grower, end => end.grow(alloc, records));
    *receipt = CvecReceipt::of(grown);
    0
}

/// Copies the bytes of records from position `from` on to the front of `out`, of as many as stand in one piece there.
#[unsafe(no_mangle)]
pub extern "C" fn cvec_phase_read(
    alloc: Global,
    grower: &mut Handle,
    from: u64,
    out: &mut [u8],
    count: &mut u64,
) -> u32
    ensures read { result ≡ 0 → Becomes (AtAny (λ _ _ _. Reads from out.old out.new count.new)) (end_of grower.old) (end_of grower.new) }
    ensures refused { result ≢ 0 → Refused (λ refusal. AtAny (λ _ _ _. IsNoGrower refusal)) result (end_of grower.old) (end_of grower.new) × (out.new ≡ out.old) × (count.new ≡ count.old) }
{
    let copied = answer_of!(alloc, grower, end => end.read(from, out));
    *count = copied;
    0
}

/// How many of the records that the grower knows equal the one that these bytes are.
#[unsafe(no_mangle)]
pub extern "C" fn cvec_phase_count(
    alloc: Global,
    grower: &mut Handle,
    sought: &[u8],
    count: &mut u64,
) -> u32
    ensures count { result ≡ 0 → Becomes (AtAny (λ _ _ _. Counts sought.now count.new)) (end_of grower.old) (end_of grower.new) }
    ensures refused { result ≢ 0 → Refused (λ refusal. AtAny (λ _ _ _. RefusesSearch sought.now refusal)) result (end_of grower.old) (end_of grower.new) × (count.new ≡ count.old) }
{
    let equal = answer_of!(alloc, grower, end => end.count(sought));
    *count = equal;
    0
}

/// The first position from `from` on whose record equals the one that these bytes are, or how many records the grower knows.
#[unsafe(no_mangle)]
pub extern "C" fn cvec_phase_find(
    alloc: Global,
    grower: &mut Handle,
    sought: &[u8],
    from: u64,
    place: &mut u64,
) -> u32
    ensures found { result ≡ 0 → Becomes (AtAny (λ _ _ _. Finds sought.now from place.new)) (end_of grower.old) (end_of grower.new) }
    ensures refused { result ≢ 0 → Refused (λ refusal. AtAny (λ _ _ _. RefusesSearch sought.now refusal)) result (end_of grower.old) (end_of grower.new) × (place.new ≡ place.old) }
{
    let first = answer_of!(alloc, grower, end => end.find(sought, from));
    *place = first;
    0
}

/// Tells where the records stand that the grower knows, piece by piece from position `from` on, in front of `out`: as many
/// pieces as it has room for, or all. They stand there, as they are, until the phase has ended.
#[unsafe(no_mangle)]
pub extern "C" fn cvec_phase_pieces(
    alloc: Global,
    grower: &mut Handle,
    from: u64,
    out: &mut [Piece],
    count: &mut u64,
) -> u32
    ensures told { result ≡ 0 → Becomes (AtAny (λ _ _ _. TellsPieces from out.old out.new count.new)) (end_of grower.old) (end_of grower.new) }
    ensures refused { result ≢ 0 → Refused (λ refusal. AtAny (λ _ _ _. IsNoGrower refusal)) result (end_of grower.old) (end_of grower.new) × (out.new ≡ out.old) × (count.new ≡ count.old) }
{
    let found = answer_of!(alloc, grower, end => end.pieces(from, out));
    *count = found;
    0
}

/// A block of so many blank records of the grower's vector, in a handle of its own: they stand at `records`, and the caller alone
/// writes them there until they are published. What that handle had is given up.
#[unsafe(no_mangle)]
pub extern "C" fn cvec_phase_block(
    alloc: Global,
    grower: &mut Handle,
    count: u64,
    block: &mut Handle,
    records: &mut *const u8,
) -> u32
    ensures grower { end_of grower.new ≡ end_of grower.old }
    ensures block { result ≡ 0 → HasBlock count records.new (end_of grower.old) (end_of block.new) }
    ensures refused { result ≢ 0 → IsNoBlock count result (end_of grower.old) × IsLeft (end_of block.old) (end_of block.new) × (records.new ≡ records.old) }
{
    let Some(end) = grower.take(alloc) else {
        return Refusal::NotSo.code();
    };
    let lent = end.block(alloc, count);
    grower.put(end);
    match lent {
        Ok((end, place)) => {
            if block.fill(alloc, end) {
                *records = place;
                return 0;
            }
            Refusal::Memory.code()
        }
        Err(refusal) => refusal.code(),
    }
}

/// Grows by the records that the block has now, which stay where they are: the block's handle has nothing then. Refused, it has
/// the block as before.
#[unsafe(no_mangle)]
pub extern "C" fn cvec_phase_publish(
    alloc: Global,
    grower: &mut Handle,
    block: &mut Handle,
    receipt: &mut CvecReceipt,
) -> u32
    ensures grown { result ≡ 0 → HasGrownBy (receipt_of receipt.new) (end_of block.old) (end_of grower.old) (end_of grower.new) × (end_of block.new ≡ None) }
    ensures refused { result ≢ 0 → IsNotGrownBy result (end_of block.old) (end_of grower.old) (end_of grower.new) × (end_of block.new ≡ end_of block.old) × (receipt.new ≡ receipt.old) }
{
    let Some(mut end) = grower.take(alloc) else {
        return Refusal::NotSo.code();
    };
    let Some(mut lent) = block.take(alloc) else {
        grower.put(end);
        return Refusal::NotSo.code();
    };
    let grown = end.publish(&mut lent);
    grower.put(end);
    match grown {
        Ok(grown) => {
            *receipt = CvecReceipt::of(grown);
            0
        }
        Err(refusal) => {
            block.put(lent);
            refusal.code()
        }
    }
}
