//! How a vector begins, and how its handles are given up.

ghost use Rattle.std.specs.Prelude.{◌≡◌, ◌≢◌, Option, None, MatchOption};
ghost use Rattle.segment_core.specs.declared.format.Format.{Format};
ghost use Rattle.book_core.specs.Beginning.{MayBeginWide};
ghost use Rattle.handle_core.specs.Begins.{Feeds, RefusesFeeding, RefusesBeginning};
ghost use Rattle.handle_core.specs.Roles.{RefusesSeat};
ghost use Rattle.handle_core.specs.Handles.{end_of, Refused};
ghost use Rattle.handle_core.specs.Ends.{AtAny, Becomes, IsWidth};
ghost use Rattle.c_core.specs.Refusal.{code_of};
ghost use Rattle.c_core.specs.declared.refusal.Refusal.TheVariants.{Width};
ghost use Rattle.cvec_threads.specs.Begins.{HasBegun, HasFile, HasSeat, IsLeft, IsMadeAs, IsNotBegun};

use c_core::Refusal;
use handle_core::{End, Handle};
use segment_core::Format;
use std::alloc::Global;

/// A file whose records have so many bytes, 1, 2, 4, 8, 9, 16, 24, 32 or 64, with memory for `len` bytes of its own: `cvec_phase_feed` puts these
/// there, as they are read. What the handle had is given up.
#[unsafe(no_mangle)]
pub extern "C" fn cvec_phase_file(alloc: Global, len: u64, width: u16, file: &mut Handle) -> u32
    ensures file { result ≡ 0 → HasFile width (end_of file.new) }
    ensures width { result ≡ code_of Width → IsWidth width → ⊥ }
    ensures refused { result ≢ 0 → IsLeft (end_of file.old) (end_of file.new) }
{
    let Ok(room) = Vec::with_capacity(alloc, len as usize) else {
        return Refusal::Memory.code();
    };
    let Some(end) = End::file(width, room) else {
        return Refusal::Width.code();
    };
    if file.fill(alloc, end) {
        return 0;
    }
    Refusal::Memory.code()
}

/// Puts a piece behind the bytes of a file that were read before.
#[unsafe(no_mangle)]
pub extern "C" fn cvec_phase_feed(alloc: Global, file: &mut Handle, piece: &[u8]) -> u32
    ensures fed { result ≡ 0 → Becomes (AtAny (λ _ _ _. Feeds piece.now)) (end_of file.old) (end_of file.new) }
    ensures refused { result ≢ 0 → Refused (λ refusal. AtAny (λ _ _ _. RefusesFeeding refusal)) result (end_of file.old) (end_of file.new) }
{
    answer_of!(alloc, file, end => end.feed(piece));
    0
}

/// The format of a new file of this version, none for version 0. `None`: there is no such version.
fn format_of(version: u8) -> Option<Option<Format>>
    ensures { MatchOption result ((version ≢ 0) × (version ≢ 1) × (version ≢ 2)) (IsMadeAs version) }
{
    match version {
        0 => Some(None),
        1 => Some(Some(Format::One)),
        2 => Some(Some(Format::Two)),
        _ => None,
    }
}

/// Begins the vector of a file whose bytes are all read, or, of version 1 or 2, an empty one over what a stopped creation left there:
/// with room for so many growths in a phase, from 1 to 536,870,904, and so many seats: from 1 to 64. Where the system refuses the
/// addresses for so much room, the phase has room for 1,048,568 growths. The file's handle has who commits then, who lists the calls of
/// a new file's making first, and the other the phase; what that one had is given up. Refused, the bytes are given up, but where there
/// was no memory for the phase's end, or there is no such version.
#[unsafe(no_mangle)]
pub extern "C" fn cvec_phase_begin(
    alloc: Global,
    file: &mut Handle,
    version: u8,
    growths: u64,
    seats: u16,
    phase: &mut Handle,
) -> u32
    ensures begins { result ≡ 0 → (made : Option Format) × IsMadeAs version made × HasBegun made growths seats (end_of file.old) (end_of file.new) (end_of phase.new) }
    ensures may { result ≡ 0 → MayBeginWide growths seats }
    ensures refused { result ≢ 0 → IsNotBegun version growths seats result (end_of file.old) (end_of file.new) × (end_of phase.new ≡ end_of phase.old) }
{
    let Some(made) = format_of(version) else {
        return Refusal::NotSo.code();
    };
    let begun = answer_of!(alloc, file, end => end.begin(alloc, made, growths, seats));
    drop(phase.take(alloc));
    phase.put(begun);
    0
}

/// A seat for one more thread, into a handle of its own. What that handle had is given up.
#[unsafe(no_mangle)]
pub extern "C" fn cvec_phase_seat(alloc: Global, phase: &mut Handle, grower: &mut Handle) -> u32
    ensures seated { result ≡ 0 → HasSeat (end_of phase.old) (end_of phase.new) (end_of grower.new) }
    ensures refused { result ≢ 0 → Refused (λ refusal. AtAny (λ _ _ _. RefusesSeat refusal)) result (end_of phase.old) (end_of phase.new) × IsLeft (end_of grower.old) (end_of grower.new) }
{
    let Some(mut end) = phase.take(alloc) else {
        return Refusal::NotSo.code();
    };
    let seated = end.seat();
    phase.put(end);
    match seated {
        Ok(seat) => {
            if grower.fill(alloc, seat) {
                return 0;
            }
            Refusal::Memory.code()
        }
        Err(refusal) => refusal.code(),
    }
}

/// Gives up what the handle has. The last handle of a vector ends it.
#[unsafe(no_mangle)]
pub extern "C" fn cvec_phase_close(alloc: Global, handle: &mut Handle) -> u32
    ensures nothing { end_of handle.new ≡ None }
    ensures refused { result ≢ 0 → end_of handle.old ≡ None }
{
    match handle.take(alloc) {
        Some(_) => 0,
        None => Refusal::NotSo.code(),
    }
}
