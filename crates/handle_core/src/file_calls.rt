//! How a file is read, and how its vector begins.

ghost use Rattle.std.specs.Prelude.{◌≡◌, [], true, IfOk, IfErr, OnOk, MatchOption};
ghost use Rattle.book_core.specs.Beginning.{MayBeginWide};
ghost use Rattle.handle_core.specs.Begins.{HasRead, Feeds, RefusesFeeding, Begins, IsBeginRefusal, RefusesBeginning};
ghost use Rattle.handle_core.specs.Ends.{IsWidth, OfAny, width_of};

use crate::end::{End, Role};
use crate::faults::of_begin;
use c_core::Refusal;
use phase_core::Phase;
use record_core::Record;
use segment_core::Format;
use std::alloc::Global;
use std::mem;

impl End {
    /// A file whose records have so many bytes, with memory for its own. `None` where the width is none of an end's.
    pub fn file(width: u16, room: Vec<u8>) -> Option<End>
        requires { room.items ≡ [] }
        ensures file { MatchOption result (IsWidth width → ⊥) (λ end. (width_of end ≡ width) × OfAny (λ _ _ _. HasRead []) end) }
    {
        match width {
            1 => Some(End::U8(Role::File(room))),
            2 => Some(End::U16(Role::File(room))),
            4 => Some(End::U32(Role::File(room))),
            8 => Some(End::U64(Role::File(room))),
            9 => Some(End::Flagged(Role::File(room))),
            16 => Some(End::Pair(Role::File(room))),
            24 => Some(End::Bytes24(Role::File(room))),
            32 => Some(End::Bytes32(Role::File(room))),
            64 => Some(End::Bytes64(Role::File(room))),
            _ => None,
        }
    }
}

impl<R: Record> Role<R> {
    /// Puts a piece behind the bytes of a file that were read before. `Memory`.
    pub(crate) fn feed(&mut self, piece: &[u8]) -> Result<(), Refusal>
        ensures feeds { OnOk result (Feeds piece.now self.old self.new) }
        ensures refused { IfErr result (λ refusal. RefusesFeeding refusal self.old self.new) }
    {
        match self {
            Role::File(read) => match read.extend_from_slice(piece) {
                Ok(()) => Ok(()),
                Err(_) => Err(Refusal::Memory),
            },
            _ => Err(Refusal::NotSo),
        }
    }

    /// Begins the vector of a file whose bytes are all read, or, of a format, an empty one over what a stopped creation left there,
    /// with room for so many growths and so many seats: the phase's end is answered, and it is who commits. `Memory` too where its
    /// caller has no room for that end. Otherwise the bytes are given up where it is refused.
    pub(crate) fn begin(
        &mut self,
        alloc: Global,
        made: Option<Format>,
        growths: u64,
        seats: u16,
        has_room: bool,
    ) -> Result<Role<R>, Refusal>
        ensures begins { IfOk result (λ phase. Begins made growths seats phase self.old self.new) }
        ensures may { OnOk result (MayBeginWide growths seats) }
        ensures room { OnOk result (has_room ≡ true) }
        ensures refused { IfErr result (λ refusal. RefusesBeginning made growths seats refusal self.old self.new) }
    {
        match mem::replace(self, Role::Nothing) {
            Role::File(read) => {
                if has_room {
                    return self.begin_over(alloc, read, made, growths, seats);
                }
                self.put(Role::File(read));
                Err(Refusal::Memory)
            }
            other => {
                self.put(other);
                Err(Refusal::NotSo)
            }
        }
    }

    /// So over the bytes that it had.
    fn begin_over(
        &mut self,
        alloc: Global,
        read: Vec<u8>,
        made: Option<Format>,
        growths: u64,
        seats: u16,
    ) -> Result<Role<R>, Refusal>
        requires { self.old ≡ Role.Nothing }
        ensures begins { IfOk result (λ phase. Begins made growths seats phase (Role.File read) self.new) }
        ensures may { OnOk result (MayBeginWide growths seats) }
        ensures refused { IfErr result (λ refusal. RefusesBeginning made growths seats refusal (Role.File read) self.new) }
    {
        let (phase, committer) = ends_over(alloc, read, made, growths, seats)?;
        self.put(committer);
        Ok(phase)
    }
}

/// Both ends of the vector of these bytes, or, of a format, of an empty one over them: the phase, and who commits.
fn ends_over<R: Record>(
    alloc: Global,
    read: Vec<u8>,
    made: Option<Format>,
    growths: u64,
    seats: u16,
) -> Result<(Role<R>, Role<R>), Refusal>
    ensures begins { IfOk result (λ ends. Begins made growths seats ends.0 (Role.File read) ends.1) }
    ensures may { OnOk result (MayBeginWide growths seats) }
    ensures refused { IfErr result (IsBeginRefusal R.form made read.items growths seats) }
{
    match made {
        Some(format) => match Phase::create(alloc, read, format, growths, seats) {
            Ok((phase, committer)) => Ok((Role::Phase(phase), Role::Committer(committer))),
            Err(fault) => Err(of_begin(fault)),
        },
        None => match Phase::open(alloc, read, growths, seats) {
            Ok((phase, committer)) => Ok((Role::Phase(phase), Role::Committer(committer))),
            Err(fault) => Err(of_begin(fault)),
        },
    }
}
