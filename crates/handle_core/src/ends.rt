//! The calls of an end, whatever records its vector has: these come and go as their bytes.

ghost use Rattle.std.specs.Prelude.{◌≡◌, true, IfOk, IfErr, OnOk};
ghost use Rattle.book_core.specs.Beginning.{MayBeginWide};
ghost use Rattle.handle_core.specs.Begins.{Feeds, RefusesFeeding, Begins, RefusesBeginning};
ghost use Rattle.handle_core.specs.Roles.{Grows, RefusesGrowth, Reads, Counts, Finds, RefusesSearch, Seats, RefusesSeat, Tells, TellsPieces, IsNoGrower, Sizes, Publishes, IsBlockOf, RefusesBlock, RefusesPublishing, RefusesLook, Plans, RefusesPlan, Lists, RefusesCalls, Settles, RefusesSettle};
ghost use Rattle.handle_core.specs.Vaults.{GathersIn, RefusesGathering, SharesOut, RefusesSharing, Measures, IsNoVault, Changes, RefusesChange, Resizes, RefusesResize, FoldsAll, RefusesFolding};
ghost use Rattle.handle_core.specs.Ends.{AtAny, AllAt, OfAny, RefusedWith};

use crate::end::{End, Role};
use book_core::{MarkState, Receipt};
use c_core::Refusal;
use phase_core::Piece;
use relay_core::Call;
use segment_core::Format;
use std::alloc::Global;

/// Does this with the role, of whichever records.
macro_rules! at_end {
    ($end:expr, $role:ident => $call:expr) => {
        match $end {
            End::U8($role) => $call,
            End::U16($role) => $call,
            End::U32($role) => $call,
            End::U64($role) => $call,
            End::Pair($role) => $call,
            End::Flagged($role) => $call,
            End::Bytes24($role) => $call,
            End::Bytes32($role) => $call,
            End::Bytes64($role) => $call,
        }
    };
}

/// Makes an end of the same records by the role.
macro_rules! end_at {
    ($end:expr, $role:ident => $call:expr) => {
        match $end {
            End::U8($role) => Ok(End::U8($call?)),
            End::U16($role) => Ok(End::U16($call?)),
            End::U32($role) => Ok(End::U32($call?)),
            End::U64($role) => Ok(End::U64($call?)),
            End::Pair($role) => Ok(End::Pair($call?)),
            End::Flagged($role) => Ok(End::Flagged($call?)),
            End::Bytes24($role) => Ok(End::Bytes24($call?)),
            End::Bytes32($role) => Ok(End::Bytes32($call?)),
            End::Bytes64($role) => Ok(End::Bytes64($call?)),
        }
    };
}

impl End {
    /// Puts a piece behind the bytes of a file that were read before. `Memory`.
    pub fn feed(&mut self, piece: &[u8]) -> Result<(), Refusal>
        ensures feeds { OnOk result (AtAny (λ _ _ _. Feeds piece.now) self.old self.new) }
        ensures refused { IfErr result (λ refusal. AtAny (λ _ _ _. RefusesFeeding refusal) self.old self.new) }
    {
        at_end!(self, role => role.feed(piece))
    }

    /// Begins the vector of a file whose bytes are all read, or, of a format, an empty one over what a stopped creation left there,
    /// with room for so many growths and so many seats, from 1 to 64: the phase's end is answered, and it is who commits. Refused
    /// as a file is, or for want of memory. The bytes are given up then, but where there was none for the answered end.
    pub fn begin(
        &mut self,
        alloc: Global,
        made: Option<Format>,
        growths: u64,
        seats: u16,
    ) -> Result<Box<End>, Refusal>
        ensures begins { IfOk result (λ phase. AllAt (λ _ _ _. Begins made growths seats) phase.value self.old self.new) }
        ensures may { OnOk result (MayBeginWide growths seats) }
        ensures refused { IfErr result (λ refusal. AtAny (λ _ _ _. RefusesBeginning made growths seats refusal) self.old self.new) }
    {
        let room = Box::new(alloc, End::nothing()).ok();
        let phase = self.begin_file(alloc, made, growths, seats, room.is_some())?;
        match room {
            Some(mut end) => {
                end.put(phase);
                Ok(end)
            }
            None => unreachable!(),
        }
    }

    /// The same, with the phase's end by itself. `Memory` too where its caller has no room for that.
    fn begin_file(
        &mut self,
        alloc: Global,
        made: Option<Format>,
        growths: u64,
        seats: u16,
        has_room: bool,
    ) -> Result<End, Refusal>
        ensures begins { IfOk result (λ phase. AllAt (λ _ _ _. Begins made growths seats) phase self.old self.new) }
        ensures may { OnOk result (MayBeginWide growths seats) }
        ensures room { OnOk result (has_room ≡ true) }
        ensures refused { IfErr result (λ refusal. AtAny (λ _ _ _. RefusesBeginning made growths seats refusal) self.old self.new) }
    {
        end_at!(self, role => role.begin(alloc, made, growths, seats, has_room))
    }

    /// The end of one more thread. `NotSo` where each seat is taken; `Memory`.
    pub fn seat(&mut self) -> Result<End, Refusal>
        ensures seated { IfOk result (λ seat. AllAt (λ _ _ _. Seats) seat self.old self.new) }
        ensures refused { IfErr result (λ refusal. AtAny (λ _ _ _. RefusesSeat refusal) self.old self.new) }
    {
        end_at!(self, role => role.seat())
    }

    /// Grows by the records that these bytes are. `Again` where another growth came first; `NoRecord`.
    pub fn grow(&mut self, alloc: Global, bytes: &[u8]) -> Result<Receipt, Refusal>
        ensures grown { IfOk result (λ receipt. AtAny (λ _ _ _. Grows bytes.now receipt) self.old self.new) }
        ensures refused { IfErr result (λ refusal. AtAny (λ _ _ _. RefusesGrowth bytes.now refusal) self.old self.new) }
    {
        at_end!(self, role => role.grow(alloc, bytes))
    }

    /// Copies the bytes of records from position `from` on to the front of `out`, and answers of how many: as many as stand in one
    /// piece.
    pub fn read(&mut self, from: u64, out: &mut [u8]) -> Result<u64, Refusal>
        ensures read { IfOk result (λ count. AtAny (λ _ _ _. Reads from out.old out.new count) self.old self.new) }
        ensures refused { IfErr result (λ refusal. AtAny (λ _ _ _. IsNoGrower refusal) self.old self.new × (out.new ≡ out.old)) }
    {
        at_end!(self, role => role.read(from, out))
    }

    /// How many of the records that a grower knows equal the one that these bytes are. `NoRecord`.
    pub fn count(&mut self, sought: &[u8]) -> Result<u64, Refusal>
        ensures count { IfOk result (λ count. AtAny (λ _ _ _. Counts sought.now count) self.old self.new) }
        ensures refused { IfErr result (λ refusal. AtAny (λ _ _ _. RefusesSearch sought.now refusal) self.old self.new) }
    {
        at_end!(self, role => role.count(sought))
    }

    /// The first position from `from` on whose record equals the one that these bytes are, or how many records a grower knows.
    /// `NoRecord`.
    pub fn find(&mut self, sought: &[u8], from: u64) -> Result<u64, Refusal>
        ensures found { IfOk result (λ place. AtAny (λ _ _ _. Finds sought.now from place) self.old self.new) }
        ensures refused { IfErr result (λ refusal. AtAny (λ _ _ _. RefusesSearch sought.now refusal) self.old self.new) }
    {
        at_end!(self, role => role.find(sought, from))
    }

    /// The end of a block of so many blank records, for a grower, and where they stand. `Empty`; `TooLarge`; `Memory`.
    pub fn block(&self, alloc: Global, count: u64) -> Result<(End, *const u8), Refusal>
        ensures block { IfOk result (λ r. AtAny (λ _ _ _. IsBlockOf count r.1) self.now r.0) }
        ensures refused { IfErr result (λ refusal. OfAny (λ _ _ _. RefusesBlock count refusal) self.now) }
    {
        match self {
            End::U8(role) => {
                let (block, place) = role.block(alloc, count)?;
                Ok((End::U8(block), place))
            }
            End::U16(role) => {
                let (block, place) = role.block(alloc, count)?;
                Ok((End::U16(block), place))
            }
            End::U32(role) => {
                let (block, place) = role.block(alloc, count)?;
                Ok((End::U32(block), place))
            }
            End::U64(role) => {
                let (block, place) = role.block(alloc, count)?;
                Ok((End::U64(block), place))
            }
            End::Pair(role) => {
                let (block, place) = role.block(alloc, count)?;
                Ok((End::Pair(block), place))
            }
            End::Flagged(role) => {
                let (block, place) = role.block(alloc, count)?;
                Ok((End::Flagged(block), place))
            }
            End::Bytes24(role) => {
                let (block, place) = role.block(alloc, count)?;
                Ok((End::Bytes24(block), place))
            }
            End::Bytes32(role) => {
                let (block, place) = role.block(alloc, count)?;
                Ok((End::Bytes32(block), place))
            }
            End::Bytes64(role) => {
                let (block, place) = role.block(alloc, count)?;
                Ok((End::Bytes64(block), place))
            }
        }
    }

    /// Grows by a block, which is to be given up then. `Width`, where it has other records; `Again`, where another growth came
    /// first. Refused, the block is as it was.
    pub fn publish(&mut self, block: &mut End) -> Result<Receipt, Refusal>
        ensures grown { IfOk result (λ receipt. AllAt (λ _ _ _. Publishes receipt) block.old self.old self.new) }
        ensures refused { IfErr result (λ refusal. RefusedWith (λ refusal _ _ _. RefusesPublishing refusal) refusal block.old self.old self.new × (block.new ≡ block.old)) }
    {
        match (&mut *self, &mut *block) {
            (End::U8(role), End::U8(block)) => role.publish(block),
            (End::U16(role), End::U16(block)) => role.publish(block),
            (End::U32(role), End::U32(block)) => role.publish(block),
            (End::U64(role), End::U64(block)) => role.publish(block),
            (End::Pair(role), End::Pair(block)) => role.publish(block),
            (End::Flagged(role), End::Flagged(block)) => role.publish(block),
            (End::Bytes24(role), End::Bytes24(block)) => role.publish(block),
            (End::Bytes32(role), End::Bytes32(block)) => role.publish(block),
            (End::Bytes64(role), End::Bytes64(block)) => role.publish(block),
            _ => Err(Refusal::Width),
        }
    }

    /// How many growths are durable, and whether more may be.
    pub fn settled(&mut self) -> Result<(u64, MarkState), Refusal>
        ensures told { IfOk result (λ r. AtAny (λ _ _ _. Tells r.0 r.1) self.old self.new) }
        ensures refused { IfErr result (λ refusal. AtAny (λ _ _ _. IsNoGrower refusal) self.old self.new) }
    {
        at_end!(self, role => role.settled())
    }

    /// Learns what others grew, and answers how many records there are. `Broken` where a growth is none of the phase.
    pub fn size(&mut self) -> Result<u64, Refusal>
        ensures size { IfOk result (λ size. AtAny (λ _ _ _. Sizes size) self.old self.new) }
        ensures refused { IfErr result (λ refusal. AtAny (λ _ _ _. RefusesLook refusal) self.old self.new) }
    {
        at_end!(self, role => role.size())
    }

    /// Tells where the records stand that a grower knows, piece by piece from position `from` on, in front of `out`, and
    /// answers how many pieces: as many as `out` has room for, or all.
    pub fn pieces(&mut self, from: u64, out: &mut [Piece]) -> Result<u64, Refusal>
        ensures told { IfOk result (λ count. AtAny (λ _ _ _. TellsPieces from out.old out.new count) self.old self.new) }
        ensures refused { IfErr result (λ refusal. AtAny (λ _ _ _. IsNoGrower refusal) self.old self.new × (out.new ≡ out.old)) }
    {
        at_end!(self, role => role.pieces(from, out))
    }

    /// Lists the calls that commit what was grown, and answers how many growths they commit.
    pub fn plan(&mut self) -> Result<u64, Refusal>
        ensures plans { IfOk result (λ count. AtAny (λ _ _ _. Plans count) self.old self.new) }
        ensures refused { IfErr result (λ refusal. AtAny (λ _ _ _. RefusesPlan refusal) self.old self.new) }
    {
        at_end!(self, role => role.plan())
    }

    /// The calls that the host is to make, in order.
    pub fn calls(&self) -> Result<&[Call], Refusal>
        ensures listed { IfOk result (λ calls. OfAny (λ _ _ _. Lists calls.now) self.now) }
        ensures refused { IfErr result (λ refusal. OfAny (λ _ _ _. RefusesCalls refusal) self.now) }
    {
        at_end!(self, role => role.calls())
    }

    /// The host has made the calls, and each has succeeded: the growers are told what is durable. Answers how many growths
    /// are: 0 of a vault.
    pub fn settle(&mut self) -> Result<u64, Refusal>
        ensures settled { IfOk result (λ count. AtAny (λ _ _ _. Settles count) self.old self.new) }
        ensures refused { IfErr result (λ refusal. AtAny (λ _ _ _. RefusesSettle refusal) self.old self.new) }
    {
        at_end!(self, role => role.settle())
    }

    /// Who commits has the vector alone from then on. `Busy`, while another end of its phase isn't closed; `Broken`;
    /// `Unsettled`, where not all growths are committed; `Memory`.
    pub fn gather(&mut self, alloc: Global) -> Result<(), Refusal>
        ensures gathers { OnOk result (AtAny (λ _ _ _. GathersIn) self.old self.new) }
        ensures refused { IfErr result (λ refusal. AtAny (λ _ _ _. RefusesGathering refusal) self.old self.new) }
    {
        at_end!(self, role => role.gather(alloc))
    }

    /// A vault is lent, with room for so many growths, to a phase with so many seats, whose end is answered, and to who commits.
    /// Where there was no memory for what these share, the handle has no end.
    pub fn share(&mut self, alloc: Global, growths: u64, seats: u16) -> Result<Box<End>, Refusal>
        ensures shares { IfOk result (λ end. AllAt (λ _ _ _. SharesOut growths seats) end.value self.old self.new) }
        ensures refused { IfErr result (λ refusal. AtAny (λ _ _ _. RefusesSharing growths seats refusal) self.old self.new) }
    {
        let room = Box::new(alloc, End::nothing()).ok();
        let phase = self.share_out(alloc, growths, seats, room.is_some())?;
        match room {
            Some(mut end) => {
                end.put(phase);
                Ok(end)
            }
            None => unreachable!(),
        }
    }

    /// No end.
    fn nothing() -> End {
        End::U64(Role::Nothing)
    }

    /// The same, with the phase's end by itself. `Memory` too where its caller has no room for that.
    fn share_out(
        &mut self,
        alloc: Global,
        growths: u64,
        seats: u16,
        has_room: bool,
    ) -> Result<End, Refusal>
        ensures shares { IfOk result (λ end. AllAt (λ _ _ _. SharesOut growths seats) end self.old self.new) }
        ensures room { OnOk result (has_room ≡ true) }
        ensures refused { IfErr result (λ refusal. AtAny (λ _ _ _. RefusesSharing growths seats refusal) self.old self.new) }
    {
        end_at!(self, role => role.share(alloc, growths, seats, has_room))
    }

    /// How many records a vault has.
    pub fn measure(&self) -> Result<u64, Refusal>
        ensures size { IfOk result (λ size. AtAny (λ _ _ _. Measures size) self.now self.now) }
        ensures refused { IfErr result (λ refusal. AtAny (λ _ _ _. IsNoVault refusal) self.now self.now) }
    {
        at_end!(self, role => role.measure())
    }

    /// Writes the records that these bytes are over those of a vault from position `start` on.
    pub fn change(&mut self, alloc: Global, start: u64, bytes: &[u8]) -> Result<(), Refusal>
        ensures changes { OnOk result (AtAny (λ _ _ _. Changes start bytes.now) self.old self.new) }
        ensures refused { IfErr result (λ refusal. AtAny (λ _ _ _. RefusesChange start bytes.now refusal) self.old self.new) }
    {
        at_end!(self, role => role.change(alloc, start, bytes))
    }

    /// Makes the length of a vault `size`: takes records away, or appends copies of the one that these bytes are.
    pub fn resize(&mut self, size: u64, filler: &[u8]) -> Result<(), Refusal>
        ensures resizes { OnOk result (AtAny (λ _ _ _. Resizes size filler.now) self.old self.new) }
        ensures refused { IfErr result (λ refusal. AtAny (λ _ _ _. RefusesResize size filler.now refusal) self.old self.new) }
    {
        at_end!(self, role => role.resize(size, filler))
    }

    /// Folds all changes of a vault, and answers whether there were some.
    pub fn fold(&mut self) -> Result<bool, Refusal>
        ensures folds { IfOk result (λ folded. AtAny (λ _ _ _. FoldsAll folded) self.old self.new) }
        ensures refused { IfErr result (λ refusal. AtAny (λ _ _ _. RefusesFolding refusal) self.old self.new) }
    {
        at_end!(self, role => role.fold())
    }
}
