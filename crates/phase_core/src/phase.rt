//! A phase over a file whose calls a host makes.

ghost use Rattle.std.specs.Prelude.{◌≡◌, [], ◌∷◌, ◌++◌, length, IfOk, IfErr, OnOk, MatchResult};
ghost use Rattle.std.specs.Arc.{arc_value};
ghost use Rattle.disk_core.specs.File.{opened};
ghost use Rattle.disk_core.specs.FileDisk.{states_of, KeepsSoFar};
ghost use Rattle.segment_core.specs.Shape.{shape_of};
ghost use Rattle.pen_core.specs.Births.{IsExisting, StaysUnbornOrEmpty};
ghost use Rattle.pen_core.specs.Opening.{IsOpened, OnlySyncs};
ghost use Rattle.book_core.specs.Lists.{opening_of};
ghost use Rattle.book_core.specs.Beginning.{AreNewSeats, IsNewSeat, MayBeginWide};
ghost use Rattle.phase_core.specs.Beginning.{IsCreateRefusal, IsOpeningRefusal};
ghost use Rattle.phase_core.specs.Room.{IsRoomFor};

use crate::committer::Committer;
use crate::grower::Grower;
use crate::host::{HostDisk, host_disk};
use crate::lending::lend_new;
use book_core::{Live, Seat};
use pen_core::{OpenFault, PenFault};
use record_core::Record;
use relay_core::HostFile;
use segment_core::Format;
use std::alloc::Global;
use std::sync::Arc;
use vault_core::Vault;

/// A phase, and the seats that nobody has.
#[derive(Drop)]
pub struct Phase<R: Record> {
    pub(crate) live: Arc<Live<R>, Global>,
    pub(crate) seats: Vec<Seat<R>>,
    ghost seated: { AreNewSeats (arc_value live).directory (arc_value live).mark seats.items },
}

/// Why no phase is begun.
#[derive(Clone, Copy)]
pub enum BeginFault {
    /// As a new file is refused, or a phase over a file.
    Pen(PenFault),
    /// As a file that is there is refused.
    Open(OpenFault),
}

/// Why there is no end for one more thread.
#[derive(Clone, Copy)]
pub enum SeatFault {
    /// Each seat is taken.
    Taken,
    /// Memory was refused.
    Memory,
}

impl<R: Record> Phase<R> {
    /// A phase over a new file of that version, with room for so many growths, from 1 to `PLACE_LIMIT`, and so many seats: from 1 to
    /// 64. The file holds these bytes, none or what a creation left that was stopped: `Exists` where they are more. Who commits lists
    /// the calls of its making first, of which the host has made none: whatever a crash leaves of them from the first sync on is no
    /// file yet, or the empty one.
    pub fn create(
        alloc: Global,
        bytes: Vec<u8>,
        format: Format,
        growths: u64,
        seats: u16,
    ) -> Result<(Phase<R>, Committer<R, HostDisk>), BeginFault>
        ensures empty { IfOk result (λ r. (arc_value r.0.live).blocks ≡ []) }
        ensures none_existed { IfOk result (λ r. KeepsSoFar r.1.flusher.pen.disk.inner → IsExisting bytes.items → ⊥) }
        ensures one { IfOk result (λ r. arc_value r.1.live ≡ arc_value r.0.live) }
        ensures begins { IfOk result (λ r. (r.1.flusher.settled ≡ 0) × (r.1.flusher.pass.entries ≡ [])) }
        ensures made { IfOk result (λ r. r.1.made ≡ 1) }
        ensures born { IfOk result (λ r. KeepsSoFar r.1.flusher.pen.disk.inner
            → StaysUnbornOrEmpty r.1.flusher.pen.shape (opened bytes.items ∷ []) (states_of r.1.flusher.pen.disk.inner)) }
        ensures shape { IfOk result (λ r. r.1.flusher.pen.shape ≡ shape_of format R.form) }
        ensures room { IfOk result (λ r. IsRoomFor growths (arc_value r.0.live).directory.room) }
        ensures seats { IfOk result (λ r. length r.0.seats.items ≡ seats) }
        ensures may { OnOk result (MayBeginWide growths seats) }
        ensures refused { IfErr result (IsCreateRefusal bytes.items growths seats) }
    {
        match Vault::create_as(alloc, host_disk::<HostFile>(alloc, bytes), format) {
            Ok(vault) => match lend_new(alloc, vault, growths, seats) {
                Ok(ends) => Ok(ends),
                Err(fault) => Err(BeginFault::Pen(fault)),
            },
            Err((_, fault)) => Err(BeginFault::Pen(fault)),
        }
    }

    /// A phase over a file that holds these bytes, with room for so many growths and so many seats, as of a new file. What the file
    /// has stands in it from before, and the bytes are given up. Who commits lists a sync first, which the host hasn't made: what was
    /// read is durable from then on.
    pub fn open(
        alloc: Global,
        bytes: Vec<u8>,
        growths: u64,
        seats: u16,
    ) -> Result<(Phase<R>, Committer<R, HostDisk>), BeginFault>
        ensures opened { IfOk result (λ r. KeepsSoFar r.1.flusher.pen.disk.inner
            → IsOpened R.form bytes.items r.1.flusher.pen (opening_of (arc_value r.0.live))) }
        ensures made { IfOk result (λ r. r.1.made ≡ 1) }
        ensures only_syncs { IfOk result (λ r. KeepsSoFar r.1.flusher.pen.disk.inner
            → OnlySyncs (opened bytes.items ∷ []) (states_of r.1.flusher.pen.disk.inner)) }
        ensures one { IfOk result (λ r. arc_value r.1.live ≡ arc_value r.0.live) }
        ensures begins { IfOk result (λ r. (r.1.flusher.settled ≡ 0) × (r.1.flusher.pass.entries ≡ [])) }
        ensures room { IfOk result (λ r. IsRoomFor growths (arc_value r.0.live).directory.room) }
        ensures seats { IfOk result (λ r. length r.0.seats.items ≡ seats) }
        ensures may { OnOk result (MayBeginWide growths seats) }
        ensures refused { IfErr result (IsOpeningRefusal R.form bytes.items growths seats) }
    {
        match Vault::open(alloc, host_disk::<HostFile>(alloc, bytes)) {
            Ok(vault) => match lend_new(alloc, vault, growths, seats) {
                Ok(ends) => Ok(ends),
                Err(fault) => Err(BeginFault::Pen(fault)),
            },
            Err((_, fault)) => Err(BeginFault::Open(fault)),
        }
    }

    /// One more thread's end. Refused, the seats are as they were: `Taken`, where each of them is; `Memory`.
    pub fn grower(&mut self) -> Result<Grower<R>, SeatFault>
        ensures phase { arc_value self.new.live ≡ arc_value self.old.live }
        ensures seat { IfOk result (λ grower. (arc_value grower.live ≡ arc_value self.old.live)
            × IsNewSeat (arc_value self.old.live).directory (arc_value self.old.live).mark (length self.new.seats.items) grower.seat) }
        ensures seats { MatchResult result
            (λ grower. self.old.seats.items ≡ self.new.seats.items ++ grower.seat ∷ [])
            (λ _. self.new.seats.items ≡ self.old.seats.items) }
        ensures taken { IfErr result (λ fault. fault ≡ SeatFault.Taken → length self.old.seats.items ≡ 0) }
    {
        let Ok(live) = self.live.clone() else {
            return Err(SeatFault::Memory);
        };
        match live.take_seat(&mut self.seats) {
            Some(seat) => Ok(Grower::new(live, seat)),
            None => Err(SeatFault::Taken),
        }
    }
}
