//! The end of a phase whose ends but who commits are closed.

ghost use Rattle.std.specs.Prelude.{IfOk, IfErr, OnOk};
ghost use Rattle.flush_core.specs.Flusher.{IsFlusherOf, FlusherLearns};
ghost use Rattle.vault_core.specs.Space.{IsSpaceFor};
ghost use Rattle.phase_core.specs.Gathering.{HasEnded, Gathers, IsGatherFault, RefusesGather};

use crate::committer::Committer;
use crate::host_vault::HostVault;
use book_core::Live;
use disk_core::Disk;
use flush_core::Flusher;
use pen_core::PenFault;
use record_core::Record;
use relay_core::RelayDisk;
use std::alloc::Global;
use std::sync::Arc;
use vault_core::{Space, gather_known};

/// Why a phase isn't ended.
#[derive(Clone, Copy)]
pub enum GatherFault {
    /// Another end of it isn't closed.
    Shared,
    /// A call of the file has failed before.
    Broken,
    /// A growth is none of the phase.
    Strayed,
    /// The growth of this number, and those behind it, aren't settled.
    Unsettled(u64),
    /// Memory was refused.
    Memory,
}

/// Ends the directory behind all growths, where each of them is settled, and takes the memory that the end of the phase needs.
fn end_phase<R: Record, D: Disk>(
    alloc: Global,
    live: &Live<R>,
    flusher: &mut Flusher<R, RelayDisk<D>>,
) -> Result<Space<R>, GatherFault>
    requires of { IsFlusherOf (D.keeps flusher.old.pen.disk.inner) live.now flusher.old }
    ensures of { IsFlusherOf (D.keeps flusher.new.pen.disk.inner) live.now flusher.new }
    ensures learns { FlusherLearns flusher.old flusher.new }
    ensures ended { OnOk result (HasEnded flusher.new) }
    ensures space { IfOk result (IsSpaceFor live.now flusher.new) }
    ensures refused { IfErr result (λ fault. IsGatherFault fault flusher.old flusher.new) }
{
    if matches!(flusher.ready(), Err(PenFault::Broken)) {
        return Err(GatherFault::Broken);
    }
    if flusher.look(live).is_err() {
        return Err(GatherFault::Strayed);
    }
    let settled = flusher.settled();
    if settled < flusher.known() {
        return Err(GatherFault::Unsettled(settled));
    }
    if !flusher.end(live) {
        return Err(GatherFault::Shared);
    }
    match Space::take(alloc, live, flusher) {
        Some(space) => Ok(space),
        None => Err(GatherFault::Memory),
    }
}

impl<R: Record, D: Disk> Committer<R, D> {
    /// Ends the phase whose other ends are closed: all growths are in the vault then. The calls that the host hasn't made it
    /// still has to make. Refused, in this order, with who commits as it was, but that it may have learned what was grown:
    /// `Shared`, while another end isn't closed; `Broken`; `Strayed`; `Unsettled`; `Memory`.
    #[tactic(auto, using(crate::proofs::GoesOnLemmas::same_raised))]
    pub fn gather(self, alloc: Global) -> Result<HostVault<R, D>, (Committer<R, D>, GatherFault)>
        ensures gathers { IfOk result (Gathers self) }
        ensures refused { IfErr result (λ r. RefusesGather r.1 self r.0) }
    {
        let Committer {
            live,
            mut flusher,
            made,
        } = self;
        if Arc::strong_count(&live) > 1 {
            return Err((Committer::new(live, flusher, made), GatherFault::Shared));
        }
        let space = match end_phase(alloc, &live, &mut flusher) {
            Ok(space) => space,
            Err(fault) => return Err((Committer::new(live, flusher, made), fault)),
        };
        match Arc::try_unwrap(live) {
            Ok(live) => {
                let vault = gather_known(alloc, live, flusher, space);
                Ok(HostVault { vault, made })
            }
            Err(live) => Err((Committer::new(live, flusher, made), GatherFault::Shared)),
        }
    }
}
