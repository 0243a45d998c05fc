//! How a vault is lent to a phase.

ghost use Rattle.std.specs.Prelude.{◌≡◌, None, false, length, IfOk, IfErr, IfSome, OnOk};
ghost use Rattle.std.specs.Arc.{arc_value};
ghost use Rattle.book_core.specs.Beginning.{AreNewSeats, MayBeginWide};
ghost use Rattle.flush_core.specs.Flusher.{AreRaisedBy, IsFlusherOf};
ghost use Rattle.vault_core.specs.Sharing.{Shares, IsWideShareFault};
ghost use Rattle.phase_core.specs.Beginning.{IsLendRefusal};
ghost use Rattle.phase_core.specs.Room.{IsRoomFor};
ghost use Rattle.phase_core.specs.Sharing.{Lends, RefusesLending, RefusesShare};

use crate::committer::Committer;
use crate::host::HostDisk;
use crate::host_vault::HostVault;
use crate::phase::Phase;
use book_core::{Live, Seat};
use directory_core::GROWTH_LIMIT;
use disk_core::Disk;
use flush_core::Flusher;
use pen_core::PenFault;
use record_core::Record;
use relay_core::RelayDisk;
use std::alloc::Global;
use std::sync::Arc;
use vault_core::{Vault, VaultFault};

/// The vector for both ends of a phase. `None` where there is no memory for it: then nothing is left of it.
fn for_both_ends<R: Record>(alloc: Global, live: Live<R>) -> Option<(Arc<Live<R>>, Arc<Live<R>>)>
    ensures { IfSome result (λ r. (arc_value r.0 ≡ live) × (arc_value r.1 ≡ live)) }
{
    let live = Arc::new(alloc, live).ok()?;
    let other = live.clone().ok()?;
    Some((live, other))
}

/// One phase for all its ends. `None` where there is no memory for it: then nothing is left of it.
fn shared<R: Record, D: Disk + Drop>(
    alloc: Global,
    live: Live<R>,
    flusher: Flusher<R, RelayDisk<D>>,
    seats: Vec<Seat<R>>,
    made: u64,
) -> Option<(Phase<R>, Committer<R, D>)>
    requires of { IsFlusherOf (D.keeps flusher.pen.disk.inner) live flusher }
    requires past { AreRaisedBy made flusher.mark.raises }
    requires seated { AreNewSeats live.directory live.mark seats.items }
    ensures phase { IfSome result (λ r. (arc_value r.0.live ≡ live) × (arc_value r.1.live ≡ live)) }
    ensures flusher { IfSome result (λ r. (r.1.flusher ≡ flusher) × (r.1.made ≡ made)) }
    ensures seats { IfSome result (λ r. r.0.seats.items ≡ seats.items) }
{
    let Some((live, other)) = for_both_ends(alloc, live) else {
        return None;
    };
    Some((Phase { live, seats }, Committer::new(other, flusher, made)))
}

/// Begins a phase with room for so many growths. For more than `GROWTH_LIMIT` each seat reserves 4 bytes of addresses for each:
/// where the system gives no such addresses it has room for `GROWTH_LIMIT`. Refused as `Vault::share_wide` is.
#[tactic(auto, using(crate::proofs::RoomLemmas::shares_room, crate::proofs::RoomLemmas::narrow_fault))]
fn share_room<R: Record, D: Disk + Drop>(
    vault: Vault<R, RelayDisk<D>>,
    growths: u64,
    seats: u16,
) -> Result<(Live<R>, Flusher<R, RelayDisk<D>>, Vec<Seat<R>>), (Vault<R, RelayDisk<D>>, VaultFault)>
    ensures shares { IfOk result (λ r. Shares (D.keeps vault.pen.disk.inner) vault r.0.directory.room seats r.0 r.1) }
    ensures room { IfOk result (λ r. IsRoomFor growths r.0.directory.room) }
    ensures seats { IfOk result (λ r. (length r.2.items ≡ seats) × AreNewSeats r.0.directory r.0.mark r.2.items) }
    ensures may { OnOk result (MayBeginWide growths seats) }
    ensures refused { IfErr result (λ r. (r.0 ≡ vault) × IsWideShareFault vault growths seats r.1) }
{
    match vault.share_wide(growths, seats) {
        Err((vault, VaultFault::Pen(PenFault::Memory))) if growths > GROWTH_LIMIT => {
            vault.share_wide(GROWTH_LIMIT, seats)
        }
        shared => shared,
    }
}

/// Lends the vault, with room for so many growths, to so many growers and to who commits. Refused with the vault handed back,
/// or with none, where there was no memory for what they share.
#[tactic(auto, using(crate::proofs::GoesOnLemmas::none_raised))]
fn lend<R: Record, D: Disk + Drop>(
    alloc: Global,
    vault: Vault<R, RelayDisk<D>>,
    made: u64,
    growths: u64,
    seats: u16,
) -> Result<(Phase<R>, Committer<R, D>), (Option<Vault<R, RelayDisk<D>>>, PenFault)>
    ensures shares { IfOk result (λ r. Lends vault made growths seats r.0 r.1) }
    ensures may { OnOk result (MayBeginWide growths seats) }
    ensures refused { IfErr result (λ r. RefusesLending vault growths seats r.0 r.1) }
{
    match share_room(vault, growths, seats) {
        Ok((live, flusher, seats)) => match shared(alloc, live, flusher, seats, made) {
            Some(ends) => Ok(ends),
            None => Err((None, PenFault::Memory)),
        },
        Err((vault, fault)) => match fault {
            VaultFault::Pen(fault) => Err((Some(vault), fault)),
            _ => unreachable!(),
        },
    }
}

/// Lends a vault, new or just opened, whose calls the host hasn't made. `TooLarge`, of the room or the seats; `Memory`.
#[tactic(auto, using(crate::proofs::RoomLemmas::lend_refused))]
pub(crate) fn lend_new<R: Record>(
    alloc: Global,
    vault: Vault<R, RelayDisk<HostDisk>>,
    growths: u64,
    seats: u16,
) -> Result<(Phase<R>, Committer<R, HostDisk>), PenFault>
    requires { (vault.pen.broken ≡ false) × (vault.pen.job ≡ None) }
    ensures shares { IfOk result (λ r. Lends vault 1 growths seats r.0 r.1) }
    ensures may { OnOk result (MayBeginWide growths seats) }
    ensures refused { IfErr result (IsLendRefusal growths seats) }
{
    match lend(alloc, vault, 1, growths, seats) {
        Ok(ends) => Ok(ends),
        Err((_, fault)) => Err(fault),
    }
}

impl<R: Record, D: Disk + Drop> HostVault<R, D> {
    /// Begins a phase with room for so many growths, from 1 to `PLACE_LIMIT`, and so many seats, from 1 to 64: what the vault has
    /// stands in it from before. Refused with the vault handed back: `Broken`; `TooLarge`, of the room or the seats; `Memory`.
    /// Where there was no memory for what the ends share, none is.
    pub fn share(
        self,
        alloc: Global,
        growths: u64,
        seats: u16,
    ) -> Result<(Phase<R>, Committer<R, D>), (Option<HostVault<R, D>>, PenFault)>
        ensures shares { IfOk result (λ r. Lends self.vault self.made growths seats r.0 r.1) }
        ensures may { OnOk result (MayBeginWide growths seats) }
        ensures refused { IfErr result (λ r. RefusesShare self growths seats r.0 r.1) }
    {
        let HostVault { vault, made } = self;
        match lend(alloc, vault, made, growths, seats) {
            Ok(ends) => Ok(ends),
            Err((left, fault)) => match left {
                Some(vault) => Err((Some(HostVault { vault, made }), fault)),
                None => Err((None, fault)),
            },
        }
    }
}
