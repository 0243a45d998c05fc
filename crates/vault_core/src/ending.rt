//! The end of a growth phase.

ghost use Rattle.std.specs.Prelude.{◌≡◌, ◌≢◌, ℕ, ◌≤◌, ◌<◌, ◌++◌, All, HoldsAt, List, length, IfOk, IfErr, OnOk, MatchResult, MatchBool};
ghost use Rattle.std.specs.List.{AllWithin};
ghost use Rattle.disk_core.specs.State.{now, IsImage};
ghost use Rattle.pen_core.specs.Typed.{OpensTo};
ghost use Rattle.directory_core.specs.Chain.{grown_records, IsPrefix, IsChained};
ghost use Rattle.directory_core.specs.Known.{KnowsAll};
ghost use Rattle.book_core.specs.Lists.{opening_of, StandInList};
ghost use Rattle.flush_core.specs.Flusher.{IsFlusherOf, FlusherLearns, ToldIsLeft};
ghost use Rattle.vault_core.specs.Vault.{list_of};
ghost use Rattle.vault_core.specs.Space.{IsSpaceFor};
ghost use Rattle.vault_core.specs.Gathering.{AreOfPhase, AreDistinct, IsWhole, IsGatherFault, MayGather, made_by, most_known};

use crate::blocks::Blocks;
use crate::fault::VaultFault;
use crate::space::{Space, put_behind};
use crate::vault::Vault;
use book_core::{Live, Seat};
use disk_core::Disk;
use flush_core::Flusher;
use pen_core::PenFault;
use record_core::Record;
use std::alloc::Global;

/// A phase that wasn't ended, and why.
#[derive(Drop)]
pub struct Gathering<R: Record, D: Disk> {
    pub live: Live<R>,
    pub seats: Vec<Seat<R>>,
    pub flusher: Flusher<R, D>,
    pub fault: VaultFault,
}

/// How many growths the one knows that knows most.
fn most_known_of<R: Record>(seats: &[Seat<R>], flusher: u64) -> u64
    ensures { result ≡ most_known seats.now flusher }
{
    let mut most = flusher;
    for k in 0..seats.len() {
        most = most.max(seats[k].known());
    }
    most
}

/// Whether the seats made so many growths together.
pub fn made_in_all<R: Record>(seats: &[Seat<R>], count: u64) -> bool
    ensures { MatchBool result
        ((made_by seats.now ≡ count) × All StandInList seats.now)
        (made_by seats.now ≢ count) }
{
    let mut left = count;
    for k in 0..seats.len() {
        let made = seats[k].serial();
        if made > left {
            return false;
        }
        left -= made;
    }
    left == 0
}

/// Whether one of the first n seats has that id.
fn is_among<R: Record>(seats: &[Seat<R>], n: usize, id: u16) -> bool
    requires { n ≤ length seats.now }
    ensures { MatchBool result
        ((j : ℕ) × (j < n) × HoldsAt (λ seat. seat.id ≡ id) seats.now j)
        (AllWithin (λ seat. seat.id ≢ id) seats.now 0 n) }
{
    for k in 0..n {
        if seats[k].id() == id {
            return true;
        }
    }
    false
}

/// Whether no two of the seats have one id.
fn are_distinct<R: Record>(seats: &[Seat<R>]) -> bool
    ensures { MatchBool result (AreDistinct seats.now) (AreDistinct seats.now → ⊥) }
{
    for k in 0..seats.len() {
        if is_among(seats, k, seats[k].id()) {
            return false;
        }
    }
    true
}

/// Whether a call of the disk has failed.
fn is_broken<R: Record, D: Disk>(flusher: &Flusher<R, D>) -> bool
    ensures { result ≡ flusher.now.pen.broken }
{
    matches!(flusher.ready(), Err(PenFault::Broken))
}

/// Why the phase may not end, whatever memory there is.
fn check<R: Record, D: Disk>(
    live: &Live<R>,
    seats: &[Seat<R>],
    flusher: &Flusher<R, D>,
) -> Result<(), VaultFault>
    ensures may { MatchResult result
        (λ _. MayGather live.now seats.now flusher.now)
        (λ fault. IsGatherFault live.now seats.now flusher.now fault) }
    ensures stand { OnOk result (All StandInList seats.now) }
    ensures chained { OnOk result (IsChained flusher.now.pass.entries) }
{
    if is_broken(flusher) {
        return Err(VaultFault::Pen(PenFault::Broken));
    }
    let known = most_known_of(seats, flusher.known());
    if seats.len() != live.seat_count() as usize {
        return Err(VaultFault::WrongPhase);
    }
    if !are_distinct(seats) {
        return Err(VaultFault::WrongPhase);
    }
    if !made_in_all(seats, known) {
        return Err(VaultFault::WrongPhase);
    }
    let settled = flusher.settled();
    if settled < known {
        return Err(VaultFault::Unsettled(settled));
    }
    Ok(())
}

/// Gives the seats up: the flusher knows what each of them knew, and what each was told is settled, and stands. Who knew as
/// much as each of them, or all growths of the phase, learns nothing.
pub fn take_in_all<R: Record, D: Disk>(
    live: &Live<R>,
    flusher: &mut Flusher<R, D>,
    seats: Vec<Seat<R>>,
)
    requires of { AreOfPhase (D.keeps flusher.old.pen.disk) live.now seats.items flusher.old }
    ensures learns { FlusherLearns flusher.old flusher.new }
    ensures known { All (λ seat. length seat.pass.entries ≤ length flusher.old.pass.entries) seats.items → flusher.new.pass.entries ≡ flusher.old.pass.entries }
    ensures all { KnowsAll flusher.old.pass → flusher.new.pass.entries ≡ flusher.old.pass.entries }
    ensures begin { All (λ seat. IsPrefix seat.pass.entries flusher.new.pass.entries) seats.items }
    ensures stand { All StandInList seats.items }
    ensures told { All (λ seat. seat.mark.told.count ≤ flusher.new.settled) seats.items }
    ensures left { D.keeps flusher.new.pen.disk → All (λ seat. ToldIsLeft R.form (D.states flusher.new.pen.disk) flusher.new seat.mark.raises) seats.items }
{
    let mut seats = seats;
    let count = seats.len();
    for _ in 0..count {
        let seat = seats.take_last();
        let _made = seat.serial();
        flusher.take_in(live, seat);
    }
}

/// The memory that the end of a phase takes, where nothing is in its way.
fn prepare<R: Record, D: Disk>(
    alloc: Global,
    live: &Live<R>,
    seats: &[Seat<R>],
    flusher: &mut Flusher<R, D>,
) -> Result<Space<R>, VaultFault>
    requires of { IsFlusherOf (D.keeps flusher.old.pen.disk) live.now flusher.old }
    ensures same { flusher.new ≡ flusher.old }
    ensures may { MatchResult result
        (λ _. MayGather live.now seats.now flusher.old)
        (λ fault. IsGatherFault live.now seats.now flusher.old fault) }
    ensures stand { OnOk result (All StandInList seats.now) }
    ensures chained { OnOk result (IsChained flusher.old.pass.entries) }
    ensures space { IfOk result (IsSpaceFor live.now flusher.old) }
{
    if let Err(fault) = check(live, seats, flusher) {
        return Err(fault);
    }
    match Space::take(alloc, live, flusher) {
        Some(space) => Ok(space),
        None => Err(VaultFault::Pen(PenFault::Memory)),
    }
}

/// Ends a growth phase, and gives back the vault: its list is that from before the phase, and behind it all growths, each
/// of which one of the seats made, and which are settled. A fold goes on, and so does its frame where it is in hand. What the
/// seats were told stands: whatever a crash has left since a raise that one of them has seen opens to so many growths at least.
///
/// Refused, in this order, with the parts as they were: `Pen(Broken)`; `WrongPhase`, where these aren't as many seats as
/// the phase has, two have one id, or they made more or fewer growths than are known; `Unsettled`, with the number of the
/// first growth that isn't settled; `Pen(Memory)`. It copies the records of the growths: what was published can't be taken
/// back.
pub fn gather<R: Record, D: Disk>(
    alloc: Global,
    live: Live<R>,
    seats: Vec<Seat<R>>,
    flusher: Flusher<R, D>,
) -> Result<Vault<R, D>, Gathering<R, D>>
    requires { AreOfPhase (D.keeps flusher.pen.disk) live seats.items flusher }
    ensures list { IfOk result (λ vault. list_of vault ≡ opening_of live ++ grown_records flusher.pass.entries) }
    ensures pen { IfOk result (λ vault. vault.pen ≡ flusher.pen) }
    ensures told { IfOk result (λ vault. D.keeps vault.pen.disk → (image : List ℕ) → IsImage (now (D.states vault.pen.disk)) image → OpensTo R.form image (list_of vault)) }
    ensures whole { OnOk result (IsWhole live seats.items flusher) }
    ensures left { OnOk result (D.keeps flusher.pen.disk → All (λ seat. ToldIsLeft R.form (D.states flusher.pen.disk) flusher seat.mark.raises) seats.items) }
    ensures back { IfErr result (λ g. (g.live ≡ live) × (g.seats.items ≡ seats.items) × (g.flusher ≡ flusher)) }
    ensures refused { IfErr result (λ g. IsGatherFault live seats.items flusher g.fault) }
{
    let mut flusher = flusher;
    let space = match prepare(alloc, &live, seats.as_slice(), &mut flusher) {
        Ok(space) => space,
        Err(fault) => {
            return Err(Gathering {
                live,
                seats,
                flusher,
                fault,
            });
        }
    };
    take_in_all(&live, &mut flusher, seats);
    let (pen, _pass) = flusher.into_pen();
    let Space { row, ends, last } = space;
    let blocks = put_behind(row, live.into_blocks(), last);
    let vault = Vault {
        pen,
        blocks: Blocks::with_ends(blocks, ends),
        parts: Vec::new(alloc),
        alloc,
    };
    // What the disk may leave opens to all that is settled.
    let _disk = vault.disk();
    Ok(vault)
}
