//! The parts of a phase that wasn't ended.

ghost use Rattle.std.specs.Prelude.{◌≡◌, length, All};
ghost use Rattle.directory_core.specs.Chain.{IsPrefix};
ghost use Rattle.book_core.specs.Lists.{StandInList};
ghost use Rattle.flush_core.specs.Flusher.{FlusherLearns};
ghost use Rattle.vault_core.specs.Gathering.{AreOfPhase, IsGatherFault, most_known};

use book_core::{Live, Seat};
use disk_core::Disk;
use flush_core::Flusher;
use record_core::Record;
use vault_core::Gathering;

/// Has the flusher learn what the seats know, so that its list has each growth that one of them made.
fn learn_all<R: Record, D: Disk>(live: &Live<R>, seats: &mut [Seat<R>], flusher: &mut Flusher<R, D>)
    requires of { AreOfPhase (D.keeps flusher.old.pen.disk) live.now seats.old flusher.old }
    ensures same { seats.new ≡ seats.old }
    ensures learns { FlusherLearns flusher.old flusher.new }
    ensures known { length flusher.new.pass.entries ≡ most_known seats.old (length flusher.old.pass.entries) }
    ensures begin { All (λ seat. IsPrefix seat.pass.entries flusher.new.pass.entries) seats.old }
    ensures stand { All StandInList seats.old }
{
    for k in 0..seats.len() {
        let _made = seats[k].serial();
        flusher.meet(live, &mut seats[k]);
    }
}

/// The parts of a phase that wasn't ended, with a flusher that knows all that the seats know.
pub(crate) fn with_all_known<R: Record, D: Disk>(gathering: Gathering<R, D>) -> Gathering<R, D>
    requires of { AreOfPhase (D.keeps gathering.flusher.pen.disk) gathering.live gathering.seats.items gathering.flusher }
    requires refused { IsGatherFault gathering.live gathering.seats.items gathering.flusher gathering.fault }
    ensures same { (result.live ≡ gathering.live) × (result.seats.items ≡ gathering.seats.items) }
    ensures learns { FlusherLearns gathering.flusher result.flusher }
    ensures refused { IsGatherFault result.live result.seats.items result.flusher result.fault }
    ensures begin { All (λ seat. IsPrefix seat.pass.entries result.flusher.pass.entries) gathering.seats.items }
    ensures stand { All StandInList gathering.seats.items }
{
    let Gathering {
        live,
        mut seats,
        mut flusher,
        fault,
    } = gathering;
    learn_all(&live, seats.as_mut_slice(), &mut flusher);
    Gathering {
        live,
        seats,
        flusher,
        fault,
    }
}
