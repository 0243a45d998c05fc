//! The calls that a host is to make.

ghost use Rattle.std.specs.Prelude.{◌≡◌, IsNone, IfSome};
ghost use Rattle.relay_core.specs.Listed.{LeadThrough};
ghost use Rattle.relay_core.specs.Making.{IsFollowed};
ghost use Rattle.phase_core.specs.Listing.{calls_from, IsListLost};

use disk_core::Disk;
use relay_core::{Call, RelayDisk};

/// The calls that the host is to make which has made those up to that moment, in order: those that lead, state by state, from
/// the file as it has made it to the file as it is to be. `None` where one of them was lost.
#[tactic(auto, using(crate::proofs::ListLemmas::lead_from, crate::proofs::ListLemmas::followed_from))]
pub(crate) fn list_from<D: Disk>(disk: &RelayDisk<D>, made: u64) -> Option<&[Call]>
    ensures are { IfSome result (λ calls. calls.now ≡ calls_from made disk.now) }
    ensures lead { IfSome result (λ calls. D.keeps disk.now.inner → LeadThrough (D.states disk.now.inner) made calls.now) }
    ensures followed { IfSome result (λ calls. D.keeps disk.now.inner → IsFollowed (D.states disk.now.inner) made calls.now) }
    ensures lost { IsNone result → IsListLost made disk.now }
{
    if disk.from() == made {
        return disk.calls();
    }
    if disk.moment()? == made {
        return Some(&[]);
    }
    None
}
