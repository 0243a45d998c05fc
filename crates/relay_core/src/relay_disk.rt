//! A disk over another, which lists the writes and syncs that succeeded there.

ghost use Rattle.std.specs.Prelude.{◌≡◌, ◌+◌, ◌<◌, ◌++◌, ◌∷◌, [], true, IsTrue, IsNone, IfSome};
ghost use Rattle.disk_core.specs.Moments.{clock};
ghost use Rattle.relay_core.specs.Listed.{LeadThrough, IsListed};
ghost use Rattle.relay_core.specs.Making.{IsFollowed};

use crate::call::Call;
use disk_core::{Disk, DiskFault};
use std::alloc::Global;
use std::mem;
use std::sync::atomic::AtomicBool;
use std::sync::atomic::Ordering::SeqCst;

/// A disk over another, which lists the writes and syncs that succeeded there, for a host that makes them. Of the disk as
/// it stood at the moment at which the list began they make the disk as it stands now.
#[derive(Drop)]
pub struct RelayDisk<D: Disk> {
    alloc: Global,
    inner: D,
    calls: Vec<Call>,
    /// Memory for the next write: that of the first one of the list before, which is the longest of a commit.
    spare: Vec<u8>,
    /// The moment at which the list began, by the clock of the disk below.
    from: u64,
    /// The moment that it is now.
    moment: u64,
    /// Whether a call isn't in the list: it failed, or there was no memory for it.
    lost: bool,
    /// Whether the host has made the listed calls: the next one begins a new list.
    made: AtomicBool,
    ghost lists: { IsListed lost (D.keeps inner) (D.states inner) from moment calls.items },
}

impl<D: Disk> RelayDisk<D> {
    /// A list that begins, over a disk that no call has been made of.
    pub fn new(alloc: Global, inner: D) -> RelayDisk<D>
        requires { clock (D.states inner) ≡ 1 }
        ensures inner { result.inner ≡ inner }
        ensures now { (result.from ≡ 1) × (result.moment ≡ 1) }
    {
        RelayDisk {
            alloc,
            inner,
            calls: Vec::new(alloc),
            spare: Vec::new(alloc),
            from: 1,
            moment: 1,
            lost: false,
            made: AtomicBool::new(false),
        }
    }

    /// The moment at which the list began.
    pub fn from(&self) -> u64
        ensures { result ≡ self.now.from }
    {
        self.from
    }

    /// The moment that it is now. `None` where a call isn't in the list.
    pub fn moment(&self) -> Option<u64>
        ensures now { IfSome result (λ moment. moment ≡ clock (D.states self.now.inner)) }
        ensures some { IfSome result (λ moment. 0 < moment) }
        ensures lost { IsNone result → self.now.lost ≡ true }
    {
        if self.lost {
            return None;
        }
        Some(self.moment)
    }

    /// The calls that the host is to make, in order. `None` where one isn't in the list.
    #[tactic(auto, using(crate::proofs::MakingLemmas::is_followed))]
    pub fn calls(&self) -> Option<&[Call]>
        ensures listed { IfSome result (λ calls. calls.now ≡ self.now.calls.items) }
        ensures lead { IfSome result (λ calls.
            D.keeps self.now.inner → LeadThrough (D.states self.now.inner) self.now.from calls.now) }
        ensures followed { IfSome result (λ calls.
            D.keeps self.now.inner → IsFollowed (D.states self.now.inner) self.now.from calls.now) }
        ensures lost { IsNone result → self.now.lost ≡ true }
    {
        if self.lost {
            return None;
        }
        Some(self.calls.as_slice())
    }

    /// The host has made the listed calls, and each has succeeded: the next call begins a new list.
    pub fn finish(&self) {
        self.made.store(true, SeqCst);
    }

    /// Begins a new list, where the host has made the calls.
    #[tactic(auto, using(crate::proofs::ListedLemmas::lead_from_now))]
    fn begin(&mut self)
        ensures inner { self.new.inner ≡ self.old.inner }
    {
        if self.made.swap(false, SeqCst) && !self.lost {
            let spare = empty(&mut self.calls);
            self.from = self.moment;
            if let Some(spare) = spare {
                self.spare = spare;
            }
        }
    }
}

/// Empties the list, and answers the memory of its first call's bytes.
fn empty(calls: &mut Vec<Call>) -> Option<Vec<u8>>
    ensures { calls.new.items ≡ [] }
{
    calls.truncate(1);
    let first = calls.pop();
    calls.clear();
    match first {
        Some(Call::Write { bytes, .. }) => Some(bytes),
        _ => None,
    }
}

/// A copy of the bytes in this memory, or in more where they are longer. `None` where there is none.
fn copy_in(spare: Vec<u8>, bytes: &[u8]) -> Option<Vec<u8>>
    ensures { IfSome result (λ copy. copy.items ≡ bytes.now) }
{
    let mut copy = spare;
    copy.clear();
    match copy.extend_from_slice(bytes) {
        Ok(()) => Some(copy),
        Err(_) => None,
    }
}

/// Puts the call behind the others, and answers whether there was memory for it.
fn list(calls: &mut Vec<Call>, call: Call) -> bool
    ensures { IsTrue result → calls.new.items ≡ calls.old.items ++ call ∷ [] }
{
    calls.push(call).is_ok()
}

/// Counts one moment more, and answers whether a number names it.
fn count(moment: &mut u64) -> bool
    ensures { IsTrue result → moment.new ≡ moment.old + 1 }
{
    match moment.checked_add(1) {
        Some(next) => {
            *moment = next;
            true
        }
        None => false,
    }
}

impl<D: Disk> Disk for RelayDisk<D> {
    ghost states = { λ disk. D.states disk.inner };

    ghost faults = { λ disk. D.faults disk.inner };

    ghost keeps = { λ disk. D.keeps disk.inner };

    ghost reads_an_image = { λ disk model. D.reads_an_image disk.inner model };

    ghost reads_bytes = { λ disk model. D.reads_bytes disk.inner model };

    #[tactic(auto, using(crate::proofs::ListedLemmas::lead_stays))]
    fn len(&mut self) -> Result<u64, DiskFault> {
        let len = self.inner.len();
        let counted = count(&mut self.moment);
        self.lost = self.lost || !counted;
        len
    }

    #[tactic(auto, using(crate::proofs::ListedLemmas::lead_stays))]
    fn read_at(&mut self, at: u64, out: &mut [u8]) -> Result<(), DiskFault> {
        let read = self.inner.read_at(at, out);
        let counted = count(&mut self.moment);
        self.lost = self.lost || !counted;
        read
    }

    #[tactic(auto, using(crate::proofs::ListedLemmas::lead_more))]
    fn write_at(&mut self, at: u64, bytes: &[u8]) -> Result<(), DiskFault> {
        self.begin();
        let spare = mem::replace(&mut self.spare, Vec::new(self.alloc));
        let copy = copy_in(spare, bytes);
        let written = self.inner.write_at(at, bytes);
        let listed = match copy {
            Some(bytes) => list(&mut self.calls, Call::Write { at, bytes }),
            None => false,
        };
        let counted = count(&mut self.moment);
        self.lost = self.lost || !listed || !counted || written.is_err();
        written
    }

    #[tactic(auto, using(crate::proofs::ListedLemmas::lead_more))]
    fn sync(&mut self) -> Result<(), DiskFault> {
        self.begin();
        let synced = self.inner.sync();
        let listed = list(&mut self.calls, Call::Sync);
        let counted = count(&mut self.moment);
        self.lost = self.lost || !listed || !counted || synced.is_err();
        synced
    }
}
