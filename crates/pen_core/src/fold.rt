//! A fold in hand: the home bytes that it writes anew, and the frame that says so then.

ghost use Rattle.std.specs.Prelude.{◌≡◌, ◌≤◌, ◌<◌, ◌+◌, ◌^◌, ℕ, List, All, length, take, OnOk, OnErr};
ghost use Rattle.segment_core.specs.Written.{joined};
ghost use Rattle.pen_core.specs.Covered.{IsCover};
ghost use Rattle.pen_core.specs.HomeRuns.{AreHomesTo};
ghost use Rattle.pen_core.specs.Plan.{IsPlan};
ghost use Rattle.disk_core.specs.Calls.{bytes_of};
ghost use Rattle.disk_core.specs.Moments.{clock};
ghost use Rattle.disk_core.specs.Fault.{IsCounted};
ghost use Rattle.pen_core.specs.InHand.{fold_of, left_of, HomeCalls, FailsHomeCall, home_fault, advanced, CanCall, has_call, is_without_fold, stage_ended, live_after};
ghost use Rattle.pen_core.specs.Refusals.{fold_len};

use crate::covered::cover;
use crate::home_runs::home_runs;
use crate::stage::FoldStage;
use crate::values::home_writes;
use disk_core::{Disk, DiskFault};
use record_core::Record;
use segment_core::{FOLD_PAYLOAD_LEN, FRAME_HEAD_LEN, GrowthList, Home};
use std::alloc::{AllocError, Global};
use std::mem::swap;

/// The bytes of a fold's frame.
pub(crate) const FRAME_LEN: u64 = (FRAME_HEAD_LEN + FOLD_PAYLOAD_LEN) as u64;

/// A write of home bytes.
#[derive(Clone, Copy)]
pub(crate) struct Write {
    /// The place of the first byte in the file.
    pub(crate) place: u64,
    /// Where its bytes begin among those of the fold, and where they end.
    pub(crate) from: usize,
    pub(crate) to: usize,
}

/// A fold in hand, unless its stage is `None`. Its memory is used again.
#[derive(Drop)]
pub(crate) struct Fold {
    /// What comes next.
    pub(crate) stage: FoldStage,
    /// How many changes it counts.
    pub(crate) count: u64,
    /// How many of the live runs are of these changes: the first ones.
    pub(crate) runs: usize,
    /// The home writes, by ascending position.
    pub(crate) writes: Vec<Write>,
    /// How many of them are done.
    pub(crate) done: usize,
    /// What they write.
    pub(crate) bytes: Vec<u8>,
    /// The bytes of its frame as a job; while it is the job, the memory of the jobs before it.
    pub(crate) frame: Vec<u8>,
}

impl Fold {
    /// No fold. It takes no memory.
    pub(crate) fn none(alloc: Global) -> Fold
        ensures { result.stage ≡ FoldStage.None }
    {
        Fold {
            stage: FoldStage::None,
            count: 0,
            runs: 0,
            writes: Vec::new(alloc),
            done: 0,
            bytes: Vec::new(alloc),
            frame: Vec::new(alloc),
        }
    }

    /// The bytes of its frame, 0 where there is no fold.
    pub(crate) fn frame_len(&self) -> u64
        ensures { result ≡ fold_len (fold_of self.now) }
    {
        match self.stage {
            FoldStage::None => 0,
            _ => FRAME_LEN,
        }
    }

    /// Whether a device call of the homes is next.
    pub(crate) fn has_call(&self) -> bool
        ensures { result ≡ has_call self.now.stage }
    {
        matches!(self.stage, FoldStage::Home(_) | FoldStage::Sync)
    }

    /// Whether none is in hand.
    pub(crate) fn is_none(&self) -> bool
        ensures { result ≡ is_without_fold self.now.stage }
    {
        matches!(self.stage, FoldStage::None)
    }

    /// Plans the home writes of the positions that these live runs cover, with their values now. The pieces begin with
    /// the vector; the homes are those of its positions, and maybe of positions behind them. The fold begins no sooner
    /// than its stage is set.
    pub(crate) fn plan<R: Record, G: GrowthList<R>>(
        &mut self,
        live: &[(u64, u64)],
        homes: &[Home],
        size: u64,
        width: u64,
        pieces: &G,
    ) -> Result<(), AllocError>
        requires some { All (λ run. 0 < run.1) live.now }
        requires small { All (λ run. run.0 + run.1 ≤ 2 ^ 32) live.now }
        requires inside { (cover : List (ℕ × ℕ)) → IsCover live.now cover → All (λ run. run.0 + run.1 ≤ size) cover }
        requires homes { AreHomesTo width size homes.now }
        requires all { size ≤ length (joined (G.growths pieces.now)) }
        requires few { size ≤ 2 ^ 32 }
        requires width { R.form.width < 2 ^ 16 }
        ensures planned { OnOk result (IsPlan R.form (take size (joined (G.growths pieces.now))) width size live.now homes.now self.new) }
        ensures same { (self.new.stage ≡ self.old.stage) × (self.new.count ≡ self.old.count) × (self.new.runs ≡ self.old.runs) × (self.new.frame ≡ self.old.frame) }
        ensures from_first { OnOk result (self.new.done ≡ 0) }
    {
        let alloc = *self.bytes.allocator();
        let covered = cover(alloc, live)?;
        let runs = home_runs(alloc, &covered, homes, size, width)?;
        home_writes::<R, G>(pieces, &runs, &mut self.writes, &mut self.bytes)?;
        self.done = 0;
        Ok(())
    }

    /// Makes the next device call of the homes: a write, or their sync.
    pub(crate) fn call<D: Disk>(&self, disk: &mut D) -> Result<(), DiskFault>
        requires { (gate : ℕ) × (gate < 2 ^ 64) × (D.keeps disk.old → gate ≤ length (bytes_of (D.states disk.old))) × CanCall gate self.now self.now.stage }
        ensures done { D.keeps disk.old → OnOk result (HomeCalls self.now.stage (left_of self.now) (D.states disk.old) (D.states disk.new)) }
        ensures failed { D.keeps disk.new → OnErr result (FailsHomeCall self.now.stage (left_of self.now) (D.states disk.old) (D.states disk.new)) }
        ensures time { clock (D.states disk.new) ≡ clock (D.states disk.old) + 1 }
        ensures cause { IsCounted (home_fault self.now.stage) (D.faults disk.old) (D.faults disk.new) result }
        ensures model { D.keeps disk.new → D.keeps disk.old }
        ensures goes_on { D.keeps disk.old → OnOk result (D.keeps disk.new) }
    {
        match self.stage {
            FoldStage::Home(_) => {
                let write = self.writes[self.done];
                disk.write_at(write.place, &self.bytes[write.from..write.to])
            }
            _ => disk.sync(),
        }
    }

    /// Goes on behind a call that succeeded.
    pub(crate) fn advance(&mut self)
        requires { (gate : ℕ) × CanCall gate self.old self.old.stage }
        ensures { self.new ≡ advanced self.old }
    {
        match self.stage {
            FoldStage::Home(left) => {
                self.done += 1;
                self.stage = if left > 1 {
                    FoldStage::Home(left - 1)
                } else {
                    FoldStage::Sync
                };
            }
            _ => self.stage = FoldStage::Ready,
        }
    }

    /// Ends, where its frame is the job that is done: the changes that it counts are live no more.
    pub(crate) fn end(&mut self, live: &mut Vec<(u64, u64)>, bytes: &mut Vec<u8>)
        ensures stage { self.new.stage ≡ stage_ended self.old.stage }
        ensures live { live.new.items ≡ live_after self.old.stage self.old.runs live.old.items }
        ensures same { (self.old.stage ≡ FoldStage.Filed → ⊥) → (self.new ≡ self.old) × (live.new ≡ live.old) × (bytes.new ≡ bytes.old) }
    {
        if let FoldStage::Filed = self.stage {
            let runs = self.runs.min(live.len());
            live.rotate_left(runs);
            live.truncate(live.len() - runs);
            swap(bytes, &mut self.frame);
            self.stage = FoldStage::None;
        }
    }
}
