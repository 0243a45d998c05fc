//! How many frames stand before a bookmark, and what else it tells of them.

ghost use Rattle.std.specs.Prelude.{◌≡◌, ◌≤◌, ◌<◌, ◌-◌, ◌^◌, ℕ, List, ◌++◌, length, IfOk, IfErr, MatchResult};
ghost use Rattle.segment_core.specs.declared.format.Shape.{Shape};
ghost use Rattle.segment_core.specs.Frame.{Frame};
ghost use Rattle.beside_core.specs.Bookmark.{LiesBehind};
ghost use Rattle.beside_core.specs.Counting.{StepsOver};
ghost use Rattle.beside_core.specs.Fault.{IsNoDamage, HasSeen};
ghost use Rattle.beside_core.specs.PensFile.{IsPensFile};

use crate::bookmark::Bookmark;
use crate::fault::LookFault;
use crate::look::payload_len;
use disk_core::Shared;
use segment_core::{FRAME_HEAD_LEN, GATE_LIMIT, HEADER_LEN, Shape};

/// The place behind the frame that stands at this gate, as its head tells it.
fn step_over<S: Shared>(file: &mut S, shape: Shape, gate: u64) -> Result<u64, LookFault>
    requires { gate < 2 ^ 48 }
    ensures stepped { S.keeps file.new → IfOk result (StepsOver (S.held file.old) (S.now file.old) (S.now file.new) gate) }
    ensures later { IfOk result (λ next. (gate < next) × (next < 2 ^ 49)) }
    ensures seen { S.keeps file.new → IfErr result (HasSeen shape (S.held file.old) (S.now file.old) (S.now file.new) gate) }
    ensures same { S.held file.new ≡ S.held file.old }
    ensures time { S.now file.old ≤ S.now file.new }
    ensures settles_none { S.synced file.new ≡ S.synced file.old }
    ensures model { S.keeps file.new → S.keeps file.old }
{
    let mut head = [0u8; FRAME_HEAD_LEN];
    match file.read_at(gate, &mut head) {
        Ok(()) => {}
        Err(fault) => return Err(LookFault::Disk(fault)),
    }
    match payload_len(&head, gate, shape) {
        Ok(len) => Ok(gate + (FRAME_HEAD_LEN + len) as u64),
        Err(fault) => Err(LookFault::Scan(fault)),
    }
}

impl Bookmark {
    /// The version of the file, and the width of its records.
    pub fn shape(&self) -> Shape
        ensures { result ≡ self.now.shape }
    {
        self.shape
    }

    /// How many changes are live: they don't stand in their home bytes yet.
    pub fn live_changes(&self) -> u64
        ensures { result ≡ self.now.tally.changes - self.now.tally.folded }
    {
        self.tally.changes.saturating_sub(self.tally.folded)
    }

    /// How many frames stand before it. Their heads are read again, which no fold writes over.
    pub fn count_frames<S: Shared>(&self, file: &mut S) -> Result<u64, LookFault>
        ensures counted { S.keeps file.new → (shape : Shape) (frames : ℕ → List Frame) (known : List Frame) → IsPensFile shape (S.held file.old) frames → LiesBehind shape known self.now
            → (more : List Frame) × (frames (S.now file.old) ≡ known ++ more) → MatchResult result (λ count. count ≡ length known) IsNoDamage }
        ensures seen { S.keeps file.new → IfErr result (λ fault. (p : ℕ) × HasSeen self.now.shape (S.held file.old) (S.now file.old) (S.now file.new) p fault) }
        ensures same { S.held file.new ≡ S.held file.old }
        ensures time { S.now file.old ≤ S.now file.new }
        ensures settles_none { S.synced file.new ≡ S.synced file.old }
        ensures model { S.keeps file.new → S.keeps file.old }
    {
        let mut gate = HEADER_LEN as u64;
        let mut count = 0;
        while gate < self.gate {
            if gate >= GATE_LIMIT {
                return Err(LookFault::TooFar);
            }
            gate = step_over(file, self.shape, gate)?;
            count += 1;
        }
        Ok(count)
    }
}
