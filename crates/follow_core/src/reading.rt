//! All records of a vector, as it is at one moment.

ghost use Rattle.std.specs.Prelude.{◌≡◌, ◌≤◌, ℕ, List, MatchResult};
ghost use Rattle.segment_core.specs.declared.format.Shape.{Shape};
ghost use Rattle.segment_core.specs.Frame.{Frame};
ghost use Rattle.beside_core.specs.Bookmark.{LiesBehind};
ghost use Rattle.beside_core.specs.PensFile.{IsPensFile};
ghost use Rattle.beside_core.specs.Since.{MayRefuse};
ghost use Rattle.follow_core.specs.Beside.{WereOnce, AreRecordsLeft};

use beside_core::{Bookmark, LookFault, Since};
use disk_core::Shared;
use record_core::Record;
use std::alloc::Global;

/// The records of the vector at one moment of the call, and the bookmark behind them. They stand on the device.
pub fn read_vector<R: Record, S: Shared>(
    alloc: Global,
    file: &mut S,
) -> Result<(Vec<R>, Bookmark), LookFault>
    ensures read { S.keeps file.new → (shape : Shape) (frames : ℕ → List Frame) → IsPensFile shape (S.held file.old) frames
        → MatchResult result (λ found. WereOnce frames (S.now file.old) (S.now file.new) (S.synced file.new) (λ at. AreRecordsLeft R.form at found.0.items × LiesBehind shape at found.1))
        (MayRefuse R.form shape frames (S.now file.old) (S.now file.new)) }
    ensures same { S.held file.new ≡ S.held file.old }
    ensures time { S.now file.old ≤ S.now file.new }
    ensures model { S.keeps file.new → S.keeps file.old }
{
    let mark = Bookmark::first(alloc, file)?;
    match mark.go_on::<R, S>(alloc, file) {
        Ok(Since::Grown(records, next)) => Ok((records, next)),
        // No record stood before a first bookmark, so none of them is lost.
        Ok(Since::Lost(_)) => Err(LookFault::TooFar),
        Err(fault) => Err(fault),
    }
}
