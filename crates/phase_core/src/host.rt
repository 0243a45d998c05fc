//! A disk over a file whose calls a host makes.

ghost use Rattle.std.specs.Prelude.{◌≡◌, ℕ, List, [], ◌∷◌};
ghost use Rattle.disk_core.specs.File.{opened};
ghost use Rattle.disk_core.specs.FileDisk.{faults_of, states_of};

use disk_core::FileDisk;
use relay_core::{HostFile, RelayDisk};
use std::alloc::Global;
use std::fs::OpenFile;
use std::os::unix::fs::FileExt;

/// The disk of a phase, below the list of its calls.
pub type HostDisk = FileDisk<HostFile>;

/// A file that is made of what it holds.
pub(crate) trait OfBytes: FileExt + OpenFile + Drop {
    /// The file that holds these bytes.
    fn of_bytes(alloc: Global, bytes: Vec<u8>) -> Self;
}

impl OfBytes for HostFile {
    fn of_bytes(alloc: Global, bytes: Vec<u8>) -> HostFile {
        HostFile::of(alloc, bytes)
    }
}

/// A disk over a file that holds these bytes, of which no call has been made.
#[tactic(auto, unfolding(crate::specs::Host::truth_over))]
fn disk_over<F: OfBytes>(alloc: Global, bytes: Vec<u8>) -> FileDisk<F>
    ghost held: { List ℕ }
    ensures states { states_of result ≡ opened held ∷ [] }
    ensures faults { faults_of result ≡ 0 }
{
    FileDisk::over(F::of_bytes(alloc, bytes))
}

/// A disk that lists its calls, over a file that holds these bytes.
pub(crate) fn host_disk<F: OfBytes>(alloc: Global, bytes: Vec<u8>) -> RelayDisk<FileDisk<F>>
    ensures states { states_of result.inner ≡ opened bytes.items ∷ [] }
    ensures faults { faults_of result.inner ≡ 0 }
{
    RelayDisk::new(alloc, disk_over(alloc, bytes))
}
