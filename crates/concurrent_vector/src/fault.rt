//! Any refusal of the vector, as one value.

use block_core::FreshFault;
use book_core::{GrowFault, SettleFault};
use crew_core::CrewFault;
use directory_core::DirFault;
use disk_core::{Disk, DiskFault};
use flush_core::FlushFault;
use pen_core::{OpenFault, PenFault};
use record_core::Record;
use std::alloc::{AllocError, AllocFailed};
use std::io;
use std::thread::SpawnError;
use thiserror::Error;
use vault_core::{Gathering, UpgradeFault, VaultFault};

/// Any refusal of the vector's calls, and of the system's that a program makes beside them. `?` makes it of each of theirs,
/// and lets go what the call handed back beside it.
#[derive(Clone, Copy, Debug, PartialEq, Eq, Error)]
pub enum Fault {
    /// A file wasn't made.
    #[error("not made: {0}")]
    Make(PenFault),
    /// A file wasn't opened.
    #[error("not opened: {0}")]
    Open(OpenFault),
    /// A vault refused, or its disk failed.
    #[error("a vault refused: {0}")]
    Vault(VaultFault),
    /// A file wasn't copied or upgraded.
    #[error("no new file: {0}")]
    Upgrade(UpgradeFault),
    /// A growth, or a phase, was refused.
    #[error("a growth was refused: {0}")]
    Grow(GrowFault),
    /// A pass of one's own didn't learn what was published.
    #[error("not learnt: {0}")]
    Pass(DirFault),
    /// A growth won't be durable any more.
    #[error("not durable: {0}")]
    Settle(SettleFault),
    /// Who commits refused, or its disk failed.
    #[error("no commit: {0}")]
    Flush(FlushFault),
    /// The system refused, as by a file that isn't there or a thread that it doesn't start.
    #[error("the system: {0}")]
    System(io::ErrorKind),
    /// A growth of memory was refused.
    #[error("memory")]
    Memory,
}

impl From<VaultFault> for Fault {
    fn from(fault: VaultFault) -> Fault {
        Fault::Vault(fault)
    }
}

impl From<PenFault> for Fault {
    fn from(fault: PenFault) -> Fault {
        Fault::Vault(VaultFault::Pen(fault))
    }
}

impl From<DiskFault> for Fault {
    fn from(cause: DiskFault) -> Fault {
        Fault::from(PenFault::Disk(cause))
    }
}

impl From<OpenFault> for Fault {
    fn from(fault: OpenFault) -> Fault {
        Fault::Open(fault)
    }
}

impl<R: Record, D: Disk + Drop> From<Gathering<R, D>> for Fault {
    fn from(refused: Gathering<R, D>) -> Fault {
        Fault::Vault(refused.fault)
    }
}

impl<R: Record, D: Disk + Drop> From<CrewFault<R, D>> for Fault {
    fn from(refused: CrewFault<R, D>) -> Fault {
        match refused {
            CrewFault::Share(_, fault) => Fault::Vault(fault),
            CrewFault::Gather(gathering) => Fault::from(gathering),
        }
    }
}

impl<T: Drop, U: Drop> From<(T, U, UpgradeFault)> for Fault {
    fn from(refused: (T, U, UpgradeFault)) -> Fault {
        Fault::Upgrade(refused.2)
    }
}

impl From<GrowFault> for Fault {
    fn from(fault: GrowFault) -> Fault {
        Fault::Grow(fault)
    }
}

impl From<FreshFault> for Fault {
    fn from(fault: FreshFault) -> Fault {
        Fault::Grow(GrowFault::from(fault))
    }
}

impl From<DirFault> for Fault {
    fn from(fault: DirFault) -> Fault {
        Fault::Pass(fault)
    }
}

impl From<SettleFault> for Fault {
    fn from(fault: SettleFault) -> Fault {
        Fault::Settle(fault)
    }
}

impl From<FlushFault> for Fault {
    fn from(fault: FlushFault) -> Fault {
        Fault::Flush(fault)
    }
}

impl From<io::Error> for Fault {
    fn from(error: io::Error) -> Fault {
        Fault::System(error.kind())
    }
}

impl<F: Drop> From<SpawnError<F>> for Fault {
    fn from(refused: SpawnError<F>) -> Fault {
        Fault::from(io::Error::from(refused))
    }
}

impl From<AllocError> for Fault {
    fn from(_: AllocError) -> Fault {
        Fault::Memory
    }
}

impl<T: Drop> From<AllocFailed<T>> for Fault {
    fn from(_: AllocFailed<T>) -> Fault {
        Fault::Memory
    }
}

impl<T: Drop> From<(T, PenFault)> for Fault {
    fn from(refused: (T, PenFault)) -> Fault {
        Fault::Make(refused.1)
    }
}

impl<T: Drop> From<(T, OpenFault)> for Fault {
    fn from(refused: (T, OpenFault)) -> Fault {
        Fault::Open(refused.1)
    }
}

impl<T: Drop> From<(T, VaultFault)> for Fault {
    fn from(refused: (T, VaultFault)) -> Fault {
        Fault::Vault(refused.1)
    }
}

impl<T: Drop> From<(T, GrowFault)> for Fault {
    fn from(refused: (T, GrowFault)) -> Fault {
        Fault::Grow(refused.1)
    }
}

impl<T: Drop> From<(T, FreshFault)> for Fault {
    fn from(refused: (T, FreshFault)) -> Fault {
        Fault::Grow(GrowFault::from(refused.1))
    }
}
