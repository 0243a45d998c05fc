//! Why a call is refused, by the fault of what it called.

ghost use Rattle.std.specs.Prelude.{◌≡◌};
ghost use Rattle.handle_core.specs.Refusals.{of_begin, of_block, of_flush, of_gather, of_growth, of_pen, of_vault};

use block_core::FreshFault;
use book_core::GrowFault;
use c_core::Refusal;
use flush_core::FlushFault;
use pen_core::{OpenFault, PenFault};
use phase_core::{BeginFault, GatherFault};
use vault_core::VaultFault;

/// Of a phase that isn't begun.
pub(crate) fn of_begin(fault: BeginFault) -> Refusal
    ensures { result ≡ of_begin fault }
{
    match fault {
        BeginFault::Pen(PenFault::Memory) => Refusal::Memory,
        BeginFault::Pen(PenFault::Exists) => Refusal::Exists,
        BeginFault::Pen(PenFault::TooLarge) => Refusal::TooLarge,
        BeginFault::Pen(_) | BeginFault::Open(OpenFault::Disk(_)) => Refusal::Broken,
        BeginFault::Open(OpenFault::Scan(fault)) => Refusal::of_scan(fault),
    }
}

/// Of a phase that isn't gathered.
pub(crate) fn of_gather(fault: GatherFault) -> Refusal
    ensures { result ≡ of_gather fault }
{
    match fault {
        GatherFault::Shared => Refusal::Busy,
        GatherFault::Broken | GatherFault::Strayed => Refusal::Broken,
        GatherFault::Unsettled(_) => Refusal::Unsettled,
        GatherFault::Memory => Refusal::Memory,
    }
}

/// Of a group that isn't committed.
pub(crate) fn of_flush(fault: FlushFault) -> Refusal
    ensures { result ≡ of_flush fault }
{
    match fault {
        FlushFault::Pen(PenFault::FileFull) => Refusal::FileFull,
        FlushFault::Pen(PenFault::Memory) => Refusal::Memory,
        _ => Refusal::Broken,
    }
}

/// Of a pen.
pub(crate) fn of_pen(fault: PenFault) -> Refusal
    ensures { result ≡ of_pen fault }
{
    match fault {
        PenFault::Broken | PenFault::Disk(_) => Refusal::Broken,
        PenFault::Busy => Refusal::Busy,
        PenFault::OldFormat => Refusal::Version,
        PenFault::Runs => Refusal::NotSo,
        PenFault::OutOfRange => Refusal::OutOfRange,
        PenFault::TooLarge => Refusal::TooLarge,
        PenFault::Unfolded => Refusal::Unfolded,
        PenFault::FileFull => Refusal::FileFull,
        PenFault::Memory => Refusal::Memory,
        PenFault::Exists => Refusal::Exists,
    }
}

/// Of a vault.
pub(crate) fn of_vault(fault: VaultFault) -> Refusal
    ensures { result ≡ of_vault fault }
{
    match fault {
        VaultFault::Pen(fault) => of_pen(fault),
        VaultFault::Unsettled(_) => Refusal::Unsettled,
        VaultFault::WrongPhase => Refusal::Busy,
    }
}

/// Of a block.
pub(crate) fn of_block(fault: FreshFault) -> Refusal
    ensures { result ≡ of_block fault }
{
    match fault {
        FreshFault::Empty => Refusal::Empty,
        FreshFault::TooLarge => Refusal::TooLarge,
        FreshFault::Memory => Refusal::Memory,
    }
}

/// Of a growth.
pub(crate) fn of_growth(fault: GrowFault) -> Refusal
    ensures { result ≡ of_growth fault }
{
    match fault {
        GrowFault::Closed | GrowFault::Full => Refusal::Full,
        GrowFault::TooLong => Refusal::OutOfRange,
        GrowFault::Strayed(_) => Refusal::Again,
        GrowFault::Memory => Refusal::Memory,
        GrowFault::Empty => Refusal::Empty,
        GrowFault::TooLarge => Refusal::TooLarge,
    }
}
