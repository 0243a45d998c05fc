//! How who commits has a vector alone, what is asked of it then, and how threads have it again.

ghost use Rattle.std.specs.Prelude.{◌≡◌, ◌≢◌};
ghost use Rattle.handle_core.specs.Vaults.{GathersIn, RefusesGathering, RefusesSharing, Measures, IsNoVault, Changes, RefusesChange, Resizes, RefusesResize, RefusesFolding};
ghost use Rattle.handle_core.specs.Handles.{end_of, Refused};
ghost use Rattle.handle_core.specs.Ends.{Becomes, AtAny};
ghost use Rattle.cvec_threads.specs.Vaults.{HasPhase, IsFolded};

use c_core::Refusal;
use handle_core::Handle;
use std::alloc::Global;

/// Who commits has the vector alone from then on: the handle has a vault, where each other handle of the vector is closed and
/// all growths are settled.
#[unsafe(no_mangle)]
pub extern "C" fn cvec_phase_gather(alloc: Global, committer: &mut Handle) -> u32
    ensures gathers { result ≡ 0 → Becomes (AtAny (λ _ _ _. GathersIn)) (end_of committer.old) (end_of committer.new) }
    ensures refused { result ≢ 0 → Refused (λ refusal. AtAny (λ _ _ _. RefusesGathering refusal)) result (end_of committer.old) (end_of committer.new) }
{
    answer_of!(alloc, committer, end => end.gather(alloc));
    0
}

/// Threads have the vector again: the handle of the vault has who commits, and the other the phase, with room for so many growths
/// and so many seats, as over a new file. What that one had is given up.
#[unsafe(no_mangle)]
pub extern "C" fn cvec_phase_share(
    alloc: Global,
    vault: &mut Handle,
    growths: u64,
    seats: u16,
    phase: &mut Handle,
) -> u32
    ensures shared { result ≡ 0 → HasPhase growths seats (end_of vault.old) (end_of vault.new) (end_of phase.new) }
    ensures refused { result ≢ 0 → Refused (λ refusal. AtAny (λ _ _ _. RefusesSharing growths seats refusal)) result (end_of vault.old) (end_of vault.new) × (end_of phase.new ≡ end_of phase.old) }
{
    let shared = answer_of!(alloc, vault, end => end.share(alloc, growths, seats));
    drop(phase.take(alloc));
    phase.put(shared);
    0
}

/// How many records the vault has.
#[unsafe(no_mangle)]
pub extern "C" fn cvec_vault_size(alloc: Global, vault: &mut Handle, size: &mut u64) -> u32
    ensures size { result ≡ 0 → Becomes (AtAny (λ _ _ _. Measures size.new)) (end_of vault.old) (end_of vault.new) }
    ensures refused { result ≢ 0 → Refused (λ refusal. AtAny (λ _ _ _. IsNoVault refusal)) result (end_of vault.old) (end_of vault.new) × (size.new ≡ size.old) }
{
    let found = answer_of!(alloc, vault, end => end.measure());
    *size = found;
    0
}

/// Writes the records that these bytes are over those from position `start` on, and lists the calls of the file that commit it.
#[unsafe(no_mangle)]
pub extern "C" fn cvec_vault_change(
    alloc: Global,
    vault: &mut Handle,
    start: u64,
    records: &[u8],
) -> u32
    ensures changes { result ≡ 0 → Becomes (AtAny (λ _ _ _. Changes start records.now)) (end_of vault.old) (end_of vault.new) }
    ensures refused { result ≢ 0 → Refused (λ refusal. AtAny (λ _ _ _. RefusesChange start records.now refusal)) result (end_of vault.old) (end_of vault.new) }
{
    answer_of!(alloc, vault, end => end.change(alloc, start, records));
    0
}

/// Makes the vault's length `size`: takes records away, or appends copies of the one that these bytes are; and lists the calls that
/// commit it.
#[unsafe(no_mangle)]
pub extern "C" fn cvec_vault_resize(
    alloc: Global,
    vault: &mut Handle,
    size: u64,
    filler: &[u8],
) -> u32
    ensures resizes { result ≡ 0 → Becomes (AtAny (λ _ _ _. Resizes size filler.now)) (end_of vault.old) (end_of vault.new) }
    ensures refused { result ≢ 0 → Refused (λ refusal. AtAny (λ _ _ _. RefusesResize size filler.now refusal)) result (end_of vault.old) (end_of vault.new) }
{
    answer_of!(alloc, vault, end => end.resize(size, filler));
    0
}

/// Lists the calls that write each changed record to its home in the file, and then the fold's frame.
#[unsafe(no_mangle)]
pub extern "C" fn cvec_vault_fold(alloc: Global, vault: &mut Handle) -> u32
    ensures folds { result ≡ 0 → Becomes IsFolded (end_of vault.old) (end_of vault.new) }
    ensures refused { result ≢ 0 → Refused (λ refusal. AtAny (λ _ _ _. RefusesFolding refusal)) result (end_of vault.old) (end_of vault.new) }
{
    answer_of!(alloc, vault, end => end.fold());
    0
}
