//! What who commits calls.

ghost use Rattle.std.specs.Prelude.{◌≡◌, ◌≢◌};
ghost use Rattle.handle_core.specs.Roles.{Plans, Settles, RefusesPlan, RefusesSettle};
ghost use Rattle.handle_core.specs.Handles.{end_of, Refused};
ghost use Rattle.handle_core.specs.Ends.{Becomes, AtAny};
ghost use Rattle.cvec_threads.specs.Calls.{TellsCall, RefusesCall};

use crate::file_call::{CvecCall, call_at};
use c_core::Refusal;
use handle_core::Handle;
use std::alloc::Global;

/// Lists the calls of the file that commit what was grown. `growths`: how many growths they commit.
#[unsafe(no_mangle)]
pub extern "C" fn cvec_phase_plan(alloc: Global, committer: &mut Handle, growths: &mut u64) -> u32
    ensures plans { result ≡ 0 → Becomes (AtAny (λ _ _ _. Plans growths.new)) (end_of committer.old) (end_of committer.new) }
    ensures refused { result ≢ 0 → Refused (λ refusal. AtAny (λ _ _ _. RefusesPlan refusal)) result (end_of committer.old) (end_of committer.new) × (growths.new ≡ growths.old) }
{
    let count = answer_of!(alloc, committer, end => end.plan());
    *growths = count;
    0
}

/// The call of that number, in the order in which they are to be made: `OutOfRange` where so many are listed. The bytes that it writes
/// stay where they are until a call plans, changes or closes.
#[unsafe(no_mangle)]
pub extern "C" fn cvec_phase_call(
    alloc: Global,
    committer: &mut Handle,
    number: u64,
    call: &mut CvecCall,
) -> u32
    ensures told { result ≡ 0 → Becomes (TellsCall number call.new) (end_of committer.old) (end_of committer.new) }
    ensures refused { result ≢ 0 → Refused (RefusesCall number) result (end_of committer.old) (end_of committer.new) × (call.new ≡ call.old) }
{
    let found = answer_of!(alloc, committer, end => call_at(&end, number));
    *call = found;
    0
}

/// The host has made the calls, and each has succeeded: the growers are told what is durable. `count`: how many growths are.
#[unsafe(no_mangle)]
pub extern "C" fn cvec_phase_settle(alloc: Global, committer: &mut Handle, count: &mut u64) -> u32
    ensures settled { result ≡ 0 → Becomes (AtAny (λ _ _ _. Settles count.new)) (end_of committer.old) (end_of committer.new) }
    ensures refused { result ≢ 0 → Refused (λ refusal. AtAny (λ _ _ _. RefusesSettle refusal)) result (end_of committer.old) (end_of committer.new) × (count.new ≡ count.old) }
{
    let found = answer_of!(alloc, committer, end => end.settle());
    *count = found;
    0
}
