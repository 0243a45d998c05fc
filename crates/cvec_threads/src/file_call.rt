//! The calls of the file that C is to make.

ghost use Rattle.std.specs.Prelude.{IfOk, IfErr};
ghost use Rattle.cvec_threads.specs.Calls.{IsToldOf, TellsCall, RefusesCall};

use c_core::Refusal;
use handle_core::End;
use relay_core::Call;
use std::ptr;

/// A call of the file that C is to make.
#[repr(C)]
#[derive(Clone, Copy)]
pub struct CvecCall {
    /// The place from which on it writes, 0 of a sync.
    pub at: u64,
    /// Where the bytes stand that it writes. They stay there until the list changes.
    pub bytes: *const u8,
    /// How many bytes it writes, 0 of a sync.
    pub len: u64,
    /// 0 of a write, 1 of a sync.
    pub kind: u32,
}

impl CvecCall {
    fn of(call: &Call) -> CvecCall
        ensures { IsToldOf call.now result }
    {
        match call {
            Call::Write { at, bytes } => CvecCall {
                at: *at,
                bytes: bytes.as_ptr(),
                len: bytes.len() as u64,
                kind: 0,
            },
            Call::Sync => CvecCall {
                at: 0,
                bytes: ptr::null(),
                len: 0,
                kind: 1,
            },
        }
    }
}

/// The call of that number. `OutOfRange` where so many are listed.
pub(crate) fn call_at(end: &End, number: u64) -> Result<CvecCall, Refusal>
    ensures told { IfOk result (λ call. TellsCall number call end.now end.now) }
    ensures refused { IfErr result (λ refusal. RefusesCall number refusal end.now end.now) }
{
    match end.calls() {
        Ok(calls) => match calls.get(number as usize) {
            Some(call) => Ok(CvecCall::of(call)),
            None => Err(Refusal::OutOfRange),
        },
        Err(refusal) => Err(refusal),
    }
}
