//! A static library by which threads of C grow one vector in their own process, each by a handle of its own. It makes no call
//! of the system: who commits lists the calls of the file, and C makes them. Records come and go as their bytes in a file,
//! whatever records the vector has.
#![tactic(auto, using(crate::proofs::HandleLemmas::becomes, crate::proofs::HandleLemmas::refused_some, crate::proofs::HandleLemmas::refused_none, crate::proofs::HandleLemmas::seat_lost))]

/// What a call of the end answers that a handle has, which has it again then. Where it is refused, or the handle has nothing, the
/// function that this stands in returns the number of that.
macro_rules! answer_of {
    ($alloc:expr, $handle:expr, $end:ident => $call:expr) => {{
        let Some(mut $end) = $handle.take($alloc) else {
            return Refusal::NotSo.code();
        };
        let answer = $call;
        $handle.put($end);
        match answer {
            Ok(answer) => answer,
            Err(refusal) => return refusal.code(),
        }
    }};
}

mod committing;
mod file_call;
mod growing;
mod phases;
mod vaults;
