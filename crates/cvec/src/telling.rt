//! What standard error is told of how a run ended.

use crate::program::Outcome;
use filing_core::standing_in;
use segment_core::Cause;
use sentences::{RefusedCall, Sentence, Standing};
use std::io;
use words_core::Request;

/// Tells why a command over a file was refused, if it was.
pub fn tell_refusal(rt: &HostRuntime, ended: &Outcome<'_>, refused: Option<RefusedCall>) {
    if let (Some(request), Some(complaint)) = (ended.asked, ended.complaint) {
        let sentence = Sentence {
            request,
            complaint,
            shown: ended.shown,
            stands: standing_of(rt, &request),
            refused,
        };
        let _ = eprintln!(rt; "cvec: {sentence}");
    }
}

/// Tells what wasn't copied of a damaged file.
pub fn tell_lost(rt: &HostRuntime, file: &str, at: u64, cause: Cause) {
    let _ = eprintln!(rt;
        "cvec: {file}: it is damaged at byte {at} ({cause}); what its whole frames before that hold was copied, and nothing behind them"
    );
}

/// Tells why the file for the sound bytes of a damaged one wasn't made.
pub fn tell_front(rt: &HostRuntime, name: &str, error: io::Error) {
    let _ = eprintln!(rt;
        "cvec: {name}: it can't be made ({error}), and would get the bytes before the damage; nothing was written"
    );
}

/// What stands in the file that the words name, if they name one.
fn standing_of(rt: &HostRuntime, request: &Request<'_>) -> Standing {
    match request {
        Request::File(words) => standing_in(rt, words.file),
        Request::Stat(words) => standing_in(rt, words.file),
        Request::Input(..) | Request::Tell(_) => Standing::Bytes,
    }
}
