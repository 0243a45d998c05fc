//! The bytes of a request, read from a client's stream.

ghost use Rattle.std.specs.Prelude.{length, MatchResult};
ghost use Rattle.std.specs.Io.KnownBytes.{Consumes};
ghost use Rattle.serve_core.specs.Talks.{IsCutRead};

use crate::talking::TalkEnd;
use std::io::{ErrorKind, Read};
use std::sync::Wait;

/// Fills the buffer from the requests; a read that was interrupted is tried again. Refused, with a part of the bytes read:
/// `Gone`, where the requests ended before the first one; `Cut`, where they ended behind it; `InputFailed`, where a read
/// failed.
pub(crate) fn fill<I: Read, E: Wait>(
    rt: &E,
    requests: &mut I,
    buffer: &mut [u8],
) -> Result<(), TalkEnd>
    ensures { MatchResult result
        (λ _. Consumes (I.remaining requests.old) (I.remaining requests.new) buffer.new)
        (IsCutRead (length buffer.new) (I.remaining requests.old) (I.remaining requests.new)) }
{
    let mut at = 0;
    for _ in rt.forever() {
        if at >= buffer.len() {
            return Ok(());
        }
        match requests.read(&mut buffer[at..]) {
            Ok(0) if at == 0 => return Err(TalkEnd::Gone),
            Ok(0) => return Err(TalkEnd::Cut),
            Ok(n) => at += n,
            Err(fault) if fault.kind() == ErrorKind::Interrupted => {}
            Err(_) => return Err(TalkEnd::InputFailed),
        }
    }
    unreachable!()
}
