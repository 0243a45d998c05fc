//! All bytes of a reader, up to a bound.

ghost use Rattle.std.specs.Prelude.{◌≡◌, ◌≤◌, vec_len, IfOk, IfErr, IfSome};
ghost use Rattle.text_core.specs.Refusals.{IsInputRefusal, input_limit};

use crate::refusal::Refusal;
use std::alloc::Global;
use std::io::Read;

/// The bytes that an engine takes at most.
pub const INPUT_LIMIT: usize = 67_108_864;

/// The bytes that one read asks for at most.
const PIECE_LEN: usize = 65_536;

/// All bytes of the reader. They are read in pieces, by at most `INPUT_LIMIT + 1` reads: each but the last
/// gives a byte or more, and one byte past the limit is enough to refuse. A read that fails isn't tried again.
pub fn read_input<I: Read>(alloc: Global, reader: &mut I) -> Result<Vec<u8>, Refusal>
    ensures whole { IfOk result (λ input. IfSome (I.remaining reader.old) (λ bytes. input.items ≡ bytes)) }
    ensures within { IfOk result (λ input. vec_len input ≤ input_limit) }
    // That a read failed is nothing that the reader's bytes tell, so `Input` may come with any.
    ensures refused { IfErr result (λ refusal. IfSome (I.remaining reader.old) (λ bytes. IsInputRefusal bytes refusal)) }
{
    let mut input = Vec::new(alloc);
    let mut piece = [0u8; PIECE_LEN];
    for _ in 0..=INPUT_LIMIT {
        let room = (INPUT_LIMIT + 1 - input.len()).min(PIECE_LEN);
        let Ok(n) = reader.read(&mut piece[..room]) else {
            return Err(Refusal::Input);
        };
        if n == 0 {
            return Ok(input);
        }
        if n > INPUT_LIMIT - input.len() {
            return Err(Refusal::InputTooLong);
        }
        input.extend_from_slice(&piece[..n])?;
    }
    Err(Refusal::InputTooLong)
}
