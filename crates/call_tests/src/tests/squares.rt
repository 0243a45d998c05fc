//! A touch for the tests of several modules.

ghost use Rattle.std.specs.Prelude.{◌≡◌, ◌+◌, ◌*◌, ◌^◌, ◌<◌, ◌≤◌, length};

use block_core::Touch;

/// The square of the place, whatever stood there.
pub(super) struct Squares;

impl Touch<u64> for Squares {
    ghost one = { λ _ at _. at * at };

    fn one(&self, at: u64, _r: u64) -> u64 {
        at * at
    }
}
