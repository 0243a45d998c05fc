//! Where the bytes of a vector stand, kept by a writer that goes on.

ghost use Rattle.std.specs.Prelude.{◌≡◌, ◌≤◌, ◌<◌, [], ℕ};
ghost use Rattle.segment_core.specs.Found.{home_among, AreInTurn};

use crate::found::{Home, Homes};
use std::alloc::Global;

/// Keeps the homes of the first positions alone.
pub(crate) fn cut(homes: &mut Vec<Home>, size: u64)
    requires { (old : ℕ) × (size ≤ old) × AreInTurn 0 homes.old.items old }
    ensures in_turn { AreInTurn 0 homes.new.items size }
    ensures each { (width i : ℕ) → i < size → home_among width homes.new.items i ≡ home_among width homes.old.items i }
{
    while let Some(home) = homes.pop() {
        if home.position < size {
            homes.push_reserved(Home {
                count: size - home.position,
                ..home
            });
            return;
        }
    }
}

impl Homes {
    /// Those of a file without a frame. It takes no memory.
    pub fn new(alloc: Global) -> Homes
        ensures homes { result.homes.items ≡ [] }
        ensures live { result.live.items ≡ [] }
    {
        Homes {
            homes: Vec::new(alloc),
            live: Vec::new(alloc),
        }
    }

    /// Keeps the homes of the first positions alone.
    pub fn cut(&mut self, size: u64)
        requires { (old : ℕ) × (size ≤ old) × AreInTurn 0 self.old.homes.items old }
        ensures in_turn { AreInTurn 0 self.new.homes.items size }
        ensures each { (width i : ℕ) → i < size → home_among width self.new.homes.items i ≡ home_among width self.old.homes.items i }
        ensures live { self.new.live ≡ self.old.live }
    {
        cut(&mut self.homes, size);
    }
}
