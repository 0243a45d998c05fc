//! What C has of a vector.

ghost use Rattle.std.specs.Prelude.{◌≡◌, true, false, None, Some, IsSome, IfSome, MatchBool, MatchOption};

use crate::end::End;
use crate::kept::Kept;
use std::alloc::Global;
use std::mem;

/// What C has of a vector: one of its ends, or nothing. All zero is nothing. Nobody copies it, and one call at a time has it.
#[repr(C)]
#[derive(Drop)]
pub struct Handle {
    kept: Kept,
    full: bool,
    ghost told: { full ≡ true → IsSome kept.end },
}

impl Handle {
    ghost use Rattle.handle_core.specs.Handles.{end_of};

    /// Takes the end out of the handle, which then has nothing. `None` where it had nothing.
    pub fn take(&mut self, alloc: Global) -> Option<Box<End>>
        ensures nothing { end_of self.new ≡ None }
        ensures end { MatchOption result
            (end_of self.old ≡ None)
            (λ end. end_of self.old ≡ Some end.value) }
    {
        let nothing = Handle {
            kept: Kept::nothing(alloc),
            full: false,
        };
        let Handle { kept, full } = mem::replace(self, nothing);
        if !full {
            return None;
        }
        Some(kept.into_box())
    }

    /// Puts an end into the handle, which has nothing.
    pub fn put(&mut self, end: Box<End>)
        ensures { end_of self.new ≡ Some end.value }
    {
        *self = Handle {
            kept: Kept::of(end),
            full: true,
        };
    }

    /// Gives up what the handle has.
    fn give_up(&mut self, alloc: Global)
        ensures { end_of self.new ≡ None }
    {
        drop(self.take(alloc));
    }

    /// Puts a new end into the handle. What it had is given up. It has nothing where memory for it was refused.
    pub fn fill(&mut self, alloc: Global, end: End) -> bool
        ensures { MatchBool result (end_of self.new ≡ Some end) (end_of self.new ≡ None) }
    {
        self.give_up(alloc);
        match boxed(alloc, end) {
            Some(end) => {
                self.put(end);
                true
            }
            None => false,
        }
    }
}

/// The end in a box. It stands by itself: with what else `fill` does it is more than the borrow checker covers.
fn boxed(alloc: Global, end: End) -> Option<Box<End>>
    ensures { IfSome result (λ kept. kept.value ≡ end) }
{
    Box::new(alloc, end).ok()
}
