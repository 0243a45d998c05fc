//! An end as C keeps it: one pointer, or none.

ghost use Rattle.std.specs.Prelude.{◌≡◌, None, Some, IsSome};
ghost use Rattle.handle_core.specs.declared.end.End.{End};
ghost use Rattle.handle_core.specs.Keeping.{kept_owns, end_coded};
ghost use Rattle.std.specs.Prelude.{Option};

use crate::end::End;
use crate::parts::Parts;
use std::alloc::Global;
use std::marker::Model;
use std::ptr;

/// A pointer, and the end that it owns, if any.
#[repr(C)]
#[derive(Drop)]
pub struct Kept {
    at: *mut u8,
    alloc: Global,
    pub ghost end: { Option End } by { end_coded },
}

impl Model for Kept {
    ghost also_owns = { λ k. kept_owns k.alloc k.at k.end };
}

impl Kept {
    /// Nothing.
    pub fn nothing(alloc: Global) -> Kept
        ensures { result.end ≡ None }
    {
        let at: *mut u8 = ptr::null_mut();
        Kept::nothing_at(at, alloc)
    }

    /// C keeps the end.
    pub fn of(end: Box<End>) -> Kept
        ensures { result.end ≡ Some end.value }
    {
        Kept::of_parts(Parts::of(end))
    }

    /// C gives it back.
    pub fn into_box(self) -> Box<End>
        requires { IsSome self.end }
        ensures { Some result.value ≡ self.end }
    {
        self.into_parts().into_box()
    }

    fn nothing_at(at: *mut u8, alloc: Global) -> Kept
        ensures { result.end ≡ None }
    {
        Kept { at, alloc }
    }

    fn of_parts(parts: Parts<End, Global>) -> Kept
        ensures { result.end ≡ Some parts.value }
    {
        let Parts { ptr, alloc } = parts;
        Kept {
            at: ptr as *mut u8,
            alloc,
        }
    }

    fn into_parts(self) -> Parts<End, Global>
        requires { IsSome self.end }
        ensures { Some result.value ≡ self.end }
    {
        let Kept { at, alloc } = self;
        Parts {
            ptr: at as *mut End,
            alloc,
        }
    }
}

unsafe impl Send for Kept {}
