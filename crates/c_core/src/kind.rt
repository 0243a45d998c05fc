//! The types of records in numbers. A type that is new has its lines here and in `specs/Kind.antt`.

ghost use Rattle.std.specs.Prelude.{◌≡◌};
ghost use Rattle.c_core.specs.Kind.{kind_of};

/// What records a file has: a type of C, by how its values stand in bytes.
#[derive(Clone, Copy)]
pub enum Kind {
    U8,
    U16,
    U32,
    U64,
    I64,
    Pair,
    Flagged,
    Bytes16,
    Bytes24,
    Bytes32,
    Bytes64,
}

impl Kind {
    /// That of a type's number in `cvec.h`. An `i32` and an `f32` are kept as a `u32` is, an `f64` as a `u64`. `None`: no type has
    /// this number.
    pub fn of_number(number: u32) -> Option<Kind>
        ensures { result ≡ kind_of number }
    {
        match number {
            0 => Some(Kind::U8),
            1 => Some(Kind::U16),
            2 | 4 | 6 => Some(Kind::U32),
            3 | 7 => Some(Kind::U64),
            5 => Some(Kind::I64),
            8 => Some(Kind::Pair),
            9 => Some(Kind::Flagged),
            10 => Some(Kind::Bytes16),
            11 => Some(Kind::Bytes24),
            12 => Some(Kind::Bytes32),
            13 => Some(Kind::Bytes64),
            _ => None,
        }
    }
}

/// Calls a function for the records that a kind has. Its caller stands on `record_core`.
#[macro_export]
macro_rules! of_kind {
    ($kind:expr, $call:ident $given:tt) => {
        match $kind {
            $crate::Kind::U8 => $call::<u8>$given,
            $crate::Kind::U16 => $call::<u16>$given,
            $crate::Kind::U32 => $call::<u32>$given,
            $crate::Kind::U64 => $call::<u64>$given,
            $crate::Kind::I64 => $call::<i64>$given,
            $crate::Kind::Pair => $call::<record_core::Pair>$given,
            $crate::Kind::Flagged => $call::<record_core::Flagged>$given,
            $crate::Kind::Bytes16 => $call::<record_core::Bytes16>$given,
            $crate::Kind::Bytes24 => $call::<record_core::Bytes24>$given,
            $crate::Kind::Bytes32 => $call::<record_core::Bytes32>$given,
            $crate::Kind::Bytes64 => $call::<record_core::Bytes64>$given,
        }
    };
}
