//! What the libraries for C share: why a call is refused, the types of records by their numbers, and records that come and go
//! as their bytes, one behind the other as in a file.
//!
//! C has no type parameters, so a call takes the number of a type. `of_kind!` calls the function of the records that it has,
//! and the words of `specs/Kind.antt` say in one clause what becomes of these, whichever they are.
#![tactic(auto)]

mod kind;
mod records;
mod refusal;

pub use kind::Kind;
pub use records::{record_of, records_of, write_from};
pub use refusal::Refusal;
