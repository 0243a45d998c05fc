//! Segment files for programs in C, and in languages that call C: what an image holds, its records and where they stand, its
//! frames, what the bytes of a file show that another process writes, and the bytes of a file that is made and of a group that
//! is appended. A function reads and writes only the memory that it is passed, and calls nothing of the system but the
//! allocator: who calls it reads and writes the file, in the order that `docs/use/c.md` gives.
//!
//! Records come and go as their bytes, and a number says of which type they are (`c_core`). So a call has three functions: the one
//! that C has, one over kinds, and one that is generic over records, of whose clauses the others say that they hold for the kind's.
#![tactic(auto)]

mod appending;
mod creating;
mod fault;
mod frame;
mod homes;
mod looking;
mod reading;
mod stat;
