//! A durable concurrent vector, for programs: all that one needs of the crates below, under one name.
//!
//! A vector has two phases. In the *exclusive* phase one owner has a `Vault`: he reads, changes, resizes, searches and
//! folds it. `Vault::share` lends it to a *growth phase*, in which any number of threads, up to `SEAT_LIMIT`, grow it
//! through one `Live`, each with a `Seat` of its own (or an `Appender`, which gathers single records into blocks), while
//! one `Flusher` commits what they grow; `gather` takes it back. `crew` does both round a thread for each grower. A phase
//! that no file stands behind begins with `Live::begin`.
//!
//! | I want to | Call |
//! |---|---|
//! | make a file, or open one | `FileDisk::make`, `FileDisk::open`; `Vault::create_as`, `Vault::open` |
//! | append from many threads, and be done when all is durable | `crew`, with a `Source` such as `Lists` |
//! | append from threads of my own | `Vault::share`, `Live::take_seat`, then `Live::grow_slice`, `push_back`, or an `Appender` |
//! | commit meanwhile | `Flusher::serve` until `Live::close`, in the calling thread or in one that is started before any grower |
//! | know what a crash can't take any more | `Live::await_receipt`, `Live::settled` |
//! | read meanwhile | `Live::look`, then `get`, `piece`, `pieces`, `pieces_from`; `Live::snapshot` for many reads |
//! | change records in place | `Vault::change`, `change_runs`; `begin_fold`, `settle` |
//! | have a shorter file, or one of another version | `copy`, `upgrade` |
//! | search | `Vault::count_where`, `find_first`, with a `Pick` |
//! | keep records of a type of my own | `impl Record`, or `Joined` of two that are `Half` |
//!
//! A refusal is the call's own enum; `Fault` is any of them, for a program that tells it and ends. The long guide is
//! `docs/use/guide.md`, with the clause that carries each of its sentences.
#![tactic(auto)]

mod fault;

pub use block_core::{Fresh, FreshFault, Touch, touch_parts};
pub use book_core::{
    Appender, Begun, GrowFault, Live, Mark, MarkState, Receipt, Records, SEAT_LIMIT, Seat,
    SettleFault, Snapshot, Writer,
};
pub use crew_core::{CrewFault, Crewed, Gate, Lists, OpenGate, Source, crew};
pub use directory_core::{DirFault, GROWTH_LIMIT, PLACE_LIMIT, Pass};
pub use disk_core::{
    Blow, Choice, Disk, DiskFault, FileDisk, FuseDisk, ImageLength, PendingBytes, RamDisk,
};
pub use fault::Fault;
pub use flush_core::{FlushFault, Flusher, Lane, Tick};
pub use pen_core::{FoldStage, OpenFault, PenFault, Stage};
pub use record_core::{
    Bytes16, Bytes24, Bytes32, Bytes64, Flagged, Half, Joined, PAYLOAD_LIMIT, Pair, RECORD_LIMIT,
    Record,
};
pub use search_core::{Equals, Pick, count_where, find_first};
pub use segment_core::{Format, ScanFault};
pub use vault_core::{
    Gathering, UpgradeFault, Vault, VaultFault, VaultPieces, copy, gather, greatest_piece, upgrade,
};
