//! An end of a phase, as C keeps it.

ghost use Rattle.std.specs.Prelude.{◌≡◌};

use block_core::Fresh;
use phase_core::{Committer, Grower, HostDisk, HostVault, Phase};
use record_core::{Bytes24, Bytes32, Bytes64, Flagged, Pair, Record};
use std::mem;

/// Which end it is.
#[derive(Drop)]
pub enum Role<R: Record> {
    /// The bytes of a file, as far as they are read.
    File(Vec<u8>),
    /// The phase, with the seats that nobody has.
    Phase(Phase<R>),
    /// A thread's own end.
    Grower(Grower<R>),
    /// Who commits for all.
    Committer(Committer<R, HostDisk>),
    /// Who has the vector alone.
    Vault(HostVault<R, HostDisk>),
    /// A block of records that C writes in place, before they are grown by.
    Block(Fresh<R>),
    /// None: it was given up.
    Nothing,
}

/// An end, by what records its vector has.
#[derive(Drop)]
pub enum End {
    U8(Role<u8>),
    U16(Role<u16>),
    /// Of each type of 4 bytes: records are equal where their bytes are.
    U32(Role<u32>),
    /// Of each of 8.
    U64(Role<u64>),
    /// Of each of 16.
    Pair(Role<Pair>),
    Flagged(Role<Flagged>),
    Bytes24(Role<Bytes24>),
    Bytes32(Role<Bytes32>),
    Bytes64(Role<Bytes64>),
}

impl<R: Record> Role<R> {
    /// It is this end then, and no other.
    pub(crate) fn put(&mut self, role: Role<R>)
        ensures { self.new ≡ role }
    {
        // To prove a drop in place, as of `*self = role`, takes long.
        drop(mem::replace(self, role));
    }
}

impl End {
    /// It is this end then, and no other.
    pub(crate) fn put(&mut self, end: End)
        ensures { self.new ≡ end }
    {
        // To prove a drop in place, as of `*self = end`, takes minutes.
        drop(mem::replace(self, end));
    }
}
