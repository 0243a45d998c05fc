//! Searches of a vault.

ghost use Rattle.std.specs.Prelude.{◌≡◌, ◌≤◌, ◌^◌, length};
ghost use Rattle.segment_core.specs.Written.{joined};
ghost use Rattle.std.specs.List.{count_by};
ghost use Rattle.search_core.specs.Search.{IsFirst};
ghost use Rattle.vault_core.specs.Vault.{list_of};

use crate::pieces::VaultPieces;
use crate::vault::Vault;
use disk_core::Disk;
use record_core::Record;
use search_core::{Pick, count_where, find_first};
use std::thread::Threads;

/// How many records of the pieces are picked.
fn count_in<R: Sync, P: Pick<R>, E: Threads + Sync>(
    rt: &E,
    pieces: VaultPieces<'_, R>,
    pick: &P,
) -> u64
    requires { length (joined pieces) ≤ 2 ^ 32 }
    ensures { result ≡ count_by (P.picks_of pick.now) (joined pieces.entry) }
{
    count_where(rt, pieces, pick)
}

/// The position of the first record of the pieces that is picked, if one is.
fn find_in<R: Sync, P: Pick<R>, E: Threads + Sync>(
    rt: &E,
    pieces: VaultPieces<'_, R>,
    pick: &P,
) -> Option<u64>
    requires { length (joined pieces) ≤ 2 ^ 32 }
    ensures { IsFirst (P.picks_of pick.now) (joined pieces.entry) result }
{
    find_first(rt, pieces, pick)
}

impl<R: Record, D: Disk> Vault<R, D> {
    /// How many of its records are picked: by several threads, where there are many.
    pub fn count_where<P: Pick<R>, E: Threads + Sync>(&self, rt: &E, pick: &P) -> u64
        ensures { result ≡ count_by (P.picks_of pick.now) (list_of self.now) }
    {
        count_in(rt, self.pieces(), pick)
    }

    /// The position of its first record that is picked, if one is: by several threads, where it doesn't stand in front.
    pub fn find_first<P: Pick<R>, E: Threads + Sync>(&self, rt: &E, pick: &P) -> Option<u64>
        ensures { IsFirst (P.picks_of pick.now) (list_of self.now) result }
    {
        find_in(rt, self.pieces(), pick)
    }
}
