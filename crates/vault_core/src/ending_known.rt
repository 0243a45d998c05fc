//! The end of a growth phase by who settles its growths alone.

ghost use Rattle.std.specs.Prelude.{◌≡◌, ℕ, ◌++◌, List, length, false};
ghost use Rattle.disk_core.specs.State.{now, IsImage};
ghost use Rattle.pen_core.specs.Typed.{OpensTo};
ghost use Rattle.directory_core.specs.Chain.{grown_records};
ghost use Rattle.directory_core.specs.Known.{KnowsAll};
ghost use Rattle.book_core.specs.Lists.{opening_of};
ghost use Rattle.flush_core.specs.Flusher.{IsFlusherOf};
ghost use Rattle.vault_core.specs.Vault.{list_of};
ghost use Rattle.vault_core.specs.Space.{IsSpaceFor};

use crate::blocks::Blocks;
use crate::space::{Space, put_behind};
use crate::vault::Vault;
use book_core::Live;
use disk_core::Disk;
use flush_core::Flusher;
use record_core::Record;
use std::alloc::Global;

/// Ends a growth phase whose growths the flusher all knows and has settled, and gives back the vault: its list is that from
/// before the phase, and behind it all growths. It needs no seat: none can know another growth, since none can stand behind
/// those. It takes no memory but that space.
pub fn gather_known<R: Record, D: Disk>(
    alloc: Global,
    live: Live<R>,
    flusher: Flusher<R, D>,
    space: Space<R>,
) -> Vault<R, D>
    requires of { IsFlusherOf (D.keeps flusher.pen.disk) live flusher }
    requires all { KnowsAll flusher.pass }
    requires settled { flusher.settled ≡ length flusher.pass.entries }
    requires whole { flusher.pen.broken ≡ false }
    requires space { IsSpaceFor live flusher space }
    ensures list { list_of result ≡ opening_of live ++ grown_records flusher.pass.entries }
    ensures pen { result.pen ≡ flusher.pen }
    ensures told { D.keeps result.pen.disk → (image : List ℕ) → IsImage (now (D.states result.pen.disk)) image → OpensTo R.form image (list_of result) }
{
    let (pen, _pass) = flusher.into_pen();
    let Space { row, ends, last } = space;
    let blocks = put_behind(row, live.into_blocks(), last);
    let vault = Vault {
        pen,
        blocks: Blocks::with_ends(blocks, ends),
        parts: Vec::new(alloc),
        alloc,
    };
    // What the disk may leave opens to all that is settled.
    let _disk = vault.disk();
    vault
}
