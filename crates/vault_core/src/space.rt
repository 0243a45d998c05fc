//! What the end of a phase takes memory for.

ghost use Rattle.std.specs.Prelude.{◌≡◌, ◌≤◌, ◌+◌, ◌++◌, length, vec_len, vec_capacity, IfSome, IfOk, OnOk};
ghost use Rattle.directory_core.specs.Chain.{grown_records, total};
ghost use Rattle.record_core.specs.Limits.{record_limit};
ghost use Rattle.book_core.specs.Lists.{records_of, joined_pieces};
ghost use Rattle.flush_core.specs.Flusher.{IsFlusherOf};
ghost use Rattle.vault_core.specs.Space.{IsSpaceFor};

use book_core::Live;
use disk_core::Disk;
use flush_core::Flusher;
use record_core::Record;
use std::alloc::{AllocError, Global};

/// What the end of a phase takes memory for: rows for the blocks and their ends, and the records of the growths in one
/// block.
#[derive(Drop)]
pub struct Space<R: Record> {
    pub(crate) row: Vec<Vec<R>>,
    pub(crate) ends: Vec<u64>,
    pub(crate) last: Vec<R>,
}

/// The records of the growths that the flusher knows, in one block.
fn copy_growths<R: Record, D: Disk>(
    alloc: Global,
    live: &Live<R>,
    flusher: &mut Flusher<R, D>,
) -> Result<Vec<R>, AllocError>
    requires of { IsFlusherOf (D.keeps flusher.old.pen.disk) live.now flusher.old }
    ensures same { flusher.new ≡ flusher.old }
    ensures copied { IfOk result (λ block. block.items ≡ grown_records flusher.old.pass.entries) }
    ensures in_limit { OnOk result (flusher.old.before + total flusher.old.pass.entries ≤ record_limit) }
{
    let count = flusher.size() - live.opening_len();
    let mut block = Vec::with_capacity(alloc, count as usize)?;
    for number in 0..flusher.known() {
        let Some(records) = flusher.growth(live, number) else {
            unreachable!()
        };
        block.extend_from_slice(records)?;
    }
    Ok(block)
}

impl<R: Record> Space<R> {
    /// All memory that the end of a phase takes whose growths the flusher knows. `None` where it was refused.
    pub fn take<D: Disk>(
        alloc: Global,
        live: &Live<R>,
        flusher: &mut Flusher<R, D>,
    ) -> Option<Space<R>>
        requires of { IsFlusherOf (D.keeps flusher.old.pen.disk) live.now flusher.old }
        ensures same { flusher.new ≡ flusher.old }
        ensures space { IfSome result (IsSpaceFor live.now flusher.old) }
    {
        let count = live.block_count().saturating_add(1) as usize;
        let row = Vec::with_capacity(alloc, count).ok()?;
        let ends = Vec::with_capacity(alloc, count).ok()?;
        let last = copy_growths(alloc, live, flusher).ok()?;
        Some(Space { row, ends, last })
    }
}

/// The blocks, and behind them the last one, where it has records: in a row that has room for them.
pub(crate) fn put_behind<R: Record>(
    row: Vec<Vec<R>>,
    blocks: Vec<Vec<R>>,
    last: Vec<R>,
) -> Vec<Vec<R>>
    requires { (length row.items ≡ 0) × (vec_len blocks + 1 ≤ vec_capacity row) }
    ensures joined { joined_pieces (records_of result.items) ≡ joined_pieces (records_of blocks.items) ++ last.items }
    ensures few { vec_len result ≤ vec_len blocks + 1 }
{
    let mut row = row;
    let mut blocks = blocks;
    let Ok(()) = row.append(&mut blocks) else {
        unreachable!()
    };
    if !last.is_empty() {
        row.push_reserved(last);
    }
    row
}
