//! Lists in pieces, copied into one.

ghost use Rattle.std.specs.Prelude.{◌≡◌, IfOk};
ghost use Rattle.book_core.specs.Lists.{IsSeatOf, seat_list};
ghost use Rattle.vault_core.specs.Vault as vaults;

use book_core::{Live, Seat};
use disk_core::Disk;
use record_core::Record;
use std::alloc::{AllocError, Global};
use vault_core::Vault;

/// The list as a seat knows it.
pub(crate) fn copy_view<R: Record>(
    alloc: Global,
    live: &Live<R>,
    seat: &mut Seat<R>,
) -> Result<Vec<R>, AllocError>
    requires of { IsSeatOf live.now seat.old }
    ensures same { seat.new ≡ seat.old }
    ensures list { IfOk result (λ records. records.items ≡ seat_list live.now seat.old) }
{
    let mut records = Vec::new(alloc);
    for number in 0..live.piece_count(seat) {
        let Some(piece) = live.piece_at(seat, number) else {
            unreachable!()
        };
        records.extend_from_slice(piece)?;
    }
    Ok(records)
}

/// The list of a vault.
pub(crate) fn copy_list<R: Record, D: Disk>(
    alloc: Global,
    vault: &Vault<R, D>,
) -> Result<Vec<R>, AllocError>
    ensures { IfOk result (λ records. records.items ≡ vaults.list_of vault.now) }
{
    let mut records = Vec::new(alloc);
    for i in 0..vault.len() {
        let Some(record) = vault.get(i) else {
            unreachable!()
        };
        records.push(*record)?;
    }
    Ok(records)
}
