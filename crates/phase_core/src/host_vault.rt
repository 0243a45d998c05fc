//! A vault over a file whose calls a host makes.

ghost use Rattle.std.specs.Prelude.{◌≡◌, length, true, IfOk, IfErr, IfSome, IsNone};
ghost use Rattle.disk_core.specs.Moments.{clock};
ghost use Rattle.relay_core.specs.Listed.{LeadThrough};
ghost use Rattle.relay_core.specs.Making.{IsFollowed};
ghost use Rattle.phase_core.specs.Listing.{IsListLost};
ghost use Rattle.phase_core.specs.Folding.{Folds, RefusesFold};

use crate::folding::fold_whole;
use crate::listing::list_from;
use crate::writing::Written;
use disk_core::Disk;
use record_core::Record;
use relay_core::{Call, RelayDisk};
use vault_core::{Vault, VaultFault};

/// Who has a vector alone, while no phase is begun. It makes no call of the file: it lists them, and a host makes them.
#[derive(Drop)]
pub struct HostVault<R: Record, D: Disk> {
    pub(crate) vault: Vault<R, RelayDisk<D>>,
    /// The moment of the disk up to which the host has made its calls.
    pub(crate) made: u64,
}

impl<R: Record, D: Disk> HostVault<R, D> {
    ghost use Rattle.phase_core.specs.HostVault.{list_of, disk_of, calls_of};
    ghost use Rattle.phase_core.specs.HostCommands.{IsChange, IsResize};

    /// How many records it has.
    pub fn len(&self) -> u64
        ensures { result ≡ length (list_of self.now) }
    {
        self.vault.len()
    }

    /// Writes the records over those from position `start` on, by one frame. With none nothing is written. Refused as
    /// `Vault::change_alone` is.
    pub fn change(&mut self, start: u64, records: &[R]) -> Result<(), VaultFault>
        ensures { IsChange R.form self.old self.new result start records.now }
    {
        let count = records.len() as u64;
        let touch = Written { start, records };
        self.vault.change_alone(start, count, &touch)
    }

    /// Makes its length `size`: takes the records behind away, or appends copies of this one. Refused as `Vault::resize` is.
    pub fn resize(&mut self, size: u64, filler: R) -> Result<(), VaultFault>
        ensures { IsResize R.form self.old self.new result size filler }
    {
        self.vault.resize(size, filler)
    }

    /// Folds all changes into the records' homes in the file, and answers whether there were some. Refused as
    /// `Vault::begin_fold` is, or `Disk`, where a call of the file failed.
    pub fn fold(&mut self) -> Result<bool, VaultFault>
        ensures made { self.new.made ≡ self.old.made }
        ensures folds { IfOk result (λ folded. Folds R.form (λ disk. D.keeps disk.inner) (λ disk. D.states disk.inner) folded self.old.vault self.new.vault) }
        ensures refused { IfErr result (λ fault. RefusesFold R.form (λ disk. D.keeps disk.inner) (λ disk. D.states disk.inner) fault self.old.vault self.new.vault) }
    {
        fold_whole(&mut self.vault)
    }

    /// The calls that the host is to make, in order. `None` where one of them was lost: then nothing more can be committed.
    pub fn calls(&self) -> Option<&[Call]>
        ensures are { IfSome result (λ calls. calls.now ≡ calls_of self.now) }
        ensures lead { IfSome result (λ calls.
            D.keeps (disk_of self.now).inner → LeadThrough (D.states (disk_of self.now).inner) self.now.made calls.now) }
        ensures followed { IfSome result (λ calls.
            D.keeps (disk_of self.now).inner → IsFollowed (D.states (disk_of self.now).inner) self.now.made calls.now) }
        ensures lost { IsNone result → IsListLost self.now.made (disk_of self.now) }
    {
        list_from(self.vault.disk(), self.made)
    }

    /// The host has made the calls, and each has succeeded. Answers whether that is all of them: not where one was lost.
    pub fn settle(&mut self) -> Option<()>
        ensures vault { self.new.vault ≡ self.old.vault }
        ensures made { IfSome result (λ _. self.new.made ≡ clock (D.states (disk_of self.new).inner)) }
        ensures lost { IsNone result → (self.new.made ≡ self.old.made) × ((disk_of self.old).lost ≡ true) }
    {
        let moment = self.vault.disk().moment()?;
        self.vault.disk().finish();
        self.made = moment;
        Some(())
    }
}
