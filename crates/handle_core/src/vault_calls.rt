//! The calls of a vault, and those by which an end becomes one.

ghost use Rattle.std.specs.Prelude.{◌≡◌, true, IfOk, IfErr, OnOk, MatchOption};
ghost use Rattle.handle_core.specs.Refusals.{of_pen};
ghost use Rattle.handle_core.specs.Vaults.{GathersIn, RefusesGathering, SharesOut, RefusesSharing, Measures, IsNoVault, Changes, RefusesChange, Resizes, RefusesResize, FoldsAll, RefusesFolding};

use crate::end::Role;
use crate::faults::{of_gather, of_pen, of_vault};
use c_core::{Refusal, record_of, records_of};
use pen_core::PenFault;
use phase_core::{Committer, HostDisk, HostVault};
use record_core::Record;
use std::alloc::Global;
use std::mem;

impl<R: Record> Role<R> {
    /// Who commits has the vector alone from then on. `Busy`, while another end of its phase isn't closed; `Broken`;
    /// `Unsettled`, where not all growths are committed; `Memory`.
    pub(crate) fn gather(&mut self, alloc: Global) -> Result<(), Refusal>
        ensures gathers { OnOk result (GathersIn self.old self.new) }
        ensures refused { IfErr result (λ refusal. RefusesGathering refusal self.old self.new) }
    {
        match mem::replace(self, Role::Nothing) {
            Role::Committer(committer) => self.gather_phase(alloc, committer),
            other => {
                self.put(other);
                Err(Refusal::NotSo)
            }
        }
    }

    /// The phase whose committer it had is gathered.
    fn gather_phase(
        &mut self,
        alloc: Global,
        committer: Committer<R, HostDisk>,
    ) -> Result<(), Refusal>
        requires { self.old ≡ Role.Nothing }
        ensures gathers { OnOk result (GathersIn (Role.Committer committer) self.new) }
        ensures refused { IfErr result (λ refusal. RefusesGathering refusal (Role.Committer committer) self.new) }
    {
        match committer.gather(alloc) {
            Ok(vault) => {
                self.put(Role::Vault(vault));
                Ok(())
            }
            Err((committer, fault)) => {
                self.put(Role::Committer(committer));
                Err(of_gather(fault))
            }
        }
    }

    /// A vault is lent, with room for so many growths, to a phase with so many seats, whose end is answered, and to who commits.
    /// `Memory` too where its caller has no room for that end. Where there was no memory for what these share, it is no end.
    pub(crate) fn share(
        &mut self,
        alloc: Global,
        growths: u64,
        seats: u16,
        has_room: bool,
    ) -> Result<Role<R>, Refusal>
        ensures shares { IfOk result (λ end. SharesOut growths seats end self.old self.new) }
        ensures room { OnOk result (has_room ≡ true) }
        ensures refused { IfErr result (λ refusal. RefusesSharing growths seats refusal self.old self.new) }
    {
        match mem::replace(self, Role::Nothing) {
            Role::Vault(vault) => self.share_vault(alloc, vault, growths, seats, has_room),
            other => {
                self.put(other);
                Err(Refusal::NotSo)
            }
        }
    }

    /// The vault that it had is lent.
    fn share_vault(
        &mut self,
        alloc: Global,
        vault: HostVault<R, HostDisk>,
        growths: u64,
        seats: u16,
        has_room: bool,
    ) -> Result<Role<R>, Refusal>
        requires { self.old ≡ Role.Nothing }
        ensures shares { IfOk result (λ end. SharesOut growths seats end (Role.Vault vault) self.new) }
        ensures room { OnOk result (has_room ≡ true) }
        ensures refused { IfErr result (λ refusal. RefusesSharing growths seats refusal (Role.Vault vault) self.new) }
    {
        if !has_room {
            self.put(Role::Vault(vault));
            return Err(Refusal::Memory);
        }
        match vault.share(alloc, growths, seats) {
            Ok((phase, committer)) => {
                self.put(Role::Committer(committer));
                Ok(Role::Phase(phase))
            }
            Err((left, fault)) => Err(self.keep_vault(left, fault)),
        }
    }

    /// It has the vault again that a refused sharing left, if it left one.
    fn keep_vault(&mut self, left: Option<HostVault<R, HostDisk>>, fault: PenFault) -> Refusal
        ensures { MatchOption left
            ((result ≡ Refusal.Memory) × (self.new ≡ self.old))
            (λ vault. (result ≡ of_pen fault) × (self.new ≡ Role.Vault vault)) }
    {
        match left {
            Some(vault) => {
                self.put(Role::Vault(vault));
                of_pen(fault)
            }
            None => Refusal::Memory,
        }
    }

    /// How many records a vault has.
    pub(crate) fn measure(&self) -> Result<u64, Refusal>
        ensures size { IfOk result (λ size. Measures size self.now self.now) }
        ensures refused { IfErr result (λ refusal. IsNoVault refusal self.now self.now) }
    {
        match self {
            Role::Vault(vault) => Ok(vault.len()),
            _ => Err(Refusal::NotSo),
        }
    }

    /// Writes the records that these bytes are over those of a vault from position `start` on. `NoRecord`.
    pub(crate) fn change(&mut self, alloc: Global, start: u64, bytes: &[u8]) -> Result<(), Refusal>
        ensures changes { OnOk result (Changes start bytes.now self.old self.new) }
        ensures refused { IfErr result (λ refusal. RefusesChange start bytes.now refusal self.old self.new) }
    {
        match self {
            Role::Vault(vault) => {
                let records = records_of::<R>(alloc, bytes)?;
                match vault.change(start, &records) {
                    Ok(()) => Ok(()),
                    Err(fault) => Err(of_vault(fault)),
                }
            }
            _ => Err(Refusal::NotSo),
        }
    }

    /// Makes the length of a vault `size`: takes records away, or appends copies of the one that these bytes are. `NoRecord`.
    pub(crate) fn resize(&mut self, size: u64, filler: &[u8]) -> Result<(), Refusal>
        ensures resizes { OnOk result (Resizes size filler.now self.old self.new) }
        ensures refused { IfErr result (λ refusal. RefusesResize size filler.now refusal self.old self.new) }
    {
        match self {
            Role::Vault(vault) => match record_of(filler) {
                Some(record) => match vault.resize(size, record) {
                    Ok(()) => Ok(()),
                    Err(fault) => Err(of_vault(fault)),
                },
                None => Err(Refusal::NoRecord),
            },
            _ => Err(Refusal::NotSo),
        }
    }

    /// Folds all changes of a vault, and answers whether there were some.
    pub(crate) fn fold(&mut self) -> Result<bool, Refusal>
        ensures folds { IfOk result (λ folded. FoldsAll folded self.old self.new) }
        ensures refused { IfErr result (λ refusal. RefusesFolding refusal self.old self.new) }
    {
        match self {
            Role::Vault(vault) => match vault.fold() {
                Ok(folded) => Ok(folded),
                Err(fault) => Err(of_vault(fault)),
            },
            _ => Err(Refusal::NotSo),
        }
    }
}
