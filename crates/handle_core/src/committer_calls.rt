//! The calls of who commits.

ghost use Rattle.std.specs.Prelude.{◌≡◌, IfOk, IfErr};
ghost use Rattle.handle_core.specs.Roles.{Plans, Lists, Settles, RefusesPlan, RefusesCalls, RefusesSettle};

use crate::end::Role;
use crate::faults::of_flush;
use c_core::Refusal;
use record_core::Record;
use relay_core::Call;

impl<R: Record> Role<R> {
    /// Lists the calls that commit what was grown, and answers how many growths they commit.
    pub(crate) fn plan(&mut self) -> Result<u64, Refusal>
        ensures plans { IfOk result (λ count. Plans count self.old self.new) }
        ensures refused { IfErr result (λ refusal. RefusesPlan refusal self.old self.new) }
    {
        match self {
            Role::Committer(committer) => match committer.plan() {
                Ok(count) => Ok(count),
                Err(fault) => Err(of_flush(fault)),
            },
            _ => Err(Refusal::NotSo),
        }
    }

    /// The calls that the host is to make, in order.
    pub(crate) fn calls(&self) -> Result<&[Call], Refusal>
        ensures listed { IfOk result (λ calls. Lists calls.now self.now) }
        ensures refused { IfErr result (λ refusal. RefusesCalls refusal self.now) }
    {
        match self {
            Role::Committer(committer) => match committer.calls() {
                Some(calls) => Ok(calls),
                None => Err(Refusal::Broken),
            },
            Role::Vault(vault) => match vault.calls() {
                Some(calls) => Ok(calls),
                None => Err(Refusal::Broken),
            },
            _ => Err(Refusal::NotSo),
        }
    }

    /// The host has made the calls, and each has succeeded: the growers are told what is durable. Answers how many growths
    /// are: 0 of a vault.
    pub(crate) fn settle(&mut self) -> Result<u64, Refusal>
        ensures settled { IfOk result (λ count. Settles count self.old self.new) }
        ensures refused { IfErr result (λ refusal. RefusesSettle refusal self.old self.new) }
    {
        match self {
            Role::Committer(committer) => match committer.settle() {
                Some(count) => Ok(count),
                None => Err(Refusal::Broken),
            },
            Role::Vault(vault) => match vault.settle() {
                Some(()) => Ok(0),
                None => Err(Refusal::Broken),
            },
            _ => Err(Refusal::NotSo),
        }
    }
}
