//! The calls of a phase.

ghost use Rattle.std.specs.Prelude.{◌≡◌, IfOk, IfErr};
ghost use Rattle.handle_core.specs.Roles.{Seats, RefusesSeat};

use crate::end::Role;
use c_core::Refusal;
use phase_core::SeatFault;
use record_core::Record;

impl<R: Record> Role<R> {
    /// The end of one more thread. `NotSo` where each seat is taken; `Memory`.
    pub(crate) fn seat(&mut self) -> Result<Role<R>, Refusal>
        ensures seated { IfOk result (λ seat. Seats seat self.old self.new) }
        ensures refused { IfErr result (λ refusal. RefusesSeat refusal self.old self.new) }
    {
        match self {
            Role::Phase(phase) => match phase.grower() {
                Ok(grower) => Ok(Role::Grower(grower)),
                Err(SeatFault::Taken) => Err(Refusal::NotSo),
                Err(SeatFault::Memory) => Err(Refusal::Memory),
            },
            _ => Err(Refusal::NotSo),
        }
    }
}
