//! The ticks of a pen that is witnessed.

ghost use Rattle.std.specs.Prelude.{◌≡◌, None, OnOk, IfOk, IfErr, MatchResult};
ghost use Rattle.pen_core.specs.Pen.{IsTicked, IsTickFault, LogTickCalls, LogTickFails, IsHomeTicked, IsHomeFault, HomeTickCalls, HomeTickFails};
ghost use Rattle.witness_core.specs.Witnessed.{WitnessStart, IsWitnessed};

use disk_core::Disk;
use pen_core::{HomeTicked, Pen, PenFault, Ticked};

/// `Pen::tick_log`: also where it fails, the pen stays witnessed.
pub fn tick_log<D: Disk>(pen: &mut Pen<D>) -> Result<Ticked, PenFault>
    ensures witnessed { D.keeps pen.new.disk → (from : WitnessStart) → IsWitnessed from (D.states pen.old.disk) pen.old → IsWitnessed from (D.states pen.new.disk) pen.new }
    ensures calls { D.keeps pen.new.disk → MatchResult result
        (λ ticked. LogTickCalls pen.old ticked (D.states pen.old.disk) (D.states pen.new.disk))
        (λ _. LogTickFails pen.old.broken pen.old (D.states pen.old.disk) (D.states pen.new.disk)) }
    ensures ticked { IfOk result (λ ticked. IsTicked pen.old pen.new ticked) }
    ensures refused { IfErr result (λ fault. IsTickFault pen.old pen.new fault) }
    ensures model { D.keeps pen.new.disk → D.keeps pen.old.disk }
{
    pen.tick_log()
}

/// `Pen::tick_home`: also where it fails, the pen stays witnessed.
pub fn tick_home<D: Disk>(pen: &mut Pen<D>) -> Result<HomeTicked, PenFault>
    ensures witnessed { D.keeps pen.new.disk → (from : WitnessStart) → IsWitnessed from (D.states pen.old.disk) pen.old → IsWitnessed from (D.states pen.new.disk) pen.new }
    ensures calls { D.keeps pen.new.disk → MatchResult result
        (λ ticked. HomeTickCalls pen.old.fold ticked (D.states pen.old.disk) (D.states pen.new.disk))
        (λ _. HomeTickFails pen.old.broken pen.old.fold (D.states pen.old.disk) (D.states pen.new.disk)) }
    ensures ticked { IfOk result (λ ticked. IsHomeTicked pen.old pen.new ticked) }
    ensures refused { IfErr result (λ fault. IsHomeFault pen.old pen.new fault) }
    ensures model { D.keeps pen.new.disk → D.keeps pen.old.disk }
{
    pen.tick_home()
}

/// `Pen::settle_log`: also where a tick fails, the pen stays witnessed.
pub fn settle_log<D: Disk>(pen: &mut Pen<D>) -> Result<(), PenFault>
    ensures witnessed { D.keeps pen.new.disk → (from : WitnessStart) → IsWitnessed from (D.states pen.old.disk) pen.old → IsWitnessed from (D.states pen.new.disk) pen.new }
    ensures settled { OnOk result (pen.new.job ≡ None) }
    ensures model { D.keeps pen.new.disk → D.keeps pen.old.disk }
{
    while let Ticked::Step = tick_log(pen)? {}
    Ok(())
}
