//! What the file of a pen holds at each moment.

ghost use Rattle.std.specs.Prelude.{◌≡◌, ◌<◌, ◌^◌, None};
ghost use Rattle.witness_core.specs.Witnessed.{WitnessStart, witness_start, IsWitnessed, HoldsPensFile};

use disk_core::Disk;
use pen_core::Pen;

/// Of a pen at rest, from now on its file is one that may be read beside it.
pub fn witness<D: Disk>(pen: &Pen<D>)
    requires wide { (0 < pen.now.shape.width) × (pen.now.shape.width < 2 ^ 16) }
    requires rests { (pen.now.job ≡ None) × (pen.now.fold ≡ None) }
    ensures witnessed { D.keeps pen.now.disk → IsWitnessed (witness_start (D.states pen.now.disk) pen.now) (D.states pen.now.disk) pen.now }
{
    pen.disk();
}

/// At each moment so far the file of a pen that is witnessed was one that may be read beside it.
pub fn holds<D: Disk>(pen: &Pen<D>)
    ensures file { (from : WitnessStart) → IsWitnessed from (D.states pen.now.disk) pen.now → HoldsPensFile from (D.states pen.now.disk) pen.now }
{
    pen.stage();
}
