//! Growths that threads publish and find beside one another.

ghost use Rattle.std.specs.Prelude.{◌≡◌};

use block_core::{Fresh, Label};
use directory_core::{DirFault, Directory, Pass};
use std::alloc::Global;

mod threads;

/// Publishes a growth of these records behind those that the pass knows.
fn put(
    alloc: Global,
    directory: &Directory<u64>,
    pass: &mut Pass<u64>,
    records: &[u64],
) -> Result<(), DirFault>
    requires { pass.old.of ≡ directory.now }
    ensures { pass.new.of ≡ directory.now }
{
    let Ok(fresh) = Fresh::from_slice(alloc, records) else {
        return Err(DirFault::Memory);
    };
    let Ok(start) = u32::try_from(pass.size()) else {
        return Err(DirFault::Full);
    };
    let entry = fresh.seal(Label {
        number: pass.known() as u32,
        start,
        serial: 0,
        seat: 0,
    });
    match directory.publish(pass, entry) {
        Ok(()) => Ok(()),
        Err((_, fault)) => Err(fault),
    }
}

/// The number of the growth that the pass knows by that number.
fn read(directory: &Directory<u64>, pass: &mut Pass<u64>, number: u64) -> Option<u64>
    requires { pass.old.of ≡ directory.now }
    ensures { pass.new ≡ pass.old }
{
    Some(directory.entry(pass, number)?.number())
}
