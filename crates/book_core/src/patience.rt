//! How a grower waits where others come before it.

ghost use Rattle.std.specs.Prelude.{◌≡◌, ◌≤◌};
ghost use Rattle.book_core.specs.Naps.{longest_nap, IsNextNap};

use std::hint;
use std::sync::Wait;
use std::sync::atomic::AtomicU64;
use std::time::Duration;

/// For how many turns a grower pauses where another came before it for the first time.
const PAUSES: u32 = 64;

/// For how many microseconds it sleeps then: twice as long each time.
const FIRST_NAP: u64 = 20;

/// For how many microseconds it sleeps at most.
const LONGEST_NAP: u64 = 160;

/// How long a grower gives way next. Who came first grows on meanwhile, as fast as alone, and who gave way then learns of
/// many growths at once: two that took turns at each growth would fetch each of the other's from its processor. It sleeps
/// rather than spins, since growers that spin on all processors keep the disk's own threads from them.
#[derive(Drop)]
pub(crate) struct Patience {
    /// In microseconds. 0 is to pause.
    nap: u64,
    ghost bounded: { nap ≤ longest_nap },
}

impl Patience {
    pub(crate) fn new() -> Patience {
        Patience { nap: 0 }
    }

    /// For how many microseconds it sleeps now: not at all the first time, and then twice as long each time, up to the
    /// longest nap.
    fn next_nap(&mut self) -> u64
        ensures now { result ≡ self.old.nap }
        ensures bounded { result ≤ longest_nap }
        ensures next { IsNextNap result self.new.nap }
    {
        let nap = self.nap;
        self.nap = if nap == 0 {
            FIRST_NAP
        } else {
            (2 * nap).min(LONGEST_NAP)
        };
        nap
    }

    /// Lets others grow, for longer each time.
    pub(crate) fn give_way<E: Wait>(&mut self, rt: &E) {
        let nap = self.next_nap();
        if nap == 0 {
            for _ in 0..PAUSES {
                hint::spin_loop();
            }
            return;
        }
        // Nobody wakes it.
        AtomicU64::new(0).park_timeout(rt, 0, Duration::from_micros(nap));
    }
}
