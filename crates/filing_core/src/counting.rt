//! The gate of `load`, which tells how far it is.

use book_core::Receipt;
use crew_core::Gate;
use files_core::Progress;
use std::sync::atomic::{AtomicU64, Ordering};

/// Holds no grower up, and tells how many growths were made.
#[derive(Drop)]
pub struct CountingGate<'a, P> {
    progress: &'a P,
    made: AtomicU64,
    of: u64,
}

impl<'a, P: Progress> CountingGate<'a, P> {
    /// None of so many growths is made.
    pub fn new(progress: &'a P, of: u64) -> CountingGate<'a, P> {
        CountingGate {
            progress,
            made: AtomicU64::new(0),
            of,
        }
    }
}

impl<'a, P: Progress + Sync> Gate for CountingGate<'a, P> {
    ghost may_stop = { λ gate grower k. ⊥ };

    fn before(&self, _grower: u16, _k: u32) -> bool {
        true
    }

    fn after(&self, _grower: u16, _receipt: &Receipt) {
        let before = self.made.fetch_add(1, Ordering::SeqCst);
        self.progress.at(before.saturating_add(1), self.of);
    }
}
