//! Where to begin to look for a position among slices of many lengths.

ghost use Rattle.std.specs.Prelude.{◌≡◌};

use std::alloc::Global;

/// For every page of 2^bits positions, which slice begins last at or before the page's first position. A page is no longer
/// than the slices are in the mean, so few slices begin in it, and the hints take at most 8 bytes for each slice. Nothing
/// rests on them: who follows one tests it.
#[derive(Drop)]
pub(crate) struct Hints {
    firsts: Vec<u32>,
    bits: u32,
}

/// The number of the last start from that one on that is at or before `i`, if that one is.
fn walk(starts: &[u32], from: u32, i: u64) -> u32 {
    let mut number = from;
    for start in starts
        .get((from as usize).saturating_add(1)..)
        .unwrap_or(&[])
    {
        if *start as u64 > i {
            break;
        }
        number = number.saturating_add(1);
    }
    number
}

impl Hints {
    /// No hints, and no memory.
    pub(crate) fn new(alloc: Global) -> Hints {
        Hints {
            firsts: Vec::new(alloc),
            bits: 0,
        }
    }

    /// The page of position `i`.
    fn page_of(&self, i: u64) -> usize {
        i.checked_shr(self.bits).unwrap_or(0) as usize
    }

    /// The first position of a page.
    fn start_of(&self, page: usize) -> u64 {
        (page as u64).checked_shl(self.bits).unwrap_or(0)
    }

    /// From which slice on, and before which, position `i` stands, of so many slices.
    pub(crate) fn around(&self, i: u64, count: usize) -> (usize, usize) {
        let page = self.page_of(i);
        let low = match self.firsts.get(page) {
            Some(number) => *number as usize,
            None => 0,
        };
        let high = match self.firsts.get(page.saturating_add(1)) {
            Some(number) => (*number as usize).saturating_add(1),
            None => count,
        };
        (low, high)
    }

    /// Adds hints for the slices that were put behind those that have some. Where the mean length has come into another
    /// power of two they are all made anew. Where there is no memory for them there are none.
    pub(crate) fn extend(&mut self, starts: &[u32], size: u64) {
        let bits = match size.checked_div(starts.len() as u64) {
            Some(mean) => mean.checked_ilog2().unwrap_or(0),
            None => 0,
        };
        if bits != self.bits {
            self.firsts.clear();
            self.bits = bits;
        }
        let pages = self.page_of(size);
        let had = self.firsts.len();
        if self.firsts.reserve(pages.saturating_sub(had)).is_err() {
            self.firsts.clear();
            return;
        }
        let mut number = self.firsts.last().copied().unwrap_or(0);
        for page in had..pages {
            number = walk(starts, number, self.start_of(page));
            if self.firsts.push(number).is_err() {
                return;
            }
        }
    }
}
