//! A touch of many records, in several threads.

ghost use Rattle.std.specs.Prelude.{◌≤◌, ◌<◌, ◌+◌, ◌^◌, length};
ghost use Rattle.block_core.specs.Touched.{TouchedFrom};

use crate::touching::Touch;
use rayon::slice::par_chunks_mut_for_each;
use std::thread::Threads;

/// Fewer records than these are touched by the calling thread: to start others would take longer.
const FEW: usize = 4096;

/// Touches the records, the first of which stands at the place `at`, in parts of `part` records, and in several
/// threads at once. However the parts are cut, each record becomes what the touch makes of it alone. Few records,
/// and records of one part, are touched by the calling thread, part by part. It takes no memory for the records.
pub fn touch_parts<R: Copy + Send + Sync, E: Threads + Sync, T: Touch<R>>(
    rt: &E,
    at: u64,
    records: &mut [R],
    part: usize,
    touch: &T,
)
    requires some { 0 < part }
    requires inside { at + length records.old ≤ 2 ^ 32 }
    ensures { TouchedFrom (T.one touch.now) at records.old records.new }
{
    if records.len() < FEW || records.len() <= part {
        return touch_in_turn(at, records, part, touch);
    }
    par_chunks_mut_for_each(
        rt,
        records,
        part,
        |start: usize, chunk: &mut [R]|
            requires { at + start + length chunk.now ≤ 2 ^ 32 }
            ensures { TouchedFrom (T.one touch.entry.now) (at + start) chunk.entry.now chunk.exit.now }
        { touch.touch(at + start as u64, chunk) },
    );
}

/// The same by the calling thread alone.
fn touch_in_turn<R: Copy, T: Touch<R>>(at: u64, records: &mut [R], part: usize, touch: &T)
    requires some { 0 < part }
    requires inside { at + length records.old ≤ 2 ^ 32 }
    ensures { TouchedFrom (T.one touch.now) at records.old records.new }
{
    let mut done = 0;
    while done < records.len() {
        let len = part.min(records.len() - done);
        touch.touch(at + done as u64, &mut records[done..done + len]);
        done += len;
    }
}
