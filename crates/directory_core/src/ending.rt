//! What ends a directory behind its last growth.

ghost use Rattle.directory_core.specs.Notes.{IsEnd};

use crate::address::PLACE_LIMIT;
use crate::bucket::Bucket;
use block_core::{Entry, Fresh, Label};
use record_core::Record;
use std::alloc::{AllocError, Global};

/// The label of the end: no directory has a growth of that number.
const END: Label = Label {
    number: PLACE_LIMIT as u32,
    start: 0,
    serial: 0,
    seat: 0,
};

/// What a pass can end its directory by: the entry for the cell behind the last growth, and a bucket without places,
/// where that cell's bucket wasn't made. The memory for both is there before it is needed.
#[derive(Drop)]
pub(crate) struct Ends<R: Record> {
    pub(crate) entry: Box<Entry<R>>,
    pub(crate) bucket: Box<Bucket<R>>,
    ghost is_end: { IsEnd entry.value },
}

impl<R: Record> Ends<R> {
    pub(crate) fn new(alloc: Global) -> Result<Ends<R>, AllocError> {
        let Ok(blank) = Fresh::<R>::new(alloc, 1) else {
            return Err(AllocError);
        };
        Ok(Ends {
            entry: blank.seal(END),
            bucket: Bucket::without_places(alloc)?,
        })
    }
}
