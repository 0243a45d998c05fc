//! The lists that the images of a disk open to.

use crate::choice::{KINDS, choice, choices};
use crate::distinct_texts::BAR;
use disk_core::{Blow, Disk, FuseDisk, RamDisk};
use drive_core::{Answer, Driven, Step, drive};
use play_core::write_answers;
use segment_core::scan;
use std::alloc::Global;
use std::io::{self, Write};
use std::sync::Wait;
use std::thread::Threads;
use text_core::{TextRecord, write_number};

/// A longer list is told by its length and a hash of its text.
const LIST_LIMIT: usize = 40;

/// A longer image isn't resized.
const IMAGE_LIMIT: usize = 4_096;

/// The calls of an opening and of a commit.
const RESIZE_CALLS: u64 = 7;

/// An image with its hash, and what it opens to.
#[derive(Drop)]
struct Known {
    hash: u64,
    image: Vec<u8>,
    list: Vec<u8>,
}

/// What was looked at so far.
#[derive(Drop)]
pub struct Looks {
    alloc: Global,
    known: Vec<Known>,
}

/// A copy of the bytes.
pub fn copied(alloc: Global, bytes: &[u8]) -> io::Result<Vec<u8>> {
    Ok(Vec::from_slice(alloc, bytes)?)
}

/// Runs the steps on a disk.
pub fn driven<R: TextRecord, D: Disk + Drop, E: Threads + Wait + Sync>(
    alloc: Global,
    rt: &E,
    disk: D,
    steps: &[Step<R>],
) -> io::Result<Driven<R, D>> {
    match drive(alloc, rt, disk, steps) {
        Ok(driven) => Ok(driven),
        Err((_, fault)) => Err(fault.into()),
    }
}

/// The FNV-1a hash of a text.
fn hash_of(text: &[u8]) -> u64 {
    let mut hash = 0xcbf2_9ce4_8422_2325u64;
    for byte in text {
        hash = (hash ^ u64::from(*byte)).wrapping_mul(0x100_0000_01b3);
    }
    hash
}

/// Whether all images open to the longer list, or to the one before where the command wasn't settled.
fn are_either<R: TextRecord>(
    alloc: Global,
    disk: &RamDisk,
    list: &[R],
    longer: &[R],
    settled: bool,
) -> io::Result<bool> {
    for k in 0..KINDS {
        let image = disk.image(&choice(k))?;
        let Ok(found) = scan::<R>(alloc, image.as_slice()) else {
            return Ok(false);
        };
        let found = found.records;
        if found.as_slice() != longer && (settled || found.as_slice() != list) {
            return Ok(false);
        }
    }
    Ok(true)
}

/// The steps that resize a file up to that list, whose last record is the blank one.
fn steps_up_to<R: TextRecord>(alloc: Global, longer: &[R]) -> io::Result<Vec<Step<R>>> {
    let mut steps = Vec::new(alloc);
    steps.push(Step::Open)?;
    steps.push(Step::Resize(longer.len() as u64, R::blank()))?;
    Ok(steps)
}

/// What these steps leave of an image on a disk that stops behind so many calls, and whether all of them were made.
fn stopped_on<R: TextRecord, E: Threads + Wait + Sync>(
    alloc: Global,
    rt: &E,
    image: &[u8],
    steps: &[Step<R>],
    calls: u64,
) -> io::Result<(RamDisk, bool)> {
    let disk = RamDisk::from_bytes(alloc, copied(alloc, image)?);
    let left = driven(alloc, rt, FuseDisk::new(disk, calls, Blow::Stop), steps)?;
    let settled = matches!(left.answers.last(), Some(Answer::Fine));
    Ok((left.disk.into_inner(), settled))
}

/// Whether an image is resized up by a record on a disk that stops at each call of that, with no record lost.
fn goes_on<R: TextRecord, E: Threads + Wait + Sync>(
    alloc: Global,
    rt: &E,
    image: &[u8],
    list: &[R],
) -> io::Result<bool> {
    let mut longer = Vec::from_slice(alloc, list)?;
    longer.push(R::blank())?;
    let steps = steps_up_to(alloc, longer.as_slice())?;
    for calls in 0..=RESIZE_CALLS {
        let (disk, settled) = stopped_on(alloc, rt, image, steps.as_slice(), calls)?;
        let kept = are_either(alloc, &disk, list, longer.as_slice(), settled)?;
        if !kept || settled != (calls == RESIZE_CALLS) {
            return Ok(false);
        }
    }
    Ok(true)
}

/// Writes the records, or where they are many how many and a hash of what they would be written as.
fn write_records<R: TextRecord>(
    alloc: Global,
    records: Vec<R>,
    text: &mut Vec<u8>,
) -> io::Result<()> {
    let count = records.len();
    let mut line = Vec::new(alloc);
    write_answers(&mut line, &[Answer::Listed(records)])?;
    line.pop();
    if count <= LIST_LIMIT {
        text.extend_from_slice(line.as_slice())?;
        return Ok(());
    }
    write_number(text, count as u64)?;
    text.extend_from_slice(b" records, hash ")?;
    write_number(text, hash_of(line.as_slice()))
}

/// What an image opens to.
fn list_of<R: TextRecord, E: Threads + Wait + Sync>(
    alloc: Global,
    rt: &E,
    image: &[u8],
) -> io::Result<Vec<u8>> {
    let mut text = Vec::new(alloc);
    let records = match scan::<R>(alloc, image) {
        Ok(scanned) => scanned.records,
        Err(fault) => {
            write!(text, "{fault}")?;
            return Ok(text);
        }
    };
    let kept = image.len() > IMAGE_LIMIT || goes_on(alloc, rt, image, records.as_slice())?;
    write_records(alloc, records, &mut text)?;
    if !kept {
        text.extend_from_slice(b" (lost)")?;
    }
    Ok(text)
}

/// Adds a list in its place among others, if it isn't there.
fn add_list(lists: &mut Vec<Vec<u8>>, list: Vec<u8>) -> io::Result<()> {
    let mut place = 0usize;
    for other in lists.iter() {
        if *other == list {
            return Ok(());
        }
        if *other < list {
            place = place.saturating_add(1);
        }
    }
    lists.insert(place.min(lists.len()), list)?;
    Ok(())
}

/// Writes the lists with a bar between each two.
fn write_lists(lists: &[Vec<u8>], out: &mut Vec<u8>) -> io::Result<()> {
    for (k, list) in lists.iter().enumerate() {
        if k > 0 {
            out.extend_from_slice(BAR)?;
        }
        out.extend_from_slice(list.as_slice())?;
    }
    Ok(())
}

impl Looks {
    pub fn new(alloc: Global) -> Looks {
        Looks {
            alloc,
            known: Vec::new(alloc),
        }
    }

    /// What an image that was looked at before opens to.
    fn find(&self, hash: u64, image: &[u8]) -> io::Result<Option<Vec<u8>>> {
        for known in self.known.iter() {
            if known.hash == hash && known.image.as_slice() == image {
                return Ok(Some(copied(self.alloc, known.list.as_slice())?));
            }
        }
        Ok(None)
    }

    /// What an image opens to.
    fn look<R: TextRecord, E: Threads + Wait + Sync>(
        &mut self,
        rt: &E,
        image: Vec<u8>,
    ) -> io::Result<Vec<u8>> {
        let hash = hash_of(image.as_slice());
        if let Some(list) = self.find(hash, image.as_slice())? {
            return Ok(list);
        }
        let list = list_of::<R, E>(self.alloc, rt, image.as_slice())?;
        let kept = copied(self.alloc, list.as_slice())?;
        self.known.push(Known {
            hash,
            image,
            list: kept,
        })?;
        Ok(list)
    }

    /// Writes what the images of a disk open to: each list once, in the order of their texts.
    pub fn write<R: TextRecord, E: Threads + Wait + Sync>(
        &mut self,
        rt: &E,
        disk: &RamDisk,
        out: &mut Vec<u8>,
    ) -> io::Result<()> {
        let mut lists = Vec::new(self.alloc);
        for k in 0..choices(disk) {
            let image = disk.image(&choice(k))?;
            let list = self.look::<R, E>(rt, image)?;
            add_list(&mut lists, list)?;
        }
        write_lists(lists.as_slice(), out)
    }
}
