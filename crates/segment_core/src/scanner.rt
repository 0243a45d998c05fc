//! Reading an image piece by piece.

ghost use Rattle.std.specs.Prelude.{◌≡◌, ◌≤◌, ◌<◌, ◌+◌, ◌^◌, ◌++◌, ◌⊎◌, [], ℕ, List, Some, None, Err, length, take, drop, OnOk, IfErr, MatchResult, min, vec_capacity, ◌-◌, ◌/◌, true, false};
ghost use Rattle.record_core.specs.Limits.{record_limit};
ghost use Rattle.segment_core.specs.Shape.{shape_of, format_in};
ghost use Rattle.segment_core.specs.Frame.{header_len, header};
ghost use Rattle.segment_core.specs.Fault.{header_fault, IsRefused};
ghost use Rattle.segment_core.specs.Found.{AreHomesOf};
ghost use Rattle.segment_core.specs.Scanned.{IsScanOf};
ghost use Rattle.segment_core.specs.Scanner.{len_told, GoesOn, HasEnded, IsOn, IsRefusedFor, IsFedAt, IsFed, IsLost, IsDecided, IsCutShort, CanHold};

use crate::fault::ScanFault;
use crate::file_header::check_header;
use crate::format::{FRAME_HEAD_LEN, Format, HEADER_LEN, Shape};
use crate::found::Homes;
use crate::frame_head::{Unread, u32_at};
use crate::vector::Scanned;
use crate::walk::{Tail, Walk};
use record_core::{GROWTH_HEAD_LEN, RECORD_LIMIT, Record, width_of};
use std::alloc::Global;

/// How far an image has been read.
#[derive(Clone, Copy)]
pub(crate) enum ScanStage {
    /// Its header isn't whole yet.
    Header,
    /// The frames go on.
    Open,
    /// A closed gate has ended the frames; what follows means nothing.
    Closed,
    /// The first fault is known, or memory was refused.
    Refused(ScanFault),
}

/// A scan of an image that comes in pieces. Whatever the pieces are, `end` answers what `scan` does of all of
/// them joined. It keeps the records, where they stand, the live changes, and at most one further frame.
#[derive(Drop)]
pub struct Scanner<R> {
    alloc: Global,
    /// The bytes of the whole image, as far as they were told; 0 where they weren't.
    told: u64,
    header: [u8; HEADER_LEN],
    /// The bytes of the header so far.
    filled: usize,
    stage: ScanStage,
    /// The front of a frame whose end hasn't come yet.
    pending: Vec<u8>,
    walk: Walk<R>,
}

/// How many bytes to take next: all where no frame has begun, else what is left of its head, or of the whole frame.
fn wanted(pending: &[u8]) -> usize
    ensures some { 0 < result }
    ensures left { 0 < length pending.now → length pending.now < len_told pending.now → length pending.now + result ≡ len_told pending.now }
{
    if pending.is_empty() {
        return usize::MAX;
    }
    let told = if pending.len() < FRAME_HEAD_LEN {
        FRAME_HEAD_LEN
    } else {
        FRAME_HEAD_LEN + u32_at(pending, 2) as usize
    };
    told.saturating_sub(pending.len()).max(1)
}

impl<R: Record> Scanner<R> {
    /// A scanner of the empty image. It takes no memory.
    pub fn new(alloc: Global) -> Scanner<R>
        ensures { IsFed R.form [] result }
    {
        Scanner::of_length(alloc, 0)
    }

    /// The same, where the whole image is known to have so many bytes. It takes no memory either: that of the
    /// vector is taken once, when the header has proved sound, for as many records as groups can have in so many
    /// bytes, and never more than `RECORD_LIMIT`; an image whose header has a fault takes none. What no record
    /// fills of it is address space alone. A length that is wrong, or too much to have memory for, changes no
    /// answer: the vector then grows as it does without.
    pub fn of_length(alloc: Global, bytes: u64) -> Scanner<R>
        ensures { IsFed R.form [] result }
    {
        let shape = Shape {
            format: Format::One,
            width: width_of::<R>(),
        };
        Scanner {
            alloc,
            told: bytes,
            header: [0; HEADER_LEN],
            filled: 0,
            stage: ScanStage::Header,
            pending: Vec::new(alloc),
            walk: Walk::new(alloc, shape, 0),
        }
    }

    /// How many records groups can have in an image of the length that was told, in a file of this format: those
    /// of as many full groups as it has bytes for, and of one more. No group has more than one growth then.
    fn room(&self, format: Format) -> usize
        ensures few { result ≤ record_limit }
        ensures held { 0 < result → CanHold (shape_of format R.form) self.now.told result }
        ensures most { (records : ℕ) → CanHold (shape_of format R.form) self.now.told records → records ≤ record_limit → records ≤ result }
    {
        let width = width_of::<R>() as u64;
        let head = (FRAME_HEAD_LEN + GROWTH_HEAD_LEN) as u64;
        let in_group = (format.payload_limit() - GROWTH_HEAD_LEN) as u64 / width;
        let group = head + in_group * width;
        let bytes = self.told.saturating_sub(HEADER_LEN as u64 + 1);
        let last = (bytes % group).saturating_sub(head) / width;
        (bytes / group * in_group + last).min(RECORD_LIMIT) as usize
    }

    /// Takes in the next piece of the image. Only want of memory is refused here, and again by every later
    /// call; any other fault is told by `end`.
    pub fn feed(&mut self, piece: &[u8]) -> Result<(), ScanFault>
        requires { (image : List ℕ) × IsFed R.form image self.old × (length image + length piece.now < 2 ^ 64) }
        ensures fed { (image : List ℕ) → IsFed R.form image self.old → IsFed R.form (image ++ piece.now) self.new }
        ensures memory { IfErr result (λ fault. (fault ≡ ScanFault.Memory) × IsLost self.new) }
        ensures lost { IsLost self.old → result ≡ Err ScanFault.Memory }
    {
        let used = self.begin(piece);
        self.feed_rest(&piece[used..]);
        self.answer()
    }

    /// Whether what follows means nothing: the answer is known, and `end` answers of the image with any bytes
    /// behind it what it answers of the image so far. So it is once a closed gate has ended the frames, and
    /// once the first fault is known, but for those of an image that is cut short: they stand as long as the
    /// image ends where it does. Where memory was refused the answer isn't known.
    pub fn is_decided(&self) -> bool
        // To the scanner the image is as good as fed with whatever follows.
        ensures fed { result ≡ true → (image more : List ℕ) → IsFed R.form image self.now → IsFed R.form (image ++ more) self.now }
        ensures same { result ≡ true → (image : List ℕ) → IsFed R.form image self.now → IsDecided R.form image }
        ensures cut { result ≡ false → (image : List ℕ) → IsFed R.form image self.now → IsLost self.now ⊎ IsCutShort R.form image }
        ensures lost { IsLost self.now → result ≡ false }
    {
        match self.stage {
            ScanStage::Header | ScanStage::Open => false,
            ScanStage::Closed => true,
            ScanStage::Refused(fault) => !matches!(fault, ScanFault::Memory),
        }
    }

    /// Whether memory was refused.
    fn answer(&self) -> Result<(), ScanFault>
        ensures memory { IfErr result (λ fault. (fault ≡ ScanFault.Memory) × IsLost self.now) }
        ensures lost { IsLost self.now → result ≡ Err ScanFault.Memory }
    {
        match self.stage {
            ScanStage::Refused(ScanFault::Memory) => Err(ScanFault::Memory),
            _ => Ok(()),
        }
    }

    /// Takes what is left of the header out of a piece, where it isn't whole yet.
    fn begin(&mut self, piece: &[u8]) -> usize
        requires { (image : List ℕ) × IsFed R.form image self.old }
        ensures used { result ≤ length piece.now }
        ensures fed { (image : List ℕ) → IsFed R.form image self.old → IsFed R.form (image ++ take result piece.now) self.new }
        ensures whole { self.new.stage ≡ ScanStage.Header → result ≡ length piece.now }
        ensures lost { IsLost self.old → IsLost self.new }
    {
        match self.stage {
            ScanStage::Header => self.feed_header(piece),
            _ => 0,
        }
    }

    /// Takes what is left of the header out of a piece, and answers how many bytes that was: all of them where
    /// it isn't whole even then.
    fn feed_header(&mut self, piece: &[u8]) -> usize
        requires fed { (image : List ℕ) × IsFedAt R.form image self.old ScanStage.Header }
        requires stage { self.old.stage ≡ ScanStage.Header }
        ensures used { result ≤ length piece.now }
        ensures fed { (image : List ℕ) → IsFedAt R.form image self.old ScanStage.Header → IsFed R.form (image ++ take result piece.now) self.new }
        ensures whole { self.new.stage ≡ ScanStage.Header → result ≡ length piece.now }
        ensures bare { (fault : ScanFault) → self.new.stage ≡ ScanStage.Refused fault → vec_capacity self.new.walk.found.records ≡ 0 }
    {
        let used = piece.len().min(HEADER_LEN - self.filled);
        self.header[self.filled..self.filled + used].copy_from_slice(&piece[..used]);
        self.filled += used;
        if self.filled == HEADER_LEN {
            match check_header(&self.header[..self.filled], width_of::<R>()) {
                Ok(format) => {
                    let width = width_of::<R>();
                    self.walk = Walk::new(self.alloc, Shape { format, width }, self.room(format));
                    self.stage = ScanStage::Open;
                }
                Err(fault) => self.stage = ScanStage::Refused(fault),
            }
        }
        used
    }

    /// Takes in bytes behind the header, where it is whole.
    fn feed_rest(&mut self, piece: &[u8])
        requires fed { (image : List ℕ) × IsFed R.form image self.old × (length image + length piece.now < 2 ^ 64) }
        requires header { self.old.stage ≡ ScanStage.Header → length piece.now ≡ 0 }
        ensures fed { (image : List ℕ) → IsFed R.form image self.old → IsFed R.form (image ++ piece.now) self.new }
        ensures lost { IsLost self.old → IsLost self.new }
    {
        if let ScanStage::Open = self.stage {
            if let Err(fault) = self.feed_frames(piece) {
                self.stage = ScanStage::Refused(fault);
            }
        }
    }

    /// Takes in bytes behind the header, as long as no gate is closed.
    fn feed_frames(&mut self, piece: &[u8]) -> Result<(), ScanFault>
        requires open { (image : List ℕ) × GoesOn R.form image self.old × (length image + length piece.now < 2 ^ 64) }
        requires stage { self.old.stage ≡ ScanStage.Open }
        ensures ok { OnOk result ((image : List ℕ) → GoesOn R.form image self.old → IsFed R.form (image ++ piece.now) self.new) }
        ensures err { IfErr result (λ fault. (image : List ℕ) → GoesOn R.form image self.old → IsRefusedFor R.form (image ++ piece.now) fault) }
    {
        let mut used = 0;
        while used < piece.len() {
            let ScanStage::Open = self.stage else {
                return Ok(());
            };
            let n = wanted(&self.pending).min(piece.len() - used);
            if self.pending.is_empty() {
                self.take(&piece[used..used + n])?;
            } else {
                self.pend(&piece[used..used + n])?;
            }
            used += n;
        }
        Ok(())
    }

    /// Takes in bytes that begin a frame.
    fn take(&mut self, bytes: &[u8]) -> Result<(), ScanFault>
        requires open { (image : List ℕ) × GoesOn R.form image self.old × (length image + length bytes.now < 2 ^ 64) }
        requires stage { self.old.stage ≡ ScanStage.Open }
        requires none { self.old.pending.items ≡ [] }
        ensures ok { OnOk result ((image : List ℕ) → GoesOn R.form image self.old → IsOn R.form (image ++ bytes.now) self.new) }
        ensures err { IfErr result (λ fault. (image : List ℕ) → GoesOn R.form image self.old → IsRefusedFor R.form (image ++ bytes.now) fault) }
    {
        let (used, tail) = self.walk.read(bytes)?;
        match tail {
            Tail::Closed => self.stage = ScanStage::Closed,
            Tail::Short => {
                match self.pending.extend_from_slice(&bytes[used..]) {
                    Ok(()) => {}
                    Err(_) => return Err(ScanFault::Memory),
                }
            }
        }
        Ok(())
    }

    /// Takes in bytes behind those of a frame that isn't whole yet.
    fn pend(&mut self, bytes: &[u8]) -> Result<(), ScanFault>
        requires open { (image : List ℕ) × GoesOn R.form image self.old × (length image + length bytes.now < 2 ^ 64) }
        requires stage { self.old.stage ≡ ScanStage.Open }
        ensures ok { OnOk result ((image : List ℕ) → GoesOn R.form image self.old → IsOn R.form (image ++ bytes.now) self.new) }
        ensures err { IfErr result (λ fault. (image : List ℕ) → GoesOn R.form image self.old → IsRefusedFor R.form (image ++ bytes.now) fault) }
    {
        match self.pending.extend_from_slice(bytes) {
            Ok(()) => {}
            Err(_) => return Err(ScanFault::Memory),
        }
        let (used, tail) = self.walk.read(&self.pending)?;
        match tail {
            Tail::Closed => self.stage = ScanStage::Closed,
            Tail::Short => cut_front(self.alloc, &mut self.pending, used)?,
        }
        Ok(())
    }

    /// Answers of all that was fed what `scan` answers of it.
    pub fn end(self) -> Result<Scanned<R>, ScanFault>
        requires { (image : List ℕ) × IsFed R.form image self }
        ensures answer { (image : List ℕ) → IsFed R.form image self → MatchResult result (IsScanOf R.form image) (IsRefused R.form image) }
        ensures lost { IsLost self → result ≡ Err ScanFault.Memory }
    {
        let (scanned, _) = self.end_with()?;
        Ok(scanned)
    }

    /// The same, and where the records stand.
    pub fn end_with(self) -> Result<(Scanned<R>, Homes), ScanFault>
        requires { (image : List ℕ) × IsFed R.form image self }
        ensures answer { (image : List ℕ) → IsFed R.form image self → MatchResult result
            (λ answer. (scan : IsScanOf R.form image answer.0) × AreHomesOf (shape_of scan.format R.form) scan.frames answer.1)
            (IsRefused R.form image) }
        ensures lost { IsLost self → result ≡ Err ScanFault.Memory }
    {
        self.check_end()?;
        let Walk {
            shape,
            at,
            frames,
            tally,
            found,
        } = self.walk;
        let (records, homes) = found.finish()?;
        let scanned = Scanned {
            version: shape.format.version(),
            width: shape.width as u16,
            records,
            frames,
            changes: tally.changes,
            folded: tally.folded,
            gate: at as u64,
        };
        Ok((scanned, homes))
    }

    /// Whether a closed gate has ended the frames, and no fault was found.
    fn check_end(&self) -> Result<(), ScanFault>
        requires { (image : List ℕ) × IsFed R.form image self.now }
        ensures answer { (image : List ℕ) → IsFed R.form image self.now → MatchResult result (λ _. HasEnded R.form image self.now) (IsRefused R.form image) }
        ensures lost { IsLost self.now → result ≡ Err ScanFault.Memory }
    {
        match self.stage {
            ScanStage::Header => match check_header(&self.header[..self.filled], width_of::<R>()) {
                Ok(_) => Err(ScanFault::NotSegment),
                Err(fault) => Err(fault),
            },
            ScanStage::Open => Err(Unread::Short.fault(
                self.walk.at as u64,
                self.pending.len() as u64,
            )),
            ScanStage::Closed => Ok(()),
            ScanStage::Refused(fault) => Err(fault),
        }
    }
}

/// Lets the first bytes go.
fn cut_front(alloc: Global, bytes: &mut Vec<u8>, n: usize) -> Result<(), ScanFault>
    requires { n ≤ length bytes.old.items }
    ensures ok { OnOk result (bytes.new.items ≡ drop n bytes.old.items) }
    ensures memory { IfErr result (λ fault. fault ≡ ScanFault.Memory) }
{
    if n == bytes.len() {
        bytes.clear();
        return Ok(());
    }
    if n > 0 {
        let Ok(rest) = Vec::from_slice(alloc, &bytes[n..]) else {
            return Err(ScanFault::Memory);
        };
        *bytes = rest;
    }
    Ok(())
}
