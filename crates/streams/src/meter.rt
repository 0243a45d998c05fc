//! How far long work is, for a terminal, or in lines.

use files_core::{Appended, Progress};
use std::io::{self, Write};
use std::sync::atomic::{AtomicBool, AtomicU64, Ordering};
use std::time::Instant;

/// The milliseconds between two lines at least that are written over.
const PAUSE: u64 = 100;

/// The milliseconds between two lines at least that stay.
const LINE_PAUSE: u64 = 1000;

/// Tells on standard error how far work is: at most each tenth of a second in a line that is written over, and gone at the
/// end; or, of `append`, at most each second in a line that stays.
#[derive(Drop)]
pub struct Meter<'a> {
    rt: &'a HostRuntime,
    begun: Option<Instant>,
    /// The lines stay.
    in_lines: bool,
    /// When the next line is due, in milliseconds from the begin.
    due: AtomicU64,
    /// When the pass that is under way began, in milliseconds from the begin.
    pass: AtomicU64,
    /// How much of the pass was done when that was last told.
    done: AtomicU64,
    /// How many growths were last told to be durable, of all files of a row.
    told: AtomicU64,
    /// The growths and the lines of the input that the files before this one of a row got.
    growths_before: AtomicU64,
    lines_before: AtomicU64,
    /// Nothing is told any more.
    over: AtomicBool,
}

impl<'a> Meter<'a> {
    /// One that tells, if it is to, and if there is a clock.
    pub fn new(rt: &'a HostRuntime, shown: bool, in_lines: bool) -> Meter<'a> {
        let tells = shown || in_lines;
        let begun = if tells { Instant::now(rt).ok() } else { None };
        Meter {
            rt,
            begun,
            in_lines,
            due: AtomicU64::new(if in_lines { 0 } else { PAUSE }),
            pass: AtomicU64::new(0),
            done: AtomicU64::new(0),
            told: AtomicU64::new(u64::MAX),
            growths_before: AtomicU64::new(0),
            lines_before: AtomicU64::new(0),
            over: AtomicBool::new(false),
        }
    }

    /// When the pass began that has done so much after so many milliseconds. Work of several passes, as reading a file and
    /// listing its records, falls back where the next one begins; threads that tell of one pass fall back by less than half.
    fn pass_of(&self, passed: u64, done: u64) -> u64 {
        let before = self.done.swap(done, Ordering::SeqCst);
        if done < before / 2 {
            self.pass.store(passed, Ordering::SeqCst);
        }
        self.pass.load(Ordering::SeqCst)
    }

    /// The milliseconds since the begin.
    fn passed_since(&self, begun: Instant) -> io::Result<u64> {
        let since = begun.elapsed(self.rt)?;
        let millis = u64::from(since.subsec_millis());
        Ok(since.as_secs().saturating_mul(1000).saturating_add(millis))
    }

    /// What is told from now on stands behind so many growths and lines of the input, which the files before this one of a row got.
    pub fn goes_on_behind(&self, growths: u64, lines: u64) {
        self.growths_before.store(growths, Ordering::SeqCst);
        self.lines_before.store(lines, Ordering::SeqCst);
    }

    /// Writes a line that stays, where one is due and more is durable than the last one told.
    fn tell_appended(&self, begun: Instant, appended: Appended) -> io::Result<()> {
        let passed = self.passed_since(begun)?;
        if passed < self.due.load(Ordering::SeqCst) {
            return Ok(());
        }
        let Appended {
            growths,
            lines,
            size,
        } = appended;
        let growths = growths.saturating_add(self.growths_before.load(Ordering::SeqCst));
        let lines = lines.saturating_add(self.lines_before.load(Ordering::SeqCst));
        if self.told.swap(growths, Ordering::SeqCst) == growths {
            return Ok(());
        }
        self.due
            .store(passed.saturating_add(LINE_PAUSE), Ordering::SeqCst);
        eprintln!(self.rt;
            "cvec: {growths} growths of the first {lines} lines are durable, size {size}"
        )
    }

    /// Writes a line that is written over, where one is due.
    fn tell(&self, begun: Instant, done: u64, of: u64) -> io::Result<()> {
        let passed = self.passed_since(begun)?;
        let pass = self.pass_of(passed, done);
        let due = self.due.load(Ordering::SeqCst);
        if passed < due {
            return Ok(());
        }
        self.due
            .store(passed.saturating_add(PAUSE), Ordering::SeqCst);
        let time = passed.saturating_sub(pass);
        let rate = done.saturating_mul(1000) / time.max(1);
        if of == 0 {
            return eprint!(self.rt; "\r{done} done, {rate} a second\x1b[K");
        }
        let percent = done.saturating_mul(100) / of;
        let left = of.saturating_sub(done) / rate.max(1);
        eprint!(self.rt;
            "\r{done} of {of}, {percent} %, {rate} a second, {left} seconds left\x1b[K"
        )
    }

    /// Takes the line away. No other is told.
    pub fn end(&self) {
        let was_over = self.over.swap(true, Ordering::SeqCst);
        let has_told = self.due.load(Ordering::SeqCst) > PAUSE;
        if self.begun.is_some() && !self.in_lines && has_told && !was_over {
            let _ = eprint!(self.rt; "\r\x1b[K");
        }
    }
}

impl<'a> Progress for Meter<'a> {
    fn at(&self, done: u64, of: u64) {
        let is_over = self.over.load(Ordering::SeqCst);
        match self.begun {
            Some(begun) if !is_over && !self.in_lines => {
                let _ = self.tell(begun, done, of);
            }
            _ => {}
        }
    }

    fn appended(&self, appended: Appended) {
        match self.begun {
            Some(begun) if self.in_lines => {
                let _ = self.tell_appended(begun, appended);
            }
            _ => self.at(appended.growths, 0),
        }
    }
}

/// Writes to the writer inside. Where a meter is given it ends before, for its line would stand in what is written: both
/// are on one terminal.
#[derive(Drop)]
pub struct Behind<'a, W> {
    inner: W,
    meter: Option<&'a Meter<'a>>,
}

impl<'a, W> Behind<'a, W> {
    pub fn new(inner: W, meter: Option<&'a Meter<'a>>) -> Behind<'a, W> {
        Behind { inner, meter }
    }

    fn end_meter(&self) {
        if let Some(meter) = self.meter {
            meter.end();
        }
    }
}

impl<'a, W: Write> Write for Behind<'a, W> {
    ghost contents = { λ behind. W.contents behind.inner };

    fn write(&mut self, buf: &[u8]) -> io::Result<usize> {
        self.end_meter();
        self.inner.write(buf)
    }

    fn flush(&mut self) -> io::Result<()> {
        self.inner.flush()
    }
}
