//! What a script has come to, and the answers to its lines.

use crate::cut::{Cut, read_cut};
use crate::distinct_texts::{BAR, DistinctTexts};
use crate::look::{Looks, copied, driven};
use crate::repeat::step_in;
use crate::upgrading::{texts_of_new, texts_of_old, upgrade_onto};
use crate::words::{last_number, next_number, next_word};
use disk_core::{Blow, Choice, FuseDisk, ImageLength, PendingBytes, RamDisk};
use drive_core::{Answer, Driven, Step};
use hex::FromHex;
use play_core::{Asked, read_step_line};
use std::alloc::Global;
use std::sync::Wait;
use std::thread::Threads;
use std::{io, mem};
use text_core::{TextRecord, cut, write_numbered};

/// What is written behind a line that is none of those of a script.
const NO_LINE: &[u8] = b"refused: line";

/// The most steps of a line that says several.
const STEP_LIMIT: u32 = 1_000;

/// What a crash leaves where all that was written arrives.
const NEW: Choice = Choice {
    length: ImageLength::Greatest,
    pending: PendingBytes::New,
};

/// The steps since the last crash, over the bytes that it left, and the disk behind them.
#[derive(Drop)]
pub struct Player<R: TextRecord> {
    alloc: Global,
    begin: Vec<u8>,
    steps: Vec<Step<R>>,
    disk: RamDisk,
    calls: u64,
    looks: Looks,
}

impl<R: TextRecord> Player<R> {
    pub fn new(alloc: Global) -> Player<R> {
        Player {
            alloc,
            begin: Vec::new(alloc),
            steps: Vec::new(alloc),
            disk: RamDisk::new(alloc),
            calls: 0,
            looks: Looks::new(alloc),
        }
    }

    /// Begins anew, over a disk with these bytes.
    fn begin_with(&mut self, bytes: Vec<u8>) -> io::Result<()> {
        self.disk = RamDisk::from_bytes(self.alloc, copied(self.alloc, bytes.as_slice())?);
        self.begin = bytes;
        self.looks = Looks::new(self.alloc);
        self.steps = Vec::new(self.alloc);
        self.calls = 0;
        Ok(())
    }

    /// The disk as the last crash left it.
    fn begun(&self) -> io::Result<RamDisk> {
        Ok(RamDisk::from_bytes(self.alloc, copied(self.alloc, self.begin.as_slice())?))
    }

    /// Runs all steps, and writes the answers to those behind the first so many.
    fn run<E: Threads + Wait + Sync>(
        &mut self,
        rt: &E,
        from: usize,
        out: &mut Vec<u8>,
    ) -> io::Result<()> {
        let Driven {
            disk,
            answers,
            calls,
        } = driven(self.alloc, rt, self.begun()?, self.steps.as_slice())?;
        self.disk = disk;
        self.calls = calls
            .iter()
            .fold(0u64, |sum, calls| sum.saturating_add(*calls));
        let mut texts = DistinctTexts::new(self.alloc);
        texts.add_answers(answers.as_slice(), from)?;
        texts.write(BAR, out)
    }

    /// Ends the run with what a crash leaves.
    fn crash(&mut self, choice: Choice, out: &mut Vec<u8>) -> io::Result<()> {
        let image = self.disk.image(&choice)?;
        write_numbered(out, b"crashed ", image.len() as u64)?;
        self.begin_with(image)
    }

    /// Makes a step, or crashes.
    fn step<E: Threads + Wait + Sync>(
        &mut self,
        rt: &E,
        line: &[u8],
        out: &mut Vec<u8>,
    ) -> io::Result<()> {
        let line = step_in(self.alloc, line, 0)?;
        match read_step_line::<R>(self.alloc, line.as_slice()) {
            Ok(Asked::Step(step)) => {
                let from = self.steps.len();
                self.steps.push(step)?;
                self.run(rt, from, out)
            }
            Ok(Asked::Crash(choice)) => self.crash(choice, out),
            Err(_) => refuse(out),
        }
    }

    /// Appends the steps between semicolons, as they stand in a round. Whether all of them are steps.
    fn push_steps(&mut self, line: &[u8], round: u64) -> io::Result<bool> {
        let mut rest = Some(line);
        for _ in 0..STEP_LIMIT {
            let Some(steps) = rest else { break };
            let (step, after) = cut(steps, b';');
            let text = step_in(self.alloc, step.trim_ascii(), round)?;
            let Ok(Asked::Step(step)) = read_step_line::<R>(self.alloc, text.as_slice()) else {
                return Ok(false);
            };
            self.steps.push(step)?;
            rest = after;
        }
        Ok(true)
    }

    /// Makes the steps of `N STEP; STEP` so many times.
    fn repeat<E: Threads + Wait + Sync>(
        &mut self,
        rt: &E,
        rest: Option<&[u8]>,
        out: &mut Vec<u8>,
    ) -> io::Result<()> {
        let Some((times, Some(line))) = next_number(rest) else {
            return refuse(out);
        };
        let from = self.steps.len();
        for round in 0..times {
            if !self.push_steps(line, round)? {
                return refuse(out);
            }
        }
        self.run(rt, from, out)
    }

    /// Begins anew, over a disk with the bytes of a hex word.
    fn begin(&mut self, rest: Option<&[u8]>, out: &mut Vec<u8>) -> io::Result<()> {
        let Ok(bytes) = hex::decode(self.alloc, rest.unwrap_or(b"")) else {
            return refuse(out);
        };
        out.extend_from_slice(b"ok")?;
        self.begin_with(bytes)
    }

    /// Writes the bytes of the file, as they read.
    fn write_file(&self, out: &mut Vec<u8>) -> io::Result<()> {
        let bytes = self.disk.image(&NEW)?;
        let text = hex::encode(self.alloc, bytes.as_slice())?;
        out.extend_from_slice(text.as_bytes())?;
        Ok(())
    }

    /// Runs all steps on a disk that stops or fails behind so many calls.
    fn driven_on<E: Threads + Wait + Sync>(
        &self,
        rt: &E,
        calls: u64,
        blow: Blow,
    ) -> io::Result<Driven<R, FuseDisk<RamDisk>>> {
        let disk = FuseDisk::new(self.begun()?, calls, blow);
        driven(self.alloc, rt, disk, self.steps.as_slice())
    }

    /// What all steps leave on a disk that stops or fails.
    fn left_on<E: Threads + Wait + Sync>(
        &self,
        rt: &E,
        calls: u64,
        blow: Blow,
    ) -> io::Result<RamDisk> {
        let left = self.driven_on(rt, calls, blow)?;
        Ok(left.disk.into_inner())
    }

    /// Writes what all steps leave on a disk that stops or fails: the lists of its images.
    fn write_cut<E: Threads + Wait + Sync>(
        &mut self,
        rt: &E,
        cut: Cut,
        out: &mut Vec<u8>,
    ) -> io::Result<()> {
        let mut texts = DistinctTexts::new(self.alloc);
        for calls in cut.first..=cut.last {
            let disk = self.left_on(rt, calls, cut.blow)?;
            let mut lists = Vec::new(self.alloc);
            self.looks.write::<R, E>(rt, &disk, &mut lists)?;
            texts.add(lists)?;
        }
        texts.write_one(out)
    }

    /// What all steps are answered on a disk that stops or fails.
    fn told_on<E: Threads + Wait + Sync>(
        &self,
        rt: &E,
        calls: u64,
        blow: Blow,
    ) -> io::Result<Vec<u8>> {
        let left = self.driven_on(rt, calls, blow)?;
        text_of_answers(self.alloc, left.answers.as_slice())
    }

    /// Writes what all steps are answered on a disk that stops or fails.
    fn write_told<E: Threads + Wait + Sync>(
        &mut self,
        rt: &E,
        cut: Cut,
        out: &mut Vec<u8>,
    ) -> io::Result<()> {
        let mut texts = DistinctTexts::new(self.alloc);
        for calls in cut.first..=cut.last {
            texts.add(self.told_on(rt, calls, cut.blow)?)?;
        }
        texts.write_one(out)
    }

    /// Upgrades the file, and begins anew over the new one, where there is one.
    fn upgrade(&mut self, piece: u64, out: &mut Vec<u8>) -> io::Result<()> {
        let old = RamDisk::from_bytes(self.alloc, self.disk.image(&NEW)?);
        let new = RamDisk::new(self.alloc);
        let left = upgrade_onto::<R, RamDisk, RamDisk>(self.alloc, old, new, piece)?;
        out.extend_from_slice(left.answer.as_slice())?;
        let image = left.new.image(&NEW)?;
        if image.is_empty() {
            return self.begin_with(left.old.image(&NEW)?);
        }
        self.begin_with(image)
    }

    /// Upgrades the file onto a disk that stops or fails.
    fn upgrade_cut<E: Threads + Wait + Sync>(
        &mut self,
        rt: &E,
        cut: Cut,
        piece: u64,
        out: &mut Vec<u8>,
    ) -> io::Result<()> {
        let file = self.disk.image(&NEW)?;
        let looks = &mut self.looks;
        let texts = texts_of_new::<R, E>(self.alloc, rt, file.as_slice(), piece, cut, looks)?;
        texts.write_one(out)
    }

    /// Upgrades the file of a disk that stops or fails.
    fn upgrade_old(&mut self, cut: Cut, piece: u64, out: &mut Vec<u8>) -> io::Result<()> {
        let file = self.disk.image(&NEW)?;
        let texts = texts_of_old::<R>(self.alloc, file.as_slice(), piece, cut)?;
        texts.write(BAR, out)
    }

    /// Answers a line of upgrades.
    fn answer_upgrade<E: Threads + Wait + Sync>(
        &mut self,
        rt: &E,
        rest: Option<&[u8]>,
        out: &mut Vec<u8>,
    ) -> io::Result<()> {
        if let Some(piece) = last_number(rest) {
            return self.upgrade(piece, out);
        }
        let Some((word, after)) = next_word(rest) else {
            return refuse(out);
        };
        let (verb, after) = match (word, next_word(after)) {
            (b"old", Some((verb, after))) => (verb, after),
            _ => (word, after),
        };
        let Some((cut, after)) = read_cut(verb, after) else {
            return refuse(out);
        };
        let Some(piece) = last_number(after) else {
            return refuse(out);
        };
        if word == b"old".as_slice() {
            return self.upgrade_old(cut, piece, out);
        }
        self.upgrade_cut(rt, cut, piece, out)
    }

    /// Answers a line that looks at a disk which stops or fails.
    fn answer_cut<E: Threads + Wait + Sync>(
        &mut self,
        rt: &E,
        verb: &[u8],
        rest: Option<&[u8]>,
        out: &mut Vec<u8>,
    ) -> io::Result<()> {
        match read_cut(verb, rest) {
            Some((cut, None)) => self.write_cut(rt, cut, out),
            _ => refuse(out),
        }
    }

    /// Answers a line that tells the answers on a disk which stops or fails.
    fn answer_told<E: Threads + Wait + Sync>(
        &mut self,
        rt: &E,
        rest: Option<&[u8]>,
        out: &mut Vec<u8>,
    ) -> io::Result<()> {
        let Some((verb, after)) = next_word(rest) else {
            return refuse(out);
        };
        match read_cut(verb, after) {
            Some((cut, None)) => self.write_told(rt, cut, out),
            _ => refuse(out),
        }
    }

    /// Writes the answer to a line.
    pub fn answer<E: Threads + Wait + Sync>(
        &mut self,
        rt: &E,
        line: &[u8],
        out: &mut Vec<u8>,
    ) -> io::Result<()> {
        let (verb, rest) = cut(line, b' ');
        match verb {
            b"type" => Ok(out.extend_from_slice(b"ok")?),
            b"begin" => self.begin(rest, out),
            b"calls" => write_numbered(out, b"", self.calls),
            b"file" => self.write_file(out),
            b"images" => self.looks.write::<R, E>(rt, &self.disk, out),
            b"repeat" => self.repeat(rt, rest, out),
            b"stop" | b"fail" => self.answer_cut(rt, verb, rest, out),
            b"told" => self.answer_told(rt, rest, out),
            b"upgrade" => self.answer_upgrade(rt, rest, out),
            _ => self.step(rt, line, out),
        }
    }
}

/// The texts of answers, and how often each has come.
fn text_of_answers<R: TextRecord>(alloc: Global, answers: &[Answer<R>]) -> io::Result<Vec<u8>> {
    let mut texts = DistinctTexts::new(alloc);
    texts.add_answers(answers, 0)?;
    let mut text = Vec::new(alloc);
    texts.write(BAR, &mut text)?;
    Ok(text)
}

/// Answers a line that is none of those of a script.
fn refuse(out: &mut Vec<u8>) -> io::Result<()> {
    Ok(out.extend_from_slice(NO_LINE)?)
}
