//! How far a reader has come, and its way on.

ghost use Rattle.std.specs.Prelude.{◌≡◌, ◌≢◌, ◌≤◌, ◌<◌, ◌^◌, OnOk, IfErr};
ghost use Rattle.record_core.specs.Limits.{record_limit};

use crate::decoding::decode;
use crate::fault::LookFault;
use crate::laying::Laid;
use crate::look::{look, take};
use crate::news::News;
use crate::replay::replay;
use crate::since::{Loss, Since};
use disk_core::{DiskFault, Shared};
use record_core::{RECORD_LIMIT, Record, width_of};
use segment_core::{HEADER_LEN, OPEN_GATE, ScanFault, Shape, Tally};
use std::alloc::Global;

/// The place of a gate, and what the frames before it leave: all that a reader keeps of a file between two looks.
#[derive(Clone, Copy)]
pub struct Bookmark {
    pub(crate) shape: Shape,
    pub(crate) gate: u64,
    pub(crate) tally: Tally,
    ghost wide: { 0 < shape.width },
    ghost narrow: { shape.width < 2 ^ 16 },
    ghost short: { tally.size ≤ record_limit },
    ghost few: { tally.changes ≤ gate },
}

/// Syncs the file, where a look has come on from one gate to another: the last frame may not be on the device yet.
fn settle<S: Shared>(file: &mut S, from: u64, to: u64) -> Result<(), LookFault>
    ensures settled { OnOk result (from ≢ to → S.now file.old < S.synced file.new) }
    ensures same { S.held file.new ≡ S.held file.old }
    ensures time { S.now file.old ≤ S.now file.new }
    ensures keeps_settled { S.synced file.old ≤ S.synced file.new }
    ensures cause { IfErr result (λ fault. fault ≡ LookFault.Disk DiskFault.Sync) }
    ensures model { S.keeps file.new → S.keeps file.old }
{
    if from == to {
        return Ok(());
    }
    match file.sync() {
        Ok(()) => Ok(()),
        Err(fault) => Err(LookFault::Disk(fault)),
    }
}

impl Bookmark {
    ghost use Rattle.std.specs.Prelude.{[], ◌+◌, ℕ, List, length, IfOk, IfSome, IfNone, MatchResult};
    ghost use Rattle.segment_core.specs.declared.format.Shape.{Shape};
    ghost use Rattle.segment_core.specs.Frame.{Frame};
    ghost use Rattle.beside_core.specs.PensFile.{IsPensFile};
    ghost use Rattle.beside_core.specs.Fault.{IsNoDamage, HasSeenHeader};
    ghost use Rattle.beside_core.specs.Bookmark.{LiesBehind};
    ghost use Rattle.beside_core.specs.Since.{AnswersSince};
    ghost use Rattle.beside_core.specs.News.{AnswersText, AnswersNews};

    /// Behind the header of a file, before its frames. Refused: `Disk`; `Scan`, where the file isn't born yet, or no
    /// segment file of a known version.
    pub fn first<S: Shared>(alloc: Global, file: &mut S) -> Result<Bookmark, LookFault>
        ensures behind { S.keeps file.new → (shape : Shape) (frames : ℕ → List Frame) → IsPensFile shape (S.held file.old) frames
            → MatchResult result (LiesBehind shape []) IsNoDamage }
        ensures seen { S.keeps file.new → IfErr result (HasSeenHeader (S.held file.old) (S.now file.old) (S.now file.new)) }
        ensures same { S.held file.new ≡ S.held file.old }
        ensures time { S.now file.old ≤ S.now file.new }
        ensures settles_none { S.synced file.new ≡ S.synced file.old }
        ensures model { S.keeps file.new → S.keeps file.old }
    {
        let mut header = Vec::new(alloc);
        take(file, 0, 1, &mut header)?;
        if header[0] != OPEN_GATE {
            return Err(LookFault::Scan(ScanFault::Unborn));
        }
        take(file, 1, HEADER_LEN - 1, &mut header)?;
        match Shape::read(&header) {
            Ok(shape) => Ok(Bookmark::behind_header(shape)),
            Err(fault) => Err(LookFault::Scan(fault)),
        }
    }

    /// Behind the header of a file of this shape.
    pub(crate) fn behind_header(shape: Shape) -> Bookmark
        requires wide { 0 < shape.width }
        requires narrow { shape.width < 2 ^ 16 }
        ensures { LiesBehind shape [] result }
    {
        Bookmark {
            shape,
            gate: HEADER_LEN as u64,
            tally: Tally {
                size: 0,
                changes: 0,
                folded: 0,
            },
        }
    }

    /// The bookmark at a place of this file, where the frames before leave this. `None`: no file has such a place. Where
    /// the file has none of its gates there, what a look answers is anything.
    pub fn at(&self, gate: u64, tally: Tally) -> Option<Bookmark>
        ensures found { IfSome result (λ mark. (mark.shape ≡ self.now.shape) × (mark.gate ≡ gate) × (mark.tally ≡ tally)) }
        ensures none { IfNone result (tally.size ≤ record_limit → tally.changes ≤ gate → ⊥) }
    {
        if tally.size > RECORD_LIMIT || tally.changes > gate {
            return None;
        }
        let shape = self.shape;
        Some(Bookmark { shape, gate, tally })
    }

    /// The place of its gate.
    pub fn gate(&self) -> u64
        ensures { result ≡ self.now.gate }
    {
        self.gate
    }

    /// What the frames before it leave.
    pub fn tally(&self) -> Tally
        ensures { result ≡ self.now.tally }
    {
        self.tally
    }

    /// The frames that came since this bookmark was laid, up to a closed gate, all of them settled.
    fn read_on<R: Record, S: Shared>(
        self,
        alloc: Global,
        file: &mut S,
    ) -> Result<Vec<u8>, LookFault>
        ensures read { S.keeps file.new → AnswersText R.form self (S.held file.old) (S.now file.old) (S.now file.new) (S.synced file.new) result }
        ensures placed { IfOk result (λ text. self.gate + length text.items ≤ 2 ^ 48) }
        ensures wide { IfOk result (λ text. self.shape.width ≡ R.form.width) }
        ensures same { S.held file.new ≡ S.held file.old }
        ensures time { S.now file.old ≤ S.now file.new }
        ensures keeps_settled { S.synced file.old ≤ S.synced file.new }
        ensures model { S.keeps file.new → S.keeps file.old }
    {
        if self.shape.width != width_of::<R>() {
            return Err(LookFault::Scan(ScanFault::Width(self.shape.width as u16)));
        }
        let (gate, text) = look(alloc, file, self.shape, self.gate)?;
        settle(file, self.gate, gate)?;
        Ok(text)
    }

    /// What has become of the vector since this bookmark was laid, as it is at one moment of the call. What is answered
    /// stands on the device. A look reads up to a closed gate, so it holds in memory all that came since.
    pub fn go_on<R: Record, S: Shared>(
        self,
        alloc: Global,
        file: &mut S,
    ) -> Result<Since<R>, LookFault>
        ensures since { S.keeps file.new → AnswersSince R.form self (S.held file.old) (S.now file.old) (S.now file.new) (S.synced file.new) result }
        ensures same { S.held file.new ≡ S.held file.old }
        ensures time { S.now file.old ≤ S.now file.new }
        ensures keeps_settled { S.synced file.old ≤ S.synced file.new }
        ensures model { S.keeps file.new → S.keeps file.old }
    {
        let text = self.read_on::<R, S>(alloc, file)?;
        match replay::<R>(alloc, &text, self) {
            Ok((laid, next, _)) => {
                drop(text);
                match laid.edits.first() {
                    None => {
                        let records = decode(alloc, &laid.tail, self.tally.size)?;
                        Ok(Since::Grown(records, next))
                    }
                    Some(edit) => Ok(Since::Lost(edit.loss())),
                }
            }
            Err(fault) => match fault {
                // a change of a record that was known
                LookFault::NoRecord(position) => Ok(Since::Lost(Loss::Changed(position))),
                _ => Err(fault),
            },
        }
    }

    /// All that has become of the vector since this bookmark was laid, as it is at one moment of the call: what was done
    /// to the records that were there, and those that stand behind them. It is settled and held in memory as by `go_on`.
    pub fn news<R: Record, S: Shared>(
        self,
        alloc: Global,
        file: &mut S,
    ) -> Result<News<R>, LookFault>
        ensures news { S.keeps file.new → AnswersNews R.form self (S.held file.old) (S.now file.old) (S.now file.new) (S.synced file.new) result }
        ensures same { S.held file.new ≡ S.held file.old }
        ensures time { S.now file.old ≤ S.now file.new }
        ensures keeps_settled { S.synced file.old ≤ S.synced file.new }
        ensures model { S.keeps file.new → S.keeps file.old }
    {
        let text = self.read_on::<R, S>(alloc, file)?;
        let (laid, next, _) = replay::<R>(alloc, &text, self)?;
        drop(text);
        let Laid { base, edits, tail } = laid;
        let records = decode(alloc, &tail, base)?;
        Ok(News {
            edits,
            records,
            next,
        })
    }
}
