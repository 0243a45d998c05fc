//! Looks, one behind the other, and what is written of each.

ghost use Rattle.std.specs.Prelude.{◌≡◌, ◌-◌, ◌≤◌, OnOk, IfErr, drop};
ghost use Rattle.std.specs.Io.KnownBytes.{Appends};
ghost use Rattle.text_core.specs.Text.{record_lines};
ghost use Rattle.follow_core.specs.Followed.{IsEndOfLook, IsFollowedOn, IsFollowed, IsFollowedWhole, MayEndBy};

use crate::ended::FollowEnd;
use crate::pause::{Pause, Rest};
use beside_core::{Bookmark, LookFault, Since};
use disk_core::Shared;
use std::alloc::Global;
use std::io;
use std::io::Write;
use text_core::{TextRecord, write_records};

/// Where a follower stands: what it knows lies before the bookmark, and so many of the records that come aren't written.
#[derive(Clone, Copy)]
pub struct Reached {
    pub mark: Bookmark,
    pub skip: u64,
}

/// Writes the records behind the first ones, one a line, and flushes them; where there are none, nothing.
fn write_behind<R: TextRecord, W: Write>(records: &[R], skip: u64, writer: &mut W) -> io::Result<()>
    ensures { OnOk result (Appends (W.contents writer.old) (W.contents writer.new) (record_lines R.spelling.text_of (drop skip records.now))) }
{
    let from = skip.min(records.len() as u64) as usize;
    let rest = &records[from..];
    if rest.is_empty() {
        return Ok(());
    }
    write_records(rest, writer)
}

/// Writes the records that came since, one a line, but for those to be skipped, and answers how far it came.
pub fn follow_on<R: TextRecord, S: Shared, W: Write>(
    alloc: Global,
    file: &mut S,
    reached: Reached,
    writer: &mut W,
) -> Result<Reached, FollowEnd>
    ensures followed { S.keeps file.new → IsFollowedOn R.form R.spelling.text_of reached (S.held file.old) (S.now file.old) (S.now file.new) (S.synced file.new)
        (W.contents writer.old) (W.contents writer.new) result }
    ensures by_look { IfErr result IsEndOfLook }
    ensures same { S.held file.new ≡ S.held file.old }
    ensures time { S.now file.old ≤ S.now file.new }
    ensures keeps_settled { S.synced file.old ≤ S.synced file.new }
    ensures model { S.keeps file.new → S.keeps file.old }
{
    match reached.mark.go_on::<R, S>(alloc, file) {
        Ok(Since::Grown(records, mark)) => match write_behind(&records, reached.skip, writer) {
            Ok(()) => Ok(Reached {
                mark,
                skip: reached.skip.saturating_sub(records.len() as u64),
            }),
            Err(_) => Err(FollowEnd::OutputFailed),
        },
        Ok(Since::Lost(loss)) => Err(FollowEnd::Lost(loss)),
        Err(fault) => Err(FollowEnd::Refused(fault)),
    }
}

/// Writes each record once, when it is settled, from position `from` on, one a line, and goes on with those that come,
/// until the pause ends it, or a look or a write is refused. It rests between two looks, and flushes what a look wrote.
/// `Lost`: any record that the vector had at an earlier look was replaced or cut off, whether it was written or not.
pub fn follow<R: TextRecord, S: Shared, W: Write, P: Pause>(
    alloc: Global,
    file: &mut S,
    from: u64,
    pause: &mut P,
    writer: &mut W,
) -> FollowEnd
    ensures followed { S.keeps file.new → IsFollowed R.form R.spelling.text_of from (S.held file.old) (S.now file.new) (S.synced file.new) (W.contents writer.old) (W.contents writer.new) result }
    ensures whole { S.keeps file.new → IsFollowedWhole R.form R.spelling.text_of from (S.held file.old) (S.now file.old) (S.now file.new) (S.synced file.new)
        (W.contents writer.old) (W.contents writer.new) result }
    ensures paused { MayEndBy (P.may_answer pause.old) result }
    ensures same { S.held file.new ≡ S.held file.old }
    ensures model { S.keeps file.new → S.keeps file.old }
{
    let mark = match Bookmark::first(alloc, file) {
        Ok(mark) => mark,
        Err(fault) => return FollowEnd::Refused(fault),
    };
    let mut reached = Reached { mark, skip: from };
    'looks: for _look in 0..u64::MAX {
        match follow_on::<R, S, W>(alloc, file, reached, writer) {
            Ok(next) => reached = next,
            Err(end) => return end,
        }
        match pause.rest() {
            Rest::GoOn => {}
            Rest::End => return FollowEnd::Ended,
            Rest::Replaced => return FollowEnd::Replaced,
        }
    }
    FollowEnd::Refused(LookFault::TooFar)
}
