//! `list` beside a writer.

ghost use Rattle.std.specs.Prelude.{◌≡◌, ◌≤◌, take, drop};
ghost use Rattle.follow_core.specs.Answers.{AreListed};
ghost use Rattle.follow_core.specs.Beside.{AnswersRecords, IsReadBeside};

use crate::ended::LookEnd;
use crate::reading::read_vector;
use disk_core::Shared;
use std::alloc::Global;
use std::io::Write;
use text_core::{TextRecord, write_records};

/// The records from a position on, so many of them at most.
fn window<R>(records: &[R], from: u64, count: u64) -> &[R]
    ensures { result.now ≡ take count (drop from records.now) }
{
    let start = from.min(records.len() as u64) as usize;
    let rest = &records[start..];
    let len = count.min(rest.len() as u64) as usize;
    &rest[..len]
}

/// Writes the records from position `from` on, `count` at most, one a line, as they are at one moment of the call.
/// Positions past the end have none.
pub fn list_beside<R: TextRecord, S: Shared, W: Write>(
    alloc: Global,
    file: &mut S,
    from: u64,
    count: u64,
    writer: &mut W,
) -> LookEnd
    ensures read { IsReadBeside R.form (λ _. AnswersRecords R.form (AreListed R.spelling.text_of from count)) (S.keeps file.new) (S.held file.old) (S.now file.old) (S.now file.new)
        (S.synced file.new) (W.contents writer.old) (W.contents writer.new) result }
    ensures same { S.held file.new ≡ S.held file.old }
    ensures time { S.now file.old ≤ S.now file.new }
    ensures model { S.keeps file.new → S.keeps file.old }
{
    let (records, _mark) = match read_vector::<R, S>(alloc, file) {
        Ok(found) => found,
        Err(fault) => return LookEnd::Refused(fault),
    };
    LookEnd::told(write_records(window(&records, from, count), writer))
}
