//! `count` and `find` beside a writer. That `==` calls no other records equal is a law of `Record`.

ghost use Rattle.std.specs.Prelude.{◌≡◌, ◌≤◌};
ghost use Rattle.follow_core.specs.Answers.{IsCountLine, IsFoundLine};
ghost use Rattle.follow_core.specs.Beside.{AnswersRecords, IsReadBeside};

use crate::ended::LookEnd;
use crate::reading::read_vector;
use disk_core::Shared;
use record_core::Record;
use search_core::{count_equal, first_equal};
use std::alloc::Global;
use std::io::Write;
use text_core::{TextRecord, write_found, write_number_line};

/// Writes how many records of the vector are this one, as it is at one moment of the call.
pub fn count_beside<R: TextRecord, S: Shared, W: Write>(
    alloc: Global,
    file: &mut S,
    wanted: R,
    writer: &mut W,
) -> LookEnd
    ensures read { IsReadBeside R.form (λ _. AnswersRecords R.form (IsCountLine wanted)) (S.keeps file.new) (S.held file.old) (S.now file.old) (S.now file.new) (S.synced file.new)
        (W.contents writer.old) (W.contents writer.new) result }
    ensures same { S.held file.new ≡ S.held file.old }
    ensures time { S.now file.old ≤ S.now file.new }
    ensures model { S.keeps file.new → S.keeps file.old }
{
    let (records, _mark) = match read_vector::<R, S>(alloc, file) {
        Ok(found) => found,
        Err(fault) => return LookEnd::Refused(fault),
    };
    LookEnd::told(write_number_line(writer, count_equal(&records, wanted)))
}

/// Writes the least position of this record, or `none`, as the vector is at one moment of the call.
pub fn find_beside<R: TextRecord, S: Shared, W: Write>(
    alloc: Global,
    file: &mut S,
    wanted: R,
    writer: &mut W,
) -> LookEnd
    ensures read { IsReadBeside R.form (λ _. AnswersRecords R.form (IsFoundLine wanted)) (S.keeps file.new) (S.held file.old) (S.now file.old) (S.now file.new) (S.synced file.new)
        (W.contents writer.old) (W.contents writer.new) result }
    ensures same { S.held file.new ≡ S.held file.old }
    ensures time { S.now file.old ≤ S.now file.new }
    ensures model { S.keeps file.new → S.keeps file.old }
{
    let (records, _mark) = match read_vector::<R, S>(alloc, file) {
        Ok(found) => found,
        Err(fault) => return LookEnd::Refused(fault),
    };
    LookEnd::told(write_found(writer, first_equal(&records, wanted)))
}
