//! The segment file of the groups that an input's lines spell.

ghost use Rattle.std.specs.Prelude.{◌≡◌, ◌+◌, List, ◌∷◌, ◌++◌, [], length, OnOk, IfOk, IfErr};
ghost use Rattle.image_core.specs.Engines.{IsFileOfLines};
ghost use Rattle.text_core.specs.GroupLine.{AreGroupLines};
ghost use Rattle.image_core.specs.Refusals.{IsImageRefusal};
ghost use Rattle.image_core.specs.Drafts.{IsDraft};

use crate::group_line::read_group;
use record_core::PAYLOAD_LIMIT;
use segment_core::{Format, GroupFault, Growths, append_group, append_header, append_last_gate};
use std::alloc::{AllocError, Global};
use text_core::{LineFault, Refusal, TextRecord, next_line};

/// Appends the group of this line, counted from 1, if all before it were appended, or else keeps the file. The
/// first line whose group is too large is noted.
fn take_group<R: TextRecord>(
    group: &Growths<R>,
    line: u64,
    file: &mut Vec<u8>,
    too_large: &mut Option<u64>,
) -> Result<(), AllocError>
    ensures { OnOk result ((groups : List (List (List R))) → line ≡ length groups + 1 → IsDraft R.form groups file.old.items too_large.old → IsDraft R.form (groups ++ group.now.0 ∷ []) file.new.items too_large.new) }
{
    if too_large.is_some() {
        return Ok(());
    }
    match append_group::<R, Growths<R>>(group, PAYLOAD_LIMIT, file) {
        Ok(()) => Ok(()),
        Err(GroupFault::TooLarge) => {
            *too_large = Some(line);
            Ok(())
        }
        Err(GroupFault::Memory) => Err(AllocError),
    }
}

/// Appends the groups that the lines spell, one each. Each line is read before a size is answered, since a line that is no
/// group line is answered first.
fn append_lines<R: TextRecord>(
    input: &[u8],
    group: &mut Growths<R>,
    file: &mut Vec<u8>,
    too_large: &mut Option<u64>,
) -> Result<(), Refusal>
    requires { IsDraft R.form [] file.old.items too_large.old }
    ensures read { OnOk result ((groups : List (List (List R))) × AreGroupLines R.spelling input.now groups × IsDraft R.form groups file.new.items too_large.new) }
    ensures refused { IfErr result (IsImageRefusal R.form R.spelling input.now) }
{
    let mut lines = 0u64;
    let mut rest = input;
    'lines: while let Some((line, after)) = next_line(rest) {
        lines += 1;
        match read_group(line, group) {
            Ok(()) => {}
            Err(LineFault::Bad) => return Err(Refusal::Line(lines)),
            Err(LineFault::Memory) => return Err(Refusal::Memory),
        }
        take_group(group, lines, file, too_large)?;
        rest = after;
    }
    Ok(())
}

/// Writes the file of the groups that the lines spell, where nothing stands yet.
fn write_file<R: TextRecord>(
    input: &[u8],
    group: &mut Growths<R>,
    file: &mut Vec<u8>,
) -> Result<(), Refusal>
    requires { file.old.items ≡ [] }
    ensures made { OnOk result (IsFileOfLines R.form R.spelling input.now file.new.items) }
    ensures refused { IfErr result (IsImageRefusal R.form R.spelling input.now) }
{
    let mut too_large = None;
    append_header::<R>(Format::One, file)?;
    append_lines(input, group, file, &mut too_large)?;
    if let Some(line) = too_large {
        return Err(Refusal::TooLargeAtLine(line));
    }
    append_last_gate(file)?;
    Ok(())
}

/// The file of the groups that the lines spell, one each. Beside the input and the file one group is in memory.
pub fn file_of_lines<R: TextRecord>(alloc: Global, input: &[u8]) -> Result<Vec<u8>, Refusal>
    ensures made { IfOk result (λ file. IsFileOfLines R.form R.spelling input.now file.items) }
    ensures refused { IfErr result (IsImageRefusal R.form R.spelling input.now) }
{
    let mut file = Vec::new(alloc);
    let mut group = Growths::<R>::new(alloc);
    write_file(input, &mut group, &mut file)?;
    Ok(file)
}
