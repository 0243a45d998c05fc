//! One group line: growths with a bar between each two, a growth's records with a space between each two.

ghost use Rattle.std.specs.Prelude.{◌≡◌, OnOk};
ghost use Rattle.text_core.specs.GroupLine.{IsGroupLine, IsGroupLineOf};
ghost use Rattle.text_core.specs.Words.{TakesWord, IsStrayWord};

use segment_core::Growths;
use text_core::{BAR, LineFault, TextRecord, cut};

/// Takes in one word of a group line: a bar ends the growth, and any other word is a record of it.
fn take_word<R: TextRecord>(word: &[u8], group: &mut Growths<R>) -> Result<(), LineFault>
    ensures ok { OnOk result (TakesWord R.spelling word.now group.old.0 group.old.1 group.new.0 group.new.1) }
    ensures bad { result ≡ Err LineFault.Bad → IsStrayWord R.spelling word.now group.old.1 }
{
    if word != BAR {
        let record = R::parse(word).ok_or(LineFault::Bad)?;
        group.push(record)?;
        return Ok(());
    }
    if !group.is_begun() {
        return Err(LineFault::Bad);
    }
    group.end()?;
    Ok(())
}

/// Reads the growths that a group line spells, in place of those that stood there.
pub fn read_group<R: TextRecord>(line: &[u8], group: &mut Growths<R>) -> Result<(), LineFault>
    ensures read { OnOk result (IsGroupLineOf R.spelling line.now group.new.0) }
    ensures bad { result ≡ Err LineFault.Bad → ¬ (IsGroupLine R.spelling line.now) }
{
    group.clear();
    let mut rest = Some(line);
    while let Some(text) = rest {
        let (word, after) = cut(text, b' ');
        take_word(word, group)?;
        rest = after;
    }
    if !group.is_begun() {
        return Err(LineFault::Bad);
    }
    group.end()?;
    Ok(())
}
