//! How the program is used, as standard error tells it of words that ask for nothing.

ghost use Rattle.std.specs.Prelude.{OnOk};
ghost use Rattle.std.specs.Io.KnownBytes.{Appends};
ghost use Rattle.text_core.specs.Text.{ended_line};
ghost use Rattle.words_core.specs.Usage.{command_line, help_usage, look_line, meant_line, usage_text, wrong_usage};

use std::io;
use std::io::Write;

/// Where to read on.
#[derive(Clone, Copy)]
pub enum Look {
    /// What is told of all commands.
    Commands,
    /// What is told of this one.
    Command(&'static str),
    /// The same, for this one may be meant.
    Nearest(&'static str),
    /// What is told of the first one, whose option of the second name may be meant.
    NearestOption(&'static str, &'static str),
}

/// What is told of words that ask for nothing.
#[derive(Drop)]
pub enum Usage {
    /// The help that they ask for.
    Help(&'static [u8]),
    /// What is wrong with them, and where to read on.
    Wrong(String, Look),
}

/// Writes a line.
fn write_line<W: Write>(writer: &mut W, line: &str) -> io::Result<()>
    ensures { OnOk result (Appends (W.contents writer.old) (W.contents writer.new) (ended_line line.now)) }
{
    writer.write_all(line.as_bytes())?;
    writer.write_all(b"\n")
}

/// Writes where what is told of a command stands.
fn write_command<W: Write>(writer: &mut W, name: &str) -> io::Result<()>
    ensures { OnOk result (Appends (W.contents writer.old) (W.contents writer.new) (command_line name.now)) }
{
    writer.write_all(b"'cvec help ")?;
    writer.write_all(name.as_bytes())?;
    writer.write_all(b"' tells of it\n")
}

/// Writes that this word may be meant, behind its quote and dashes, and where what is told of the command stands.
fn write_meant<W: Write>(writer: &mut W, opening: &str, word: &str, name: &str) -> io::Result<()>
    ensures { OnOk result (Appends (W.contents writer.old) (W.contents writer.new) (meant_line opening.now word.now name.now)) }
{
    writer.write_all(opening.as_bytes())?;
    writer.write_all(word.as_bytes())?;
    writer.write_all(b"' may be meant: ")?;
    write_command(writer, name)
}

/// Writes where to read on, as a line.
fn write_look<W: Write>(writer: &mut W, look: Look) -> io::Result<()>
    ensures { OnOk result (Appends (W.contents writer.old) (W.contents writer.new) (look_line look)) }
{
    match look {
        Look::Commands => writer.write_all(b"'cvec help' lists the commands\n"),
        Look::Command(name) => write_command(writer, name),
        Look::Nearest(name) => write_meant(writer, "'", name, name),
        Look::NearestOption(name, option) => write_meant(writer, "'--", option, name),
    }
}

/// Writes the usage in one line, and a help.
fn write_help<W: Write>(writer: &mut W, help: &[u8]) -> io::Result<()>
    ensures { OnOk result (Appends (W.contents writer.old) (W.contents writer.new) (help_usage help.now)) }
{
    writer.write_all(b"usage: cvec COMMAND TYPE ..\n\n")?;
    writer.write_all(help)
}

/// Writes the usage in one line, what is wrong with the words, and where to read on.
pub fn write_wrong<W: Write>(writer: &mut W, sentence: &str, look: Look) -> io::Result<()>
    ensures { OnOk result (Appends (W.contents writer.old) (W.contents writer.new) (wrong_usage sentence.now look)) }
{
    writer.write_all(b"usage: cvec COMMAND TYPE ..\n")?;
    write_line(writer, sentence)?;
    write_look(writer, look)?;
    writer.flush()
}

/// Writes what is told of words that ask for nothing, behind the usage in one line.
pub fn write_usage<W: Write>(writer: &mut W, usage: &Usage) -> io::Result<()>
    ensures { OnOk result (Appends (W.contents writer.old) (W.contents writer.new) (usage_text usage.now)) }
{
    match usage {
        Usage::Help(help) => {
            write_help(writer, *help)?;
            writer.flush()
        }
        Usage::Wrong(sentence, look) => write_wrong(writer, sentence.as_str(), *look),
    }
}
