//! The engine that runs scripts of steps over a disk in memory.

ghost use Rattle.std.specs.Prelude.{◌≡◌, ◌≢◌, ◌++◌, length, map, List, ℕ, IfSome, IfOk, IfErr};
ghost use Rattle.disk_core.specs.Choice.{IsChosen};
ghost use Rattle.disk_core.specs.RamDisk.{states_of};
ghost use Rattle.disk_core.specs.State.{now};
ghost use Rattle.drive_core.specs.Asked.{step_of};
ghost use Rattle.play_core.specs.Answers.{crashed_line};
ghost use Rattle.play_core.specs.Playing.{IsPlayRefusal, ArePlayed, WritesPlay, WritesPlayRefusal};
ghost use Rattle.play_core.specs.Played.{AreStepsPlayed, IsPartPlayed, IsScriptPlayed, fresh_disk, ram_disk};
ghost use Rattle.play_core.specs.Script.{part_of, script_of};

use crate::answer_line::{write_answers, write_crashed};
use crate::script::{Script, ScriptPart, read_script};
use disk_core::{Choice, RamDisk};
use drive_core::{Step, drive};
use std::alloc::Global;
use std::io::{Read, Write};
use std::sync::Wait;
use std::thread::Threads;
use text_core::{Refusal, Status, TextRecord, read_input, refuse, write_text};

/// Runs the steps, with nothing open at first, and appends the lines of their answers. Gives the disk as they left it.
fn play_steps<R: TextRecord, E: Threads + Wait + Sync>(
    alloc: Global,
    rt: &E,
    disk: RamDisk,
    steps: &[Step<R>],
    text: &mut Vec<u8>,
) -> Result<RamDisk, Refusal>
    ensures played { IfOk result (λ left. (own : List ℕ) × (text.new.items ≡ text.old.items ++ own) × AreStepsPlayed R.form R.spelling.text_of (ram_disk disk) (map step_of steps.now) (ram_disk left) own) }
    ensures refused { IfErr result (λ refusal. refusal ≡ Refusal.Memory) }
{
    let Ok(driven) = drive(alloc, rt, disk, steps) else {
        return Err(Refusal::Memory);
    };
    match write_answers(text, driven.answers.as_slice()) {
        Ok(()) => Ok(driven.disk),
        Err(_) => Err(Refusal::Memory),
    }
}

/// Crashes, and appends the crash's line. Gives the disk as the crash left it.
fn play_crash(
    alloc: Global,
    disk: &RamDisk,
    crash: &Choice,
    text: &mut Vec<u8>,
) -> Result<RamDisk, Refusal>
    ensures crashed { IfOk result (λ left. (image : List ℕ) × IsChosen crash.now (now (states_of disk.now)) image × (text.new.items ≡ text.old.items ++ crashed_line (length image)) × (ram_disk left ≡ fresh_disk image)) }
    ensures refused { IfErr result (λ refusal. refusal ≡ Refusal.Memory) }
{
    let Ok(image) = disk.image(crash) else {
        return Err(Refusal::Memory);
    };
    match write_crashed(text, image.len() as u64) {
        Ok(()) => Ok(RamDisk::from_bytes(alloc, image)),
        Err(_) => Err(Refusal::Memory),
    }
}

/// Runs the steps of a part and crashes, and appends the lines of both. Gives the disk as the crash left it.
fn play_part<R: TextRecord, E: Threads + Wait + Sync>(
    alloc: Global,
    rt: &E,
    disk: RamDisk,
    part: &ScriptPart<R>,
    text: &mut Vec<u8>,
) -> Result<RamDisk, Refusal>
    ensures played { IfOk result (λ left. (image : List ℕ) × (own : List ℕ) × (text.new.items ≡ text.old.items ++ own) × IsPartPlayed R.form R.spelling.text_of (ram_disk disk) (part_of part.now) image own × (ram_disk left ≡ fresh_disk image)) }
    ensures refused { IfErr result (λ refusal. refusal ≡ Refusal.Memory) }
{
    let disk = play_steps(alloc, rt, disk, part.steps.as_slice(), text)?;
    play_crash(alloc, &disk, &part.crash, text)
}

/// Runs a script on an empty disk. Gives what is written for it.
fn play_script<R: TextRecord, E: Threads + Wait + Sync>(
    alloc: Global,
    rt: &E,
    script: &Script<R>,
) -> Result<Vec<u8>, Refusal>
    ensures played { IfOk result (λ text. IsScriptPlayed R.form R.spelling.text_of (script_of script.now) text.items) }
    ensures refused { IfErr result (λ refusal. refusal ≡ Refusal.Memory) }
{
    let mut text = Vec::new(alloc);
    let mut disk = RamDisk::new(alloc);
    for part in &script.parts {
        disk = play_part(alloc, rt, disk, part, &mut text)?;
    }
    play_steps(alloc, rt, disk, script.last.as_slice(), &mut text)?;
    Ok(text)
}

/// Runs the script that the input's lines spell, one step or crash each. Gives what is written for it.
fn play_lines<R: TextRecord, E: Threads + Wait + Sync>(
    alloc: Global,
    rt: &E,
    input: &[u8],
) -> Result<Vec<u8>, Refusal>
    ensures played { IfOk result (λ text. ArePlayed R.form R.spelling input.now text.items) }
    ensures refused { IfErr result (IsPlayRefusal R.spelling input.now) }
{
    let script = read_script::<R>(alloc, input)?;
    play_script(alloc, rt, &script)
}

/// Reads a script, runs it over a disk in memory that is empty at first, and writes a line for each of its lines. Of an
/// input that is refused only the line of the refusal is written.
pub fn play<R: TextRecord, I: Read, W: Write, E: Threads + Wait + Sync>(
    alloc: Global,
    rt: &E,
    reader: &mut I,
    writer: &mut W,
) -> Status
    ensures done { result ≡ Status.Done → IfSome (I.remaining reader.old) (λ input.
        WritesPlay R.form R.spelling input (W.contents writer.old) (W.contents writer.new)) }
    ensures refused { result ≡ Status.Refused → IfSome (I.remaining reader.old) (λ input.
        WritesPlayRefusal R.spelling input (W.contents writer.old) (W.contents writer.new)) }
    ensures no_usage { result ≢ Status.Usage }
{
    let answer = match read_input(alloc, reader) {
        Ok(input) => play_lines::<R, E>(alloc, rt, input.as_slice()),
        Err(refusal) => Err(refusal),
    };
    match answer {
        Ok(text) => match write_text(text.as_slice(), writer) {
            Ok(()) => Status::Done,
            Err(_) => Status::OutputFailed,
        },
        Err(refusal) => refuse(writer, refusal),
    }
}
