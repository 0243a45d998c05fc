//! Scripts: steps, and crashes between them.

ghost use Rattle.std.specs.Prelude.{◌++◌, ◌∷◌, [], IfOk, IfErr, OnOk, ◌≡◌};
ghost use Rattle.play_core.specs.Playing.{IsPlayRefusal};
ghost use Rattle.play_core.specs.Script.{IsScript, script_of, script_asks};
ghost use Rattle.play_core.specs.StepLine.{asked_of};

use crate::asked::Asked;
use crate::step_line::read_step_line;
use disk_core::Choice;
use drive_core::Step;
use std::alloc::{AllocError, Global};
use std::mem;
use text_core::{LineFault, Refusal, TextRecord, next_line};

/// The steps between two crashes, and the image that the second one leaves.
#[derive(Drop)]
pub struct ScriptPart<R> {
    pub steps: Vec<Step<R>>,
    pub crash: Choice,
}

/// What the lines of an input ask for, cut at the crashes.
#[derive(Drop)]
pub struct Script<R> {
    pub parts: Vec<ScriptPart<R>>,
    pub last: Vec<Step<R>>,
}

impl<R: TextRecord> Script<R> {
    fn new(alloc: Global) -> Script<R>
        ensures { script_of result ≡ record { parts = []; last = [] } }
    {
        Script {
            parts: Vec::new(alloc),
            last: Vec::new(alloc),
        }
    }

    /// Appends what one line asks for.
    fn push(&mut self, alloc: Global, asked: Asked<R>) -> Result<(), AllocError>
        ensures { OnOk result (script_asks (script_of self.new) ≡ script_asks (script_of self.old) ++ asked_of asked ∷ []) }
    {
        match asked {
            Asked::Step(step) => self.last.push(step)?,
            Asked::Crash(crash) => {
                let steps = mem::replace(&mut self.last, Vec::new(alloc));
                self.parts.push(ScriptPart { steps, crash })?;
            }
        }
        Ok(())
    }
}

/// Appends what the lines ask for, one each, where nothing is asked yet.
fn read_into<R: TextRecord>(
    script: &mut Script<R>,
    alloc: Global,
    input: &[u8],
) -> Result<(), Refusal>
    requires { script_asks (script_of script.old) ≡ [] }
    ensures read { OnOk result (IsScript R.spelling input.now (script_of script.new)) }
    ensures refused { IfErr result (IsPlayRefusal R.spelling input.now) }
{
    let mut lines = 0u64;
    let mut rest = input;
    'lines: while let Some((line, after)) = next_line(rest) {
        lines += 1;
        let asked = match read_step_line(alloc, line) {
            Ok(asked) => asked,
            Err(LineFault::Bad) => return Err(Refusal::Line(lines)),
            Err(LineFault::Memory) => return Err(Refusal::Memory),
        };
        script.push(alloc, asked)?;
        rest = after;
    }
    Ok(())
}

/// What the lines ask for, one each.
pub fn read_script<R: TextRecord>(alloc: Global, input: &[u8]) -> Result<Script<R>, Refusal>
    ensures read { IfOk result (λ script. IsScript R.spelling input.now (script_of script)) }
    ensures refused { IfErr result (IsPlayRefusal R.spelling input.now) }
{
    let mut script = Script::new(alloc);
    read_into(&mut script, alloc, input)?;
    Ok(script)
}
