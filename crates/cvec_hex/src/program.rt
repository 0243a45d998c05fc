//! The program: what its words ask for, done on its input and output.

ghost use Rattle.std.specs.Prelude.{◌≡◌, ◌≢◌, IfSome};
ghost use Rattle.cvec_hex.specs.Runs.{IsHexTaskRun, IsHexRun};

use crate::request::{HexRequest, HexTask, HexType};
use image_core::{image, show};
use record_core::{Bytes16, Bytes24, Bytes32, Bytes64, Flagged, Pair};
use std::alloc::Global;
use std::io::{Read, Write};
use text_core::{Status, TextRecord};

/// Does the task on records of one type.
fn run_of<R: TextRecord, I: Read, W: Write>(
    alloc: Global,
    task: HexTask,
    reader: &mut I,
    writer: &mut W,
) -> Status
    ensures ends { IfSome (I.remaining reader.old) (λ input.
        IsHexTaskRun task R.form R.spelling input (W.contents writer.old) (W.contents writer.new) result) }
    ensures no_usage { result ≢ Status.Usage }
{
    match task {
        HexTask::Image => image::<R, I, W>(alloc, reader, writer),
        HexTask::Show => show::<R, I, W>(alloc, reader, writer),
    }
}

/// Does what is asked for.
pub fn run<I: Read, W: Write>(
    alloc: Global,
    request: HexRequest,
    reader: &mut I,
    writer: &mut W,
) -> Status
    ensures ends { IfSome (I.remaining reader.old) (λ input.
        IsHexRun request input (W.contents writer.old) (W.contents writer.new) result) }
    ensures no_usage { result ≢ Status.Usage }
{
    let task = request.task;
    match request.record_type {
        HexType::U8 => run_of::<u8, I, W>(alloc, task, reader, writer),
        HexType::U16 => run_of::<u16, I, W>(alloc, task, reader, writer),
        HexType::U32 => run_of::<u32, I, W>(alloc, task, reader, writer),
        HexType::U64 => run_of::<u64, I, W>(alloc, task, reader, writer),
        HexType::I32 => run_of::<i32, I, W>(alloc, task, reader, writer),
        HexType::I64 => run_of::<i64, I, W>(alloc, task, reader, writer),
        HexType::Pair => run_of::<Pair, I, W>(alloc, task, reader, writer),
        HexType::Flagged => run_of::<Flagged, I, W>(alloc, task, reader, writer),
        HexType::Bytes16 => run_of::<Bytes16, I, W>(alloc, task, reader, writer),
        HexType::Bytes24 => run_of::<Bytes24, I, W>(alloc, task, reader, writer),
        HexType::Bytes32 => run_of::<Bytes32, I, W>(alloc, task, reader, writer),
        HexType::Bytes64 => run_of::<Bytes64, I, W>(alloc, task, reader, writer),
    }
}
