//! Floats. The commands work on the numbers that have their bits, and their texts are turned on the way: those of the words here,
//! those of input and output by streams.

use float_core::{FloatLines, FloatType, append_bits};
use std::alloc::{AllocError, Global};
use words_core::{FileTask, FileWords, RecordType, Request, Task};

/// The floats that records of a type are, if they are some.
fn float_of(record_type: RecordType) -> Option<FloatType> {
    match record_type {
        RecordType::F32 => Some(FloatType::F32),
        RecordType::F64 => Some(FloatType::F64),
        _ => None,
    }
}

/// The floats that the records of a request are.
fn float_asked(request: Request<'_>) -> Option<FloatType> {
    match request {
        Request::Input(_, record_type) => float_of(record_type),
        Request::File(words) => float_of(words.record_type),
        Request::Stat(_) | Request::Tell(_) => None,
    }
}

/// The floats that its input has, and in which lines.
pub fn floats_read(request: Request<'_>) -> Option<(FloatType, FloatLines)> {
    let float = float_asked(request)?;
    match request {
        Request::Input(Task::Show, _) => None,
        Request::Input(Task::Play, _) => Some((float, FloatLines::Steps)),
        _ => Some((float, FloatLines::Growths)),
    }
}

/// The floats that its output has. Only these commands write records.
pub fn floats_written(request: Request<'_>) -> Option<FloatType> {
    match request {
        Request::Input(Task::Show | Task::Play, record_type) => float_of(record_type),
        Request::File(words) => match words.task {
            FileTask::List { .. } | FileTask::Follow { .. } => float_of(words.record_type),
            _ => None,
        },
        _ => None,
    }
}

/// Appends what several records with commas between them stand for.
fn append_list(float: FloatType, words: &[u8], out: &mut Vec<u8>) -> Result<(), AllocError> {
    let mut start = 0;
    for at in 0..words.len() {
        if words[at] == b',' {
            append_bits(float, &words[start..at], out)?;
            out.push(b',')?;
            start = at + 1;
        }
    }
    append_bits(float, &words[start..], out)
}

/// The words of records that a request has, with the numbers for floats. Where it has none, nothing.
pub fn words_in_bits(alloc: Global, request: Request<'_>) -> Result<Vec<u8>, AllocError> {
    let mut bits = Vec::new(alloc);
    let Request::File(words) = request else {
        return Ok(bits);
    };
    if let (Some(float), Some(records)) = (float_of(words.record_type), words.task.records()) {
        match words.task {
            FileTask::Set { .. } => append_list(float, records.as_bytes(), &mut bits)?,
            _ => append_bits(float, records.as_bytes(), &mut bits)?,
        }
    }
    Ok(bits)
}

/// The request with these words in the place of its floats.
pub fn with_bits<'a>(request: Request<'a>, bits: &'a str) -> Request<'a> {
    match request {
        Request::File(words) if float_of(words.record_type).is_some() => Request::File(FileWords {
            task: words.task.with_records(bits),
            ..words
        }),
        _ => request,
    }
}
