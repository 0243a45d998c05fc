//! What the program is asked for.

ghost use Rattle.std.specs.Prelude.{◌≡◌, [], None};

/// What is done with the input.
#[derive(Clone, Copy)]
pub enum HexTask {
    /// A segment file is made of group lines.
    Image,
    /// The records of a segment file are listed.
    Show,
}

/// The types of record that the program knows.
#[derive(Clone, Copy)]
pub enum HexType {
    U8,
    U16,
    U32,
    U64,
    I32,
    I64,
    Pair,
    Flagged,
    Bytes16,
    Bytes24,
    Bytes32,
    Bytes64,
}

/// A task on records of one type.
#[derive(Clone, Copy)]
pub struct HexRequest {
    pub task: HexTask,
    pub record_type: HexType,
}

/// The task of this word.
fn task_of(word: &str) -> Option<HexTask> {
    match word {
        "image" => Some(HexTask::Image),
        "show" => Some(HexTask::Show),
        _ => None,
    }
}

/// The type of this word.
fn type_of(word: &str) -> Option<HexType> {
    match word {
        "u8" => Some(HexType::U8),
        "u16" => Some(HexType::U16),
        "u32" => Some(HexType::U32),
        "u64" => Some(HexType::U64),
        "i32" => Some(HexType::I32),
        "i64" => Some(HexType::I64),
        "pair" => Some(HexType::Pair),
        "flagged" => Some(HexType::Flagged),
        "bytes16" => Some(HexType::Bytes16),
        "bytes24" => Some(HexType::Bytes24),
        "bytes32" => Some(HexType::Bytes32),
        "bytes64" => Some(HexType::Bytes64),
        _ => None,
    }
}

/// What the words ask for: with none, an image of u64.
pub fn request_of(words: &[String]) -> Option<HexRequest> {
    match words {
        [] => Some(HexRequest {
            task: HexTask::Image,
            record_type: HexType::U64,
        }),
        [task, record_type] => Some(HexRequest {
            task: task_of(task.as_str())?,
            record_type: type_of(record_type.as_str())?,
        }),
        _ => None,
    }
}
