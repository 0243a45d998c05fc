//! How a run of the program ended.

ghost use Rattle.std.specs.Prelude.{◌≡◌};

/// How a run of the program ended.
#[derive(Clone, Copy, Debug, PartialEq, Eq)]
pub enum Status {
    /// All of the answer was written.
    Done,
    /// The input was refused, and the line that names the refusal was written.
    Refused,
    /// A write failed: a part of the answer may have been written.
    OutputFailed,
    /// The words ask for nothing that the program does. Nothing was written.
    Usage,
}

impl Status {
    ghost use Rattle.text_core.specs.Status.{exit_code};

    /// The program's exit status.
    pub fn code(self) -> u8
        ensures { result ≡ exit_code self }
    {
        match self {
            Status::Done => 0,
            Status::Refused | Status::OutputFailed => 1,
            Status::Usage => 2,
        }
    }
}
