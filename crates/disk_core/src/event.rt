ghost use Rattle.std.specs.Prelude.{◌≡◌, is_ok, if◌then◌else◌};

use crate::DiskFault;

/// How a moment of a disk came about.
#[derive(Clone, Copy)]
pub(crate) enum Event {
    /// The disk came with the moments that it has had.
    Began,
    Done,
    Failed,
}

impl Event {
    /// A call with this answer.
    pub(crate) fn of<T>(answer: &Result<T, DiskFault>) -> Event
        ensures { result ≡ (if is_ok answer.now then Event.Done else Event.Failed) }
    {
        if answer.is_ok() {
            Event::Done
        } else {
            Event::Failed
        }
    }
}
