//! The four device calls of a commit.

ghost use Rattle.std.specs.Prelude.{◌≡◌};
ghost use Rattle.pen_core.specs.Step.{step_after, steps_left};

/// The device call of a commit that comes next.
#[derive(Clone, Copy)]
pub(crate) enum PenStep {
    /// Writes the frame but for its gate, and the next gate, closed.
    Body,
    /// Syncs it.
    BodySync,
    /// Opens the gate.
    Gate,
    /// Syncs that: the command is settled.
    GateSync,
}

impl PenStep {
    /// The one behind it.
    pub(crate) fn next(self) -> Option<PenStep>
        ensures { result ≡ step_after self }
    {
        match self {
            PenStep::Body => Some(PenStep::BodySync),
            PenStep::BodySync => Some(PenStep::Gate),
            PenStep::Gate => Some(PenStep::GateSync),
            PenStep::GateSync => None,
        }
    }

    /// The calls that are left, this one among them.
    pub(crate) fn left(self) -> u8
        ensures { result ≡ steps_left self }
    {
        match self {
            PenStep::Body => 4,
            PenStep::BodySync => 3,
            PenStep::Gate => 2,
            PenStep::GateSync => 1,
        }
    }
}
