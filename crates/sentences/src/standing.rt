//! What stands in a file that a command refused, as far as an advice has to know it.

/// What stands in a file that a command refused.
#[derive(Clone, Copy, Debug, PartialEq, Eq)]
pub enum Standing {
    /// It has no byte.
    Nothing,
    /// A vector, sound or not.
    Vector,
    /// Other bytes: those of others, or of a creation that was stopped. So too where that isn't known.
    Bytes,
}
