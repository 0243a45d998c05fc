use crate::bookmark::Bookmark;

/// Why the records that were there are the vector's first ones no more.
#[derive(Clone, Copy, Debug, PartialEq, Eq)]
pub enum Loss {
    /// The record at this position was replaced; others may be.
    Changed(u64),
    /// The vector was cut to this length.
    Shorter(u64),
}

/// What has become of a vector since a bookmark was laid.
#[derive(Drop)]
pub enum Since<R> {
    /// These records came behind those that were there. The bookmark lies behind them.
    Grown(Vec<R>, Bookmark),
    /// The records that were there are no more what they were: the first such loss.
    Lost(Loss),
}
