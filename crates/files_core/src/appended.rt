//! What `append` tells of what it has settled.

/// What `append` has settled, however it ended.
#[derive(Clone, Copy)]
pub struct Appended {
    /// So many growths stand in the file.
    pub growths: u64,
    /// They are those of so many lines, the first: the call may be made again with the lines behind them. But behind a
    /// `Vault` fault some growths of the lines behind them may stand too, and the file alone tells how many.
    pub lines: u64,
    /// How many records the file's vector has then; 0 where the file wasn't opened.
    pub size: u64,
}
