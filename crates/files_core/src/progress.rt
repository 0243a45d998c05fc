//! How far work is, for who watches it.

use crate::appended::Appended;

/// Is told how far work is. Contracts say nothing of it. `load` tells a `Gate` in its place.
pub trait Progress {
    /// So much is done, of so much in all; 0 of `of` where that isn't known. It is called at most once for each piece of the
    /// work: records of `list`, and bytes of a disk that is `Watched`.
    fn at(&self, done: u64, of: u64);

    /// So much `append` has settled so far. It is called once behind each batch.
    fn appended(&self, appended: Appended);
}
