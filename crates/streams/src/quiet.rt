//! Long work that is told of, or not, as the words ask.

use files_core::{Appended, Progress};

/// Tells another one how far work is, unless it is to be quiet. One type for both, so that the commands are compiled once.
#[derive(Drop)]
pub struct ToldUnless<'a, P> {
    progress: &'a P,
    quiet: bool,
}

impl<'a, P> ToldUnless<'a, P> {
    pub fn quiet(quiet: bool, progress: &'a P) -> ToldUnless<'a, P> {
        ToldUnless { progress, quiet }
    }
}

impl<'a, P: Progress> Progress for ToldUnless<'a, P> {
    fn at(&self, done: u64, of: u64) {
        if !self.quiet {
            self.progress.at(done, of);
        }
    }

    fn appended(&self, appended: Appended) {
        if !self.quiet {
            self.progress.appended(appended);
        }
    }
}
