//! How many calls of a disk pass, and what comes then.
ghost use Rattle.std.specs.Prelude.{◌≡◌};

/// What happens to the calls of a disk after those that pass.
#[derive(Clone, Copy, Debug)]
pub enum Blow {
    /// All fail, and nothing reaches the disk below.
    Stop,
    /// One fails, and all later ones pass. If it is a write, so many bytes, the first, are written.
    FailOnce(u64),
}

/// What a fuse still lets pass.
#[derive(Clone, Copy)]
pub(crate) enum Fuse {
    /// So many calls pass before it blows.
    Whole(u64, Blow),
    /// No call passes any more.
    Stopped,
    /// All calls pass.
    Spent,
}

/// What becomes of one call.
#[derive(Clone, Copy)]
pub(crate) enum Fate {
    Passes,
    /// Nothing of it reaches the disk below.
    Fails,
    /// Of a write the first bytes reach the disk below, this many of them; of another call nothing.
    Breaks(u64),
}

impl Fuse {
    ghost use Rattle.disk_core.specs.Fuse.{fate_of, burnt};

    /// One call more.
    pub(crate) fn burn(&mut self) -> Fate
        ensures fate { result ≡ fate_of self.old }
        ensures burnt { self.new ≡ burnt self.old }
    {
        match *self {
            Fuse::Whole(0, Blow::Stop) => {
                *self = Fuse::Stopped;
                Fate::Fails
            }
            Fuse::Whole(0, Blow::FailOnce(arriving)) => {
                *self = Fuse::Spent;
                Fate::Breaks(arriving)
            }
            Fuse::Whole(left, blow) => {
                *self = Fuse::Whole(left - 1, blow);
                Fate::Passes
            }
            Fuse::Stopped => Fate::Fails,
            Fuse::Spent => Fate::Passes,
        }
    }
}
