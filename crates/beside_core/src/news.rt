use crate::bookmark::Bookmark;
use crate::since::Loss;

/// What was done to records that a vector had.
#[derive(Clone, Copy, Debug, PartialEq, Eq)]
pub enum Edit<R> {
    /// The record at this position was replaced by this one.
    Set { position: u64, record: R },
    /// The vector was cut to this length.
    Cut(u64),
}

impl<R: Copy> Edit<R> {
    ghost use Rattle.std.specs.Prelude.{◌≡◌};
    ghost use Rattle.beside_core.specs.Edit.{loss_of};

    /// What is lost of the records that were there.
    pub(crate) fn loss(&self) -> Loss
        ensures { result ≡ loss_of self.now }
    {
        match *self {
            Edit::Set { position, .. } => Loss::Changed(position),
            Edit::Cut(size) => Loss::Shorter(size),
        }
    }
}

/// All that has become of a vector since a bookmark was laid.
#[derive(Drop)]
pub struct News<R> {
    /// What was done to the records that were there, one after the other.
    pub edits: Vec<Edit<R>>,
    /// The records that stand behind what the edits leave.
    pub records: Vec<R>,
    /// The bookmark that lies behind all this.
    pub next: Bookmark,
}
