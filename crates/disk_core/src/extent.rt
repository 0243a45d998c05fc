ghost use Rattle.std.specs.Prelude.{◌≡◌};

/// A run of bytes of a disk.
#[derive(Clone, Copy)]
pub struct Extent {
    /// The place of its first byte.
    pub at: u64,
    /// How many bytes it has.
    pub len: u64,
}

impl Extent {
    ghost use Rattle.disk_core.specs.State.{has_place};

    pub(crate) fn has_place(&self, place: u64) -> bool
        ensures { result ≡ has_place self.now place }
    {
        self.at <= place && place - self.at < self.len
    }
}
