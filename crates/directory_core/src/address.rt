//! Which bucket and which place a growth has.

ghost use Rattle.std.specs.Prelude.{◌≡◌, ◌<◌};
ghost use Rattle.directory_core.specs.Limits.{place_limit};
ghost use Rattle.directory_core.specs.Spot.{span, IsSpot};

/// The growths of one directory at most: the places of its 26 buckets.
pub const PLACE_LIMIT: u64 = 536_870_904;

/// The growths of a phase at most, where it isn't begun as a wide one: the places of 17 buckets.
pub const GROWTH_LIMIT: u64 = 1_048_568;

/// The buckets of a directory.
pub(crate) const BUCKETS: usize = 26;

/// The places of the first bucket.
const FIRST: usize = 8;

/// How many places a bucket has.
pub(crate) fn bucket_len(bucket: usize) -> usize
    requires { bucket < 26 }
    ensures { result ≡ span bucket }
{
    FIRST << bucket
}

/// The bucket of growth `g`, and its place there: buckets of 8, 16, 32, .. places are filled in order. The growths
/// of one directory have the first 26 of them.
pub fn spot(g: u64) -> (usize, usize)
    ensures spot { IsSpot g result.0 result.1 }
    ensures in_directory { g < place_limit → result.0 < 26 }
{
    let bucket = (g / 8 + 1).ilog2();
    let before = ((1 << bucket) - 1) * 8;
    (bucket as usize, (g - before) as usize)
}
