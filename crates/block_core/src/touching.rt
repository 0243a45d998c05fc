//! What may be done to records in any parts.

ghost use Rattle.std.specs.Prelude.{◌≡◌, ◌≤◌, ◌<◌, ◌+◌, ◌^◌, ℕ, length};
ghost use Rattle.block_core.specs.Touched.{TouchedFrom};

/// A change of records, each by itself. What becomes of a record depends on its place and on its value alone,
/// so many records may be changed in parts, in any order and at one time.
pub trait Touch<R: Copy>: Sync {
    ghost one: { Self → ℕ → R → R };

    /// What becomes of the record `r` at the place `at`.
    fn one(&self, at: u64, r: R) -> R
        requires { at < 2 ^ 32 }
        ensures { result ≡ one self.now at r };

    /// Changes each record of the part, whose first one stands at the place `at`.
    fn touch(&self, at: u64, part: &mut [R])
        requires { at + length part.old ≤ 2 ^ 32 }
        ensures { TouchedFrom (one self.now) at part.old part.new }
    {
        for (k, r) in part.iter_mut().enumerate() {
            *r = self.one(at + k as u64, *r);
        }
    }
}
