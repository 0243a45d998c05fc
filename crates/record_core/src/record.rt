//! What a type has to offer to be kept in a segment file.

ghost use Rattle.std.specs.Prelude.{◌≡◌, ◌≤◌, ◌<◌, ◌^◌, ℕ, Some, length, true};
ghost use Rattle.record_core.specs.Bytes.{Encoding, WritesBack};

/// A value of fixed width. Its bytes and its value determine each other: what `put` wrote, `take` reads
/// again, and where `take` reads a value, `put` writes those same bytes.
pub trait Record: Copy + Eq + Send + Sync {
    /// The bytes that one record takes, 1 to 65,535.
    const WIDTH: usize;

    ghost WIDTH: { ℕ };

    /// What the type means in a file: how many bytes a value has, which, and what is read from as many.
    ghost form: { Encoding Self };

    ghost blank_value: { Self };

    /// Writes the value over `WIDTH` bytes.
    fn put(&self, out: &mut [u8])
        requires { length out.old ≡ form.width }
        ensures bytes { out.new ≡ form.bytes_of self.now }
        ensures read_again { form.value_of (form.bytes_of self.now) ≡ Some self.now };

    /// Reads `WIDTH` bytes. `None`: they are no record of this type.
    fn take(bytes: &[u8]) -> Option<Self>
        requires { length bytes.now ≡ form.width }
        ensures { result ≡ form.value_of bytes.now };

    /// The value that fills a growth whose caller gives none.
    fn blank() -> Self
        ensures { result ≡ blank_value };

    /// The constant is the form's width.
    ghost width_is: { WIDTH ≡ form.width };

    ghost width_in_range: { (1 ≤ form.width) × (form.width < 2 ^ 16) };

    ghost width_of_bytes: { (r : Self) → length (form.bytes_of r) ≡ form.width };

    /// Bytes that are read as a value are that value's bytes.
    ghost writes_back: { WritesBack form };

    /// Values that `==` calls equal are one.
    ghost exact: { (x y : Self) → Self.Eq.eq x y ≡ true → x ≡ y };
}

/// The width of a record in bytes, in words of what its type means in a file.
pub fn width_of<R: Record>() -> usize
    ensures is { result ≡ R.form.width }
    ensures range { (1 ≤ result) × (result < 2 ^ 16) }
{
    R::WIDTH
}
