//! Read-only views of bytes.

ghost use Rattle.std.specs.Prelude.{◌≡◌, ℕ, List};

/// A read-only view of bytes, such as a program's context.
pub trait Context {
    /// The bytes of the view.
    ghost shown: { Self → List ℕ };

    /// Returns the bytes of the view.
    fn bytes(&self) -> &[u8]
        ensures { result.now ≡ shown self.now };
}

impl<'c> Context for &'c [u8] {
    ghost shown = { λ s. s.now };

    fn bytes(&self) -> &[u8] {
        *self
    }
}
