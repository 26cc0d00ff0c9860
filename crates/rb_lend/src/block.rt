//! A fixed number of bytes, which lends a range of them.

ghost use Rattle.std.specs.Prelude.{◌≡◌, ◌+◌, ◌≤◌, take, drop, length};
ghost use Rattle.std.specs.Borrow.{sem};
ghost use Rattle.rb_lend.specs.Block.{LendsBlockRange};

/// An array of `N` bytes.
#[derive(Drop)]
pub struct Block<const N: usize> {
    pub bytes: [u8; N],
}

impl<const N: usize> Block<N> {
    /// Lends the bytes for reading.
    pub fn bytes(&self) -> &[u8]
        ensures value { result.now ≡ self.now.bytes }
        ensures size { length self.now.bytes ≡ N }
    {
        self.bytes.as_slice()
    }

    /// Lends `len` bytes from index `at` for writing.
    pub fn range_mut(&mut self, at: usize, len: usize) -> &mut [u8]
        requires { at + len ≤ N }
        ensures* writes_back { sem 𝓛 (LendsBlockRange N.row self.entry at result) }
        ensures value { (result.now ≡ take len (drop at self.old.bytes)) × ((length result.now ≡ len) × (length self.old.bytes ≡ N)) }
    {
        &mut self.bytes[at..at + len]
    }
}
