//! How contexts of one length are made from the input.

ghost use Rattle.std.specs.Prelude.{◌≡◌, ◌≤◌, ◌<◌, ◌+◌, ◌-◌, ◌++◌, ◌↔◌, IsTrue, length, min, replicate, take};
ghost use Rattle.rb_source.specs.Form.{form_len, formed, fits, is_cut, IsForm};

/// What is done with contexts that don't have the requested length.
#[derive(Clone, Copy, Debug, PartialEq, Eq)]
pub enum Fit {
    /// Contexts with another length are skipped and counted.
    Exact,
    /// Shorter contexts are padded with zeros. Longer ones are skipped and counted.
    Pad,
    /// Shorter contexts are padded with zeros. Longer ones are cut to the requested length and counted.
    Cut,
}

impl Fit {
    // Returns whether a context of this length is given.
    pub(crate) fn is_met(self, len: u32, total: u32) -> bool
        ensures value { result ≡ fits self len total }
    {
        match self {
            Fit::Exact => total == len,
            Fit::Pad => total <= len,
            Fit::Cut => true,
        }
    }

    // Returns whether a context of this length is cut.
    pub(crate) fn cuts(self, len: u32, total: u32) -> bool
        ensures value { result ≡ is_cut self len total }
    {
        match self {
            Fit::Cut => total > len,
            Fit::Exact | Fit::Pad => false,
        }
    }
}

/// The form of the contexts that programs are given.
#[derive(Clone, Copy, Debug, PartialEq, Eq)]
pub struct Form {
    /// The requested length, in bytes.
    pub len: u32,
    /// What is done with contexts of another length.
    pub fit: Fit,
    /// Whether the original length of a context is put in front of it, as a little-endian `u32`.
    pub with_length: bool,
}

impl Form {
    /// Returns the length of the contexts that programs are given: the requested length, plus 4 if the original length
    /// is put in front.
    pub fn ctx_len(&self) -> u32
        requires lawful { IsForm self.now }
        ensures value { result ≡ form_len self.now }
    {
        if self.with_length {
            return self.len + 4;
        }
        self.len
    }

    /// Returns whether such contexts are at most 65,536 bytes long.
    pub fn is_lawful(&self) -> bool
        ensures value { IsTrue result ↔ IsForm self.now }
    {
        if self.with_length {
            return self.len <= 65_532;
        }
        self.len <= 65_536
    }
}

// Writes the front of a context's bytes, followed by zeros.
fn write_body(body: &mut [u8], front: &[u8])
    requires { length front.now ≤ length body.old }
    ensures { body.new ≡ front.now ++ replicate (length body.old - length front.now) 0 }
{
    let n = front.len();
    body[..n].copy_from_slice(front);
    body[n..].fill(0);
}

// Writes the context of this form, given the front of the bytes that arrived and their total number.
pub(crate) fn write_formed(slot: &mut [u8], form: &Form, front: &[u8], total: u32)
    requires size { length slot.old ≡ form_len form.now }
    requires front { min total form.now.len ≤ length front.now }
    ensures written { slot.new ≡ formed form.now front.now total }
{
    let n = total.min(form.len) as usize;
    if form.with_length {
        slot[..4].copy_from_slice(&total.to_le_bytes());
        write_body(&mut slot[4..], &front[..n]);
    } else {
        write_body(slot, &front[..n]);
    }
}
