//! The helpers that a program may call.

ghost use Rattle.std.specs.Prelude.{◌≡◌};
ghost use Rattle.rb_verifier.specs.HelperChecks.{helper_of, helper_number};

/// A helper that a program may call (bpf-helpers(7); the numbers are the kernel's).
#[derive(Clone, Copy, Debug, PartialEq, Eq)]
pub enum Helper {
    /// bpf_ringbuf_output
    Output,
    /// bpf_ringbuf_reserve
    Reserve,
    /// bpf_ringbuf_submit
    Submit,
    /// bpf_ringbuf_discard
    Discard,
    /// bpf_ringbuf_query
    Query,
}

impl Helper {
    /// Returns the helper with this number, if there is one.
    pub fn from_number(number: u32) -> Option<Helper>
        ensures { result ≡ helper_of number }
    {
        match number {
            130 => Some(Helper::Output),
            131 => Some(Helper::Reserve),
            132 => Some(Helper::Submit),
            133 => Some(Helper::Discard),
            134 => Some(Helper::Query),
            _ => None,
        }
    }

    /// Returns the helper's number.
    pub fn number(self) -> u32
        ensures { result ≡ helper_number self }
    {
        match self {
            Helper::Output => 130,
            Helper::Reserve => 131,
            Helper::Submit => 132,
            Helper::Discard => 133,
            Helper::Query => 134,
        }
    }
}
