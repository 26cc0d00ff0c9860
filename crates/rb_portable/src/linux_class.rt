//! The reasons for which Linux refuses an instruction.

ghost use Rattle.std.specs.Prelude.{◌≡◌};

/// Why Linux refuses an instruction of a program that is accepted here.
///
/// Sources: Linux Documentation/bpf/verifier.rst; kernel/bpf/verifier.c.
#[derive(Clone, Copy, Debug, PartialEq, Eq)]
pub enum LinuxClass {
    /// A load or a store at a stack offset that is not a multiple of its size.
    StackAlignment,
    /// A load at a context offset that is not a multiple of its size.
    ContextAlignment,
    /// A load through a context pointer that was moved.
    ContextMoved,
    /// An output of bytes of the context.
    ContextOutput,
    /// An output of zero bytes from the top of the frame, stack offset 0.
    FrameTop,
    /// A shift by an immediate that is negative, or is at least the operation's width in bits.
    Shift,
    /// A division or a remainder by an immediate of zero.
    Division,
    /// A subtraction from a stack pointer.
    StackSubtraction,
    /// A move of a pointer by 2^29 or more in either direction, or to an offset that far away.
    PointerFar,
}

impl LinuxClass {
    ghost use Rattle.rb_portable.specs.Portability.{class_name};

    /// Returns the name of the class, as it is printed.
    pub fn name(self) -> &'static str
        ensures { result.now ≡ class_name self }
    {
        match self {
            LinuxClass::StackAlignment => "stack-alignment",
            LinuxClass::ContextAlignment => "context-alignment",
            LinuxClass::ContextMoved => "context-moved",
            LinuxClass::ContextOutput => "context-output",
            LinuxClass::FrameTop => "frame-top",
            LinuxClass::Shift => "shift",
            LinuxClass::Division => "division",
            LinuxClass::StackSubtraction => "stack-subtraction",
            LinuxClass::PointerFar => "pointer-far",
        }
    }
}
