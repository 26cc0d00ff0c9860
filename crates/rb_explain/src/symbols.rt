//! The symbols and type names in assembly.

ghost use Rattle.std.specs.Prelude.{◌≡◌};
ghost use Rattle.rb_explain.specs.AssemblyParts as parts;

use rb_insn::{
    BinaryOp, ByteOrder, Condition, DivisionOp, Extend32, Extend64, SignedSize, Signedness, Size,
    SwapWidth,
};

/// Returns the operator of an arithmetic operation, as in `r1 += r2`.
pub(crate) fn binary_symbol(op: BinaryOp) -> &'static str
    ensures { result.now ≡ parts.binary_symbol op }
{
    match op {
        BinaryOp::Add => "+=",
        BinaryOp::Sub => "-=",
        BinaryOp::Mul => "*=",
        BinaryOp::Or => "|=",
        BinaryOp::And => "&=",
        BinaryOp::Lsh => "<<=",
        BinaryOp::Rsh => ">>=",
        BinaryOp::Xor => "^=",
        BinaryOp::Arsh => "s>>=",
    }
}

/// Returns the operator of a division or a remainder.
pub(crate) fn division_symbol(sign: Signedness, op: DivisionOp) -> &'static str
    ensures { result.now ≡ parts.division_symbol sign op }
{
    match (sign, op) {
        (Signedness::Unsigned, DivisionOp::Div) => "/=",
        (Signedness::Unsigned, DivisionOp::Mod) => "%=",
        (Signedness::Signed, DivisionOp::Div) => "s/=",
        (Signedness::Signed, DivisionOp::Mod) => "s%=",
    }
}

/// Returns the operator of a comparison.
pub(crate) fn condition_symbol(condition: Condition) -> &'static str
    ensures { result.now ≡ parts.condition_symbol condition }
{
    match condition {
        Condition::Equal => "==",
        Condition::NotEqual => "!=",
        Condition::AnyBit => "&",
        Condition::Above => ">",
        Condition::AtLeast => ">=",
        Condition::Below => "<",
        Condition::AtMost => "<=",
        Condition::SignedAbove => "s>",
        Condition::SignedAtLeast => "s>=",
        Condition::SignedBelow => "s<",
        Condition::SignedAtMost => "s<=",
    }
}

/// Returns the type that a 32-bit sign-extending move converts from.
pub(crate) fn extend32_type(from: Extend32) -> &'static str
    ensures { result.now ≡ parts.extend32_type from }
{
    match from {
        Extend32::From8 => "s8",
        Extend32::From16 => "s16",
    }
}

/// Returns the type that a 64-bit sign-extending move converts from.
pub(crate) fn extend64_type(from: Extend64) -> &'static str
    ensures { result.now ≡ parts.extend64_type from }
{
    match from {
        Extend64::From8 => "s8",
        Extend64::From16 => "s16",
        Extend64::From32 => "s32",
    }
}

/// Returns the name of a byte swap's order.
pub(crate) fn byte_order_name(order: ByteOrder) -> &'static str
    ensures { result.now ≡ parts.byte_order_name order }
{
    match order {
        ByteOrder::Little => "le",
        ByteOrder::Big => "be",
        ByteOrder::Swap => "bswap",
    }
}

/// Returns the width of a byte swap in bits, as text.
pub(crate) fn swap_width_name(width: SwapWidth) -> &'static str
    ensures { result.now ≡ parts.swap_width_name width }
{
    match width {
        SwapWidth::B16 => "16",
        SwapWidth::B32 => "32",
        SwapWidth::B64 => "64",
    }
}

/// Returns the unsigned type of a load or a store.
pub(crate) fn size_type(size: Size) -> &'static str
    ensures { result.now ≡ parts.size_type size }
{
    match size {
        Size::Byte => "u8",
        Size::Half => "u16",
        Size::Word => "u32",
        Size::Double => "u64",
    }
}

/// Returns the signed type of a sign-extending load.
pub(crate) fn signed_size_type(size: SignedSize) -> &'static str
    ensures { result.now ≡ parts.signed_size_type size }
{
    match size {
        SignedSize::Byte => "s8",
        SignedSize::Half => "s16",
        SignedSize::Word => "s32",
    }
}
