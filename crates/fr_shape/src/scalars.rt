//! What the kinds of scalars take: ranges of integers, and texts.
ghost use Rattle.std.specs.Prelude.{◌≡◌};
ghost use Rattle.fr_shape.specs.Fits.{in_signed, in_unsigned, signed_bits, unsigned_bits, is_text_kind};

use crate::ScalarKind;

/// Whether `z` is in the range of a signed kind.
pub(crate) fn is_in_signed(kind: ScalarKind, z: i128) -> bool
    ensures { result ≡ in_signed z (signed_bits kind) }
{
    match kind {
        ScalarKind::I8 => i8::try_from(z).is_ok(),
        ScalarKind::I16 => i16::try_from(z).is_ok(),
        ScalarKind::I32 => i32::try_from(z).is_ok(),
        ScalarKind::I64 | ScalarKind::ISize => i64::try_from(z).is_ok(),
        ScalarKind::I128 => true,
        ScalarKind::Bool
        | ScalarKind::Char
        | ScalarKind::U8
        | ScalarKind::U16
        | ScalarKind::U32
        | ScalarKind::U64
        | ScalarKind::U128
        | ScalarKind::USize
        | ScalarKind::String
        | ScalarKind::CowStr => false,
    }
}

/// Whether `n` is in the range of an unsigned kind.
pub(crate) fn is_in_unsigned(kind: ScalarKind, n: u128) -> bool
    ensures { result ≡ in_unsigned n (unsigned_bits kind) }
{
    match kind {
        ScalarKind::U8 => u8::try_from(n).is_ok(),
        ScalarKind::U16 => u16::try_from(n).is_ok(),
        ScalarKind::U32 => u32::try_from(n).is_ok(),
        ScalarKind::U64 | ScalarKind::USize => u64::try_from(n).is_ok(),
        ScalarKind::U128 => true,
        ScalarKind::Bool
        | ScalarKind::Char
        | ScalarKind::I8
        | ScalarKind::I16
        | ScalarKind::I32
        | ScalarKind::I64
        | ScalarKind::I128
        | ScalarKind::ISize
        | ScalarKind::String
        | ScalarKind::CowStr => false,
    }
}

/// Whether values of the kind are texts.
pub(crate) fn is_text_kind(kind: ScalarKind) -> bool
    ensures { result ≡ is_text_kind kind }
{
    match kind {
        ScalarKind::String | ScalarKind::CowStr => true,
        ScalarKind::Bool
        | ScalarKind::Char
        | ScalarKind::I8
        | ScalarKind::I16
        | ScalarKind::I32
        | ScalarKind::I64
        | ScalarKind::I128
        | ScalarKind::ISize
        | ScalarKind::U8
        | ScalarKind::U16
        | ScalarKind::U32
        | ScalarKind::U64
        | ScalarKind::U128
        | ScalarKind::USize => false,
    }
}
