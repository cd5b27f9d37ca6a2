//! What a text is parsed to where no hook parses it.
ghost use Rattle.std.specs.Prelude.{◌≡◌, true, false, Err};
ghost use Rattle.std.specs.Option.{option_map};
ghost use Rattle.fr_shape.specs.View.{view};
ghost use Rattle.fr_shape.specs.Val.{char, int, nat};
ghost use Rattle.fr_shape.specs.Fits.{takes_text, signed_bits, unsigned_bits, is_text_kind};
ghost use Rattle.fr_shape.specs.Hooks.{Answers};
ghost use Rattle.fr_shape.specs.Parsing.{parsed, parsed_scalar, parsed_bool, parsed_char, parsed_int, parsed_nat};
ghost use Rattle.fr_shape.specs.declared.hooks.HookFault.{HookFault as Fault};

use crate::fitting::takes_text;
use crate::scalars::{is_in_signed, is_in_unsigned};
use crate::{Def, HookFault, ScalarKind, Text, Value};
use std::alloc::Global;

/// What a text is parsed to at a place of this definition: at a scalar or a `str`, nothing else is
/// parsed. Only texts want memory.
pub fn parse_scalar(alloc: Global, def: &Def, text: &str) -> Result<Value, HookFault>
    ensures meaning { Answers (parsed def.now text.now) result }
    ensures memory { result ≡ Err Fault.OutOfMemory → takes_text def.now ≡ true }
{
    if takes_text(def) {
        return Ok(Value::Text(Text::new(alloc, text)?));
    }
    match def {
        Def::Scalar(kind) => match read_scalar(*kind, text) {
            Some(value) => Ok(value),
            None => Err(HookFault::Refused(Text::default())),
        },
        Def::Str
        | Def::Opaque
        | Def::Struct(_)
        | Def::Enum(_)
        | Def::Option(_)
        | Def::Result(_, _)
        | Def::List(_)
        | Def::Map(_, _)
        | Def::Set(_)
        | Def::Array(_, _)
        | Def::Pointer(_)
        | Def::Slice(_)
        | Def::Dynamic
        | Def::Undefined
        | Def::Other => Err(HookFault::Unsupported),
    }
}

/// The scalar that a text writes, of a kind whose values are no texts.
fn read_scalar(kind: ScalarKind, text: &str) -> Option<Value>
    requires no_text { is_text_kind kind ≡ false }
    ensures { option_map view result ≡ parsed_scalar kind text.now }
{
    match kind {
        ScalarKind::Bool => Some(Value::Bool(text.parse::<bool>().ok()?)),
        ScalarKind::Char => Some(Value::Char(read_char(text)?)),
        ScalarKind::I8
        | ScalarKind::I16
        | ScalarKind::I32
        | ScalarKind::I64
        | ScalarKind::I128
        | ScalarKind::ISize => Some(Value::Int(read_int(kind, text)?)),
        ScalarKind::U8
        | ScalarKind::U16
        | ScalarKind::U32
        | ScalarKind::U64
        | ScalarKind::U128
        | ScalarKind::USize => Some(Value::Nat(read_nat(kind, text)?)),
        ScalarKind::String | ScalarKind::CowStr => None,
    }
}

/// The character of a text that has no other.
fn read_char(text: &str) -> Option<char>
    ensures { option_map char result ≡ parsed_char text.now }
{
    text.parse::<char>().ok()
}

/// The integer that a text writes, if it is in the range of a signed kind.
fn read_int(kind: ScalarKind, text: &str) -> Option<i128>
    ensures { option_map int result ≡ parsed_int (signed_bits kind) text.now }
{
    match text.parse::<i128>() {
        Ok(z) => { if is_in_signed(kind, z) { Some(z) } else { None } }
        Err(_) => None,
    }
}

/// The natural number that a text writes, if it is in the range of an unsigned kind.
fn read_nat(kind: ScalarKind, text: &str) -> Option<u128>
    ensures { option_map nat result ≡ parsed_nat (unsigned_bits kind) text.now }
{
    match text.parse::<u128>() {
        Ok(n) => {
            if is_in_unsigned(kind, n) {
                Some(n)
            } else {
                None
            }
        }
        Err(_) => None,
    }
}
