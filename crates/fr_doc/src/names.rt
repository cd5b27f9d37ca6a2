//! What a table's words name.
ghost use Rattle.std.specs.Prelude.{◌≡◌};
ghost use Rattle.fr_doc.specs.Names.{scalar_named, repr_named, kind_named, pointer_named};

use fr_shape::{EnumRepr, KnownPointer, ScalarKind, StructKind};

/// The scalar of a name.
#[tactic(auto, unfolding(crate::specs::Names::scalar_named))]
pub fn find_scalar(word: &str) -> Option<ScalarKind>
    ensures { result ≡ scalar_named word.now }
{
    match word {
        "bool" => Some(ScalarKind::Bool),
        "char" => Some(ScalarKind::Char),
        "i8" => Some(ScalarKind::I8),
        "i16" => Some(ScalarKind::I16),
        "i32" => Some(ScalarKind::I32),
        "i64" => Some(ScalarKind::I64),
        "i128" => Some(ScalarKind::I128),
        "isize" => Some(ScalarKind::ISize),
        "u8" => Some(ScalarKind::U8),
        "u16" => Some(ScalarKind::U16),
        "u32" => Some(ScalarKind::U32),
        "u64" => Some(ScalarKind::U64),
        "u128" => Some(ScalarKind::U128),
        "usize" => Some(ScalarKind::USize),
        "String" => Some(ScalarKind::String),
        "CowStr" => Some(ScalarKind::CowStr),
        _ => None,
    }
}

/// The representation of an enum that has this name.
#[tactic(auto, unfolding(crate::specs::Names::repr_named))]
pub fn find_repr(word: &str) -> Option<EnumRepr>
    ensures { result ≡ repr_named word.now }
{
    match word {
        "Rust" => Some(EnumRepr::Rust),
        "RustNPO" => Some(EnumRepr::RustNPO),
        "U8" => Some(EnumRepr::U8),
        "U16" => Some(EnumRepr::U16),
        "U32" => Some(EnumRepr::U32),
        "U64" => Some(EnumRepr::U64),
        "USize" => Some(EnumRepr::USize),
        "I8" => Some(EnumRepr::I8),
        "I16" => Some(EnumRepr::I16),
        "I32" => Some(EnumRepr::I32),
        "I64" => Some(EnumRepr::I64),
        "ISize" => Some(EnumRepr::ISize),
        _ => None,
    }
}

/// How a variant is written whose kind has this name.
#[tactic(auto, unfolding(crate::specs::Names::kind_named))]
pub fn find_kind(word: &str) -> Option<StructKind>
    ensures { result ≡ kind_named word.now }
{
    match word {
        "struct" => Some(StructKind::Struct),
        "tuple" => Some(StructKind::Tuple),
        "tuple_struct" => Some(StructKind::TupleStruct),
        "unit" => Some(StructKind::Unit),
        _ => None,
    }
}

/// The pointer type of a name.
#[tactic(auto, unfolding(crate::specs::Names::pointer_named))]
pub fn find_pointer(word: &str) -> Option<KnownPointer>
    ensures { result ≡ pointer_named word.now }
{
    match word {
        "Box" => Some(KnownPointer::Box),
        "Arc" => Some(KnownPointer::Arc),
        "Rc" => Some(KnownPointer::Rc),
        "SharedReference" => Some(KnownPointer::SharedReference),
        _ => None,
    }
}
