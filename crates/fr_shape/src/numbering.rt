//! Whether all that a table describes can be told by numbers of 32 bits.
ghost use Rattle.std.specs.Prelude.{◌≡◌, ◌↔◌, IsTrue};
ghost use Rattle.std.specs.List.{list_all};
ghost use Rattle.fr_shape.specs.Numbered.{are_few, all_are_few, parts_are_few, has_few_fields, IsNumbered};

use crate::{Def, ShapeTable, VariantDef};

impl ShapeTable {
    /// Whether there are fewer than 2³² shapes, as few fields in each struct and each variant, and
    /// as few variants in each enum. A builder asks it of a table, beside that it is checked.
    #[tactic(auto, using(crate::proofs::FewParts::tells_numbered))]
    pub fn is_numbered(&self) -> bool
        ensures numbered { IsTrue result ↔ IsNumbered self.now }
    {
        all_are_few(self)
    }
}

fn all_are_few(table: &ShapeTable) -> bool
    ensures { result ≡ all_are_few table.now }
{
    is_few(table.len()) && shapes_have_few_parts(table)
}

fn shapes_have_few_parts(table: &ShapeTable) -> bool
    ensures { result ≡ list_all (λ shape. parts_are_few shape.def) table.now }
{
    for shape in table.as_slice() {
        if !parts_are_few(&shape.def) {
            return false;
        }
    }
    true
}

fn parts_are_few(def: &Def) -> bool
    ensures { result ≡ parts_are_few def.now }
{
    match def {
        Def::Struct(described) => is_few(described.fields.len()),
        Def::Enum(described) => {
            is_few(described.variants.len()) && have_few_fields(described.variants.as_slice())
        }
        Def::Scalar(_)
        | Def::Str
        | Def::Opaque
        | Def::Option(_)
        | Def::Result(_, _)
        | Def::List(_)
        | Def::Map(_, _)
        | Def::Set(_)
        | Def::Array(_, _)
        | Def::Pointer(_)
        | Def::Slice(_)
        | Def::Dynamic
        | Def::Undefined
        | Def::Other => true,
    }
}

fn have_few_fields(variants: &[VariantDef]) -> bool
    ensures { result ≡ list_all has_few_fields variants.now }
{
    for variant in variants {
        if !is_few(variant.fields.len()) {
            return false;
        }
    }
    true
}

fn is_few(count: usize) -> bool
    ensures { result ≡ are_few count }
{
    count <= u32::MAX as usize
}
