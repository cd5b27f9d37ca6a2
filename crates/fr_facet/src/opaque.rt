//! A token as an element.
ghost use Rattle.std.specs.Prelude.{◌≡◌};
ghost use Rattle.fr_shape.specs.Val.{token};
ghost use Rattle.fr_facet.specs.Elements.{opaque_takes};
ghost use Rattle.fr_facet.specs.Own.{is_opaque};
ghost use Rattle.fr_facet.specs.PartFits.{opaque_taken_fit};
ghost use Rattle.fr_facet.specs.SameLaws.{token_told};

use crate::finding::{Wanted, find_first};
use crate::{Facet, FacetFault};
use fr_shape::{Ledger, OutOfMemory, ShapeId, ShapeTable, Value, release};
use std::alloc::Global;

/// A token, which stands for a value that the library can't see into.
#[derive(Drop)]
pub struct Opaque(pub u32);

impl Facet for Opaque {
    ghost is_own = { λ _ def. is_opaque def };

    ghost shown = { λ x. token x.0 };

    ghost takes = { opaque_takes };

    ghost IsSame = { λ x y. x.0 ≡ y.0 };

    ghost taken_fit = { opaque_taken_fit };

    ghost told_by_value = { λ x y. token_told x.0 y.0 };

    fn find(table: &ShapeTable) -> Option<ShapeId> {
        find_first(table, Wanted::Opaque)
    }

    fn into_value(self, _alloc: Global, _ledger: &mut Ledger) -> Result<Value, OutOfMemory> {
        Ok(Value::Token(self.0))
    }

    fn from_value(_alloc: Global, value: Value, ledger: &mut Ledger) -> Result<Opaque, FacetFault> {
        let Value::Token(t) = value else {
            release(value, ledger);
            return Err(FacetFault::Mismatch);
        };
        Ok(Opaque(t))
    }
}
