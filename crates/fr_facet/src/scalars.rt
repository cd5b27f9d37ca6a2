//! Truths, characters and texts.
ghost use Rattle.std.specs.Prelude.{◌≡◌, string_bytes};
ghost use Rattle.fr_shape.specs.declared.shape.ScalarKind.{ScalarKind as Kind};
ghost use Rattle.fr_shape.specs.Val.{bool, char, text};
ghost use Rattle.fr_facet.specs.Elements.{scalar_takes};
ghost use Rattle.fr_facet.specs.FitLaws.{scalar_taken_fit};
ghost use Rattle.fr_facet.specs.Own.{is_scalar_of};
ghost use Rattle.fr_facet.specs.SameLaws.{bool_told, char_told, text_told};

use crate::finding::{Wanted, find_first};
use crate::{Facet, FacetFault};
use fr_shape::{Ledger, OutOfMemory, ScalarKind, ShapeId, ShapeTable, Text, Value, release};
use std::alloc::Global;

impl Facet for bool {
    ghost is_own = { λ _ def. is_scalar_of Kind.Bool def };

    ghost shown = { bool };

    ghost takes = { scalar_takes Kind.Bool };

    ghost IsSame = { λ x y. x ≡ y };

    ghost taken_fit = { scalar_taken_fit Kind.Bool };

    ghost told_by_value = { bool_told };

    fn find(table: &ShapeTable) -> Option<ShapeId> {
        find_first(table, Wanted::Scalar(ScalarKind::Bool))
    }

    fn into_value(self, _alloc: Global, _ledger: &mut Ledger) -> Result<Value, OutOfMemory> {
        Ok(Value::Bool(self))
    }

    fn from_value(_alloc: Global, value: Value, ledger: &mut Ledger) -> Result<bool, FacetFault> {
        let Value::Bool(x) = value else {
            release(value, ledger);
            return Err(FacetFault::Mismatch);
        };
        Ok(x)
    }
}

impl Facet for char {
    ghost is_own = { λ _ def. is_scalar_of Kind.Char def };

    ghost shown = { char };

    ghost takes = { scalar_takes Kind.Char };

    ghost IsSame = { λ x y. x ≡ y };

    ghost taken_fit = { scalar_taken_fit Kind.Char };

    ghost told_by_value = { char_told };

    fn find(table: &ShapeTable) -> Option<ShapeId> {
        find_first(table, Wanted::Scalar(ScalarKind::Char))
    }

    fn into_value(self, _alloc: Global, _ledger: &mut Ledger) -> Result<Value, OutOfMemory> {
        Ok(Value::Char(self))
    }

    fn from_value(_alloc: Global, value: Value, ledger: &mut Ledger) -> Result<char, FacetFault> {
        let Value::Char(x) = value else {
            release(value, ledger);
            return Err(FacetFault::Mismatch);
        };
        Ok(x)
    }
}

impl Facet for String {
    ghost is_own = { λ _ def. is_scalar_of Kind.String def };

    ghost shown = { λ s. text (string_bytes s) };

    ghost takes = { scalar_takes Kind.String };

    ghost IsSame = { λ s t. string_bytes s ≡ string_bytes t };

    ghost taken_fit = { scalar_taken_fit Kind.String };

    ghost told_by_value = { λ s t. text_told (string_bytes s) (string_bytes t) };

    fn find(table: &ShapeTable) -> Option<ShapeId> {
        find_first(table, Wanted::Scalar(ScalarKind::String))
    }

    fn into_value(self, alloc: Global, _ledger: &mut Ledger) -> Result<Value, OutOfMemory> {
        Ok(Value::Text(Text::new(alloc, self.as_str())?))
    }

    fn from_value(alloc: Global, value: Value, ledger: &mut Ledger) -> Result<String, FacetFault> {
        let Value::Text(text) = value else {
            release(value, ledger);
            return Err(FacetFault::Mismatch);
        };
        match String::from_str(alloc, text.as_str()) {
            Ok(copy) => Ok(copy),
            Err(_) => Err(FacetFault::OutOfMemory),
        }
    }
}
