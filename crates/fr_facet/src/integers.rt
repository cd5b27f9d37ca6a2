//! The integers with a sign.
ghost use Rattle.std.specs.Prelude.{◌≡◌};
ghost use Rattle.fr_shape.specs.declared.shape.ScalarKind.{ScalarKind as Kind};
ghost use Rattle.fr_shape.specs.Val.{int};
ghost use Rattle.fr_facet.specs.Elements.{scalar_takes};
ghost use Rattle.fr_facet.specs.FitLaws.{scalar_taken_fit};
ghost use Rattle.fr_facet.specs.Own.{is_scalar_of};
ghost use Rattle.fr_facet.specs.SameLaws.{int_told};

use crate::finding::{Wanted, find_first};
use crate::{Facet, FacetFault};
use fr_shape::{Ledger, OutOfMemory, ScalarKind, ShapeId, ShapeTable, Value, release};
use std::alloc::Global;

impl Facet for i8 {
    ghost is_own = { λ _ def. is_scalar_of Kind.I8 def };

    ghost shown = { int };

    ghost takes = { scalar_takes Kind.I8 };

    ghost IsSame = { λ x y. x ≡ y };

    ghost taken_fit = { scalar_taken_fit Kind.I8 };

    ghost told_by_value = { int_told };

    fn find(table: &ShapeTable) -> Option<ShapeId> {
        find_first(table, Wanted::Scalar(ScalarKind::I8))
    }

    fn into_value(self, _alloc: Global, _ledger: &mut Ledger) -> Result<Value, OutOfMemory> {
        Ok(Value::Int(i128::from(self)))
    }

    fn from_value(_alloc: Global, value: Value, ledger: &mut Ledger) -> Result<i8, FacetFault> {
        let Value::Int(z) = value else {
            release(value, ledger);
            return Err(FacetFault::Mismatch);
        };
        match i8::try_from(z) {
            Ok(x) => Ok(x),
            Err(_) => Err(FacetFault::Mismatch),
        }
    }
}

impl Facet for i16 {
    ghost is_own = { λ _ def. is_scalar_of Kind.I16 def };

    ghost shown = { int };

    ghost takes = { scalar_takes Kind.I16 };

    ghost IsSame = { λ x y. x ≡ y };

    ghost taken_fit = { scalar_taken_fit Kind.I16 };

    ghost told_by_value = { int_told };

    fn find(table: &ShapeTable) -> Option<ShapeId> {
        find_first(table, Wanted::Scalar(ScalarKind::I16))
    }

    fn into_value(self, _alloc: Global, _ledger: &mut Ledger) -> Result<Value, OutOfMemory> {
        Ok(Value::Int(i128::from(self)))
    }

    fn from_value(_alloc: Global, value: Value, ledger: &mut Ledger) -> Result<i16, FacetFault> {
        let Value::Int(z) = value else {
            release(value, ledger);
            return Err(FacetFault::Mismatch);
        };
        match i16::try_from(z) {
            Ok(x) => Ok(x),
            Err(_) => Err(FacetFault::Mismatch),
        }
    }
}

impl Facet for i32 {
    ghost is_own = { λ _ def. is_scalar_of Kind.I32 def };

    ghost shown = { int };

    ghost takes = { scalar_takes Kind.I32 };

    ghost IsSame = { λ x y. x ≡ y };

    ghost taken_fit = { scalar_taken_fit Kind.I32 };

    ghost told_by_value = { int_told };

    fn find(table: &ShapeTable) -> Option<ShapeId> {
        find_first(table, Wanted::Scalar(ScalarKind::I32))
    }

    fn into_value(self, _alloc: Global, _ledger: &mut Ledger) -> Result<Value, OutOfMemory> {
        Ok(Value::Int(i128::from(self)))
    }

    fn from_value(_alloc: Global, value: Value, ledger: &mut Ledger) -> Result<i32, FacetFault> {
        let Value::Int(z) = value else {
            release(value, ledger);
            return Err(FacetFault::Mismatch);
        };
        match i32::try_from(z) {
            Ok(x) => Ok(x),
            Err(_) => Err(FacetFault::Mismatch),
        }
    }
}

impl Facet for i64 {
    ghost is_own = { λ _ def. is_scalar_of Kind.I64 def };

    ghost shown = { int };

    ghost takes = { scalar_takes Kind.I64 };

    ghost IsSame = { λ x y. x ≡ y };

    ghost taken_fit = { scalar_taken_fit Kind.I64 };

    ghost told_by_value = { int_told };

    fn find(table: &ShapeTable) -> Option<ShapeId> {
        find_first(table, Wanted::Scalar(ScalarKind::I64))
    }

    fn into_value(self, _alloc: Global, _ledger: &mut Ledger) -> Result<Value, OutOfMemory> {
        Ok(Value::Int(i128::from(self)))
    }

    fn from_value(_alloc: Global, value: Value, ledger: &mut Ledger) -> Result<i64, FacetFault> {
        let Value::Int(z) = value else {
            release(value, ledger);
            return Err(FacetFault::Mismatch);
        };
        match i64::try_from(z) {
            Ok(x) => Ok(x),
            Err(_) => Err(FacetFault::Mismatch),
        }
    }
}

impl Facet for i128 {
    ghost is_own = { λ _ def. is_scalar_of Kind.I128 def };

    ghost shown = { int };

    ghost takes = { scalar_takes Kind.I128 };

    ghost IsSame = { λ x y. x ≡ y };

    ghost taken_fit = { scalar_taken_fit Kind.I128 };

    ghost told_by_value = { int_told };

    fn find(table: &ShapeTable) -> Option<ShapeId> {
        find_first(table, Wanted::Scalar(ScalarKind::I128))
    }

    fn into_value(self, _alloc: Global, _ledger: &mut Ledger) -> Result<Value, OutOfMemory> {
        Ok(Value::Int(self))
    }

    fn from_value(_alloc: Global, value: Value, ledger: &mut Ledger) -> Result<i128, FacetFault> {
        let Value::Int(z) = value else {
            release(value, ledger);
            return Err(FacetFault::Mismatch);
        };
        Ok(z)
    }
}
