//! The integers without a sign.
ghost use Rattle.std.specs.Prelude.{◌≡◌};
ghost use Rattle.fr_shape.specs.declared.shape.ScalarKind.{ScalarKind as Kind};
ghost use Rattle.fr_shape.specs.Val.{nat};
ghost use Rattle.fr_facet.specs.Elements.{scalar_takes};
ghost use Rattle.fr_facet.specs.FitLaws.{scalar_taken_fit};
ghost use Rattle.fr_facet.specs.Own.{is_scalar_of};
ghost use Rattle.fr_facet.specs.SameLaws.{nat_told};

use crate::finding::{Wanted, find_first};
use crate::{Facet, FacetFault};
use fr_shape::{Ledger, OutOfMemory, ScalarKind, ShapeId, ShapeTable, Value, release};
use std::alloc::Global;

impl Facet for u8 {
    ghost is_own = { λ _ def. is_scalar_of Kind.U8 def };

    ghost shown = { nat };

    ghost takes = { scalar_takes Kind.U8 };

    ghost IsSame = { λ x y. x ≡ y };

    ghost taken_fit = { scalar_taken_fit Kind.U8 };

    ghost told_by_value = { nat_told };

    fn find(table: &ShapeTable) -> Option<ShapeId> {
        find_first(table, Wanted::Scalar(ScalarKind::U8))
    }

    fn into_value(self, _alloc: Global, _ledger: &mut Ledger) -> Result<Value, OutOfMemory> {
        Ok(Value::Nat(u128::from(self)))
    }

    fn from_value(_alloc: Global, value: Value, ledger: &mut Ledger) -> Result<u8, FacetFault> {
        let Value::Nat(n) = value else {
            release(value, ledger);
            return Err(FacetFault::Mismatch);
        };
        match u8::try_from(n) {
            Ok(x) => Ok(x),
            Err(_) => Err(FacetFault::Mismatch),
        }
    }
}

impl Facet for u16 {
    ghost is_own = { λ _ def. is_scalar_of Kind.U16 def };

    ghost shown = { nat };

    ghost takes = { scalar_takes Kind.U16 };

    ghost IsSame = { λ x y. x ≡ y };

    ghost taken_fit = { scalar_taken_fit Kind.U16 };

    ghost told_by_value = { nat_told };

    fn find(table: &ShapeTable) -> Option<ShapeId> {
        find_first(table, Wanted::Scalar(ScalarKind::U16))
    }

    fn into_value(self, _alloc: Global, _ledger: &mut Ledger) -> Result<Value, OutOfMemory> {
        Ok(Value::Nat(u128::from(self)))
    }

    fn from_value(_alloc: Global, value: Value, ledger: &mut Ledger) -> Result<u16, FacetFault> {
        let Value::Nat(n) = value else {
            release(value, ledger);
            return Err(FacetFault::Mismatch);
        };
        match u16::try_from(n) {
            Ok(x) => Ok(x),
            Err(_) => Err(FacetFault::Mismatch),
        }
    }
}

impl Facet for u32 {
    ghost is_own = { λ _ def. is_scalar_of Kind.U32 def };

    ghost shown = { nat };

    ghost takes = { scalar_takes Kind.U32 };

    ghost IsSame = { λ x y. x ≡ y };

    ghost taken_fit = { scalar_taken_fit Kind.U32 };

    ghost told_by_value = { nat_told };

    fn find(table: &ShapeTable) -> Option<ShapeId> {
        find_first(table, Wanted::Scalar(ScalarKind::U32))
    }

    fn into_value(self, _alloc: Global, _ledger: &mut Ledger) -> Result<Value, OutOfMemory> {
        Ok(Value::Nat(u128::from(self)))
    }

    fn from_value(_alloc: Global, value: Value, ledger: &mut Ledger) -> Result<u32, FacetFault> {
        let Value::Nat(n) = value else {
            release(value, ledger);
            return Err(FacetFault::Mismatch);
        };
        match u32::try_from(n) {
            Ok(x) => Ok(x),
            Err(_) => Err(FacetFault::Mismatch),
        }
    }
}

impl Facet for u64 {
    ghost is_own = { λ _ def. is_scalar_of Kind.U64 def };

    ghost shown = { nat };

    ghost takes = { scalar_takes Kind.U64 };

    ghost IsSame = { λ x y. x ≡ y };

    ghost taken_fit = { scalar_taken_fit Kind.U64 };

    ghost told_by_value = { nat_told };

    fn find(table: &ShapeTable) -> Option<ShapeId> {
        find_first(table, Wanted::Scalar(ScalarKind::U64))
    }

    fn into_value(self, _alloc: Global, _ledger: &mut Ledger) -> Result<Value, OutOfMemory> {
        Ok(Value::Nat(u128::from(self)))
    }

    fn from_value(_alloc: Global, value: Value, ledger: &mut Ledger) -> Result<u64, FacetFault> {
        let Value::Nat(n) = value else {
            release(value, ledger);
            return Err(FacetFault::Mismatch);
        };
        match u64::try_from(n) {
            Ok(x) => Ok(x),
            Err(_) => Err(FacetFault::Mismatch),
        }
    }
}

impl Facet for u128 {
    ghost is_own = { λ _ def. is_scalar_of Kind.U128 def };

    ghost shown = { nat };

    ghost takes = { scalar_takes Kind.U128 };

    ghost IsSame = { λ x y. x ≡ y };

    ghost taken_fit = { scalar_taken_fit Kind.U128 };

    ghost told_by_value = { nat_told };

    fn find(table: &ShapeTable) -> Option<ShapeId> {
        find_first(table, Wanted::Scalar(ScalarKind::U128))
    }

    fn into_value(self, _alloc: Global, _ledger: &mut Ledger) -> Result<Value, OutOfMemory> {
        Ok(Value::Nat(self))
    }

    fn from_value(_alloc: Global, value: Value, ledger: &mut Ledger) -> Result<u128, FacetFault> {
        let Value::Nat(n) = value else {
            release(value, ledger);
            return Err(FacetFault::Mismatch);
        };
        Ok(n)
    }
}
