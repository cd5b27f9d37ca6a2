//! The trait of the types that a builder takes and returns.
ghost use Rattle.std.specs.Prelude.{◌≡◌, ℕ, Bool, true, Some, option_map, IfOk, IfSome, OnOk, OnErr};
ghost use Rattle.fr_shape.specs.declared.shape.Def.{Def};
ghost use Rattle.fr_shape.specs.declared.shape.ShapeId.{ShapeId as Id};
ghost use Rattle.fr_shape.specs.Fits.{fits};
ghost use Rattle.fr_shape.specs.Look.{IsIn, Table};
ghost use Rattle.fr_shape.specs.Released.{Room, RoseBy};
ghost use Rattle.fr_shape.specs.Tokens.{occurs};
ghost use Rattle.fr_shape.specs.Val.{Val};
ghost use Rattle.fr_shape.specs.View.{view};
ghost use Rattle.fr_facet.specs.Facets.{IsReadIf, first_own};

use fr_shape::{Ledger, OutOfMemory, ShapeId, ShapeTable, Value};
use std::alloc::Global;

/// Why a value isn't read as an element of a type.
#[derive(Drop)]
pub enum FacetFault {
    /// It doesn't fit the type's shape.
    Mismatch,
    /// No memory was left.
    OutOfMemory,
}

impl From<OutOfMemory> for FacetFault {
    ghost use Rattle.fr_facet.specs.declared.facet.FacetFault.{FacetFault};

    ghost from_gives = { λ _ fault. fault ≡ FacetFault.OutOfMemory };

    fn from(_none: OutOfMemory) -> FacetFault {
        FacetFault::OutOfMemory
    }
}

/// A Rust type that has a shape in tables: its elements are values of that shape, and the tokens of
/// an element are those of its value.
pub trait Facet: Sized {
    // Which definitions are the type's own, in a table of these shapes.
    ghost is_own: { Table → Def → Bool };
    // The value that an element is.
    ghost shown: { Self → Val };
    // Which values are elements.
    ghost takes: { Val → Bool };
    // Two elements are the same, wherever in memory they lie.
    ghost IsSame: { Self → Self → Type 0 };
    // The values that fit the type's shape are those that are elements.
    ghost taken_fit: { (table : Table) (id : ℕ) → first_own is_own table ≡ Some id
        → (v : Val) → fits table id v ≡ takes v };

    // An element is told by its value.
    ghost told_by_value: { (x y : Self) → shown x ≡ shown y → IsSame x y };

    /// The first shape of the table whose definition is the type's own. It looks through the table
    /// once for the type, and once for each part of the type.
    fn find(table: &ShapeTable) -> Option<ShapeId>
        ensures first { option_map (λ (id : Id). id.0) result ≡ first_own is_own table.now }
        ensures inside { IfSome result (λ (id : Id). IsIn table.now id.0) };

    /// The value that the element is.
    fn into_value(self, alloc: Global, ledger: &mut Ledger) -> Result<Value, OutOfMemory>
        requires room { Room (occurs (shown self)) ledger.old }
        ensures value { IfOk result (λ v. view v ≡ shown self) }
        ensures taken { OnOk result (takes (shown self) ≡ true) }
        ensures unreleased { OnOk result (ledger.new ≡ ledger.old) }
        ensures released { OnErr result (RoseBy (occurs (shown self)) ledger.old ledger.new) };

    /// The element that the value is: `Mismatch` where it fits no shape of the type.
    fn from_value(alloc: Global, value: Value, ledger: &mut Ledger) -> Result<Self, FacetFault>
        requires room { Room (occurs (view value)) ledger.old }
        ensures element { IfOk result (λ x. shown x ≡ view value) }
        ensures read { IsReadIf (takes (view value)) result }
        ensures unreleased { OnOk result (ledger.new ≡ ledger.old) }
        ensures released { OnErr result (RoseBy (occurs (view value)) ledger.old ledger.new) };
}

/// What is true of every type that has a shape in tables, for proofs.
pub fn law_facet<T: Facet>()
    ensures taken_fit { (table : Table) (id : ℕ) → first_own T.is_own table ≡ Some id
        → (v : Val) → fits table id v ≡ T.takes v }
    ensures told_by_value { (x y : T) → T.shown x ≡ T.shown y → T.IsSame x y }
{}
