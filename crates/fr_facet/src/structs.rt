//! Structs of the caller's own: their shape in a table, and the way between their parts and the
//! value that they are.
ghost use Rattle.std.specs.Prelude.{◌≡◌, ◌&&◌, ℕ, [], ◌∷◌, List, Option, Bool, true, reverse, IfOk, IfSome, OnOk, OnErr, option_map, position, ⊤};
ghost use Rattle.fr_shape.specs.declared.shape.Field.{Field as OneField};
ghost use Rattle.fr_shape.specs.declared.shape.Shape.{Shape as OneShape};
ghost use Rattle.fr_shape.specs.declared.shape.ShapeId.{ShapeId as Id};
ghost use Rattle.fr_shape.specs.Fits.{fields_fit};
ghost use Rattle.fr_shape.specs.Look.{IsIn, Table};
ghost use Rattle.fr_shape.specs.Released.{Room, RoseBy};
ghost use Rattle.fr_shape.specs.Tokens.{occurs, vals_occur};
ghost use Rattle.fr_shape.specs.Val.{Vals, first, no_vals, product};
ghost use Rattle.fr_shape.specs.View.{vals_view, view};
ghost use Rattle.fr_facet.specs.Facets.{IsReadIf, first_own};
ghost use Rattle.fr_facet.specs.SameLaws.{parts_told};
ghost use Rattle.fr_facet.specs.Structs.{Names, are_fields, first_takes, is_field, is_struct_of, names_of, none_left, product_takes, shapes_in};
ghost use Rattle.fr_facet.specs.StructLaws.{none_fit, parts_fit};

use crate::finding::id_of;
use crate::releasing::discard;
use crate::{Facet, FacetFault};
use fr_shape::{
    Def, Field, Items, Ledger, OutOfMemory, Shape, ShapeId, ShapeTable, Value, release,
};
use std::alloc::Global;

/// The first struct of the table that has just these fields, in this order: of each its name and
/// the shape of its type, as `find` returns it. There is none where a type has no shape.
pub fn find_struct(table: &ShapeTable, fields: &[(&str, Option<ShapeId>)]) -> Option<ShapeId>
    ensures first { option_map (λ (id : Id). id.0) result
        ≡ first_own (λ _ def. is_struct_of (names_of fields.now) def) table.now }
    ensures inside { IfSome result (λ (id : Id). IsIn table.now id.0) }
{
    id_of(first_struct(table.as_slice(), fields))
}

/// The number of the first struct of just these fields.
fn first_struct(shapes: &[Shape], fields: &[(&str, Option<ShapeId>)]) -> Option<usize>
    ensures { result
        ≡ position (λ (shape : OneShape). is_struct_of (names_of fields.now) shape.def)
        shapes.now }
{
    shapes
        .iter()
        .position(|shape| is_struct_of(&shape.def, fields))
}

/// Whether it is a struct of just these fields.
fn is_struct_of(def: &Def, wanted: &[(&str, Option<ShapeId>)]) -> bool
    ensures { result ≡ is_struct_of (names_of wanted.now) def.now }
{
    match def {
        Def::Struct(own) => are_fields(own.fields.as_slice(), wanted),
        _ => false,
    }
}

fn are_fields(fields: &[Field], wanted: &[(&str, Option<ShapeId>)]) -> bool
    ensures { result ≡ are_fields (names_of wanted.now) fields.now }
{
    if fields.len() != wanted.len() {
        return false;
    }
    for i in 0..fields.len() {
        let (name, shape) = wanted[i];
        if !is_field(&fields[i], name, shape) {
            return false;
        }
    }
    true
}

fn is_field(field: &Field, name: &str, shape: Option<ShapeId>) -> bool
    ensures { result
        ≡ is_field name.now (option_map (λ (id : Id). id.0) shape) field.now }
{
    match shape {
        Some(id) => field.name.as_str() == name && field.shape.0 == id.0,
        None => false,
    }
}

/// The parts of a struct, in the order of its fields, as a list that ends in `()`: of two fields
/// `(a, (b, ()))`.
pub trait Parts: Sized {
    // The shapes of their types, where the table has them.
    ghost shapes: { Table → List (Option ℕ) };
    // The values that they are.
    ghost shown: { Self → Vals };
    // Which values are elements of their types.
    ghost takes: { Vals → Bool };
    // Two lists of parts are the same, part by part.
    ghost IsSame: { Self → Self → Type 0 };
    // The values that fit fields of these shapes are those that are elements.
    ghost taken_fit: { (table : Table) (wanted : Names) (fields : List OneField)
        → shapes_in wanted ≡ shapes table → are_fields wanted fields ≡ true
        → (vs : Vals) → fields_fit table fields vs ≡ takes vs };
    // The parts are told by their values.
    ghost told_by_value: { (x y : Self) → shown x ≡ shown y → IsSame x y };

    /// The values that they are, the last one first.
    fn into_values(self, alloc: Global, ledger: &mut Ledger) -> Result<Vec<Value>, OutOfMemory>
        requires room { Room (vals_occur (shown self)) ledger.old }
        ensures values { IfOk result (λ vs. vals_view (reverse vs.items) ≡ shown self) }
        ensures taken { OnOk result (takes (shown self) ≡ true) }
        ensures unreleased { OnOk result (ledger.new ≡ ledger.old) }
        ensures released { OnErr result (RoseBy (vals_occur (shown self)) ledger.old ledger.new) };

    /// The parts that the values are, of which the last one comes first.
    fn from_values(
        alloc: Global,
        values: Vec<Value>,
        ledger: &mut Ledger,
    ) -> Result<Self, FacetFault>
        requires room { Room (vals_occur (vals_view (reverse values.items))) ledger.old }
        ensures parts { IfOk result (λ x. shown x ≡ vals_view (reverse values.items)) }
        ensures read { IsReadIf (takes (vals_view (reverse values.items))) result }
        ensures unreleased { OnOk result (ledger.new ≡ ledger.old) }
        ensures released { OnErr result
            (RoseBy (vals_occur (vals_view (reverse values.items))) ledger.old ledger.new) };
}

impl Parts for () {
    ghost shapes = { λ _. [] };

    ghost shown = { λ _. no_vals };

    ghost takes = { none_left };

    ghost IsSame = { λ _ _. ⊤ };

    ghost taken_fit = { none_fit };

    ghost told_by_value = { λ _ _ _. tt };

    fn into_values(self, alloc: Global, _ledger: &mut Ledger) -> Result<Vec<Value>, OutOfMemory> {
        Ok(Vec::new(alloc))
    }

    fn from_values(
        _alloc: Global,
        values: Vec<Value>,
        ledger: &mut Ledger,
    ) -> Result<(), FacetFault> {
        if values.is_empty() {
            return Ok(());
        }
        release_all(values, ledger);
        Err(FacetFault::Mismatch)
    }
}

impl<A: Facet, R: Parts> Parts for (A, R) {
    ghost shapes = { λ table. first_own A.is_own table ∷ R.shapes table };

    ghost shown = { λ parts. first (A.shown parts.0) (R.shown parts.1) };

    ghost takes = { first_takes A.takes R.takes };

    ghost IsSame = { λ x y. A.IsSame x.0 y.0 × R.IsSame x.1 y.1 };

    ghost taken_fit = { parts_fit A.is_own A.takes A.taken_fit R.shapes R.takes R.taken_fit };

    ghost told_by_value = { λ x y. parts_told A.shown A.IsSame A.told_by_value
        R.shown R.IsSame R.told_by_value x.0 y.0 x.1 y.1 };

    fn into_values(self, alloc: Global, ledger: &mut Ledger) -> Result<Vec<Value>, OutOfMemory> {
        let (part, others) = self;
        let values = match others.into_values(alloc, ledger) {
            Ok(values) => values,
            Err(OutOfMemory) => {
                discard(alloc, part, ledger);
                return Err(OutOfMemory);
            }
        };
        match part.into_value(alloc, ledger) {
            Ok(value) => with_last(values, value, ledger),
            Err(OutOfMemory) => {
                release_all(values, ledger);
                Err(OutOfMemory)
            }
        }
    }

    fn from_values(
        alloc: Global,
        values: Vec<Value>,
        ledger: &mut Ledger,
    ) -> Result<(A, R), FacetFault> {
        let mut left = values;
        let Some(value) = left.pop() else {
            return Err(FacetFault::Mismatch);
        };
        let part = match A::from_value(alloc, value, ledger) {
            Ok(part) => part,
            Err(fault) => {
                release_all(left, ledger);
                return Err(fault);
            }
        };
        match R::from_values(alloc, left, ledger) {
            Ok(others) => Ok((part, others)),
            Err(fault) => {
                discard(alloc, part, ledger);
                Err(fault)
            }
        }
    }
}

/// The product of the parts' values: what a struct of these parts is.
pub fn product_of<P: Parts>(
    alloc: Global,
    parts: P,
    ledger: &mut Ledger,
) -> Result<Value, OutOfMemory>
    requires room { Room (vals_occur (P.shown parts)) ledger.old }
    ensures value { IfOk result (λ v. view v ≡ product (P.shown parts)) }
    ensures taken { OnOk result (P.takes (P.shown parts) ≡ true) }
    ensures unreleased { OnOk result (ledger.new ≡ ledger.old) }
    ensures released { OnErr result (RoseBy (vals_occur (P.shown parts)) ledger.old ledger.new) }
{
    let mut values = parts.into_values(alloc, ledger)?;
    values.reverse();
    Ok(Value::Product(Items::from_vec(values)))
}

/// The parts of which a value is the product: `Mismatch` where it is none of such parts.
pub fn parts_of<P: Parts>(alloc: Global, value: Value, ledger: &mut Ledger) -> Result<P, FacetFault>
    requires room { Room (occurs (view value)) ledger.old }
    ensures parts { IfOk result (λ x. product (P.shown x) ≡ view value) }
    ensures read { IsReadIf (product_takes P.takes (view value)) result }
    ensures unreleased { OnOk result (ledger.new ≡ ledger.old) }
    ensures released { OnErr result (RoseBy (occurs (view value)) ledger.old ledger.new) }
{
    let Value::Product(items) = value else {
        release(value, ledger);
        return Err(FacetFault::Mismatch);
    };
    let mut values = items.into_vec();
    values.reverse();
    P::from_values(alloc, values, ledger)
}

/// Appends a value. Where there is no memory, all are released.
fn with_last(
    values: Vec<Value>,
    value: Value,
    ledger: &mut Ledger,
) -> Result<Vec<Value>, OutOfMemory>
    requires room { Room (vals_occur (first (view value) (vals_view (reverse values.items))))
        ledger.old }
    ensures values { IfOk result (λ vs. vals_view (reverse vs.items)
        ≡ first (view value) (vals_view (reverse values.items))) }
    ensures unreleased { OnOk result (ledger.new ≡ ledger.old) }
    ensures released { OnErr result
        (RoseBy (vals_occur (first (view value) (vals_view (reverse values.items))))
        ledger.old ledger.new) }
{
    let mut all = values;
    match all.push(value) {
        Ok(()) => Ok(all),
        Err(refused) => {
            release(refused.value, ledger);
            release_all(all, ledger);
            Err(OutOfMemory)
        }
    }
}

/// Releases the tokens of all values, of which the last one comes first.
fn release_all(values: Vec<Value>, ledger: &mut Ledger)
    requires room { Room (vals_occur (vals_view (reverse values.items))) ledger.old }
    ensures released { RoseBy (vals_occur (vals_view (reverse values.items)))
        ledger.old ledger.new }
{
    let mut turned = values;
    turned.reverse();
    release(Value::Product(Items::from_vec(turned)), ledger);
}
