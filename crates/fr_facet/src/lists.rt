//! Vectors: lists of elements.
ghost use Rattle.std.specs.Prelude.{◌≡◌, [], ◌∷◌, ◌++◌, map, true, IfOk, OnOk, OnErr};
ghost use Rattle.std.specs.List.{AllZip};
ghost use Rattle.fr_shape.specs.Released.{Room, RoseBy};
ghost use Rattle.fr_shape.specs.Tokens.{occurs, vals_occur};
ghost use Rattle.fr_shape.specs.Val.{list_of};
ghost use Rattle.fr_shape.specs.View.{view, vals_view};
ghost use Rattle.fr_facet.specs.Elements.{each_taken, list_takes, vals_shown};
ghost use Rattle.fr_facet.specs.Facets.{IsReadIf, first_own};
ghost use Rattle.fr_facet.specs.Own.{is_list_of};
ghost use Rattle.fr_facet.specs.PartFits.{list_taken_fit};
ghost use Rattle.fr_facet.specs.SameLaws.{list_told};

use crate::finding::{Wanted, find_first};
use crate::releasing::{discard, give_up};
use crate::{Facet, FacetFault};
use fr_shape::{Items, Ledger, OutOfMemory, ShapeId, ShapeTable, Value, release};
use std::alloc::Global;

impl<T: Facet> Facet for Vec<T> {
    ghost is_own = { λ table def. is_list_of (first_own T.is_own table) def };

    ghost shown = { λ xs. list_of (vals_shown T.shown xs.items) };

    ghost takes = { list_takes T.takes };

    ghost IsSame = { λ xs ys. AllZip T.IsSame xs.items ys.items };

    ghost taken_fit = { list_taken_fit T.is_own T.takes T.taken_fit };

    ghost told_by_value = { λ xs ys. list_told T.shown T.IsSame T.told_by_value xs.items ys.items };

    fn find(table: &ShapeTable) -> Option<ShapeId> {
        find_first(table, Wanted::List(T::find(table)?))
    }

    fn into_value(self, alloc: Global, ledger: &mut Ledger) -> Result<Value, OutOfMemory> {
        let values = show_all(alloc, self, ledger)?;
        Ok(Value::List(Items::from_vec(values)))
    }

    fn from_value(alloc: Global, value: Value, ledger: &mut Ledger) -> Result<Vec<T>, FacetFault> {
        let Value::List(items) = value else {
            release(value, ledger);
            return Err(FacetFault::Mismatch);
        };
        read_all(alloc, items.into_vec(), ledger)
    }
}

/// The values that the elements are.
fn show_all<T: Facet>(
    alloc: Global,
    elements: Vec<T>,
    ledger: &mut Ledger,
) -> Result<Vec<Value>, OutOfMemory>
    requires room { Room (vals_occur (vals_shown T.shown elements.items)) ledger.old }
    ensures values { IfOk result (λ vs. vals_view vs.items ≡ vals_shown T.shown elements.items) }
    ensures taken { OnOk result
        (each_taken T.takes (vals_shown T.shown elements.items) ≡ true) }
    ensures unreleased { OnOk result (ledger.new ≡ ledger.old) }
    ensures released { OnErr result
        (RoseBy (vals_occur (vals_shown T.shown elements.items)) ledger.old ledger.new) }
{
    let mut left = elements;
    let mut values = Vec::new(alloc);
    while let Some(element) = left.pop() {
        if let Err(OutOfMemory) = show_onto(alloc, &mut values, element, ledger) {
            give_up(alloc, left, values, ledger);
            return Err(OutOfMemory);
        }
    }
    left.destroy_empty();
    values.reverse();
    Ok(values)
}

/// Appends the value that an element is.
fn show_onto<T: Facet>(
    alloc: Global,
    values: &mut Vec<Value>,
    element: T,
    ledger: &mut Ledger,
) -> Result<(), OutOfMemory>
    requires room { Room (occurs (T.shown element)) ledger.old }
    ensures appended { OnOk result (map view values.new.items
        ≡ map view values.old.items ++ T.shown element ∷ []) }
    ensures taken { OnOk result (T.takes (T.shown element) ≡ true) }
    ensures unreleased { OnOk result (ledger.new ≡ ledger.old) }
    ensures unchanged { OnErr result (values.new.items ≡ values.old.items) }
    ensures released { OnErr result
        (RoseBy (occurs (T.shown element)) ledger.old ledger.new) }
{
    let value = element.into_value(alloc, ledger)?;
    match values.push(value) {
        Ok(()) => Ok(()),
        Err(refused) => {
            release(refused.value, ledger);
            Err(OutOfMemory)
        }
    }
}

/// The elements that the values are: `Mismatch` where one of them is none.
fn read_all<T: Facet>(
    alloc: Global,
    values: Vec<Value>,
    ledger: &mut Ledger,
) -> Result<Vec<T>, FacetFault>
    requires room { Room (vals_occur (vals_view values.items)) ledger.old }
    ensures elements { IfOk result (λ xs. vals_shown T.shown xs.items ≡ vals_view values.items) }
    ensures read { IsReadIf (each_taken T.takes (vals_view values.items)) result }
    ensures unreleased { OnOk result (ledger.new ≡ ledger.old) }
    ensures released { OnErr result
        (RoseBy (vals_occur (vals_view values.items)) ledger.old ledger.new) }
{
    let mut left = values;
    let mut elements = Vec::new(alloc);
    while let Some(value) = left.pop() {
        if let Err(fault) = read_onto(alloc, &mut elements, value, ledger) {
            give_up(alloc, elements, left, ledger);
            return Err(fault);
        }
    }
    elements.reverse();
    Ok(elements)
}

/// Appends the element that a value is.
fn read_onto<T: Facet>(
    alloc: Global,
    elements: &mut Vec<T>,
    value: Value,
    ledger: &mut Ledger,
) -> Result<(), FacetFault>
    requires room { Room (occurs (view value)) ledger.old }
    ensures appended { OnOk result (map T.shown elements.new.items
        ≡ map T.shown elements.old.items ++ view value ∷ []) }
    ensures read { IsReadIf (T.takes (view value)) result }
    ensures unreleased { OnOk result (ledger.new ≡ ledger.old) }
    ensures unchanged { OnErr result (elements.new.items ≡ elements.old.items) }
    ensures released { OnErr result (RoseBy (occurs (view value)) ledger.old ledger.new) }
{
    let element = T::from_value(alloc, value, ledger)?;
    match elements.push(element) {
        Ok(()) => Ok(()),
        Err(refused) => {
            discard(alloc, refused.value, ledger);
            Err(FacetFault::OutOfMemory)
        }
    }
}
