//! Types that hold one element: options, results and boxes.
ghost use Rattle.std.specs.Prelude.{◌≡◌, true, IfOk, OnOk, OnErr};
ghost use Rattle.fr_shape.specs.Released.{Room, RoseBy};
ghost use Rattle.fr_shape.specs.Tokens.{occurs};
ghost use Rattle.fr_shape.specs.Val.{ptr};
ghost use Rattle.fr_shape.specs.View.{view};
ghost use Rattle.fr_facet.specs.Elements.{box_takes, option_shown, option_takes, result_shown, result_takes};
ghost use Rattle.fr_facet.specs.Facets.{IsReadIf, first_own};
ghost use Rattle.fr_facet.specs.Own.{is_box_of, is_option_of, is_result_of};
ghost use Rattle.fr_facet.specs.PartFits.{box_taken_fit, option_taken_fit, result_taken_fit};
ghost use Rattle.fr_facet.specs.SameLaws.{IsSameOption, IsSameResult, box_told, option_told, result_told};

use crate::finding::{Wanted, find_first};
use crate::releasing::discard;
use crate::{Facet, FacetFault};
use fr_shape::{Ledger, OutOfMemory, ShapeId, ShapeTable, Value, release};
use std::alloc::Global;

impl<T: Facet> Facet for Option<T> {
    ghost is_own = { λ table def. is_option_of (first_own T.is_own table) def };

    ghost shown = { option_shown T.shown };

    ghost takes = { option_takes T.takes };

    ghost IsSame = { IsSameOption T.IsSame };

    ghost taken_fit = { option_taken_fit T.is_own T.takes T.taken_fit };

    ghost told_by_value = { option_told T.shown T.IsSame T.told_by_value };

    fn find(table: &ShapeTable) -> Option<ShapeId> {
        find_first(table, Wanted::Option(T::find(table)?))
    }

    fn into_value(self, alloc: Global, ledger: &mut Ledger) -> Result<Value, OutOfMemory> {
        match self {
            None => Ok(Value::None),
            Some(x) => Ok(Value::Some(show_boxed(alloc, x, ledger)?)),
        }
    }

    fn from_value(
        alloc: Global,
        value: Value,
        ledger: &mut Ledger,
    ) -> Result<Option<T>, FacetFault> {
        if let Value::None = value {
            return Ok(None);
        }
        let Value::Some(content) = value else {
            release(value, ledger);
            return Err(FacetFault::Mismatch);
        };
        Ok(Some(read_boxed(alloc, content, ledger)?))
    }
}

impl<T: Facet, E: Facet> Facet for Result<T, E> {
    ghost is_own = { λ table def.
        is_result_of (first_own T.is_own table) (first_own E.is_own table) def };

    ghost shown = { result_shown T.shown E.shown };

    ghost takes = { result_takes T.takes E.takes };

    ghost IsSame = { IsSameResult T.IsSame E.IsSame };

    ghost taken_fit = { result_taken_fit T.is_own T.takes T.taken_fit E.is_own E.takes E.taken_fit };

    ghost told_by_value = { result_told T.shown T.IsSame T.told_by_value E.shown E.IsSame E.told_by_value };

    fn find(table: &ShapeTable) -> Option<ShapeId> {
        let content = T::find(table)?;
        let error = E::find(table)?;
        find_first(table, Wanted::Result(content, error))
    }

    fn into_value(self, alloc: Global, ledger: &mut Ledger) -> Result<Value, OutOfMemory> {
        match self {
            Ok(x) => Ok(Value::Ok(show_boxed(alloc, x, ledger)?)),
            Err(e) => Ok(Value::Err(show_boxed(alloc, e, ledger)?)),
        }
    }

    fn from_value(
        alloc: Global,
        value: Value,
        ledger: &mut Ledger,
    ) -> Result<Result<T, E>, FacetFault> {
        match value {
            Value::Ok(content) => Ok(Ok(read_boxed(alloc, content, ledger)?)),
            Value::Err(error) => Ok(Err(read_boxed(alloc, error, ledger)?)),
            _ => {
                release(value, ledger);
                Err(FacetFault::Mismatch)
            }
        }
    }
}

impl<T: Facet> Facet for Box<T> {
    ghost is_own = { λ table def. is_box_of (first_own T.is_own table) def };

    ghost shown = { λ x. ptr (T.shown x.value) };

    ghost takes = { box_takes T.takes };

    ghost IsSame = { λ x y. T.IsSame x.value y.value };

    ghost taken_fit = { box_taken_fit T.is_own T.takes T.taken_fit };

    ghost told_by_value = { λ x y. box_told T.shown T.IsSame T.told_by_value x.value y.value };

    fn find(table: &ShapeTable) -> Option<ShapeId> {
        find_first(table, Wanted::Box(T::find(table)?))
    }

    fn into_value(self, alloc: Global, ledger: &mut Ledger) -> Result<Value, OutOfMemory> {
        Ok(Value::Ptr(show_boxed(alloc, Box::into_inner(self), ledger)?))
    }

    fn from_value(alloc: Global, value: Value, ledger: &mut Ledger) -> Result<Box<T>, FacetFault> {
        let Value::Ptr(pointee) = value else {
            release(value, ledger);
            return Err(FacetFault::Mismatch);
        };
        read_in_box(alloc, pointee, ledger)
    }
}

/// The value that the element is, in a box.
fn show_boxed<T: Facet>(
    alloc: Global,
    element: T,
    ledger: &mut Ledger,
) -> Result<Box<Value>, OutOfMemory>
    requires room { Room (occurs (T.shown element)) ledger.old }
    ensures value { IfOk result (λ boxed. view boxed.value ≡ T.shown element) }
    ensures taken { OnOk result (T.takes (T.shown element) ≡ true) }
    ensures unreleased { OnOk result (ledger.new ≡ ledger.old) }
    ensures released { OnErr result (RoseBy (occurs (T.shown element)) ledger.old ledger.new) }
{
    let value = element.into_value(alloc, ledger)?;
    match Box::new(alloc, value) {
        Ok(boxed) => Ok(boxed),
        Err(refused) => {
            release(refused.value, ledger);
            Err(OutOfMemory)
        }
    }
}

/// The element that the value in a box is.
fn read_boxed<T: Facet>(
    alloc: Global,
    boxed: Box<Value>,
    ledger: &mut Ledger,
) -> Result<T, FacetFault>
    requires room { Room (occurs (view boxed.value)) ledger.old }
    ensures element { IfOk result (λ x. T.shown x ≡ view boxed.value) }
    ensures read { IsReadIf (T.takes (view boxed.value)) result }
    ensures unreleased { OnOk result (ledger.new ≡ ledger.old) }
    ensures released { OnErr result (RoseBy (occurs (view boxed.value)) ledger.old ledger.new) }
{
    T::from_value(alloc, Box::into_inner(boxed), ledger)
}

/// The same, in a box of its own.
fn read_in_box<T: Facet>(
    alloc: Global,
    boxed: Box<Value>,
    ledger: &mut Ledger,
) -> Result<Box<T>, FacetFault>
    requires room { Room (occurs (view boxed.value)) ledger.old }
    ensures element { IfOk result (λ x. T.shown x.value ≡ view boxed.value) }
    ensures read { IsReadIf (T.takes (view boxed.value)) result }
    ensures unreleased { OnOk result (ledger.new ≡ ledger.old) }
    ensures released { OnErr result (RoseBy (occurs (view boxed.value)) ledger.old ledger.new) }
{
    let element = read_boxed(alloc, boxed, ledger)?;
    match Box::new(alloc, element) {
        Ok(own) => Ok(own),
        Err(refused) => {
            discard(alloc, refused.value, ledger);
            Err(FacetFault::OutOfMemory)
        }
    }
}
