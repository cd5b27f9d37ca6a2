//! Releasing the tokens of elements that nobody takes.
ghost use Rattle.fr_shape.specs.Released.{Room, RoseBy};
ghost use Rattle.fr_shape.specs.TokenLaws.{both};
ghost use Rattle.fr_shape.specs.Tokens.{occurs, vals_occur};
ghost use Rattle.fr_shape.specs.View.{vals_view};
ghost use Rattle.fr_facet.specs.Elements.{vals_shown};

use crate::Facet;
use fr_shape::{Items, Ledger, Value, release};
use std::alloc::Global;

/// Releases the tokens of all elements and of all values.
pub(crate) fn give_up<T: Facet>(
    alloc: Global,
    elements: Vec<T>,
    values: Vec<Value>,
    ledger: &mut Ledger,
)
    requires room { Room (both (vals_occur (vals_shown T.shown elements.items))
        (vals_occur (vals_view values.items))) ledger.old }
    ensures released { RoseBy (both (vals_occur (vals_shown T.shown elements.items))
        (vals_occur (vals_view values.items))) ledger.old ledger.new }
{
    discard_all(alloc, elements, ledger);
    release(Value::List(Items::from_vec(values)), ledger);
}

/// Releases the tokens of all elements.
fn discard_all<T: Facet>(alloc: Global, elements: Vec<T>, ledger: &mut Ledger)
    requires room { Room (vals_occur (vals_shown T.shown elements.items)) ledger.old }
    ensures released { RoseBy (vals_occur (vals_shown T.shown elements.items))
        ledger.old ledger.new }
{
    let mut left = elements;
    while let Some(element) = left.pop() {
        discard(alloc, element, ledger);
    }
    left.destroy_empty();
}

/// Releases the tokens of an element.
pub(crate) fn discard<T: Facet>(alloc: Global, element: T, ledger: &mut Ledger)
    requires room { Room (occurs (T.shown element)) ledger.old }
    ensures released { RoseBy (occurs (T.shown element)) ledger.old ledger.new }
{
    if let Ok(value) = element.into_value(alloc, ledger) {
        release(value, ledger);
    }
}
