//! Reading what is at the place as an element of a Rust type.
ghost use Rattle.std.specs.Prelude.{IfOk, IfSome, length, map, is_some, option_map, true, ◌≡◌};
ghost use Rattle.fr_facet.specs.Facets.{first_own};
ghost use Rattle.fr_frame.specs.Bodies.{is_around};
ghost use Rattle.fr_frame.specs.Heap.{as_tracker};
ghost use Rattle.fr_model.specs.Complete.{value_as};
ghost use Rattle.fr_moves.specs.Sites.{tree_at_site};
ghost use Rattle.fr_partial.specs.Builder.{here};
ghost use Rattle.fr_partial.specs.Common.{cursor_tree};
ghost use Rattle.fr_work.specs.PlaceViews.{has_parts};
ghost use Rattle.fr_partial.specs.ReadAs.{copyable, is_found, readable, tokenless};
ghost use Rattle.fr_shape.specs.Lists.{is_nil};
ghost use Rattle.fr_shape.specs.Tokens.{vals_tokens};
ghost use Rattle.fr_shape.specs.Val.{first, no_vals};
ghost use Rattle.fr_shape.specs.View.{vals_of, vals_view, view};

use crate::tokenless::is_tokenless;
use crate::{Partial, PlaceView};
use fr_facet::{Facet, FacetFault, law_facet};
use fr_frame::{ContentKind, PartialValue, Tracker};
use fr_shape::{Hooks, Items, Ledger, OutOfMemory, ShapeId, ShapeTable, Value, clone_template};
use fr_work::Work;
use std::alloc::Global;

/// Whether the shape is the first of the type in the table.
fn is_shape_of<T: Facet>(table: &ShapeTable, shape: ShapeId) -> bool
    ensures { result ≡ is_found (first_own T.is_own table.now) shape.0 }
{
    match T::find(table) {
        Some(own) => own.0 == shape.0,
        None => false,
    }
}

/// A copy of a value, where no token stands in it.
fn copy_of(alloc: Global, value: &Value) -> Result<Option<Value>, OutOfMemory>
    ensures { IfOk result (λ copy. option_map view copy ≡ tokenless (view value.now)) }
{
    if is_tokenless(value) {
        Ok(Some(clone_template(alloc, value)?))
    } else {
        Ok(None)
    }
}

/// Copies of the values of the children that are seen, where no token stands in any of them.
fn copies_of(alloc: Global, seen: &PlaceView) -> Result<Option<Items<Value>>, OutOfMemory>
    ensures copies { IfOk result (λ copies.
        IfSome copies (λ values. map view values ≡ seen.now.children)) }
    ensures tokenless { IfOk result (λ copies.
        is_some copies ≡ is_nil (vals_tokens (vals_of seen.now.children))) }
{
    let mut copies = Items::new(alloc);
    for i in 0..seen.len() {
        let Some(value) = seen.get(i) else {
            unreachable!()
        };
        match copy_of(alloc, value)? {
            Some(copy) => copies.push(copy)?,
            None => return Ok(None),
        }
    }
    Ok(Some(copies))
}

/// The only one of these, in a box.
fn boxed_one(alloc: Global, values: Items<Value>) -> Result<Box<Value>, OutOfMemory>
    requires { length values ≡ 1 }
    ensures { IfOk result (λ one. vals_view values ≡ first (view one.value) no_vals) }
{
    match values.into_vec().pop() {
        Some(value) => Ok(Box::new(alloc, value)?),
        None => unreachable!(),
    }
}

/// What the values of the children of a place that is begun so make. No token stands in them.
fn made_of(alloc: Global, tracker: &Tracker, values: Items<Value>) -> Result<Value, OutOfMemory>
    requires parts { has_parts (as_tracker tracker.now) ≡ true }
    requires one { is_around (as_tracker tracker.now) ≡ true → length values ≡ 1 }
    ensures { IfOk result (λ v. view v ≡ value_as (as_tracker tracker.now) (vals_view values)) }
{
    Ok(match tracker {
        Tracker::Fields(None) | Tracker::Elements => Value::Product(values),
        Tracker::Fields(Some(variant)) => Value::Variant(*variant, values),
        Tracker::Content(ContentKind::Some) => Value::Some(boxed_one(alloc, values)?),
        Tracker::Content(ContentKind::Ok) => Value::Ok(boxed_one(alloc, values)?),
        Tracker::Content(ContentKind::Err) => Value::Err(boxed_one(alloc, values)?),
        Tracker::Content(ContentKind::Pointer) => Value::Ptr(boxed_one(alloc, values)?),
        Tracker::Content(ContentKind::Source(_)) => unreachable!(),
        Tracker::Items(_) | Tracker::Entries(_) => unreachable!(),
    })
}

/// A copy of the value that is seen at the place, where no token stands in it.
fn copy_here(work: &Work) -> Result<Option<Value>, OutOfMemory>
    ensures copy { IfOk result (λ copy.
        option_map view copy ≡ copyable (tree_at_site work.now)) }
{
    work.law_sound();
    let alloc = work.alloc();
    let Some(seen) = work.initialized_here() else {
        return Ok(None);
    };
    match work.place().2 {
        PartialValue::Whole(value) => copy_of(alloc, value),
        PartialValue::Begun(tracker, _) => match copies_of(alloc, &seen)? {
            Some(values) => Ok(Some(made_of(alloc, tracker, values)?)),
            None => Ok(None),
        },
        PartialValue::Entered => unreachable!(),
    }
}

impl<'t, H: Hooks> Partial<'t, H> {
    /// A copy of what `initialized_value` shows, as an element of the type. A value in which a token
    /// stands isn't copied, for the token would then be released twice. Beside memory for the copy
    /// it takes a look through the value, and those of `find` through the table.
    pub fn read_as<T: Facet>(&self, ledger: &mut Ledger) -> Result<Option<T>, OutOfMemory>
        ensures read { IfOk result (λ read. option_map T.shown read
            ≡ readable T.is_own self.now.shapes (here self.now) (cursor_tree self.now.state)) }
        ensures unreleased { ledger.new ≡ ledger.old }
    {
        law_facet::<T>();
        self.law_in_order();
        if !is_shape_of::<T>(self.table(), self.shape()) {
            return Ok(None);
        }
        let Some(copy) = copy_here(&self.work)? else {
            return Ok(None);
        };
        match T::from_value(self.work.alloc(), copy, ledger) {
            Ok(element) => Ok(Some(element)),
            Err(FacetFault::OutOfMemory) => Err(OutOfMemory),
            Err(FacetFault::Mismatch) => unreachable!(),
        }
    }
}
