//! What of a place is kept where it comes to be begun.
ghost use Rattle.std.specs.Prelude.{[], ◌≡◌};
ghost use Rattle.fr_frame.specs.Bodies.{own_tree};
ghost use Rattle.fr_frame.specs.Heap.{as_tracker, body_of};
ghost use Rattle.fr_model.specs.Contents.{is_entered_in_place};
ghost use Rattle.fr_model.specs.Trackers.{keys_of_tracker};
ghost use Rattle.fr_refusals.specs.Beginnings.{beginning_in, beginning_of_inner, beginning_of_some, beginning_so};
ghost use Rattle.fr_refusals.specs.Modes.{mode_of};
ghost use Rattle.fr_shape.specs.Look.{def_of};

use crate::mode::Mode;
use fr_frame::{ContentKind, PartialValue, Tracker};
use fr_shape::{Def, ShapeId, ShapeTable, Value};

/// What of a place is kept where it is begun: all, as it is begun so already; its value alone,
/// whose parts become those of its children; or nothing.
#[derive(Clone, Copy)]
pub enum Beginning {
    AsItIs,
    InPlace,
    Anew,
}

/// A place stays as it is where it is begun just so, whatever the mode.
pub fn beginning_so(tracker: &Tracker, partial: &PartialValue) -> Beginning
    requires keyless { keys_of_tracker (as_tracker tracker.now) ≡ [] }
    ensures kept { result ≡ beginning_so (as_tracker tracker.now) (own_tree (body_of partial.now)) }
{
    match partial {
        PartialValue::Begun(made, _) => {
            if made.is(tracker) {
                Beginning::AsItIs
            } else {
                Beginning::Anew
            }
        }
        PartialValue::Entered | PartialValue::Whole(_) => Beginning::Anew,
    }
}

/// The same in deferred mode. In strict mode nothing is kept.
pub fn beginning_in(mode: Mode, tracker: &Tracker, partial: &PartialValue) -> Beginning
    requires keyless { keys_of_tracker (as_tracker tracker.now) ≡ [] }
    ensures kept { result ≡ beginning_in (mode_of mode) (as_tracker tracker.now)
        (own_tree (body_of partial.now)) }
{
    match mode {
        Mode::Strict => Beginning::Anew,
        Mode::Deferred(_) => beginning_so(tracker, partial),
    }
}

/// Whether more can be added to a whole content of this shape.
fn is_entered_in_place(table: &ShapeTable, content: ShapeId, mode: Mode) -> bool
    ensures { result ≡ is_entered_in_place (mode_of mode) (def_of table.now content.0) }
{
    let Some(entry) = table.get(content) else {
        return false;
    };
    match &entry.def {
        Def::List(_) | Def::Map(_, _) | Def::Set(_) | Def::Dynamic => true,
        Def::Struct(_) | Def::Enum(_) => mode != Mode::Strict,
        Def::Scalar(_)
        | Def::Str
        | Def::Opaque
        | Def::Option(_)
        | Def::Result(_, _)
        | Def::Array(_, _)
        | Def::Pointer(_)
        | Def::Slice(_)
        | Def::Undefined
        | Def::Other => false,
    }
}

/// The content of an option, which has this shape. Of a whole `Some` the value may be kept besides.
pub fn beginning_of_some(
    table: &ShapeTable,
    content: ShapeId,
    mode: Mode,
    partial: &PartialValue,
) -> Beginning
    ensures kept { result ≡ beginning_of_some (mode_of mode) (def_of table.now content.0)
        (own_tree (body_of partial.now)) }
{
    match partial {
        PartialValue::Whole(Value::Some(_)) => {
            if is_entered_in_place(table, content, mode) {
                Beginning::InPlace
            } else {
                Beginning::Anew
            }
        }
        PartialValue::Entered | PartialValue::Whole(_) => Beginning::Anew,
        PartialValue::Begun(_, _) => beginning_in(
            mode,
            &Tracker::Content(ContentKind::Some),
            partial,
        ),
    }
}

/// The content of an option that is entered as what it wraps: in strict mode it starts anew.
pub fn beginning_of_inner(
    table: &ShapeTable,
    content: ShapeId,
    mode: Mode,
    partial: &PartialValue,
) -> Beginning
    ensures kept { result ≡ beginning_of_inner (mode_of mode) (def_of table.now content.0)
        (own_tree (body_of partial.now)) }
{
    match mode {
        Mode::Strict => Beginning::Anew,
        Mode::Deferred(_) => beginning_of_some(table, content, mode, partial),
    }
}
