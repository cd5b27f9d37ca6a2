//! A record of texts.
ghost use Rattle.std.specs.Prelude.{◌≡◌, ℕ, ◌*◌, min, true, [], length, IfErr, IfOk};
ghost use Rattle.fr_shape.specs.declared.shape.Def.{Def};
ghost use Rattle.fr_shape.specs.declared.shape.ScalarKind.{ScalarKind};
ghost use Rattle.fr_shape.specs.Checked.{IsChecked};
ghost use Rattle.fr_shape.specs.Fits.{fits};
ghost use Rattle.fr_shape.specs.Look.{def_of};
ghost use Rattle.fr_shape.specs.Numbered.{IsNumbered};
ghost use Rattle.fr_model.specs.Tree.{most_calls};
ghost use Rattle.fr_partial.specs.Builder.{holds, IsStepTo};
ghost use Rattle.fr_example.specs.Meant.{is_struct, kind_of, record_meant, IsMeant, TellsPlace};
ghost use Rattle.fr_example.specs.Putting.{puts_pair, FailsPutting};

use fr_partial::{Built, Partial, ReflectError};
use fr_path::Path;
use fr_shape::{
    Hooks, Items, Ledger, PlanError, ReflectErrorKind, ShapeId, ShapeTable, Shaped, Text, Value,
};
use std::alloc::Global;

/// A field's name, and the text that is to stand in it.
#[derive(Drop)]
pub struct Pair {
    pub name: Text,
    pub text: Text,
}

/// Builds a struct from texts, in whatever order they come. It returns the value exactly where the
/// struct has a plan, each name is that of a field that is a `String` or a dynamic value, every
/// other field has a fill, the validators of all fields pass, and every invariant holds: each field
/// that was named holds the last text given for it. Otherwise it returns the first refusal: `Alloc`
/// for a shape that has no plan, `FieldError` for a name that no field has, `WrongShape` for a
/// field that takes no text; then, field by field, `UninitializedField` for one that was not named
/// and has no fill, and `ValidationFailed` for one whose value a validator refuses; and last of all
/// `InvariantViolation`. Where there is no pair at all, the struct's own default comes before what
/// is said of fields. `root` is the shape of the struct, `string` that of the texts; the hooks are
/// asked for custom validators and for invariants. Out of memory is `OutOfMemory`, at any pair or
/// at the end. The error's path is that of the place before the call that was refused: the
/// field for `WrongShape`, the root for any other refusal, and either of them where memory ran out.
pub fn record_of<H: Hooks>(
    alloc: Global,
    table: &ShapeTable,
    root: ShapeId,
    string: ShapeId,
    hooks: &H,
    pairs: Items<Pair>,
    ledger: &mut Ledger,
) -> Result<Built, ReflectError>
    requires root { is_struct (def_of table.now root.0) ≡ true }
    requires string { def_of table.now string.0 ≡ Def.Scalar ScalarKind.String }
    requires numbered { IsNumbered table.now }
    requires checked { IsChecked table.now }
    ensures meant { IsMeant (record_meant (H.means hooks.now) table.now root.0 string.0 pairs)
        result }
    ensures place { IfErr result (TellsPlace table.now root.0 string.0 pairs) }
    ensures fits { IfOk result (λ built. fits table.now root.0 built.value ≡ true) }
    ensures calls { IfOk result (λ built. built.calls ≡ min (3 * length pairs) most_calls) }
    ensures released { ledger.new ≡ ledger.old }
{
    let mut partial = match Partial::alloc_shape(alloc, table, root, hooks) {
        Ok(partial) => partial,
        Err(refused) => return Err(unplanned(alloc, refused)),
    };
    for pair in pairs.into_vec() {
        partial = put(partial, table, string, pair, ledger)?;
    }
    partial.build(ledger)
}

/// The error at the root of a struct that has no builder.
fn unplanned(alloc: Global, refused: PlanError) -> ReflectError
    ensures kind { result.kind ≡ kind_of refused }
    ensures path { result.path ≡ [] }
{
    let kind = match refused {
        PlanError::Alloc(error) => ReflectErrorKind::Alloc(error),
        PlanError::OutOfMemory => ReflectErrorKind::OutOfMemory,
    };
    ReflectError {
        kind,
        path: Path::new(alloc),
    }
}

/// Puts a text into the field of its name. The builder works at a struct, and does so again
/// afterwards.
fn put<'t, H: Hooks>(
    partial: Partial<'t, H>,
    table: &'t ShapeTable,
    string: ShapeId,
    pair: Pair,
    ledger: &mut Ledger,
) -> Result<Partial<'t, H>, ReflectError>
    requires same { partial.shapes ≡ table.now }
    requires string { def_of table.now string.0 ≡ Def.Scalar ScalarKind.String }
    requires tokens { (t : ℕ) → holds partial t ≡ 0 }
    ensures put { IsStepTo partial.entry
        (puts_pair (H.means partial.entry.hooks) table.now partial.entry.root string.0
        partial.entry.state pair) result }
    ensures place { IfErr result
        (FailsPutting (H.means partial.entry.hooks) table.now partial.entry.root string.0
        partial.entry.state pair) }
    ensures released { ledger.new ≡ ledger.old }
    ensures tokens { IfOk result (λ after. (t : ℕ) → holds after t ≡ 0) }
{
    let Pair { name, text } = pair;
    let entered = partial.begin_field(name.as_str(), ledger)?;
    let value = Shaped::new(table, string, Value::Text(text));
    entered.set_shape(value, ledger)?.end(ledger)
}
