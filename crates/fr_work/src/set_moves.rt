//! What `set_shape` and `set_default` come to.
ghost use Rattle.std.specs.Prelude.{◌≡◌};
ghost use Rattle.fr_work.specs.Common.{Call, Decides, IfOk, NeedsNone, OnErr, OnOk, Room, RoseBy, [], cursor_tree, dyn_view, false, fits, occurs, shape_at, tokens, true, view};
ghost use Rattle.fr_shape.specs.Val.{dyn};
ghost use Rattle.fr_refusals.specs.SettingDynamic.{copies_at};

use crate::work::Work;
use fr_moves::{Change, Move};
use fr_refusals::{converts, takes_shape};
use fr_shape::{
    Dyn, Ledger, Operation, OutOfMemory, ReflectErrorKind, Shaped, Template, Value, clone_template,
    release,
};
use fr_values::converted;
use std::alloc::Global;

/// A copy of what a template shows.
pub(crate) fn copy_template(alloc: Global, template: &Template) -> Result<Value, OutOfMemory>
    requires no_token { tokens template.now ≡ [] }
    ensures copy { IfOk result (λ v. view v ≡ template.now) }
{
    clone_template(alloc, template.value())
}

/// A dynamic value, as any other.
fn dynamic(made: Dyn) -> Value
    ensures { view result ≡ dyn (dyn_view made) }
{
    Value::Dyn(made)
}

impl<'t> Work<'t> {
    /// A value takes the place, or what a dynamic place makes of it. Where it is refused, or there
    /// is no memory to convert it, its tokens are released.
    pub fn set_shape_move<'k>(
        &self,
        value: Shaped,
        ledger: &mut Ledger,
    ) -> Result<Move<'k>, ReflectErrorKind>
        requires fits { fits self.now.shapes value.shape value.value ≡ true }
        requires room { Room (occurs value.value) ledger.old }
        ensures decides { Decides self.now (Call.Set value.shape value.value) result }
        ensures memory { copies_at self.now.shapes (shape_at self.now) value.shape ≡ false
            → NeedsNone (cursor_tree self.now.state) result }
        ensures unreleased { OnOk result (ledger.new ≡ ledger.old) }
        ensures released { OnErr result (RoseBy (occurs value.value) ledger.old ledger.new) }
    {
        self.law_sound();
        let (table, expected, _) = self.place();
        let actual = value.shape();
        let plain = value.into_value();
        if converts(table, expected, actual) {
            match converted(self.alloc(), table, expected, actual, plain, ledger) {
                Ok(made) => Ok(Move::Stay(Change::Put(dynamic(made)))),
                Err(kind) => Err(kind),
            }
        } else if takes_shape(table, expected, actual) {
            Ok(Move::Stay(Change::Put(plain)))
        } else {
            release(plain, ledger);
            Err(ReflectErrorKind::WrongShape { expected, actual })
        }
    }

    /// A copy of the default of the place's shape takes the place.
    pub fn set_default_move<'k>(&self) -> Result<Move<'k>, ReflectErrorKind>
        ensures decides { Decides self.now Call.SetDefault result }
    {
        self.law_sound();
        let (table, shape, _) = self.place();
        let Some(template) = table.preset(shape) else {
            let operation = Operation::NoDefault;
            return Err(ReflectErrorKind::OperationFailed { shape, operation });
        };
        match copy_template(self.alloc(), template) {
            Ok(value) => Ok(Move::Stay(Change::Put(value))),
            Err(OutOfMemory) => Err(ReflectErrorKind::OutOfMemory),
        }
    }
}
