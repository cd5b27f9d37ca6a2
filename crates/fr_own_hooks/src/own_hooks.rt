//! The hooks. A table asks for what they do by number.
ghost use Rattle.std.specs.Prelude.{IfOk, OnErr};
ghost use Rattle.fr_shape.specs.Hooks.{Answers};
ghost use Rattle.fr_shape.specs.Released.{Conserved, Room, RoseBy};
ghost use Rattle.fr_shape.specs.Tokens.{occurs};
ghost use Rattle.fr_shape.specs.View.{view};
ghost use Rattle.fr_own_hooks.specs.OwnHooks.{last_child, own_hooks, own_parsed};
ghost use Rattle.fr_own_hooks.specs.OwnHookLaws.{own_hooks_are_lawful};

use fr_shape::{
    HookFault, HookId, Hooks, Items, Ledger, ShapeId, ShapeTable, Text, Value, fits, release,
};
use std::alloc::Global;

/// The check 1 passes nothing, the check 2 no number above 9, any other check everything. Hook 0
/// makes the last child of a product, and parses each text and all bytes as an empty option; hook 1
/// refuses them; hook 2 is out of memory; and any other converts and parses nothing.
#[derive(Drop)]
pub struct OwnHooks;

impl Hooks for OwnHooks {
    ghost means = { λ hooks. own_hooks };

    ghost lawful = { λ hooks. own_hooks_are_lawful };

    fn check(&self, h: HookId, value: &Value) -> bool {
        match (h.0, value) {
            (1, _) => false,
            (2, Value::Nat(n)) => *n <= 9,
            _ => true,
        }
    }

    fn convert(
        &self,
        _alloc: Global,
        table: &ShapeTable,
        h: HookId,
        target: ShapeId,
        value: Value,
        ledger: &mut Ledger,
    ) -> Result<Value, HookFault> {
        match h.0 {
            0 => convert_last(table, target, value, ledger),
            1 => {
                release(value, ledger);
                Err(HookFault::Refused(Text::default()))
            }
            2 => {
                release(value, ledger);
                Err(HookFault::OutOfMemory)
            }
            _ => {
                release(value, ledger);
                Err(HookFault::Unsupported)
            }
        }
    }

    fn parse(
        &self,
        _alloc: Global,
        table: &ShapeTable,
        h: HookId,
        target: ShapeId,
        _text: &str,
    ) -> Result<Value, HookFault> {
        parsed(table, h, target)
    }

    fn parse_bytes(
        &self,
        _alloc: Global,
        table: &ShapeTable,
        h: HookId,
        target: ShapeId,
        _bytes: &[u8],
    ) -> Result<Value, HookFault> {
        parsed(table, h, target)
    }
}

/// The last child of a product, if it fits the target. All else is released.
fn convert_last(
    table: &ShapeTable,
    target: ShapeId,
    value: Value,
    ledger: &mut Ledger,
) -> Result<Value, HookFault>
    requires room { Room (occurs (view value)) ledger.old }
    ensures meaning { Answers (last_child table.now target.0 (view value)) result }
    ensures kept_or_released { IfOk result (λ v.
        Conserved (occurs (view value)) ledger.old (occurs (view v)) ledger.new) }
    ensures released { OnErr result (RoseBy (occurs (view value)) ledger.old ledger.new) }
{
    let Value::Product(children) = value else {
        release(value, ledger);
        return Err(HookFault::Unsupported);
    };
    let mut others = children.into_vec();
    let Some(last) = others.pop() else {
        return Err(HookFault::Unsupported);
    };
    release(Value::Product(Items::from_vec(others)), ledger);
    if fits(table, target, &last) {
        Ok(last)
    } else {
        release(last, ledger);
        Err(HookFault::Unsupported)
    }
}

/// What a hook parses anything as.
fn parsed(table: &ShapeTable, h: HookId, target: ShapeId) -> Result<Value, HookFault>
    ensures { Answers (own_parsed table.now h.0 target.0) result }
{
    match h.0 {
        0 if fits(table, target, &Value::None) => Ok(Value::None),
        1 => Err(HookFault::Refused(Text::default())),
        2 => Err(HookFault::OutOfMemory),
        _ => Err(HookFault::Unsupported),
    }
}
