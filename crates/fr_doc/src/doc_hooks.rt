//! The hooks that documents name by number.
ghost use Rattle.std.specs.Prelude.{Err, IfOk, OnErr};
ghost use Rattle.fr_shape.specs.View.{view};
ghost use Rattle.fr_shape.specs.Tokens.{occurs};
ghost use Rattle.fr_shape.specs.Released.{Room, RoseBy, Conserved};
ghost use Rattle.fr_shape.specs.Hooks.{Answers, refuses};
ghost use Rattle.fr_doc.specs.DocHooks.{doc_hooks, if_it_fits, first_child, not_zero, text_parsed, utf8_parsed};
ghost use Rattle.fr_doc.specs.DocHookLaws.{doc_hooks_are_lawful};

use crate::integers::{IntegerRule, integers_keep};
use fr_shape::{
    HookFault, HookId, Hooks, Items, Ledger, ShapeId, ShapeTable, Text, Value, fits, release,
};
use std::alloc::Global;

/// The check that no integer of a value is 0.
pub const CHECK_NO_ZERO: u32 = 0;

/// The check that the integers of a value are in non-decreasing order.
pub const CHECK_IN_ORDER: u32 = 1;

/// The check that no value passes.
pub const CHECK_NEVER: u32 = 2;

/// The check that no integer of a value is below 0.
pub const CHECK_NO_NEGATIVE: u32 = 3;

/// The conversion of a product into its first child.
pub const CONVERT_FIRST_CHILD: u32 = 0;

/// The conversion of a value into itself.
pub const CONVERT_SAME: u32 = 1;

/// The conversion that refuses every value.
pub const CONVERT_NEVER: u32 = 2;

/// The conversion of an integer that isn't 0 into itself.
pub const CONVERT_NOT_ZERO: u32 = 3;

/// The parsing of a text as itself.
pub const PARSE_TEXT: u32 = 0;

/// The parsing of bytes as a text in UTF-8.
pub const PARSE_BYTES_UTF8: u32 = 0;

/// The hooks of documents. A check of any other number passes, and nothing is converted or parsed
/// by another number.
#[derive(Drop)]
pub struct DocHooks;

impl Hooks for DocHooks {
    ghost means = { λ hooks. doc_hooks };

    ghost lawful = { λ hooks. doc_hooks_are_lawful };

    fn check(&self, h: HookId, value: &Value) -> bool {
        match h.0 {
            CHECK_NO_ZERO => integers_keep(IntegerRule::NoZero, value),
            CHECK_IN_ORDER => integers_keep(IntegerRule::InOrder, value),
            CHECK_NEVER => false,
            CHECK_NO_NEGATIVE => integers_keep(IntegerRule::NoNegative, value),
            _ => true,
        }
    }

    fn convert(
        &self,
        alloc: Global,
        table: &ShapeTable,
        h: HookId,
        target: ShapeId,
        value: Value,
        ledger: &mut Ledger,
    ) -> Result<Value, HookFault> {
        match h.0 {
            CONVERT_FIRST_CHILD => convert_first_child(table, target, value, ledger),
            CONVERT_SAME => convert_same(table, target, value, ledger),
            CONVERT_NEVER => {
                release(value, ledger);
                Err(refusal(alloc, "refused"))
            }
            CONVERT_NOT_ZERO => convert_not_zero(alloc, table, target, value, ledger),
            _ => {
                release(value, ledger);
                Err(HookFault::Unsupported)
            }
        }
    }

    fn parse(
        &self,
        alloc: Global,
        table: &ShapeTable,
        h: HookId,
        target: ShapeId,
        text: &str,
    ) -> Result<Value, HookFault> {
        match h.0 {
            PARSE_TEXT => parse_text(alloc, table, target, text),
            _ => Err(HookFault::Unsupported),
        }
    }

    fn parse_bytes(
        &self,
        alloc: Global,
        table: &ShapeTable,
        h: HookId,
        target: ShapeId,
        bytes: &[u8],
    ) -> Result<Value, HookFault> {
        match h.0 {
            PARSE_BYTES_UTF8 => parse_utf8(alloc, table, target, bytes),
            _ => Err(HookFault::Unsupported),
        }
    }
}

/// A refusal with this message, of which a copy is made.
fn refusal(alloc: Global, message: &str) -> HookFault
    ensures { Answers (refuses message.now) (Err result) }
{
    match Text::new(alloc, message) {
        Ok(message) => HookFault::Refused(message),
        Err(none) => HookFault::from(none),
    }
}

/// The value, if it fits the target; else its tokens are released.
fn convert_same(
    table: &ShapeTable,
    target: ShapeId,
    value: Value,
    ledger: &mut Ledger,
) -> Result<Value, HookFault>
    requires room { Room (occurs (view value)) ledger.old }
    ensures meaning { Answers (if_it_fits table.now target.0 (view value)) result }
    ensures kept_or_released { IfOk result (λ v.
        Conserved (occurs (view value)) ledger.old (occurs (view v)) ledger.new) }
    ensures released { OnErr result (RoseBy (occurs (view value)) ledger.old ledger.new) }
{
    if fits(table, target, &value) {
        Ok(value)
    } else {
        release(value, ledger);
        Err(HookFault::Unsupported)
    }
}

/// The first child of a product, if it fits the target. What isn't handed on is released.
fn convert_first_child(
    table: &ShapeTable,
    target: ShapeId,
    value: Value,
    ledger: &mut Ledger,
) -> Result<Value, HookFault>
    requires room { Room (occurs (view value)) ledger.old }
    ensures meaning { Answers (first_child table.now target.0 (view value)) result }
    ensures kept_or_released { IfOk result (λ v.
        Conserved (occurs (view value)) ledger.old (occurs (view v)) ledger.new) }
    ensures released { OnErr result (RoseBy (occurs (view value)) ledger.old ledger.new) }
{
    match value {
        Value::Product(children) => {
            let mut others = children.into_vec();
            if others.is_empty() {
                return Err(HookFault::Unsupported);
            }
            let first = others.remove(0);
            release(Value::Product(Items::from_vec(others)), ledger);
            convert_same(table, target, first, ledger)
        }
        other => {
            release(other, ledger);
            Err(HookFault::Unsupported)
        }
    }
}

/// An integer that isn't 0, if it fits the target; else its tokens are released.
fn convert_not_zero(
    alloc: Global,
    table: &ShapeTable,
    target: ShapeId,
    value: Value,
    ledger: &mut Ledger,
) -> Result<Value, HookFault>
    requires room { Room (occurs (view value)) ledger.old }
    ensures meaning { Answers (not_zero table.now target.0 (view value)) result }
    ensures kept_or_released { IfOk result (λ v.
        Conserved (occurs (view value)) ledger.old (occurs (view v)) ledger.new) }
    ensures released { OnErr result (RoseBy (occurs (view value)) ledger.old ledger.new) }
{
    match value {
        Value::Int(0) | Value::Nat(0) => Err(refusal(alloc, "must not be zero")),
        Value::Int(z) => convert_same(table, target, Value::Int(z), ledger),
        Value::Nat(n) => convert_same(table, target, Value::Nat(n), ledger),
        other => {
            release(other, ledger);
            Err(HookFault::Unsupported)
        }
    }
}

/// The text, if it fits the target. What a text says doesn't decide that, so it is asked of the
/// empty one, which takes no memory.
fn parse_text(
    alloc: Global,
    table: &ShapeTable,
    target: ShapeId,
    text: &str,
) -> Result<Value, HookFault>
    ensures { Answers (text_parsed table.now target.0 text.now) result }
{
    if !fits(table, target, &Value::Text(Text::default())) {
        return Err(refusal(alloc, "refused"));
    }
    Ok(Value::Text(Text::new(alloc, text)?))
}

/// The bytes as a text, if they are UTF-8 and it fits the target.
fn parse_utf8(
    alloc: Global,
    table: &ShapeTable,
    target: ShapeId,
    bytes: &[u8],
) -> Result<Value, HookFault>
    ensures { Answers (utf8_parsed table.now target.0 bytes.now) result }
{
    match str::from_utf8(bytes) {
        Ok(text) => parse_text(alloc, table, target, text),
        Err(_) => Err(refusal(alloc, "refused")),
    }
}
