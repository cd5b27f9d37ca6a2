//! Hooks: what a user brings for checks, conversions and parsing.
ghost use Rattle.std.specs.Prelude.{◌≡◌, true, Err, IfOk, OnErr};
ghost use Rattle.fr_shape.specs.View.{view};
ghost use Rattle.fr_shape.specs.Look.{IsIn};
ghost use Rattle.fr_shape.specs.Checked.{IsChecked};
ghost use Rattle.fr_shape.specs.Tokens.{occurs};
ghost use Rattle.fr_shape.specs.Released.{Room, RoseBy, Conserved};
ghost use Rattle.fr_shape.specs.Hooks.{Meanings, Answers, IsLawful, no_hooks};
ghost use Rattle.fr_shape.specs.HookLaws.{no_hooks_are_lawful};

use crate::{HookId, Ledger, OutOfMemory, ShapeId, ShapeTable, Text, Value, release};
use std::alloc::Global;

/// Why a hook gives no value.
#[derive(Drop)]
pub enum HookFault {
    /// It takes such a source, but not this one; the text tells why.
    Refused(Text),
    /// It doesn't do this, or takes no such source.
    Unsupported,
    /// No memory was left.
    OutOfMemory,
}

impl From<OutOfMemory> for HookFault {
    ghost use Rattle.fr_shape.specs.declared.hooks.HookFault.{HookFault};

    ghost from_gives = { λ _ fault. fault ≡ HookFault.OutOfMemory };

    fn from(_none: OutOfMemory) -> HookFault {
        HookFault::OutOfMemory
    }
}

/// The hooks that a table names by number. Each call returns what `means` says of its arguments, or
/// that no memory was left.
pub trait Hooks {
    // What each hook means.
    ghost means: { Self → Meanings };

    /// Whether the value passes: a field's validator, or the invariant of a shape.
    fn check(&self, h: HookId, value: &Value) -> bool
        ensures meaning { result ≡ (means self.now).check h.0 (view value.now) };

    /// Makes a value of `target` from a value of another shape. It has to account for each token of
    /// `value`: a token that doesn't stand in the result is released once, and after a fault,
    /// `OutOfMemory` too, every token of `value` is. No other count of the ledger may change.
    fn convert(
        &self,
        alloc: Global,
        table: &ShapeTable,
        h: HookId,
        target: ShapeId,
        value: Value,
        ledger: &mut Ledger,
    ) -> Result<Value, HookFault>
        requires checked { IsChecked table.now }
        requires target { IsIn table.now target.0 }
        requires room { Room (occurs (view value)) ledger.old }
        ensures meaning { Answers
            ((means self.now).convert table.now h.0 target.0 (view value)) result }
        ensures kept_or_released { IfOk result (λ v.
            Conserved (occurs (view value)) ledger.old (occurs (view v)) ledger.new) }
        ensures released { OnErr result (RoseBy (occurs (view value)) ledger.old ledger.new) };

    /// Makes a value of `target` from a text.
    fn parse(
        &self,
        alloc: Global,
        table: &ShapeTable,
        h: HookId,
        target: ShapeId,
        text: &str,
    ) -> Result<Value, HookFault>
        requires checked { IsChecked table.now }
        requires target { IsIn table.now target.0 }
        ensures meaning { Answers ((means self.now).parse table.now h.0 target.0 text.now) result };

    /// Makes a value of `target` from bytes.
    fn parse_bytes(
        &self,
        alloc: Global,
        table: &ShapeTable,
        h: HookId,
        target: ShapeId,
        bytes: &[u8],
    ) -> Result<Value, HookFault>
        requires checked { IsChecked table.now }
        requires target { IsIn table.now target.0 }
        ensures meaning { Answers
            ((means self.now).parse_bytes table.now h.0 target.0 bytes.now) result };

    // What is given fits its target, conversions make up no token, and parses give none.
    ghost lawful: { (hooks : Self) → IsLawful (means hooks) };
}

/// No hooks: every check passes, and nothing is converted or parsed.
#[derive(Drop)]
pub struct NoHooks;

impl Hooks for NoHooks {
    ghost means = { λ hooks. no_hooks };

    ghost lawful = { λ hooks. no_hooks_are_lawful };

    fn check(&self, _h: HookId, _value: &Value) -> bool
        ensures passes { result ≡ true }
    {
        true
    }

    fn convert(
        &self,
        _alloc: Global,
        _table: &ShapeTable,
        _h: HookId,
        _target: ShapeId,
        value: Value,
        ledger: &mut Ledger,
    ) -> Result<Value, HookFault>
        requires room { Room (occurs (view value)) ledger.old }
        ensures unsupported { result ≡ Err HookFault.Unsupported }
        ensures released { RoseBy (occurs (view value)) ledger.old ledger.new }
    {
        release(value, ledger);
        Err(HookFault::Unsupported)
    }

    fn parse(
        &self,
        _alloc: Global,
        _table: &ShapeTable,
        _h: HookId,
        _target: ShapeId,
        _text: &str,
    ) -> Result<Value, HookFault>
        ensures unsupported { result ≡ Err HookFault.Unsupported }
    {
        Err(HookFault::Unsupported)
    }

    fn parse_bytes(
        &self,
        _alloc: Global,
        _table: &ShapeTable,
        _h: HookId,
        _target: ShapeId,
        _bytes: &[u8],
    ) -> Result<Value, HookFault>
        ensures unsupported { result ≡ Err HookFault.Unsupported }
    {
        Err(HookFault::Unsupported)
    }
}
