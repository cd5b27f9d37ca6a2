//! Whether a table is checked, and where not.
ghost use Rattle.std.specs.Prelude.{◌≡◌, ◌<◌, ◌≤◌, ◌^◌, length, slice_get, Some, OnOk, IfErr, IfSome, MatchOption};
ghost use Rattle.fr_shape.specs.Checked.{IsChecked, EachKeeps};
ghost use Rattle.fr_shape.specs.Faults.{keeps, IsBrokenAt, EarlierRulesHold, EarlierEntriesKeep};

use crate::names::first_taken_name;
use crate::repeated::is_long;
use crate::rules::{
    conversion_suits, hooks_in_range, ids_in_range, name_is_new, option_preset_is_none,
    parts_are_sized, templates_fit, validators_suit, variants_apart,
};
use crate::{Shape, ShapeId, ShapeTable};

/// A broken rule of checked tables.
#[derive(Drop)]
pub struct TableFault {
    /// The rule's number, from 1 to 9, as `ShapeTable::check` lists them.
    pub rule: u8,
    /// The number of the shape that breaks it, counted from 0.
    pub entry: u32,
}

impl ShapeTable {
    /// Tests the nine rules of a checked table. The fault is the smallest rule that is broken, at
    /// its first entry.
    ///
    /// 1. Each `ShapeId` is below the number of shapes. 2. No two shapes have the same name. 3. All
    /// that an entry names is sized, but for what a pointer points to. 4. No two variants of an
    /// enum have the same effective name. 5. `Min` and `Max` stand on integers, lengths and tests
    /// of texts on texts, and `Custom` on anything. 6. Each preset and each default of a field's
    /// own fits its shape and holds no token. 7. `convert` stands on a scalar or an `Other` with
    /// `inner`, on an option whose `inner` is its content, and on an opaque or undefined shape with
    /// `builder`; `builder` stands on an opaque or undefined shape. 8. Each `HookId` is below
    /// 65,536. 9. The preset of an option is `None`.
    pub fn check(&self) -> Result<(), TableFault>
        requires few { length self.now < 2 ^ 32 }
        ensures ok { OnOk result (IsChecked self.now) }
        ensures rule_is_known { IfErr result (λ f. (1 ≤ f.rule) × (f.rule ≤ 9)) }
        ensures rule_broken { IfErr result (λ f. IsBrokenAt self.now f.rule f.entry) }
        ensures smaller_rules_hold { IfErr result (λ f. EarlierRulesHold self.now f.rule) }
        ensures earlier_entries_keep { IfErr result (λ f.
            EarlierEntriesKeep self.now f.rule f.entry) }
    {
        for rule in 1..10u8 {
            match first_fault(self, rule) {
                Some(entry) => return Err(TableFault { rule, entry }),
                None => {}
            }
        }
        Ok(())
    }
}

/// The number of the first entry that breaks the rule. Names are told apart by their order where
/// there are many.
fn first_fault(table: &ShapeTable, rule: u8) -> Option<u32>
    requires few { length table.now < 2 ^ 32 }
    requires known { (1 ≤ rule) × (rule ≤ 9) }
    ensures broken { MatchOption result
        (EachKeeps table.now (keeps table.now rule))
        (λ entry. IsBrokenAt table.now rule entry) }
    ensures first { IfSome result (λ entry. EarlierEntriesKeep table.now rule entry) }
{
    if rule == 2 && is_long(table.len()) {
        if let Ok(taken) = first_taken_name(table) {
            return taken;
        }
    }
    first_broken(table, rule)
}

/// The same, entry by entry.
fn first_broken(table: &ShapeTable, rule: u8) -> Option<u32>
    requires few { length table.now < 2 ^ 32 }
    requires known { (1 ≤ rule) × (rule ≤ 9) }
    ensures broken { MatchOption result (EachKeeps table.now (keeps table.now rule))
        (λ entry. IsBrokenAt table.now rule entry) }
    ensures first { IfSome result (λ entry. EarlierEntriesKeep table.now rule entry) }
{
    let shapes = table.as_slice();
    for i in 0..shapes.len() {
        if !keeps(table, rule, i, &shapes[i]) {
            return Some(i as u32);
        }
    }
    None
}

/// Whether the entry of number `i` keeps the rule.
fn keeps(table: &ShapeTable, rule: u8, i: usize, shape: &Shape) -> bool
    requires few { length table.now < 2 ^ 32 }
    requires within { i < length table.now }
    requires known { (1 ≤ rule) × (rule ≤ 9) }
    ensures { result ≡ keeps table.now rule i shape.now }
{
    match rule {
        1 => ids_in_range(table, shape),
        2 => name_is_new(&table.as_slice()[..i], shape),
        3 => parts_are_sized(table, shape),
        4 => variants_apart(shape),
        5 => validators_suit(table, shape),
        6 => templates_fit(table, ShapeId(i as u32), shape),
        7 => conversion_suits(shape),
        8 => hooks_in_range(table, shape),
        _ => option_preset_is_none(shape),
    }
}
