//! The values of children side by side.
ghost use Rattle.std.specs.Prelude.{IsSomeAnd, slice_index_or, vec_capacity, vec_len, ◌*◌, ◌+◌, ◌-◌, ◌/◌, ◌++◌, ◌<◌, ◌∷◌, ◌≡◌, ◌≤◌, take};
ghost use Rattle.fr_values.specs.Common.{HasRoom, IfErr, IfOk, IfSome, OnErr, OnOk, [], length, parts_of_entries, slice_set};

use fr_shape::{OutOfMemory, Value};
use std::alloc::Global;
use std::marker::Model;

/// The values of children side by side. Those of a map's entries, a key and its value in turn, stay
/// in the entries as they came, which stand before all others, until one of them is touched.
/// Contracts see one list of values.
///
/// There is always room for all of them side by side, so that the entries are spread out without
/// memory.
#[derive(Drop)]
pub struct ChildValues {
    entries: Vec<(Value, Value)>,
    values: Vec<Value>,
}

impl Model for ChildValues {
    ghost use Rattle.std.specs.Prelude.{List, ◌++◌};
    ghost use Rattle.std.specs.Coded.{coded_list};
    ghost use Rattle.fr_shape.specs.declared.value.Value.{Value as TheValue};
    ghost use Rattle.fr_shape.specs.contracts.value.Value as value;
    ghost use Rattle.fr_values.specs.EntryParts.{HasRoom, parts_of_entries};

    ghost Value = { List TheValue };

    ghost coded = { coded_list value.the_row.coded };

    ghost view = { λ it. parts_of_entries it.entries.items ++ it.values.items };

    ghost invariant = { λ it. HasRoom it.entries it.values };
}

/// Appends the keys and values of entries, in turn, to values that have room for them.
fn put_in_turn(values: &mut Vec<Value>, entries: Vec<(Value, Value)>)
    requires space { length values.old.items + 2 * length entries.items ≤ vec_capacity values.old }
    ensures put { values.new.items ≡ values.old.items ++ parts_of_entries entries.items }
    ensures capacity { vec_capacity values.new ≡ vec_capacity values.old }
{
    let mut rest = entries.into_iter();
    while let Some((key, value)) = rest.next() {
        values.push_reserved(key);
        values.push_reserved(value);
    }
}

/// Puts the keys and values of entries, in turn, before values that have room for them, where there
/// are more than so many entries. Takes no memory.
fn spread(entries: &mut Vec<(Value, Value)>, values: &mut Vec<Value>, most: usize)
    requires space { HasRoom entries.old values.old }
    ensures kept { parts_of_entries entries.new.items ++ values.new.items
        ≡ parts_of_entries entries.old.items ++ values.old.items }
    ensures within { length entries.new.items ≤ most }
    ensures space { HasRoom entries.new values.new }
{
    if entries.len() <= most {
        return;
    }
    let none = Vec::new(*values.allocator());
    let count = values.len();
    put_in_turn(values, std::mem::replace(entries, none));
    values.rotate_left(count);
}

/// The key or the value of an entry that has this number among the keys and values in turn.
fn part_at(entries: &[(Value, Value)], i: usize) -> &Value
    requires { i < 2 * length entries.now }
    ensures { result.now ≡ slice_index_or (parts_of_entries entries.now) i result.now }
{
    let entry = &entries[i / 2];
    if i % 2 == 0 { &entry.0 } else { &entry.1 }
}

impl ChildValues {
    /// No values. Takes no memory.
    pub(crate) fn none(alloc: Global) -> ChildValues
        ensures none { result ≡ [] }
    {
        ChildValues::of_values(Vec::new(alloc))
    }

    /// These values. Takes no memory.
    pub(crate) fn of_values(values: Vec<Value>) -> ChildValues
        ensures values { result ≡ values.items }
    {
        ChildValues {
            entries: Vec::new(*values.allocator()),
            values,
        }
    }

    /// The keys and values of these entries, in turn, or the entries back where there is no memory.
    /// Doesn't look at each, and has room for one entry more.
    pub(crate) fn of_entries(
        alloc: Global,
        entries: Vec<(Value, Value)>,
    ) -> Result<ChildValues, Vec<(Value, Value)>>
        ensures parts { IfOk result (λ it. it ≡ parts_of_entries entries.items) }
        ensures handed_back { IfErr result (λ back. back.items ≡ entries.items) }
    {
        if entries.len() >= usize::MAX / 2 {
            return Err(entries);
        }
        match Vec::with_capacity(alloc, 2 * entries.len() + 2) {
            Ok(values) => Ok(ChildValues { entries, values }),
            Err(_) => Err(entries),
        }
    }

    /// How many values there are.
    pub(crate) fn len(&self) -> usize
        ensures count { result ≡ length self.now }
    {
        2 * self.entries.len() + self.values.len()
    }

    /// The value of this number.
    pub(crate) fn value(&self, i: usize) -> &Value
        requires { i < length self.now }
        ensures value { result.now ≡ slice_index_or self.now i result.now }
    {
        let behind = 2 * self.entries.len();
        if i < behind {
            return part_at(self.entries.as_slice(), i);
        }
        &self.values[i - behind]
    }

    /// The values, where none of them is in an entry.
    pub(crate) fn as_slice(&self) -> Option<&[Value]>
        ensures { IfSome result (λ values. values.now ≡ self.now) }
    {
        if self.entries.is_empty() {
            Some(self.values.as_slice())
        } else {
            None
        }
    }

    /// The entries that stand before all other values, and these.
    pub(crate) fn as_slices(&self) -> (&[(Value, Value)], &[Value])
        ensures { parts_of_entries result.0.now ++ result.1.now ≡ self.now }
    {
        (self.entries.as_slice(), self.values.as_slice())
    }

    /// Puts a value in the stead of another, which is handed out. Takes no memory.
    pub(crate) fn replace(&mut self, i: usize, value: Value) -> Value
        requires { i < length self.old }
        ensures replaced { self.new ≡ slice_set self.old i value }
        ensures held { result ≡ slice_index_or self.old i result }
    {
        spread(&mut self.entries, &mut self.values, i / 2);
        let at = i - 2 * self.entries.len();
        std::mem::replace(&mut self.values[at], value)
    }

    /// One more value behind the others. Without memory there are those that were there.
    pub(crate) fn push(&mut self, value: Value) -> Result<(), OutOfMemory>
        ensures added { OnOk result (self.new ≡ self.old ++ value ∷ []) }
        ensures refused { OnErr result (self.new ≡ self.old) }
    {
        let behind = 2 * self.entries.len();
        if behind == usize::MAX {
            return Err(OutOfMemory);
        }
        self.values.reserve(behind + 1)?;
        self.values.push_reserved(value);
        Ok(())
    }

    /// Lets the last value go, if there is one.
    pub(crate) fn pop(&mut self)
        ensures { self.new ≡ take (length self.old - 1) self.old }
    {
        if self.values.is_empty() {
            spread(&mut self.entries, &mut self.values, 0);
            self.values.truncate(self.values.len().saturating_sub(1));
            return;
        }
        self.values.truncate(self.values.len() - 1);
    }

    /// The values side by side. Takes no memory.
    pub fn into_values(mut self) -> Vec<Value>
        ensures values { result.items ≡ self }
    {
        spread(&mut self.entries, &mut self.values, 0);
        self.values
    }

    /// The first values as entries, as far as they came so and are no more than these, with room for
    /// all, and the other values; or all of them back where there is no memory.
    pub(crate) fn into_entries(
        mut self,
        most: usize,
    ) -> Result<(Vec<(Value, Value)>, Vec<Value>), ChildValues>
        ensures split { IfOk result (λ split.
            parts_of_entries split.0.items ++ split.1.items ≡ self) }
        ensures within { IfOk result (λ split. length split.0.items ≤ most) }
        ensures room { IfOk result (λ split. length self / 2 ≤ vec_capacity split.0) }
        ensures handed_back { IfErr result (λ back. back ≡ self) }
    {
        spread(&mut self.entries, &mut self.values, most);
        match self.entries.reserve(self.values.len() / 2) {
            Ok(()) => Ok((self.entries, self.values)),
            Err(_) => Err(self),
        }
    }
}
