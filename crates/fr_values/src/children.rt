//! The children of a begun place.
ghost use Rattle.fr_values.specs.Common.{All, AreApart, Cell, Conserved, IfErr, IfNone, IfOk, IfSome, IndexesChildren, IsSome, List, OnErr, OnOk, Room, Some, [], and_item_cell, cells_occur, cells_of_vals, entries_view, false, has_same_cell, in_slot, is_same_cell, is_some, is_there, keys, length, none_twice, occurs, option_copied, option_map, slice_get, slice_set, slot_of_cell, true, unit, vals_view, view, without_cell, ℕ};
ghost use Rattle.std.specs.Prelude.{IsOk, suc, map, replicate, drop, ◌++◌, ◌+◌, ◌<◌, ◌↔◌, ◌∷◌, ◌≡◌, ◌≤◌};
ghost use Rattle.std.specs.FinSet as set;
ghost use Rattle.fr_shape.specs.Val.{token};
ghost use Rattle.fr_values.specs.Cells.{swapped, HasNumbers};
ghost use Rattle.fr_model.specs.Places.{in_turn};
ghost use Rattle.fr_values.specs.ChildIndex.{AreCutAt};

use crate::bases::Base;
use crate::child_values::ChildValues;
use crate::value_index::ValueIndex;
use fr_arena::ISet;
use fr_shape::{Ledger, OutOfMemory, Value, release, same};
use std::alloc::Global;
use std::default::Default;
use std::marker::Model;

/// The children of a begun place: their values side by side, so that they become a product as they
/// are, and a map's entries stay what they were.
///
/// `given` has the numbers of those whose values these are. Of any other child the value is `Unit`
/// where the child isn't there, and a token with the number of its slot where it is in one.
/// Contracts see one list of children.
///
/// `base` tells of the first children, all of which are there, that they hold nothing twice, and
/// `index` finds a value among the first of these; it is there for the items of sets.
#[derive(Drop)]
pub struct Children {
    parts: ChildValues,
    given: ISet,
    base: Base,
    index: ValueIndex,
}

impl Model for Children {
    ghost use Rattle.std.specs.Prelude.{List};
    ghost use Rattle.std.specs.Coded.{coded_list};
    ghost use Rattle.fr_values.specs.Cells.{Cell, cell_code, cells_of};

    ghost Value = { List Cell };

    ghost coded = { coded_list cell_code };

    ghost view = { λ it. cells_of it.given 0 it.parts };

    ghost use Rattle.fr_values.specs.ChildIndex.{IndexesChildren};

    ghost invariant = { λ it. IndexesChildren it.given it.parts it.base it.index };
}

/// So many values that stand for children that aren't there.
fn placeholders(alloc: Global, count: usize) -> Result<Vec<Value>, OutOfMemory>
    ensures absent { IfOk result (λ values. All (λ value. view value ≡ unit) values.items) }
    ensures count { IfOk result (λ values. length values.items ≡ count) }
{
    let mut values = Vec::with_capacity(alloc, count)?;
    for _i in 0..count {
        if values.push(Value::Unit).is_err() {
            return Err(OutOfMemory);
        }
    }
    Ok(values)
}

/// The same set, with room for more numbers.
fn widened(alloc: Global, given: &ISet) -> Result<ISet, OutOfMemory>
    ensures same { IfOk result (λ it.
        (i : ℕ) → set.contains it.members i ≡ set.contains given.now.members i) }
    ensures room { IfOk result (λ it. given.now.capacity < it.capacity) }
{
    let capacity = given.capacity();
    if capacity > usize::MAX / 2 {
        return Err(OutOfMemory);
    }
    let Ok(mut wide) = ISet::new(alloc, 2 * capacity) else {
        return Err(OutOfMemory);
    };
    for i in 0..capacity {
        if given.get(i) {
            wide.set(i);
        }
    }
    Ok(wide)
}

/// Makes room in a set for the number of one more than so many children.
fn make_room(alloc: Global, given: &mut ISet, count: usize) -> Result<(), OutOfMemory>
    ensures same { (i : ℕ) → set.contains given.new.members i
        ≡ set.contains given.old.members i }
    ensures kept { given.old.capacity ≤ given.new.capacity }
    ensures room { OnOk result (count ≤ given.old.capacity → count < given.new.capacity) }
{
    if count < given.capacity() {
        return Ok(());
    }
    let wide = widened(alloc, given)?;
    let _narrow = std::mem::replace(given, wide);
    Ok(())
}

/// The number of the slot for which a value stands.
fn slot_in(value: &Value) -> Option<u32>
    ensures { result ≡ slot_of_cell (in_slot (view value.now)) }
{
    match value {
        Value::Token(slot) => Some(*slot),
        Value::Unit | Value::Bool(_) | Value::Char(_) | Value::Int(_) | Value::Nat(_) => None,
        Value::Text(_) | Value::Product(_) | Value::Variant(..) | Value::None => None,
        Value::Some(_) | Value::Ok(_) | Value::Err(_) | Value::Ptr(_) | Value::Dyn(_) => None,
        Value::List(_) | Value::Map(_) | Value::Set(_) => None,
    }
}

/// What stands for a child in a slot.
fn in_place(slot: u32) -> Value
    ensures { view result ≡ token slot }
{
    Value::Token(slot)
}

/// What stands for a child that isn't there.
fn nothing() -> Value
    ensures { view result ≡ unit }
{
    Value::Unit
}

/// Lets a base, and the index of its values, end before this number.
fn cut_at(base: &mut Base, index: &mut ValueIndex, number: usize)
    ensures { AreCutAt number base.old base.new index.old index.new }
{
    if number < base.len() {
        base.cut_at(number);
        index.cut_at(base.len());
    }
}

/// Whether a value is `same` as one of these.
fn is_among(values: &[Value], value: &Value) -> bool
    ensures { result ≡ is_there (view value.now) (vals_view values.now) }
{
    for held in values {
        if same(held, value) {
            return true;
        }
    }
    false
}

/// A set of the numbers of so many children, with room for those of more.
fn numbers_below(alloc: Global, count: usize, more: usize) -> Result<ISet, OutOfMemory>
    ensures { IfOk result (λ numbers. HasNumbers count numbers) }
{
    let Ok(mut numbers) = ISet::new(alloc, count.saturating_add(more)) else {
        return Err(OutOfMemory);
    };
    numbers.set_all(count);
    Ok(numbers)
}

impl Children {
    ghost use Rattle.fr_values.specs.Cells.{absent, given, placed, value_at, slot_in_cells, values_of};

    /// No children. Takes no memory.
    pub fn none(alloc: Global) -> Children
        ensures empty { result ≡ [] }
    {
        Children {
            parts: ChildValues::none(alloc),
            given: ISet::default(),
            base: Base::none(),
            index: ValueIndex::new(alloc),
        }
    }

    /// So many children, none of them there yet.
    pub fn none_yet(alloc: Global, count: usize) -> Result<Children, OutOfMemory>
        ensures absent { IfOk result (λ it. it ≡ replicate count absent) }
        ensures memory { count ≡ 0 → IsOk result }
    {
        if count == 0 {
            return Ok(Children::none(alloc));
        }
        let Ok(given) = ISet::new(alloc, count) else {
            return Err(OutOfMemory);
        };
        let values = placeholders(alloc, count)?;
        Ok(Children {
            parts: ChildValues::of_values(values),
            given,
            base: Base::none(),
            index: ValueIndex::new(alloc),
        })
    }

    /// Children that are all there with these values, or the values back where there is no memory.
    pub fn all_there(alloc: Global, values: Vec<Value>, base: Base) -> Result<Children, Vec<Value>>
        requires { AreApart base values.items }
        ensures there { IfOk result (λ it. it ≡ map (λ v. given (view v)) values.items) }
        ensures handed_back { IfErr result (λ back. back.items ≡ values.items) }
    {
        match numbers_below(alloc, values.len(), 0) {
            Ok(numbers) => {
                let parts = ChildValues::of_values(values);
                Ok(Children::of_parts(alloc, parts, numbers, base))
            }
            Err(_) => Err(values),
        }
    }

    /// The keys and values, in turn, of so many entries, no two of which have keys that are `same`,
    /// as children that are all there; or the entries back where there is no memory. Doesn't look at
    /// each, and has room for one entry more.
    pub fn of_entries(
        alloc: Global,
        entries: Vec<(Value, Value)>,
        count: u32,
    ) -> Result<Children, Vec<(Value, Value)>>
        requires count { count ≡ length entries.items }
        requires apart { none_twice (keys (entries_view entries.items)) ≡ true }
        ensures there { IfOk result (λ it.
            it ≡ cells_of_vals (in_turn (entries_view entries.items))) }
        ensures handed_back { IfErr result (λ back. back.items ≡ entries.items) }
    {
        let Ok(numbers) = numbers_below(alloc, 2 * count as usize, 2) else {
            return Err(entries);
        };
        match ChildValues::of_entries(alloc, entries) {
            Ok(parts) => Ok(Children::of_parts(alloc, parts, numbers, Base::Entries(count))),
            Err(back) => Err(back),
        }
    }

    /// How many children the place has.
    pub fn len(&self) -> usize
        ensures count { result ≡ length self.now }
    {
        self.parts.len()
    }

    /// A child's value, where it is there.
    pub fn value(&self, i: usize) -> Option<&Value>
        requires inside { i < length self.now }
        ensures value { option_map view (option_copied result) ≡ value_at self.now i }
    {
        if self.given.get(i) {
            Some(self.parts.value(i))
        } else {
            None
        }
    }

    /// The number of the slot that a child is in, where it is in one.
    pub fn slot(&self, i: usize) -> Option<u32>
        requires inside { i < length self.now }
        ensures slot { result ≡ slot_in_cells self.now i }
    {
        if self.given.get(i) {
            return None;
        }
        slot_in(self.parts.value(i))
    }

    /// Lets a child have no value of its own but this, which stands for it, and hands out the value
    /// that it had, if it was there.
    fn hand_out(&mut self, i: usize, mark: Value) -> Option<Value>
        requires { i < length self.old }
        ensures marked { self.new ≡ slice_set self.old i (in_slot (view mark)) }
        ensures taken { option_map view result ≡ value_at self.old i }
    {
        let was_given = self.given.get(i);
        cut_at(&mut self.base, &mut self.index, i);
        self.given.unset(i);
        let held = self.parts.replace(i, mark);
        if !was_given {
            return None;
        }
        Some(held)
    }

    /// Puts a child into a slot of its own, of this number, and hands its value out, if it was there.
    pub fn place(&mut self, i: usize, slot: u32) -> Option<Value>
        requires { i < length self.old }
        ensures placed { self.new ≡ slice_set self.old i (placed slot) }
        ensures taken { option_map view result ≡ value_at self.old i }
    {
        self.hand_out(i, in_place(slot))
    }

    /// Takes a child out, which then isn't there, and hands its value out, if it was there.
    pub fn take(&mut self, i: usize) -> Option<Value>
        requires { i < length self.old }
        ensures rest { self.new ≡ slice_set self.old i absent }
        ensures taken { option_map view result ≡ value_at self.old i }
    {
        self.hand_out(i, nothing())
    }

    /// Lets a child not be there.
    pub fn clear(&mut self, i: usize)
        requires { i < length self.old }
        ensures cleared { self.new ≡ slice_set self.old i absent }
    {
        let _held = self.take(i);
    }

    /// Puts a child's value in the stead of what stood there.
    pub fn put(&mut self, i: usize, value: Value)
        requires { i < length self.old }
        ensures put { self.new ≡ slice_set self.old i (given (view value)) }
    {
        cut_at(&mut self.base, &mut self.index, i);
        self.given.set(i);
        let _held = self.parts.replace(i, value);
    }

    /// One child more behind the others, which isn't there yet. Doesn't look at the others, but
    /// where there is no room for it.
    pub fn push(&mut self, alloc: Global) -> Result<(), OutOfMemory>
        ensures added { OnOk result (self.new ≡ self.old ++ absent ∷ []) }
        ensures refused { OnErr result (self.new ≡ self.old) }
    {
        let count = self.parts.len();
        make_room(alloc, &mut self.given, count)?;
        let Ok(()) = self.parts.push(nothing()) else {
            return Err(OutOfMemory);
        };
        self.given.unset(count);
        Ok(())
    }

    /// Two children more behind the others, which aren't there yet. Doesn't look at the others, but
    /// where there is no room for them.
    pub fn push_two(&mut self, alloc: Global) -> Result<(), OutOfMemory>
        ensures added { OnOk result (self.new ≡ self.old ++ absent ∷ absent ∷ []) }
        ensures refused { OnErr result (self.new ≡ self.old) }
    {
        self.push(alloc)?;
        let Ok(()) = self.push(alloc) else {
            self.pop();
            return Err(OutOfMemory);
        };
        Ok(())
    }

    /// Lets the last child go, if there is one.
    pub fn pop(&mut self)
        ensures rest { (rest : List Cell) (last : Cell) → self.old ≡ rest ++ last ∷ []
            → self.new ≡ rest }
        ensures none { self.old ≡ [] → self.new ≡ [] }
    {
        self.parts.pop();
        cut_at(&mut self.base, &mut self.index, self.parts.len());
    }

    /// Lets the index have all of the base, if that pays by now, and there is memory.
    fn index_more(&mut self)
        ensures { self.new ≡ self.old }
    {
        let Some(values) = self.parts.as_slice() else {
            return;
        };
        let count = self.base.len();
        if self.index.pays(count) {
            let _added = self.index.add(&values[..count]);
        }
    }

    /// Whether a child is there with a value that is `same` as this one.
    fn is_same(&self, i: usize, value: &Value) -> bool
        requires { i < length self.now }
        ensures { (c : Cell) → slice_get self.now i ≡ Some c
            → result ≡ is_same_cell (view value.now) c }
    {
        match self.value(i) {
            Some(held) => same(held, value),
            None => false,
        }
    }

    /// Whether the value of some child from this one on is `same` as this value.
    fn has_same_from(&self, first: usize, value: &Value) -> bool
        ensures { result ≡ has_same_cell (view value.now) (drop first self.now) }
    {
        for i in first..self.len() {
            if self.is_same(i, value) {
                return true;
            }
        }
        false
    }

    /// Whether the value of some child is `same` as this one. Of the base it looks only at what the
    /// index doesn't have.
    fn has_same(&self, value: &Value) -> bool
        ensures { result ≡ has_same_cell (view value.now) self.now }
    {
        let Some(values) = self.parts.as_slice() else {
            return self.has_same_from(0, value);
        };
        let indexed = self.index.len();
        let count = self.base.len();
        if self.index.find(&values[..indexed], value).is_some() {
            return true;
        }
        is_among(&values[indexed..count], value) || self.has_same_from(count, value)
    }

    /// Lets a child that isn't there and the next one change places.
    fn move_back(&mut self, i: usize, next: usize)
        requires next { next ≡ suc i }
        requires inside { next < length self.old }
        requires absent { slice_get self.old i ≡ Some absent }
        ensures { self.new ≡ swapped i self.old }
    {
        if let Some(slot) = self.slot(next) {
            self.clear(next);
            let _nothing = self.place(i, slot);
        } else if let Some(value) = self.take(next) {
            self.put(i, value);
        }
    }

    /// Puts a value, which is `same` as that of no child, in the stead of what stood there.
    fn put_new(&mut self, i: usize, value: Value)
        requires inside { i < length self.old }
        requires new { has_same_cell (view value) self.old ≡ false }
        ensures { self.new ≡ slice_set self.old i (given (view value)) }
    {
        self.put(i, value);
        self.base.grow_at(i);
    }

    /// Moves a child that isn't there behind the others, and tells its number then.
    fn move_last(&mut self, i: usize) -> usize
        requires { slice_get self.old i ≡ Some absent }
        ensures moved { self.new ≡ without_cell i self.old ++ absent ∷ [] }
        ensures last { result ≡ length (without_cell i self.old) }
    {
        let last = self.len() - 1;
        for at in i..last {
            self.move_back(at, at + 1);
        }
        last
    }

    /// Lets a child go that isn't there, and puts a value behind the others, unless one of them is
    /// `same`: then it is released. Takes no memory.
    pub fn end_item(&mut self, i: usize, value: Value, ledger: &mut Ledger)
        requires absent { slice_get self.old i ≡ Some absent }
        requires room { Room (occurs (view value)) ledger.old }
        ensures ended { self.new ≡ and_item_cell (without_cell i self.old) (view value) }
        ensures conserved { Conserved (λ t. cells_occur self.old t + occurs (view value) t)
            ledger.old (cells_occur self.new) ledger.new }
    {
        self.index_more();
        let is_there = self.has_same(&value);
        let last = self.move_last(i);
        if is_there {
            self.pop();
            release(value, ledger);
        } else {
            self.put_new(last, value);
        }
    }

    /// The values of children, each of which is there, the set of their numbers, and what is known
    /// of the first ones. Takes no memory.
    pub fn into_parts(self) -> (ChildValues, ISet, Base)
        requires { IsSome (values_of self) }
        ensures values { values_of self ≡ Some (vals_view result.0) }
        ensures numbers { HasNumbers (length result.0) result.1 }
        ensures base { AreApart result.2 result.0 }
    {
        (self.parts, self.given, self.base)
    }

    /// Children that are all there with these values, whose numbers are in this set, where this is
    /// known of the first ones. Takes no memory.
    pub fn of_parts(alloc: Global, parts: ChildValues, numbers: ISet, base: Base) -> Children
        requires numbers { HasNumbers (length parts) numbers }
        requires base { AreApart base parts }
        ensures there { result ≡ map (λ v. given (view v)) parts }
    {
        Children {
            parts,
            given: numbers,
            base,
            index: ValueIndex::new(alloc),
        }
    }

    /// Whether each child is there. Doesn't look at each.
    pub fn are_all_there(&self) -> bool
        ensures all_there { result ≡ is_some (values_of self.now) }
    {
        self.given.all_set(self.parts.len())
    }

    /// The values of the children, each of which is there. Takes no memory.
    pub fn into_values(self) -> Vec<Value>
        requires { IsSome (values_of self) }
        ensures values { values_of self ≡ Some (vals_view result.items) }
    {
        self.parts.into_values()
    }
}
