//! Finding a value among those of a list that grows at its end.
ghost use Rattle.fr_values.specs.Common.{IfNone, IfOk, IfSome, Indexes, IsPermutation, IsRun, List, OnErr, OnOk, [], false, has_number, is_some, is_there, joined, length, numbers_from, runs_of, same, true, val_at, vals_view, view, ℕ};
ghost use Rattle.std.specs.Prelude.{◌-◌, map, take, drop, ◌++◌, ◌+◌, ◌<◌, ◌∷◌, ◌≡◌, ◌≤◌};
ghost use Rattle.fr_shape.specs.declared.value.Value.{Value as TheValue};
ghost use Rattle.fr_values.specs.ChildIndex.{IsCutAt};

use fr_shape::{ByContents, OutOfMemory, Value, compare};
use std::alloc::Global;
use std::cmp::Ordering;

/// Finds a value among those of a list that grows at its end, and holds their numbers alone. They
/// stand in runs, each sorted by the order of its values; what comes goes into one run with the
/// shorter ones before it, so that there are few runs, and each number is seldom sorted anew.
#[derive(Drop)]
pub(crate) struct ValueIndex {
    runs: Vec<Vec<u32>>,
    len: u32,
    compares: u32,
}

/// So many values are looked at faster one by one.
const FEW: u32 = 8;

impl ValueIndex {
    /// The index of no values. Takes no memory.
    pub(crate) fn new(alloc: Global) -> ValueIndex
        ensures empty { Indexes result [] }
    {
        ValueIndex {
            runs: Vec::new(alloc),
            len: 0,
            compares: 0,
        }
    }

    /// How many values it has.
    pub(crate) fn len(&self) -> usize
        ensures count { (values : List TheValue) → Indexes self.now values
            → result ≡ length values }
    {
        self.len as usize
    }

    /// The number of a value that is `same`, where there is one.
    pub(crate) fn find(&self, values: &[Value], value: &Value) -> Option<usize>
        requires indexed { Indexes self.now values.now }
        ensures there { is_some result ≡ is_there (view value.now) (vals_view values.now) }
        ensures found { IfSome result (λ n. n < length values.now) }
        ensures same { IfSome result (λ n.
            same (val_at (map view values.now) n) (view value.now) ≡ true) }
    {
        for run in &self.runs {
            let found = find_in(run.as_slice(), values, value);
            if found.is_some() {
                return found;
            }
        }
        None
    }

    /// Whether it pays to have all of so many values, where it isn't asked for what it doesn't have:
    /// as many compares were made for these as sorting them costs. Counts those that are about to
    /// be made.
    pub(crate) fn pays(&mut self, count: usize) -> bool
        ensures more { result ≡ true → self.new.len < count }
        ensures kept { (values : List TheValue) → Indexes self.old values
            → Indexes self.new values }
    {
        let left = u32::try_from(count).unwrap_or(0).saturating_sub(self.len);
        self.compares = self.compares.saturating_add(left);
        left > FEW && self.compares / left > 32 - left.leading_zeros()
    }

    /// Adds the numbers of all these values but the first ones, which it has. Without memory it
    /// stays as it was.
    pub(crate) fn add(&mut self, values: &[Value]) -> Result<(), OutOfMemory>
        requires more { self.old.len < length values.now }
        requires indexed { Indexes self.old (take self.old.len values.now) }
        ensures added { OnOk result (Indexes self.new values.now) }
        ensures refused { OnErr result (Indexes self.new (take self.old.len values.now)) }
    {
        let Ok(len) = u32::try_from(values.len()) else {
            return Err(OutOfMemory);
        };
        let from = self.first_absorbed(values.len() - self.len as usize);
        let numbers = self.numbers_from(from, len)?;
        let run = sorted(*self.runs.allocator(), numbers.as_slice(), values)?;
        self.put_run(from, run)?;
        self.len = len;
        self.compares = 0;
        Ok(())
    }

    /// Lets it have nothing, if it has a value from this number on. Takes no memory.
    pub(crate) fn cut_at(&mut self, number: usize)
        ensures { IsCutAt number self.old self.new }
    {
        if number < self.len as usize {
            self.runs.clear();
            self.len = 0;
        }
    }

    /// The runs from this one on go into a new one with so many numbers: none of them is longer than
    /// all behind it and these.
    fn first_absorbed(&self, new: usize) -> usize
        ensures { result ≤ length (runs_of self.now) }
    {
        let mut from = self.runs.len();
        let mut size = new;
        while from > 0 && self.runs[from - 1].len() <= size {
            from -= 1;
            size = size.saturating_add(self.runs[from].len());
        }
        from
    }

    /// The numbers that it doesn't have, up to this one, and those of the runs from one on.
    fn numbers_from(&self, from: usize, end: u32) -> Result<Vec<u32>, OutOfMemory>
        requires within { from ≤ length (runs_of self.now) }
        requires more { self.now.len ≤ end }
        ensures { IfOk result (λ numbers.
            numbers.items ≡ numbers_from self.now.len (end - self.now.len)
            ++ joined (drop from (runs_of self.now))) }
    {
        let mut numbers = Vec::new(*self.runs.allocator());
        for number in self.len..end {
            numbers.push(number)?;
        }
        for i in from..self.runs.len() {
            numbers.extend_from_slice(self.runs[i].as_slice())?;
        }
        Ok(numbers)
    }

    /// Puts a run in place of those from one on.
    fn put_run(&mut self, from: usize, run: Vec<u32>) -> Result<(), OutOfMemory>
        requires within { from ≤ length (runs_of self.old) }
        ensures put { OnOk result
            (runs_of self.new ≡ take from (runs_of self.old) ++ run.items ∷ []) }
        ensures kept { OnErr result (runs_of self.new ≡ runs_of self.old) }
        ensures len { self.new.len ≡ self.old.len }
    {
        if from < self.runs.len() {
            self.runs[from] = run;
            self.runs.truncate(from + 1);
        } else {
            self.runs.push(run)?;
        }
        Ok(())
    }
}

/// The numbers, sorted by their values.
fn sorted(alloc: Global, numbers: &[u32], values: &[Value]) -> Result<Vec<u32>, OutOfMemory>
    requires below { (n : ℕ) → has_number numbers.now n ≡ true → n < length values.now }
    ensures moved { IfOk result (λ run. IsPermutation numbers.now run.items) }
    ensures run { IfOk result (λ run. IsRun (map view values.now) run.items) }
{
    let mut keyed = Vec::with_capacity(alloc, numbers.len())?;
    for number in numbers {
        keyed.push((ByContents(&values[*number as usize]), *number))?;
    }
    keyed.sort()?;
    let mut run = Vec::with_capacity(alloc, numbers.len())?;
    for entry in keyed.as_slice() {
        run.push(entry.1)?;
    }
    Ok(run)
}

/// The number in a run of a value that is `same`.
fn find_in(run: &[u32], values: &[Value], value: &Value) -> Option<usize>
    requires run { IsRun (map view values.now) run.now }
    ensures found { IfSome result (λ n. n < length values.now) }
    ensures same { IfSome result (λ n.
        same (val_at (map view values.now) n) (view value.now) ≡ true) }
    ensures none { IfNone result ((n : ℕ) → has_number run.now n ≡ true
        → same (val_at (map view values.now) n) (view value.now) ≡ false) }
{
    let mut low = 0;
    let mut high = run.len();
    while low < high {
        let middle = low + (high - low) / 2;
        let number = run[middle] as usize;
        match compare(&values[number], value) {
            Ordering::Less => low = middle + 1,
            Ordering::Greater => high = middle,
            Ordering::Equal => return Some(number),
        }
    }
    None
}
