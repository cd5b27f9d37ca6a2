//! A path: a list of steps.
ghost use Rattle.std.specs.Prelude.{◌≡◌, [], ◌∷◌, ◌++◌, ◌↔◌, length, IsTrue, IfOk, OnOk, OnErr, IfSome, IfNone, IsNone};
ghost use Rattle.std.specs.Cmp.{partial_equiv_from_equiv, eq_by_cmp_equiv};
ghost use Rattle.fr_path.specs.Order.{walk_order, path_eq};
ghost use Rattle.fr_path.specs.OrderLaws.{walk_total};
ghost use Rattle.fr_path.specs.PathText.{path_text};

use crate::PathStep;
use crate::path_text::write_path;
use fr_shape::{OutOfMemory, ShapeId, ShapeTable, Text};
use std::alloc::Global;
use std::cmp::Ordering;
use std::marker::Model;

/// The way from a root to a place. Contracts see the list of its steps, the first step first.
#[derive(Drop)]
pub struct Path {
    steps: Vec<PathStep>,
}

impl Model for Path {
    ghost use Rattle.std.specs.Prelude.{List};
    ghost use Rattle.std.specs.Coded.{coded_list};
    ghost use Rattle.fr_path.specs.declared.path_steps.PathStep.{PathStep};
    ghost use Rattle.fr_path.specs.contracts.path_steps.PathStep as step;

    ghost Value = { List PathStep };

    ghost coded = { coded_list step.the_row.coded };

    ghost view = { λ path. path.steps.items };
}

impl Path {
    /// The path of no steps, which is the root's. Takes no memory.
    pub fn new(alloc: Global) -> Path
        ensures empty { result ≡ [] }
    {
        Path {
            steps: Vec::new(alloc),
        }
    }

    /// How many steps there are.
    pub fn len(&self) -> usize
        ensures count { result ≡ length self.now }
    {
        self.steps.len()
    }

    /// Whether this is the root's path.
    pub fn is_empty(&self) -> bool
        ensures empty { IsTrue result ↔ (self.now ≡ []) }
    {
        self.steps.is_empty()
    }

    /// The steps, the first step first.
    pub fn steps(&self) -> &[PathStep]
        ensures steps { result.now ≡ self.now }
    {
        self.steps.as_slice()
    }

    /// Goes one step on.
    pub fn push(&mut self, step: PathStep) -> Result<(), OutOfMemory>
        ensures appended { OnOk result (self.new ≡ self.old ++ step ∷ []) }
        ensures refused { OnErr result (self.new ≡ self.old) }
    {
        self.steps.push(step)?;
        Ok(())
    }

    /// Goes one step back, and returns that step.
    pub fn pop(&mut self) -> Option<PathStep>
        ensures last { IfSome result (λ step. self.old ≡ self.new ++ step ∷ []) }
        ensures unchanged { IfNone result (self.new ≡ self.old) }
        ensures none { IsNone result ↔ (self.old ≡ []) }
    {
        self.steps.pop()
    }

    /// Which of two paths is walked first; `Less` says that this one is.
    pub fn cmp_walk(&self, other: &Path) -> Ordering
        ensures order { result ≡ walk_order self.now other.now }
    {
        let (left, right) = (self.steps(), other.steps());
        if left.len() != right.len() {
            return right.len().cmp(&left.len());
        }
        for i in 0..left.len() {
            let order = left[i].cmp_walk(&right[i]);
            if order.is_ne() {
                return order;
            }
        }
        Ordering::Equal
    }

    /// The path in words, from a root of the shape `root`.
    ///
    /// A field is told by its declared name as long as the shapes on the way are known, and then by
    /// its number. A shape is lost after a variant's field, a proxy, a field that isn't there, and
    /// a step that no value of the shape before it can have; an array has elements where it can be
    /// entered, as one of 1 to 4,096 elements can.
    pub fn format_with_shape(
        &self,
        alloc: Global,
        table: &ShapeTable,
        root: ShapeId,
    ) -> Result<Text, OutOfMemory>
        ensures text { IfOk result (λ text. text ≡ path_text table.now root self.now) }
    {
        let text = write_path(alloc, self.steps(), table, root)?;
        Text::new(alloc, text.as_str())
    }
}

/// Paths are equal where their steps are.
impl PartialEq for Path {
    ghost eq = { path_eq };

    ghost laws = { partial_equiv_from_equiv (eq_by_cmp_equiv walk_total) };

    fn eq(&self, other: &Path) -> bool
        ensures value { result ≡ path_eq self.now other.now }
        ensures same { IsTrue result ↔ (self.now ≡ other.now) }
    {
        self.cmp_walk(other).is_eq()
    }
}

impl Eq for Path {
    ghost laws = { eq_by_cmp_equiv walk_total };
}
