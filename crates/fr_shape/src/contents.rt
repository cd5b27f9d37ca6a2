//! A value as a key: keys are equal where the values are `same`.
ghost use Rattle.std.specs.Prelude.{Some, refl};
ghost use Rattle.std.specs.Cmp.{partial_equiv_from_equiv, on_equiv, on_po, on_total};
ghost use Rattle.fr_shape.specs.View.{view};
ghost use Rattle.fr_shape.specs.Same.{same};
ghost use Rattle.fr_shape.specs.Compare.{compare};
ghost use Rattle.fr_shape.specs.CompareLaws.{compare_total};
ghost use Rattle.fr_shape.specs.CompareSame.{same_tied, same_equivalence, same_order};

use crate::{Value, compare, same};
use std::cmp::Ordering;

/// A value that is told from others by what it holds.
#[derive(Clone, Copy)]
pub struct ByContents<'a>(pub &'a Value);

impl PartialEq for ByContents<'_> {
    ghost eq = { λ a b. same (view a.0.now) (view b.0.now) };

    ghost laws = { partial_equiv_from_equiv (on_equiv (λ k. view k.0.now) same_equivalence) };

    fn eq(&self, other: &Self) -> bool {
        same(self.0, other.0)
    }
}

impl Eq for ByContents<'_> {
    ghost laws = { on_equiv (λ k. view k.0.now) same_equivalence };
}

impl PartialOrd for ByContents<'_> {
    ghost partial_cmp = { λ a b. Some (compare (view a.0.now) (view b.0.now)) };

    ghost laws = { on_po (λ k. view k.0.now) same_order };

    fn partial_cmp(&self, other: &Self) -> Option<Ordering> {
        Some(compare(self.0, other.0))
    }
}

impl Ord for ByContents<'_> {
    ghost cmp = { λ a b. compare (view a.0.now) (view b.0.now) };

    ghost total = { on_total (λ k. view k.0.now) compare_total };

    ghost matches_partial_cmp = { λ a b. refl };

    ghost matches_eq = { λ a b. same_tied (view a.0.now) (view b.0.now) };

    fn cmp(&self, other: &Self) -> Ordering {
        compare(self.0, other.0)
    }
}
