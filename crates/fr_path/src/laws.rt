//! Laws of paths: what follows from the definitions that the contracts cite.
ghost use Rattle.std.specs.Prelude.{◌≡◌, ◌<◌, ◌↔◌, List, [], ◌∷◌, ◌++◌, length};
ghost use Rattle.std.specs.declared.cmp.Ordering.TheVariants.{Less, Equal};
ghost use Rattle.std.specs.Ordering.{ordering_reverse};
ghost use Rattle.fr_path.specs.declared.path_steps.PathStep.{PathStep};
ghost use Rattle.fr_path.specs.Order.{walk_order};

/// A step that is taken back after a push is the step pushed, and the path is as before the push.
pub fn law_pop_undoes_push()
    ensures undone { (before after : List PathStep) (step last : PathStep)
        → before ++ step ∷ [] ≡ after ++ last ∷ [] → (after ≡ before) × (last ≡ step) }
{}

/// The order in which paths are walked is total, and only equal paths stand at one place of it.
pub fn law_walk_order()
    ensures swapped { (p q : List PathStep) → walk_order p q ≡ ordering_reverse (walk_order q p) }
    ensures transitive { (p q r : List PathStep)
        → walk_order p q ≡ Less → walk_order q r ≡ Less → walk_order p r ≡ Less }
    ensures equal { (p q : List PathStep) → (walk_order p q ≡ Equal) ↔ (p ≡ q) }
{}

/// A longer path is walked before a shorter one.
pub fn law_longer_path_first()
    ensures longer_first { (p q : List PathStep) → length q < length p → walk_order p q ≡ Less }
{}
