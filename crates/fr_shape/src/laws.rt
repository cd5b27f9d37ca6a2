//! Laws of the definitions: each is the contract of a function that does nothing.
ghost use Rattle.std.specs.Prelude.{◌≡◌, ℕ, Bool, true, List, []};
ghost use Rattle.fr_shape.specs.declared.shape.Def.{Def};
ghost use Rattle.fr_shape.specs.Val.{Val};
ghost use Rattle.fr_shape.specs.Look.{Table, def_of};
ghost use Rattle.fr_shape.specs.Fits.{fits};
ghost use Rattle.fr_shape.specs.Tokens.{tokens};
ghost use Rattle.fr_shape.specs.Hooks.{IfGives, IsLawful, no_hooks};
ghost use Rattle.fr_shape.specs.Parsing.{parsed};
ghost use Rattle.fr_shape.specs.Invariants.{HasNoInvariant, keeps_invariants};
ghost use Rattle.fr_shape.specs.Once.{ConservingKeepsOrReleases};

use crate::{Hooks, NoHooks};

/// What any hooks give fits its target, conversions make up no token, and parses give none.
pub fn law_hooks<H: Hooks>()
    ensures lawful { (hooks : H) → IsLawful (H.means hooks) }
{}

/// What `NoHooks` means.
pub fn law_no_hooks()
    ensures meaning { (hooks : NoHooks) → ⟦<NoHooks as Hooks>⟧.means hooks ≡ no_hooks }
{}

/// Where tokens that are held at most once are conserved, each is kept or released once, never
/// both; no other count changes, and no other token is there afterwards.
pub fn law_conserved()
    ensures kept_or_released { ConservingKeepsOrReleases }
{}

/// What a text is parsed to, by the grammar, fits each place of that definition and holds no token.
pub fn law_parsing()
    ensures fits { (table : Table) (id : ℕ) (s : List ℕ)
        → IfGives (parsed (def_of table id) s) (λ v. fits table id v ≡ true) }
    ensures no_token { (def : Def) (s : List ℕ) → IfGives (parsed def s) (λ v. tokens v ≡ []) }
{}

/// Where no shape that a root reaches has an invariant, each value that fits the root keeps them.
pub fn law_invariants()
    ensures kept { (check : ℕ → Val → Bool) (table : Table) (root : ℕ) (v : Val)
        → HasNoInvariant table root → fits table root v ≡ true
        → keeps_invariants check table root v ≡ true }
{}
