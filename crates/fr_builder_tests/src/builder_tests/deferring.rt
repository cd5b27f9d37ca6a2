//! Deferred mode entered without a ledger.
ghost use Rattle.std.specs.Prelude.{◌≡◌, ℕ};
ghost use Rattle.fr_model.specs.Tree.{strict};
ghost use Rattle.fr_partial.specs.Builder.{holds};

use super::bench::{fresh, give_up, with_ledger};
use super::grounds::ground_of;
use super::structs::STRUCT;
use fr_own_hooks::OwnHooks;
use fr_partial::Partial;

/// The builder, which holds nothing, in deferred mode.
fn enter_deferred<'t>(partial: Partial<'t, OwnHooks>) -> Partial<'t, OwnHooks>
    requires strict { partial.state.mode ≡ strict }
    requires none { (t : ℕ) → holds partial t ≡ 0 }
    ensures { (t : ℕ) → holds result t ≡ 0 }
{
    partial.enter_deferred()
}

/// A builder in strict mode enters deferred mode without a ledger, since nothing can be refused.
#[test]
fn deferred_mode_is_entered_at_once(rt: HostRuntime) {
    let ground = ground_of(&rt, STRUCT);
    let partial = fresh(&rt, rt.alloc(), &ground, 4);
    let None = partial.current_path() else {
        panic!(rt; "deferred already");
    };
    let bench = with_ledger(&rt, rt.alloc(), enter_deferred(partial));
    assert!(rt; bench.partial.is_deferred() && bench.partial.current_path().is_some());
    assert!(rt; bench.partial.frame_count() == 1);
    give_up(&rt, bench);
}
