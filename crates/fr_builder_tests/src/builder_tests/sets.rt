//! A set of items that hold tokens, which is given up half done.
ghost use Rattle.std.specs.Prelude.{◌≡◌, ◌+◌, ◌≤◌, ◌<◌, ◌∷◌, ℕ, [], length, slice_index, IfOk};
ghost use Rattle.fr_shape.specs.Released.{Room};
ghost use Rattle.fr_shape.specs.Tokens.{tokens};
ghost use Rattle.fr_shape.specs.View.{view};
ghost use Rattle.fr_partial.specs.Builder.{holds};

use super::bench::{check_counts, fresh, ledger, shaped};
use super::grounds::ground_of;
use fr_own_hooks::OwnHooks;
use fr_partial::{Partial, ReflectError};
use fr_shape::{Items, Ledger, Value};
use std::alloc::Global;
use std::process::Abort;

/// A number, 0 by default; an opaque; an item of both; a set of items, and a map from items.
const SETS: &str = r#"{"shapes":[
    {"name":"u32","def":"u32","preset":0},
    {"name":"Res","def":"opaque"},
    {"name":"Item","def":{"struct":[{"name":"id","shape":0},{"name":"r","shape":1}]}},
    {"name":"Items","def":{"set":2}},
    {"name":"M","def":{"map":[2,1]}}
],"root":3,"commands":[]}"#;

/// Begins a set that holds nothing.
fn begin_set<'t>(
    rt: &impl Abort,
    partial: Partial<'t, OwnHooks>,
    ledger: &mut Ledger,
) -> Partial<'t, OwnHooks>
    requires none { (t : ℕ) → holds partial t ≡ 0 }
    ensures room { Room (holds result) ledger.new }
    ensures none { (t : ℕ) → holds result t ≤ 0 }
{
    match partial.init_set(ledger) {
        Ok(partial) => partial,
        Err(_) => panic!(rt; "no set"),
    }
}

/// An item with this token.
fn item(rt: &impl Abort, alloc: Global, token: u32) -> Value
    ensures { tokens (view result) ≡ token ∷ [] }
{
    let Ok(fields) = vec![in alloc; Value::Nat(u128::from(token)), Value::Token(token)] else {
        panic!(rt; "no memory");
    };
    Value::Product(Items::from_vec(fields))
}

/// Ends the test where the token isn't one of the first two, or was released.
fn check_unused(rt: &impl Abort, ledger: &Ledger, token: u32)
    ensures small { token < 2 }
    ensures known { token < length ledger.now }
    ensures unused { slice_index ledger.now token ≡ 0 }
{
    assert!(rt; token < 2);
    assert!(rt; token < ledger.len());
    assert!(rt; ledger.count(token) == 0);
}

/// Adds an item with this token to the set, which holds those before.
fn add_item<'t>(
    rt: &impl Abort,
    alloc: Global,
    partial: Partial<'t, OwnHooks>,
    token: u32,
    ledger: &mut Ledger,
) -> Result<Partial<'t, OwnHooks>, ReflectError>
    requires room { Room (holds partial) ledger.old }
    requires few { (t : ℕ) → holds partial t ≤ token }
    ensures room { IfOk result (λ after. Room (holds after) ledger.new) }
    ensures few { IfOk result (λ after. (t : ℕ) → holds after t ≤ token + 1) }
{
    let begun = partial.begin_set_item(ledger)?;
    check_unused(rt, ledger, token);
    let value = shaped(rt, &begun, 2, item(rt, alloc, token));
    begun.set_shape(value, ledger)?.end(ledger)
}

#[test]
fn a_set_that_is_given_up_releases_its_items(rt: HostRuntime) {
    let ground = ground_of(&rt, SETS);
    let mut ledger = ledger(&rt, rt.alloc(), 2);
    let begun = begin_set(&rt, fresh(&rt, rt.alloc(), &ground, 3), &mut ledger);
    let Ok(one) = add_item(&rt, rt.alloc(), begun, 0, &mut ledger) else {
        panic!(rt; "no first item");
    };
    let Ok(two) = add_item(&rt, rt.alloc(), one, 1, &mut ledger) else {
        panic!(rt; "no second item");
    };
    two.abandon(&mut ledger);
    check_counts(&rt, &ledger, &[1, 1]);
}
