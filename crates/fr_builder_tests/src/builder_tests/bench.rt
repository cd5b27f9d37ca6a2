//! A builder beside its ledger. A call asks nothing of the test that makes it: what the builder's
//! calls ask is kept here, or ends the test.
ghost use Rattle.std.specs.Prelude.{◌≡◌, ℕ, true};
ghost use Rattle.fr_shape.specs.Fits.{fits};
ghost use Rattle.fr_shape.specs.Released.{Room};
ghost use Rattle.fr_shape.specs.View.{view};
ghost use Rattle.fr_partial.specs.Builder.{holds};

use super::grounds::Ground;
use fr_doc::json_of;
use fr_own_hooks::OwnHooks;
use fr_partial::{Built, Partial, ReflectError};
use fr_path::Path;
use fr_shape::{Ledger, ReflectErrorKind, ShapeId, Shaped, Value, fits};
use std::alloc::Global;
use std::process::Abort;

/// A builder, and a ledger with room for what it holds.
pub struct Bench<'t> {
    pub partial: Partial<'t, OwnHooks>,
    pub ledger: Ledger,
    ghost room: { Room (holds partial) ledger },
}

/// Why a call was refused, and the ledger after that.
#[derive(Drop)]
pub struct Refused {
    pub error: ReflectError,
    pub ledger: Ledger,
}

pub type Answer<'t> = Result<Bench<'t>, Refused>;

/// What a call of a bench's builder comes to, beside its ledger: `answer_to!(bench, end())`.
macro_rules! answer_to {
    ($bench:expr, $call:ident($($given:expr),*)) => {{
        let Bench {
            partial,
            mut ledger,
        } = $bench;
        match partial.$call($($given,)* &mut ledger) {
            Ok(partial) => Ok(Bench { partial, ledger }),
            Err(error) => Err(Refused { error, ledger }),
        }
    }};
}

pub(super) use answer_to;

/// The builder after a call that isn't refused.
pub fn done<'t>(rt: &impl Abort, answer: Answer<'t>) -> Bench<'t> {
    match answer {
        Ok(bench) => bench,
        Err(_) => panic!(rt; "refused"),
    }
}

/// Why a call was refused.
pub fn refusal(rt: &impl Abort, answer: Answer<'_>) -> Refused {
    match answer {
        Ok(_) => panic!(rt; "not refused"),
        Err(refused) => refused,
    }
}

/// A ledger of so many tokens.
pub fn ledger(rt: &impl Abort, alloc: Global, tokens: u32) -> Ledger {
    match Ledger::new(alloc, tokens) {
        Ok(ledger) => ledger,
        Err(_) => panic!(rt; "no memory"),
    }
}

/// A builder of this shape, at which nothing was put yet.
pub fn fresh<'t>(
    rt: &impl Abort,
    alloc: Global,
    ground: &'t Ground,
    root: u32,
) -> Partial<'t, OwnHooks>
    ensures { (t : ℕ) → holds result t ≡ 0 }
{
    assert!(rt; (root as usize) < ground.table.len());
    match Partial::alloc_shape(alloc, &ground.table, ShapeId(root), &ground.hooks) {
        Ok(partial) => partial,
        Err(_) => panic!(rt; "not begun"),
    }
}

/// Such a builder, beside a ledger of one token.
pub fn start<'t>(rt: &impl Abort, alloc: Global, ground: &'t Ground, root: u32) -> Bench<'t> {
    with_ledger(rt, alloc, fresh(rt, alloc, ground, root))
}

/// A builder that holds nothing, beside a ledger of one token.
pub fn with_ledger<'t>(rt: &impl Abort, alloc: Global, partial: Partial<'t, OwnHooks>) -> Bench<'t>
    requires { (t : ℕ) → holds partial t ≡ 0 }
{
    let ledger = ledger(rt, alloc, 1);
    Bench { partial, ledger }
}

/// A builder that holds nothing is given the ledger's only token.
pub fn with_token<'t>(
    rt: &impl Abort,
    partial: Partial<'t, OwnHooks>,
    mut ledger: Ledger,
) -> Bench<'t>
    requires { (t : ℕ) → holds partial t ≡ 0 }
{
    assert!(rt; ledger.len() == 1);
    assert!(rt; ledger.count(0) == 0);
    let token = shaped(rt, &partial, 1, Value::Token(0));
    match partial.set_shape(token, &mut ledger) {
        Ok(partial) => Bench { partial, ledger },
        Err(_) => panic!(rt; "not put"),
    }
}

/// A builder of a struct that holds the token in this field, and works there.
pub fn holding<'t>(
    rt: &(impl Abort + AllocGlobal),
    ground: &'t Ground,
    root: u32,
    name: &str,
) -> Bench<'t> {
    let mut ledger = ledger(rt, rt.alloc(), 1);
    let partial = fresh(rt, rt.alloc(), ground, root);
    match partial.begin_field(name, &mut ledger) {
        Ok(partial) => with_token(rt, partial, ledger),
        Err(_) => panic!(rt; "not entered"),
    }
}

/// A value of this shape, which the test sees to.
pub fn shaped(rt: &impl Abort, partial: &Partial<'_, OwnHooks>, id: u32, value: Value) -> Shaped
    ensures fits { fits partial.now.shapes result.shape result.value ≡ true }
    ensures value { result.value ≡ view value }
{
    let table = partial.table();
    assert!(rt; fits(table, ShapeId(id), &value));
    Shaped::new(table, ShapeId(id), value)
}

/// Ends the test where a token of these was not released so often, or there are others.
pub fn check_counts(rt: &impl Abort, ledger: &Ledger, want: &[u32]) {
    assert!(rt; ledger.len() as usize == want.len());
    let mut token = 0u32;
    for count in want {
        assert!(rt; token < ledger.len() && ledger.count(token) == *count);
        token = token.saturating_add(1);
    }
}

/// Ends the test where a value is printed otherwise.
pub fn check_value(rt: &impl Abort, alloc: Global, value: &Value, want: &str) {
    let Ok(json) = json_of(alloc, value) else {
        panic!(rt; "no memory");
    };
    let Ok(text) = json.to_string(alloc) else {
        panic!(rt; "no memory");
    };
    assert!(rt; text.as_str() == want, "{text}");
}

/// Ends the test where a path, seen from this shape, is printed otherwise.
pub fn check_path(
    rt: &impl Abort,
    alloc: Global,
    path: &Path,
    ground: &Ground,
    root: u32,
    want: &str,
) {
    match path.format_with_shape(alloc, &ground.table, ShapeId(root)) {
        Ok(text) => assert!(rt; text.as_str() == want),
        Err(_) => panic!(rt; "no memory"),
    }
}

/// What is built, or why nothing is, and the ledger after that.
pub fn finished(bench: Bench<'_>) -> Result<(Built, Ledger), Refused> {
    let Bench {
        partial,
        mut ledger,
    } = bench;
    match partial.build(&mut ledger) {
        Ok(built) => Ok((built, ledger)),
        Err(error) => Err(Refused { error, ledger }),
    }
}

/// What is built, with no token released.
pub fn built(rt: &impl Abort, bench: Bench<'_>) -> Built {
    match finished(bench) {
        Ok((built, ledger)) => {
            check_counts(rt, &ledger, &[0]);
            built
        }
        Err(_) => panic!(rt; "not built"),
    }
}

/// Gives up a builder that holds no token.
pub fn give_up(rt: &impl Abort, bench: Bench<'_>) {
    let Bench {
        partial,
        mut ledger,
    } = bench;
    partial.abandon(&mut ledger);
    check_counts(rt, &ledger, &[0]);
}
