//! Making a move, whichever it is, where a builder's parts are.
ghost use Rattle.std.specs.Prelude.{◌+◌, ◌≡◌, ◌≢◌};
ghost use Rattle.fr_moves.specs.Common.{Conserved, IfErr, IsErr, IsMade, IsMeant, IsSound, OnErr, OnOk, Room, carried, cursor_tree, false, held_in, meant_by, site, true};
ghost use Rattle.fr_shape.specs.declared.error.ReflectErrorKind.{ReflectErrorKind as Kind};
ghost use Rattle.fr_moves.specs.CompletedPlaces.{PassesValidators};
ghost use Rattle.fr_moves.specs.Moving.{is_late, needs_message_alone, needs_none};

use crate::converting::convert_up;
use crate::deferring::{defer, finish};
use crate::ending::{complete, leave};
use crate::going::go;
use crate::moves::Move;
use crate::parts::Parts;
use crate::staying::stay;
use fr_shape::{Hooks, Ledger, OutOfMemory, ReflectErrorKind};

/// Makes a move that some call comes to. Where it is refused, or there is no memory, what isn't
/// released is still there, and so is the path.
#[inline(always)]
pub fn make<H: Hooks>(
    parts: &mut Parts,
    hooks: &H,
    decided: Move,
    ledger: &mut Ledger,
) -> Result<(), ReflectErrorKind>
    requires sound { IsSound parts.old }
    requires meant { IsMeant (site parts.old) decided }
    requires room { Room (λ t. held_in parts.old.frames t + carried decided t) ledger.old }
    ensures sound { OnOk result (IsSound parts.new) }
    ensures moved { IsMade parts.old parts.new
        (meant_by (H.means hooks.now) (site parts.old) decided.entry) result }
    ensures path { OnErr result (parts.new.path ≡ parts.old.path) }
    ensures tokens { Conserved (λ t. held_in parts.old.frames t + carried decided.entry t)
        ledger.old (held_in parts.new.frames) ledger.new }
    ensures refused { is_late decided.entry ≡ false
        → IsErr (meant_by (H.means hooks.now) (site parts.old) decided.entry)
        → PassesValidators (meant_by (H.means hooks.now) (site parts.old) decided.entry)
        → IfErr result (λ kind. kind ≢ Kind.OutOfMemory) }
    ensures memory { needs_none decided.entry (cursor_tree (site parts.old).state) ≡ true
        → IfErr result (λ kind. kind ≢ Kind.OutOfMemory) }
    ensures message { needs_message_alone decided.entry (cursor_tree (site parts.old).state) ≡ true
        → PassesValidators (meant_by (H.means hooks.now) (site parts.old) decided.entry)
        → IfErr result (λ kind. kind ≢ Kind.OutOfMemory) }
{
    match decided {
        Move::Go(way) => go(parts, way, ledger),
        Move::Stay(change) => stay(parts, change, ledger),
        Move::Leave => leave(parts),
        Move::Complete(rules, taker) => complete(parts, hooks, rules, taker, ledger),
        Move::Convert => convert_up(parts, hooks, ledger),
        Move::Defer => defer(parts),
        Move::Finish => finish(parts, hooks, ledger),
    }
}
