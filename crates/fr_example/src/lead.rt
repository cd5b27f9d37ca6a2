//! A struct of one's own that typed calls fill, and that is read back.
ghost use Rattle.std.specs.Prelude.{◌≡◌, ◌∷◌, [], string_bytes, IfErr, IfOk, IsNone, IsOkUnless, IsSome};
ghost use Rattle.std.specs.Option.{option_map};
ghost use Rattle.fr_example.specs.Unbuilt.{MissesHost};

use crate::{Server, server_table};
use fr_partial::{FacetFault, Partial, ReflectError, materialize};
use fr_shape::{Ledger, NoHooks, OutOfMemory, PlanError, ReflectErrorKind};
use std::alloc::Global;

/// Why there is no server.
#[derive(Drop)]
pub enum Unbuilt {
    /// No memory was left.
    OutOfMemory,
    /// The builder refused a call.
    Refused(ReflectError),
    /// The type doesn't suit its table: it has no plan there, or what was built isn't of it. It
    /// never comes: it is what `?` makes of these errors.
    Unsuited,
}

/// The server of this host, if one is given, that listens at these two ports. Fields are filled in
/// any order: the struct has its host first, and here the ports come first.
pub fn build_server(
    alloc: Global,
    host: Option<String>,
    ports: (u16, u16),
    ledger: &mut Ledger,
) -> Result<Server, Unbuilt>
    ensures host { IfOk result (λ server.
        option_map string_bytes host ≡ Some (string_bytes server.host)) }
    ensures ports { IfOk result (λ server. server.ports.items ≡ ports.0 ∷ ports.1 ∷ []) }
    ensures memory { IsSome host → IsOkUnless result Unbuilt.OutOfMemory }
    ensures missing { IsNone host → IfErr result MissesHost }
    ensures released { ledger.new ≡ ledger.old }
{
    let table = server_table(alloc)?;
    let mut partial = Partial::alloc::<Server>(alloc, &table, &NoHooks)?;
    partial = partial.begin_field("ports", ledger)?.init_list(ledger)?;
    partial = partial.push(ports.0, ledger)?.push(ports.1, ledger)?;
    partial = partial.end(ledger)?;
    if let Some(host) = host {
        partial = partial.set_field("host", host, ledger)?;
    }
    let built = partial.build(ledger)?;
    Ok(materialize(alloc, built.into_value(), ledger)?)
}

impl From<OutOfMemory> for Unbuilt {
    ghost use Rattle.fr_example.specs.declared.lead.Unbuilt.{Unbuilt};

    ghost from_gives = { λ _ error. error ≡ Unbuilt.OutOfMemory };

    fn from(_none: OutOfMemory) -> Unbuilt {
        Unbuilt::OutOfMemory
    }
}

impl From<PlanError> for Unbuilt {
    ghost use Rattle.fr_example.specs.Unbuilt.{without_plan};

    ghost from_gives = { λ refused error. error ≡ without_plan refused };

    fn from(refused: PlanError) -> Unbuilt {
        match refused {
            PlanError::Alloc(_) => Unbuilt::Unsuited,
            PlanError::OutOfMemory => Unbuilt::OutOfMemory,
        }
    }
}

impl From<ReflectError> for Unbuilt {
    ghost use Rattle.fr_example.specs.Unbuilt.{refused};

    ghost from_gives = { λ error unbuilt. unbuilt ≡ refused error };

    fn from(error: ReflectError) -> Unbuilt {
        match error.kind {
            ReflectErrorKind::OutOfMemory => Unbuilt::OutOfMemory,
            _ => Unbuilt::Refused(error),
        }
    }
}

impl From<FacetFault> for Unbuilt {
    ghost use Rattle.fr_example.specs.Unbuilt.{not_read};

    ghost from_gives = { λ fault error. error ≡ not_read fault };

    fn from(fault: FacetFault) -> Unbuilt {
        match fault {
            FacetFault::Mismatch => Unbuilt::Unsuited,
            FacetFault::OutOfMemory => Unbuilt::OutOfMemory,
        }
    }
}
