//! Which scripts may be run.
ghost use Rattle.std.specs.Prelude.{◌≡◌, ◌^◌, ◌<◌, ℕ, [], IfOk, OnOk, length};
ghost use Rattle.fr_model.specs.Commands.{calls_of};
ghost use Rattle.fr_model.specs.Scripts.{IsValid};
ghost use Rattle.fr_script.specs.FirstInvalid.{IsFirstInvalid};
ghost use Rattle.fr_script.specs.Marks.{AreMarks, first_unmarked};

use crate::marking::mark_command;
use fr_model::Script;
use fr_shape::{Ledger, OutOfMemory, ShapeTable};
use std::alloc::Global;
use thiserror::Error;

/// Why a script can't be run. `Invalid` tells the first command that isn't valid, counted from 0.
#[derive(Debug, Drop, Error)]
pub enum ScriptFault {
    #[error("command {0} is not valid")]
    Invalid(u32),
    #[error("out of memory")]
    OutOfMemory,
}

/// Tests that the value of each command fits its shape, and that each token in it is one of the
/// ledger's, was never released and comes once. Takes time linear in the ledger and the script, but
/// for the tests that no two items of a set and no two keys of a map are the same.
pub fn is_valid_script(
    alloc: Global,
    table: &ShapeTable,
    script: &Script,
    ledger: &Ledger,
) -> Result<(), ScriptFault>
    requires few { length script.now < 2 ^ 32 }
    ensures valid { OnOk result (IsValid table.now (calls_of script.now) ledger.now) }
    ensures invalid { (n : ℕ) → result ≡ Err (ScriptFault.Invalid n)
        → IsFirstInvalid table.now (calls_of script.now) ledger.now n }
{
    let mut marks = match marks_of(alloc, ledger) {
        Ok(marks) => marks,
        Err(_) => return Err(ScriptFault::OutOfMemory),
    };
    match find_invalid(table, script, marks.as_mut_slice()) {
        None => Ok(()),
        Some(i) => Err(ScriptFault::Invalid(i)),
    }
}

/// The first command that isn't valid where the marked tokens may not be brought. Marks what the
/// others bring.
pub fn find_invalid(table: &ShapeTable, script: &Script, marks: &mut [bool]) -> Option<u32>
    requires few { length script.now < 2 ^ 32 }
    ensures { result ≡ first_unmarked table.now marks.old 0 (calls_of script.now) }
{
    for (i, command) in script.as_slice().iter().enumerate() {
        if !mark_command(table, command, marks) {
            return Some(i as u32);
        }
    }
    None
}

/// Marks for the tokens of a ledger. Those that were released are marked.
fn marks_of(alloc: Global, ledger: &Ledger) -> Result<Vec<bool>, OutOfMemory>
    ensures { IfOk result (λ marks. AreMarks ledger.now [] marks.items) }
{
    let mut marks = Vec::new(alloc);
    for token in 0..ledger.len() {
        marks.push(ledger.count(token) != 0)?;
    }
    Ok(marks)
}
