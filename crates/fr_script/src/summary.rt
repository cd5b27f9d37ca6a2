//! The run of a generated script, and its summary.
ghost use Rattle.std.specs.Prelude.{◌≡◌, ◌≤◌, min, string_bytes, IfOk};
ghost use Rattle.fr_script.specs.Summaries.{summary_data, summary_of, sum_of_grid, sum_of_cell, natural_in};
ghost use Rattle.fr_shape.specs.View.{view};
ghost use Rattle.serde_json.specs.View.{view as data_of};

use crate::building::build_script;
use crate::generating::{CELLS, STEP_LIMIT, generated_script, grid_table};
use crate::released::released_tokens;
use crate::report::line_of;
use crate::serving::is_want_of_memory;
use fr_doc::DocHooks;
use fr_shape::{Ledger, OutOfMemory, ShapeId, Value};
use serde_json::{Value as Json, json};
use std::alloc::{AllocError, Global};

/// The number of a grid's shape in its table.
const GRID: ShapeId = ShapeId(3);

/// The summary of the script of so many steps, which is run on a new ledger. There is always one,
/// but where it is out of memory.
pub(crate) fn summary_of(alloc: Global, count: u32) -> Result<String, OutOfMemory>
    requires { count ≤ STEP_LIMIT }
    ensures { IfOk result (λ text. string_bytes text ≡ summary_of count) }
{
    let table = grid_table(alloc)?;
    let script = generated_script(alloc, count)?;
    let commands = script.len();
    let mut ledger = Ledger::new(alloc, count + CELLS)?;
    match build_script(alloc, &table, GRID, &DocHooks, script, &mut ledger) {
        Ok(built) => {
            let released = released_tokens(alloc, &ledger)?;
            let json = json_of_summary(
                alloc,
                commands as u64,
                released.len() as u64,
                sum_of_grid(built.value()),
            )?;
            Ok(line_of(alloc, &json)?)
        }
        Err(error) if is_want_of_memory(&error.kind) => Err(OutOfMemory),
        Err(_) => unreachable!(),
    }
}

/// The JSON of a summary.
fn json_of_summary(
    alloc: Global,
    commands: u64,
    released: u64,
    sum: u64,
) -> Result<Json, AllocError>
    ensures { IfOk result (λ json. data_of json ≡ summary_data commands released sum) }
{
    json!(in alloc; { "commands": commands, "ok": true, "released": released, "sum": sum })
}

/// The sum of all x and y of a grid. One beyond 64 bits is told as the largest number that has 64.
fn sum_of_grid(grid: &Value) -> u64
    ensures { result ≡ min (sum_of_grid (view grid.now)) u64.MAX }
{
    let Value::Product(cells) = grid else {
        return 0;
    };
    let mut sum = 0u64;
    for cell in cells.as_slice() {
        sum = sum.saturating_add(sum_of_cell(cell));
    }
    sum
}

/// The same of a cell.
fn sum_of_cell(cell: &Value) -> u64
    ensures { result ≡ min (sum_of_cell (view cell.now)) u64.MAX }
{
    let Value::Product(parts) = cell else {
        return 0;
    };
    let mut sum = 0u64;
    for part in parts.as_slice() {
        sum = sum.saturating_add(natural_in(part));
    }
    sum
}

/// The number that a value is, and 0 for any other.
fn natural_in(value: &Value) -> u64
    ensures { result ≡ min (natural_in (view value.now)) u64.MAX }
{
    match value {
        Value::Nat(n) => u64::try_from(*n).unwrap_or(u64::MAX),
        _ => 0,
    }
}
