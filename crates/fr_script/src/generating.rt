//! The script that the word `gen` runs: many small changes of one grid, drawn by a generator.
ghost use Rattle.std.specs.Prelude.{◌≡◌, ◌∷◌, ◌++◌, ◌≤◌, IfOk, OnOk};
ghost use Rattle.fr_model.specs.Commands.{call_of, calls_of};
ghost use Rattle.fr_script.specs.Generator.{grid_table, number_shape, token_shape, cell_shape, grid_shape, number_field, cell_field, next_state, cell_in, field_in, put_in, change, steps, generated};

use fr_model::{Command, Script};
use fr_shape::{
    Def, DefaultSource, Field, Items, OutOfMemory, ScalarKind, Shape, ShapeId, ShapeTable,
    StructDef, StructKind, Template, Text, Value,
};
use std::alloc::Global;

/// How many cells a grid has.
pub(crate) const CELLS: u32 = 8;
/// The number of a cell's field for a token.
const TOKEN_FIELD: u32 = 2;

const MULTIPLIER: u64 = 6364136223846793005;

const INCREMENT: u64 = 1442695040888963407;

/// The most steps that a generated script has.
pub const STEP_LIMIT: u32 = 50_000;

/// The table of a grid of eight cells, each of two numbers and a token.
pub fn grid_table(alloc: Global) -> Result<ShapeTable, OutOfMemory>
    ensures { IfOk result (λ table. table ≡ grid_table) }
{
    let mut shapes = Items::new(alloc);
    shapes.push(number_shape(alloc)?)?;
    shapes.push(Shape::new(alloc, Text::new(alloc, "Res")?, Def::Opaque))?;
    shapes.push(cell_shape(alloc)?)?;
    shapes.push(grid_shape(alloc)?)?;
    Ok(ShapeTable::new(alloc, shapes))
}

/// Numbers, of which the default is 0.
fn number_shape(alloc: Global) -> Result<Shape, OutOfMemory>
    ensures { IfOk result (λ shape. shape ≡ number_shape) }
{
    let name = Text::new(alloc, "u32")?;
    let mut shape = Shape::new(alloc, name, Def::Scalar(ScalarKind::U32));
    shape.preset = Some(Template::new(Value::Nat(0)));
    Ok(shape)
}

/// A cell: the numbers x and y, and the token r.
fn cell_shape(alloc: Global) -> Result<Shape, OutOfMemory>
    ensures { IfOk result (λ shape. shape ≡ cell_shape) }
{
    let mut fields = Items::new(alloc);
    fields.push(number_field(alloc, "x")?)?;
    fields.push(number_field(alloc, "y")?)?;
    fields.push(Field::new(alloc, Text::new(alloc, "r")?, ShapeId(1)))?;
    let name = Text::new(alloc, "Cell")?;
    Ok(Shape::new(alloc, name, struct_of(fields)))
}

/// A field for a number, which is 0 where it is left unset.
fn number_field(alloc: Global, name: &str) -> Result<Field, OutOfMemory>
    ensures { IfOk result (λ field. field ≡ number_field name.now) }
{
    let mut field = Field::new(alloc, Text::new(alloc, name)?, ShapeId(0));
    field.default = Some(DefaultSource::FromTrait);
    Ok(field)
}

/// A grid: the cells c0 to c7.
fn grid_shape(alloc: Global) -> Result<Shape, OutOfMemory>
    ensures { IfOk result (λ shape. shape ≡ grid_shape) }
{
    let mut fields = Items::new(alloc);
    fields.push(cell_field(alloc, "c0")?)?;
    fields.push(cell_field(alloc, "c1")?)?;
    fields.push(cell_field(alloc, "c2")?)?;
    fields.push(cell_field(alloc, "c3")?)?;
    fields.push(cell_field(alloc, "c4")?)?;
    fields.push(cell_field(alloc, "c5")?)?;
    fields.push(cell_field(alloc, "c6")?)?;
    fields.push(cell_field(alloc, "c7")?)?;
    let name = Text::new(alloc, "Grid")?;
    Ok(Shape::new(alloc, name, struct_of(fields)))
}

fn cell_field(alloc: Global, name: &str) -> Result<Field, OutOfMemory>
    ensures { IfOk result (λ field. field ≡ cell_field name.now) }
{
    Ok(Field::new(alloc, Text::new(alloc, name)?, ShapeId(2)))
}

#[inline(always)]
fn struct_of(fields: Items<Field>) -> Def
    ensures { result ≡ Def.Struct (record { kind = StructKind.Struct; fields = fields }) }
{
    Def::Struct(StructDef {
        kind: StructKind::Struct,
        fields,
    })
}

/// The generator's next state.
fn next_state(state: u64) -> u64
    ensures { result ≡ next_state state }
{
    state.wrapping_mul(MULTIPLIER).wrapping_add(INCREMENT)
}

/// The cell that a step with this state changes.
fn cell_in(state: u64) -> u32
    ensures { result ≡ cell_in state }
{
    ((state >> 33) % 8) as u32
}

/// The field of the cell.
fn field_in(state: u64) -> u32
    ensures { result ≡ field_in state }
{
    ((state >> 36) % 3) as u32
}

/// What a step sets a field to: a number's to the number of the step, a token's to the token before
/// it.
fn put_in(field: u32, step: u32) -> Command
    requires { 1 ≤ step }
    ensures { call_of result ≡ put_in field step }
{
    if field == TOKEN_FIELD {
        Command::Set(ShapeId(1), Value::Token(step - 1))
    } else {
        Command::Set(ShapeId(0), Value::Nat(u128::from(step)))
    }
}

/// Enters a field of a cell, sets it, and leaves it and the cell.
fn push_change(script: &mut Script, cell: u32, field: u32, put: Command) -> Result<(), OutOfMemory>
    ensures { OnOk result (calls_of script.new
        ≡ calls_of script.old ++ change cell field (call_of put)) }
{
    script.push(Command::BeginNthField(cell))?;
    script.push(Command::BeginNthField(field))?;
    script.push(put)?;
    script.push(Command::End)?;
    script.push(Command::End)?;
    Ok(())
}

/// The script of so many steps.
pub fn generated_script(alloc: Global, count: u32) -> Result<Script, OutOfMemory>
    requires { count ≤ STEP_LIMIT }
    ensures { IfOk result (λ script. calls_of script ≡ generated count) }
{
    let mut script = Items::new(alloc);
    script.push(Command::BeginDeferred)?;
    push_steps(&mut script, count)?;
    for cell in 0..CELLS {
        let token = Value::Token(count + cell);
        push_change(
            &mut script,
            cell,
            TOKEN_FIELD,
            Command::Set(ShapeId(1), token),
        )?;
    }
    script.push(Command::FinishDeferred)?;
    Ok(script)
}

fn push_steps(script: &mut Script, count: u32) -> Result<(), OutOfMemory>
    requires { count ≤ STEP_LIMIT }
    ensures { OnOk result (calls_of script.new ≡ calls_of script.old ++ steps count) }
{
    let mut state = 0u64;
    for before in 0..count {
        state = next_state(state);
        let field = field_in(state);
        push_change(script, cell_in(state), field, put_in(field, before + 1))?;
    }
    Ok(())
}
