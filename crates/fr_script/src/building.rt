//! A whole script through a builder.
ghost use Rattle.std.specs.Option.{option_copied};
ghost use Rattle.std.specs.Prelude.{◌≡◌, ◌+◌, ◌<◌, ◌^◌, true, length, IfOk};
ghost use Rattle.fr_shape.specs.Checked.{IsChecked};
ghost use Rattle.fr_shape.specs.Fits.{fits};
ghost use Rattle.fr_shape.specs.Look.{IsIn};
ghost use Rattle.fr_shape.specs.Numbered.{IsNumbered};
ghost use Rattle.fr_shape.specs.Plannable.{IsPlain};
ghost use Rattle.fr_shape.specs.Released.{Room, RoseBy};
ghost use Rattle.fr_model.specs.Commands.{Call, call_of, calls_of, IsFieldScript};
ghost use Rattle.fr_model.specs.Journal.{journal_run};
ghost use Rattle.fr_model.specs.Run.{full_run};
ghost use Rattle.fr_model.specs.Scripts.{IsFitting, IsValid, brings, brought};
ghost use Rattle.fr_model.specs.Settled.{IsSettled};
ghost use Rattle.fr_partial.specs.Builder.{holds, IsCall};
ghost use Rattle.fr_script.specs.Outcomes.{IsRun, IsJournals, answered, kind_without_plan};

use fr_model::{Command, Script, law_agree};
use fr_partial::{Built, Partial, ReflectError};
use fr_path::Path;
use fr_shape::{
    Hooks, Ledger, PlanError, ReflectErrorKind, ShapeId, ShapeTable, Shaped, Text, release,
};
use std::alloc::Global;
use std::collections::VecDeque;

/// The command that was refused, counted from 0, or the script's length where `build` was refused;
/// why; and the path of the place at which the builder worked before. A root without a plan is
/// refused before the first command.
#[derive(Drop)]
pub struct ScriptError {
    pub number: u32,
    pub kind: ReflectErrorKind,
    pub path: Path,
}

/// Runs the commands of a script on a new builder, one call a command, and builds. An error has
/// released every token of the script, those of commands that were not run among them.
pub fn build_script<H: Hooks>(
    alloc: Global,
    table: &ShapeTable,
    root: ShapeId,
    hooks: &H,
    script: Script,
    ledger: &mut Ledger,
) -> Result<Built, ScriptError>
    requires root { IsIn table.now root.0 }
    requires numbered { IsNumbered table.now }
    requires checked { IsChecked table.now }
    requires valid { IsValid table.now (calls_of script) ledger.old }
    requires few { length script < 2 ^ 32 }
    ensures run { IsRun (full_run (H.means hooks.now) table.now root.0 (calls_of script)) result }
    ensures journal { IsPlain table.now root.0 → IsFieldScript (calls_of script)
        → IsJournals (journal_run table.now root.0 (calls_of script)) result }
    ensures calls { IfOk result (λ built. built.calls ≡ length script) }
    ensures fits { IfOk result (λ built. fits table.now root.0 built.value ≡ true) }
    ensures settled { IsSettled (brought (calls_of script)) ledger.old
        (answered result) ledger.new }
{
    law_agree();
    let mut commands = VecDeque::from(script.into_vec());
    let mut partial = match Partial::alloc_shape(alloc, table, root, hooks) {
        Ok(first) => first,
        Err(refused) => {
            release_commands(commands, ledger);
            return Err(ScriptError {
                number: 0,
                kind: kind_without_plan(refused),
                path: Path::new(alloc),
            });
        }
    };
    let mut number = 0u32;
    while let Some(command) = commands.pop_front() {
        match call(partial, table, command, ledger) {
            Ok(next) => {
                partial = next;
                number += 1;
            }
            Err(ReflectError { kind, path }) => {
                release_commands(commands, ledger);
                return Err(ScriptError { number, kind, path });
            }
        }
    }
    match partial.build(ledger) {
        Ok(built) => Ok(built),
        Err(ReflectError { kind, path }) => Err(ScriptError { number, kind, path }),
    }
}

/// The refusal of a script whose root has no plan.
fn kind_without_plan(refused: PlanError) -> ReflectErrorKind
    ensures { result ≡ kind_without_plan refused }
{
    match refused {
        PlanError::Alloc(error) => ReflectErrorKind::Alloc(error),
        PlanError::OutOfMemory => ReflectErrorKind::OutOfMemory,
    }
}

/// Makes the call that a command stands for.
#[inline(always)]
fn call<'t, H: Hooks>(
    partial: Partial<'t, H>,
    table: &'t ShapeTable,
    command: Command,
    ledger: &mut Ledger,
) -> Result<Partial<'t, H>, ReflectError>
    requires same { partial.shapes ≡ table.now }
    requires fitting { IsFitting table.now (call_of command) }
    requires room { Room (λ t. holds partial t + brings (call_of command) t) ledger.old }
    ensures call { IsCall (H.means partial.entry.hooks) partial.entry (call_of command) result
        ledger.old ledger.new }
{
    match command {
        Command::BeginField(name) => partial.begin_field(name.as_str(), ledger),
        Command::BeginNthField(i) => partial.begin_nth_field(i as usize, ledger),
        Command::SetNthFieldToDefault(i) => partial.set_nth_field_to_default(i as usize, ledger),
        Command::Set(shape, value) => partial.set_shape(Shaped::new(table, shape, value), ledger),
        Command::SetDefault => partial.set_default(ledger),
        Command::ParseFromStr(text) => partial.parse_from_str(text.as_str(), ledger),
        Command::ParseFromBytes(bytes) => partial.parse_from_bytes(bytes.as_slice(), ledger),
        Command::SetEmptySharedSlice => partial.set_empty_shared_slice(ledger),
        Command::InitList => partial.init_list(ledger),
        Command::InitListWithCapacity(n) => partial.init_list_with_capacity(n as usize, ledger),
        Command::InitArray => partial.init_array(ledger),
        Command::BeginListItem => partial.begin_list_item(ledger),
        Command::InitMap => partial.init_map(ledger),
        Command::BeginKey => partial.begin_key(ledger),
        Command::BeginValue => partial.begin_value(ledger),
        Command::InitSet => partial.init_set(ledger),
        Command::BeginSetItem => partial.begin_set_item(ledger),
        Command::BeginObjectEntry(key) => partial.begin_object_entry(key.as_str(), ledger),
        Command::BeginSome => partial.begin_some(ledger),
        Command::BeginOk => partial.begin_ok(ledger),
        Command::BeginErr => partial.begin_err(ledger),
        Command::BeginSmartPtr => partial.begin_smart_ptr(ledger),
        Command::BeginInner => partial.begin_inner(ledger),
        Command::BeginCustomDeserialization => partial.begin_custom_deserialization(ledger),
        Command::BeginCustomDeserializationWithFormat(format) => {
            partial.begin_custom_deserialization_with_format(text_of(&format), ledger)
        }
        Command::BeginCustomDeserializationFromShape => begin_by_shape(partial, ledger),
        Command::BeginCustomDeserializationFromShapeWithFormat(format) => {
            begin_by_shape_in(partial, format, ledger)
        }
        Command::SelectNthVariant(i) => partial.select_nth_variant(i as usize, ledger),
        Command::SelectVariantNamed(name) => partial.select_variant_named(name.as_str(), ledger),
        Command::SelectVariant(discriminant) => partial.select_variant(discriminant, ledger),
        Command::End => partial.end(ledger),
        Command::BeginDeferred => partial.begin_deferred(ledger),
        Command::FinishDeferred => partial.finish_deferred(ledger),
    }
}

/// The text of a format, if there is one.
fn text_of(format: &Option<Text>) -> Option<&str>
    ensures { option_copied result ≡ format.now }
{
    match format {
        Some(text) => Some(text.as_str()),
        None => None,
    }
}

/// Begins a conversion through the shape's proxy, where it has one. A script doesn't ask whether.
fn begin_by_shape<'t, H: Hooks>(
    partial: Partial<'t, H>,
    ledger: &mut Ledger,
) -> Result<Partial<'t, H>, ReflectError>
    requires room { Room (holds partial) ledger.old }
    ensures call { IsCall (H.means partial.entry.hooks) partial.entry
        Call.BeginCustomDeserializationFromShape result ledger.old ledger.new }
{
    match partial.begin_custom_deserialization_from_shape(ledger) {
        Ok((next, _)) => Ok(next),
        Err(error) => Err(error),
    }
}

/// The same for a format, or for none.
fn begin_by_shape_in<'t, H: Hooks>(
    partial: Partial<'t, H>,
    format: Option<Text>,
    ledger: &mut Ledger,
) -> Result<Partial<'t, H>, ReflectError>
    requires room { Room (holds partial) ledger.old }
    ensures call { IsCall (H.means partial.entry.hooks) partial.entry
        (Call.BeginCustomDeserializationFromShapeWithFormat format) result ledger.old ledger.new }
{
    let format = text_of(&format);
    match partial.begin_custom_deserialization_from_shape_with_format(format, ledger) {
        Ok((next, _)) => Ok(next),
        Err(error) => Err(error),
    }
}

/// Releases the tokens of commands that aren't run.
fn release_commands(mut commands: VecDeque<Command>, ledger: &mut Ledger)
    requires { Room (brought (calls_of commands.items)) ledger.old }
    ensures { RoseBy (brought (calls_of commands.items)) ledger.old ledger.new }
{
    while let Some(command) = commands.pop_front() {
        release_command(command, ledger);
    }
}

/// Releases the tokens of a command that isn't run.
fn release_command(command: Command, ledger: &mut Ledger)
    requires { Room (brings (call_of command)) ledger.old }
    ensures { RoseBy (brings (call_of command)) ledger.old ledger.new }
{
    match command {
        Command::Set(_, value) => release(value, ledger),
        _ => {}
    }
}
