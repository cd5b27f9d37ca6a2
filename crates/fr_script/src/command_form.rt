//! Reading scripts.
ghost use Rattle.std.specs.Prelude.{◌≡◌, option_map, IfOk};
ghost use Rattle.serde_json.specs.Find.{as_str};
ghost use Rattle.serde_json.specs.View.{view as data_of};
ghost use Rattle.fr_model.specs.Commands.{call_of, calls_of};
ghost use Rattle.fr_script.specs.CommandForms.{call_of_none, call_of_number, call_of_one, call_of_two, call_form};
ghost use Rattle.fr_script.specs.Documents.{call_at, script_form};
ghost use Rattle.fr_script.specs.Reading.{GivesFor};

use fr_doc::{DocFault, DocPlace, ReadError, bytes_of, count_of, value_of};
use fr_model::{Command, Script};
use fr_shape::{Items, OutOfMemory, ShapeId, Text};
use serde_json::Value as Json;
use std::alloc::Global;

/// The commands of a script, or the fault of the first whose form is broken.
#[tactic(auto, unfolding(crate::specs::Documents::script_form))]
pub fn script_of(alloc: Global, json: &Json) -> Result<Script, ReadError>
    ensures { GivesFor calls_of (script_form (data_of json.now)) result }
{
    let Json::Array(items) = json else {
        return Err(ReadError::Fault(DocFault::BadForm(DocPlace::Commands)));
    };
    let mut script = Items::from_vec(Vec::with_capacity(alloc, items.len())?);
    for (i, item) in items.iter().enumerate() {
        if script.push(read_command_at(alloc, i, item)?).is_err() {
            return Err(ReadError::Memory);
        }
    }
    Ok(script)
}

/// The command of this number in the script's array.
fn read_command_at(alloc: Global, i: usize, json: &Json) -> Result<Command, ReadError>
    ensures { GivesFor call_of (call_at i (data_of json.now)) result }
{
    match command_of(alloc, json) {
        Ok(Some(command)) => Ok(command),
        Ok(None) => match u32::try_from(i) {
            Ok(i) => Err(ReadError::Fault(DocFault::BadForm(DocPlace::Command(i)))),
            Err(_) => Err(ReadError::Memory),
        },
        Err(_) => Err(ReadError::Memory),
    }
}

/// The command that JSON stands for, or None where its form is broken.
#[tactic(auto, unfolding(crate::specs::CommandForms::call_form))]
pub fn command_of(alloc: Global, json: &Json) -> Result<Option<Command>, OutOfMemory>
    ensures { IfOk result (λ found. option_map call_of found ≡ call_form (data_of json.now)) }
{
    let Json::Array(items) = json else {
        return Ok(None);
    };
    let Some((Json::String(word), arguments)) = items.as_slice().split_first() else {
        return Ok(None);
    };
    match arguments {
        [] => Ok(find_bare(word.as_str())),
        [a] => read_with_one(alloc, word.as_str(), a),
        [a, b] => read_with_two(alloc, word.as_str(), a, b),
        _ => Ok(None),
    }
}

/// A command without arguments.
#[tactic(auto, unfolding(crate::specs::CommandForms::call_of_none))]
fn find_bare(word: &str) -> Option<Command>
    ensures { option_map call_of result ≡ call_of_none word.now }
{
    match word {
        "end" => Some(Command::End),
        "begin_list_item" => Some(Command::BeginListItem),
        "begin_key" => Some(Command::BeginKey),
        "begin_value" => Some(Command::BeginValue),
        "begin_set_item" => Some(Command::BeginSetItem),
        "set_default" => Some(Command::SetDefault),
        "init_list" => Some(Command::InitList),
        "init_array" => Some(Command::InitArray),
        "init_map" => Some(Command::InitMap),
        "init_set" => Some(Command::InitSet),
        "set_empty_shared_slice" => Some(Command::SetEmptySharedSlice),
        "begin_some" => Some(Command::BeginSome),
        "begin_ok" => Some(Command::BeginOk),
        "begin_err" => Some(Command::BeginErr),
        "begin_smart_ptr" => Some(Command::BeginSmartPtr),
        "begin_inner" => Some(Command::BeginInner),
        "begin_custom_deserialization" => Some(Command::BeginCustomDeserialization),
        "begin_custom_deserialization_with_format" => {
            Some(Command::BeginCustomDeserializationWithFormat(None))
        }
        "begin_custom_deserialization_from_shape" => {
            Some(Command::BeginCustomDeserializationFromShape)
        }
        "begin_custom_deserialization_from_shape_with_format" => {
            Some(Command::BeginCustomDeserializationFromShapeWithFormat(None))
        }
        "begin_deferred" => Some(Command::BeginDeferred),
        "finish_deferred" => Some(Command::FinishDeferred),
        _ => None,
    }
}

/// A command with one argument, a number.
#[tactic(auto, unfolding(crate::specs::CommandForms::call_of_number))]
fn find_with_number(word: &str, a: &Json) -> Option<Command>
    ensures { option_map call_of result ≡ call_of_number word.now (data_of a.now) }
{
    match word {
        "begin_nth_field" => Some(Command::BeginNthField(count_of(a)?)),
        "set_nth_field_to_default" => Some(Command::SetNthFieldToDefault(count_of(a)?)),
        "init_list_with_capacity" => Some(Command::InitListWithCapacity(count_of(a)?)),
        "select_nth_variant" => Some(Command::SelectNthVariant(count_of(a)?)),
        "select_variant" => Some(Command::SelectVariant(a.as_i64()?)),
        _ => None,
    }
}

/// A command with one argument.
#[tactic(auto, unfolding(crate::specs::CommandForms::call_of_one))]
fn read_with_one(alloc: Global, word: &str, a: &Json) -> Result<Option<Command>, OutOfMemory>
    ensures { IfOk result (λ found. option_map call_of found
        ≡ call_of_one word.now (data_of a.now)) }
{
    match word {
        "begin_field" => match a.as_str() {
            Some(name) => Ok(Some(Command::BeginField(Text::new(alloc, name)?))),
            None => Ok(None),
        },
        "begin_object_entry" => match a.as_str() {
            Some(key) => Ok(Some(Command::BeginObjectEntry(Text::new(alloc, key)?))),
            None => Ok(None),
        },
        "select_variant_named" => match a.as_str() {
            Some(name) => Ok(Some(Command::SelectVariantNamed(Text::new(alloc, name)?))),
            None => Ok(None),
        },
        "parse_from_str" => match a.as_str() {
            Some(text) => Ok(Some(Command::ParseFromStr(Text::new(alloc, text)?))),
            None => Ok(None),
        },
        "parse_from_bytes" => match bytes_of(alloc, a)? {
            Some(bytes) => Ok(Some(Command::ParseFromBytes(bytes))),
            None => Ok(None),
        },
        "begin_custom_deserialization_with_format" => match read_format(alloc, a)? {
            None => Ok(None),
            format => Ok(Some(Command::BeginCustomDeserializationWithFormat(format))),
        },
        "begin_custom_deserialization_from_shape_with_format" => match read_format(alloc, a)? {
            None => Ok(None),
            format => Ok(Some(Command::BeginCustomDeserializationFromShapeWithFormat(format))),
        },
        _ => Ok(find_with_number(word, a)),
    }
}

/// The format of a proxy, a text.
fn read_format(alloc: Global, a: &Json) -> Result<Option<Text>, OutOfMemory>
    ensures { IfOk result (λ format. format ≡ as_str (data_of a.now)) }
{
    match a.as_str() {
        Some(format) => Ok(Some(Text::new(alloc, format)?)),
        None => Ok(None),
    }
}

/// A command with two arguments.
#[tactic(auto, unfolding(crate::specs::CommandForms::call_of_two))]
fn read_with_two(
    alloc: Global,
    word: &str,
    a: &Json,
    b: &Json,
) -> Result<Option<Command>, OutOfMemory>
    ensures { IfOk result (λ found. option_map call_of found
        ≡ call_of_two word.now (data_of a.now) (data_of b.now)) }
{
    match word {
        "set" => {
            let Some(shape) = count_of(a) else {
                return Ok(None);
            };
            let Some(value) = value_of(alloc, b)? else {
                return Ok(None);
            };
            Ok(Some(Command::Set(ShapeId(shape), value)))
        }
        _ => Ok(None),
    }
}
