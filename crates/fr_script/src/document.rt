//! Reading documents.
ghost use Rattle.std.specs.Prelude.{◌≡◌, ◌<◌, ◌^◌, length, option_map};
ghost use Rattle.std.specs.Option.{ok_or};
ghost use Rattle.serde_json.specs.View.{view as data_of};
ghost use Rattle.fr_shape.specs.Look.{Table};
ghost use Rattle.fr_doc.specs.Faults.{Gives};
ghost use Rattle.fr_doc.specs.declared.fault.DocFault.{DocFault};
ghost use Rattle.fr_script.specs.Documents.{document_form, document_of, root_form, rules_pass, script_passes, shapes_form, tokens_form, tree_of};
ghost use Rattle.fr_script.specs.Reading.{GivesFor, document_view};

use crate::command_form::script_of;
use crate::members::members_of;
use crate::sizes::test_sizes;
use crate::validity::find_invalid;
use fr_doc::{DOCUMENT_LIMIT, DocFault, DocPlace, ReadError, count_of, has_float, shape_of};
use fr_model::Script;
use fr_shape::{Items, Shape, ShapeId, ShapeTable};
use serde_json::{Category, Value as Json};
use std::alloc::Global;

/// A table of shapes, the shape of what is to be built, how many tokens there are, and the script.
#[derive(Drop)]
pub struct Document {
    pub table: ShapeTable,
    pub root: ShapeId,
    pub tokens: u32,
    pub script: Script,
}

/// The document that bytes are, or their first fault.
pub fn read_document(alloc: Global, bytes: &[u8]) -> Result<Document, ReadError>
    ensures document { GivesFor document_view (document_of bytes.now) result }
{
    let (document, _) = read_with_tree(alloc, bytes)?;
    Ok(document)
}

/// The same with the tree that it was read from, for whoever lets the tree go at the end of a run.
/// Before the run that costs more: what was freed in many small parts is joined as soon as a large
/// part is asked for.
#[tactic(auto, unfolding(crate::specs::Documents::document_of))]
pub(crate) fn read_with_tree(alloc: Global, bytes: &[u8]) -> Result<(Document, Json), ReadError>
    ensures document { GivesFor (λ read. document_view read.0) (document_of bytes.now) result }
{
    if bytes.len() > DOCUMENT_LIMIT {
        return Err(ReadError::Fault(DocFault::TooLong));
    }
    let json = read_tree(alloc, bytes)?;
    if has_float(&json) {
        return Err(ReadError::Fault(DocFault::HasFloat));
    }
    let document = read_form(alloc, &json)?;
    if let Err(fault) = test_sizes(&document) {
        return Err(ReadError::Fault(fault));
    }
    if let Err(fault) = test_rules(&document.table) {
        return Err(ReadError::Fault(fault));
    }
    test_script(alloc, &document)?;
    Ok((document, json))
}

/// The JSON that bytes are.
fn read_tree(alloc: Global, bytes: &[u8]) -> Result<Json, ReadError>
    ensures { GivesFor data_of (ok_or (tree_of bytes.now) DocFault.NotJson) result }
{
    match Json::from_slice(alloc, bytes) {
        Ok(json) => Ok(json),
        Err(e) => match e.classify() {
            Category::Memory => Err(ReadError::Memory),
            _ => Err(ReadError::Fault(DocFault::NotJson)),
        },
    }
}

/// Reads the members of a document one after another, up to the first place whose form is broken.
#[tactic(auto, unfolding(crate::specs::Documents::document_form))]
fn read_form(alloc: Global, json: &Json) -> Result<Document, ReadError>
    ensures { GivesFor document_view (document_form (data_of json.now)) result }
{
    let Some(members) = members_of(json) else {
        return Err(ReadError::Fault(DocFault::BadForm(DocPlace::Document)));
    };
    let shapes = read_shapes(alloc, members.shapes)?;
    let root = read_root(shapes.len(), members.root)?;
    let tokens = read_tokens(members.tokens)?;
    let script = script_of(alloc, members.commands)?;
    Ok(Document {
        table: ShapeTable::new(alloc, shapes),
        root: ShapeId(root),
        tokens,
        script,
    })
}

/// Reads the shapes one after another, up to the first whose form is broken.
#[tactic(auto, unfolding(crate::specs::Documents::shapes_form))]
fn read_shapes(alloc: Global, json: &Json) -> Result<Items<Shape>, ReadError>
    ensures { Gives (shapes_form (data_of json.now)) result }
{
    let Json::Array(items) = json else {
        return Err(ReadError::Fault(DocFault::BadForm(DocPlace::Shapes)));
    };
    let mut shapes = Items::new(alloc);
    for (i, item) in items.iter().enumerate() {
        shapes.push(shape_of(alloc, i, item)?)?;
    }
    Ok(shapes)
}

/// The number of one of so many shapes.
#[tactic(auto, unfolding(crate::specs::Documents::root_form))]
fn read_root(shapes: usize, json: &Json) -> Result<u32, ReadError>
    ensures { Gives (root_form shapes (data_of json.now)) result }
{
    match count_of(json) {
        Some(root) if (root as usize) < shapes => Ok(root),
        _ => Err(ReadError::Fault(DocFault::BadForm(DocPlace::Root))),
    }
}

/// How many tokens there are. None where nothing is said of them.
#[tactic(auto, unfolding(crate::specs::Documents::tokens_form))]
fn read_tokens(json: Option<&Json>) -> Result<u32, ReadError>
    ensures { Gives (tokens_form (option_map (λ found. data_of found.now) json.entry)) result }
{
    let Some(json) = json else {
        return Ok(0);
    };
    match count_of(json) {
        Some(tokens) => Ok(tokens),
        None => Err(ReadError::Fault(DocFault::BadForm(DocPlace::Tokens))),
    }
}

/// Tests the rules of a checked table one after another.
fn test_rules(table: &ShapeTable) -> Result<(), DocFault>
    requires few { length table.now < 2 ^ 32 }
    ensures { result ≡ rules_pass table.now }
{
    match table.check() {
        Ok(()) => Ok(()),
        Err(fault) => Err(DocFault::Unchecked(fault)),
    }
}

/// Tests that the script is valid over a new ledger of the document's tokens. Such a ledger has no
/// mark yet.
#[tactic(auto, unfolding(crate::specs::Documents::script_passes))]
fn test_script(alloc: Global, document: &Document) -> Result<(), ReadError>
    requires few { length document.now.script < 2 ^ 32 }
    ensures { Gives (script_passes (document_view document.now)) result }
{
    let Ok(mut marks) = vec![in alloc; false; document.tokens as usize] else {
        return Err(ReadError::Memory);
    };
    match find_invalid(&document.table, &document.script, marks.as_mut_slice()) {
        None => Ok(()),
        Some(i) => Err(ReadError::Fault(DocFault::Invalid(i))),
    }
}
