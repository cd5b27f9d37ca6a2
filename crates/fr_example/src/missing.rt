//! Where lines lack a field: the builder tells which field of which struct is missing, and the
//! lines tell in which groups.
ghost use Rattle.std.specs.Prelude.{◌≡◌, ◌==◌, ◌++◌, IfOk, OnOk};
ghost use Rattle.std.specs.List.{slice_split};
ghost use Rattle.std.specs.Option.{option_map};
ghost use Rattle.std.specs.Str.Lines.{lines};
ghost use Rattle.fr_example.specs.Mentions.{mention_here, mentions_from, mentions_in, mentions_of_line, unnamed_keys};
ghost use Rattle.fr_example.specs.Missing.{missing_keys, shape_below};

use crate::loader::says_nothing;
use fr_shape::{Def, FieldRef, Items, OutOfMemory, ShapeId, ShapeTable, Text};
use std::alloc::Global;
use std::collections::BTreeSet;

/// A group of the shape that a field is of: the field's key there, and whether a line names it.
#[derive(Drop)]
struct Mention {
    key: Text,
    named: bool,
}

/// The keys of a field that no line names: one for each group of its shape that a line leads
/// through, in the order of the lines, and before them one for the root, if that is of its shape.
/// None, where the table has no such field.
pub fn missing_keys(
    alloc: Global,
    table: &ShapeTable,
    root: ShapeId,
    field: FieldRef,
    text: &str,
) -> Result<Items<Text>, OutOfMemory>
    ensures missing { IfOk result (λ keys. keys ≡ missing_keys table.now root.0 field
        (lines text.now)) }
{
    let Some(wanted) = table.field(field) else {
        return Ok(Items::new(alloc));
    };
    let name = wanted.name.as_str();
    let mentions = mentions_in(alloc, table, root, field.shape, name, text)?;
    unnamed_keys(alloc, mentions.as_slice())
}

/// The groups of a shape: the root, and those that lines lead through, as often as they do.
fn mentions_in(
    alloc: Global,
    table: &ShapeTable,
    root: ShapeId,
    shape: ShapeId,
    wanted: &str,
    text: &str,
) -> Result<Items<Mention>, OutOfMemory>
    ensures { IfOk result (λ mentions. mentions ≡ mentions_in table.now shape.0 wanted.now root.0
        (lines text.now)) }
{
    let mut mentions = Items::new(alloc);
    mention_here(alloc, root, shape, "", wanted, false, &mut mentions)?;
    for line in text.lines() {
        mention_line(alloc, table, root, shape, wanted, line, &mut mentions)?;
    }
    Ok(mentions)
}

/// Adds the groups that a line leads through.
fn mention_line(
    alloc: Global,
    table: &ShapeTable,
    root: ShapeId,
    shape: ShapeId,
    wanted: &str,
    line: &str,
    mentions: &mut Items<Mention>,
) -> Result<(), OutOfMemory>
    ensures { OnOk result (mentions.new ≡ mentions.old
        ++ mentions_of_line table.now shape.0 wanted.now root.0 line.now) }
{
    if says_nothing(line) {
        return Ok(());
    }
    match line.split_once('=') {
        Some((key, _)) => mention_groups(alloc, table, root, shape, wanted, key.trim(), mentions),
        None => Ok(()),
    }
}

/// Adds the groups that a key leads through.
fn mention_groups(
    alloc: Global,
    table: &ShapeTable,
    root: ShapeId,
    shape: ShapeId,
    wanted: &str,
    key: &str,
    mentions: &mut Items<Mention>,
) -> Result<(), OutOfMemory>
    ensures { OnOk result (mentions.new ≡ mentions.old
        ++ mentions_from table.now shape.0 wanted.now root.0
        (slice_split (λ b. b == 46) key.now)) }
{
    let mut group = String::new(alloc);
    let mut at = root;
    for name in key.split('.') {
        let named = name == wanted;
        mention_here(alloc, at, shape, group.as_str(), wanted, named, mentions)?;
        match shape_below(table, at, name) {
            Some(below) => at = below,
            None => return Ok(()),
        }
        group.push_str(name)?;
        group.push_str(".")?;
    }
    Ok(())
}

/// Adds the group of shape `at`, if that is the shape that is looked for. Its names are written
/// with a dot behind each.
fn mention_here(
    alloc: Global,
    at: ShapeId,
    shape: ShapeId,
    group: &str,
    wanted: &str,
    named: bool,
    mentions: &mut Items<Mention>,
) -> Result<(), OutOfMemory>
    ensures { OnOk result (mentions.new ≡ mentions.old
        ++ mention_here shape.0 at.0 (group.now ++ wanted.now) named) }
{
    if at == shape {
        let mut key = String::from_str(alloc, group)?;
        key.push_str(wanted)?;
        let key = Text::new(alloc, key.as_str())?;
        mentions.push(Mention { key, named })?;
    }
    Ok(())
}

/// The shape of a struct's field of this name.
fn shape_below(table: &ShapeTable, shape: ShapeId, name: &str) -> Option<ShapeId>
    ensures { option_map (λ below. below.0) result ≡ shape_below table.now shape.0 name.now }
{
    let Def::Struct(described) = &table.get(shape)?.def else {
        return None;
    };
    for field in described.fields.as_slice() {
        if field.name.as_str() == name {
            return Some(field.shape);
        }
    }
    None
}

/// The keys that none of them names, each once.
fn unnamed_keys(alloc: Global, mentions: &[Mention]) -> Result<Items<Text>, OutOfMemory>
    ensures { IfOk result (λ keys. keys ≡ unnamed_keys mentions.now) }
{
    let mut seen = BTreeSet::new(alloc);
    for mention in mentions {
        if mention.named {
            seen.insert(mention.key.as_str())?;
        }
    }
    let mut keys = Items::new(alloc);
    for mention in mentions {
        let key = mention.key.as_str();
        if seen.insert(key)? {
            keys.push(Text::new(alloc, key)?)?;
        }
    }
    Ok(keys)
}
