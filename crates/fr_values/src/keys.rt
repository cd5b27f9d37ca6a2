//! The keys of a dynamic object.
ghost use Rattle.std.specs.Prelude.{◌++◌, ◌∷◌, ◌≡◌};
ghost use Rattle.fr_values.specs.Common.{IfOk, OnErr, OnOk, [], entry_found, keys_apart, length, names_of, true, view};
ghost use Rattle.fr_model.specs.Dynamics.{key_nth};
ghost use Rattle.fr_values.specs.KeyNames.{name_of};

use crate::value_index::ValueIndex;
use fr_shape::{OutOfMemory, Text, Value};
use std::alloc::Global;
use std::default::Default;
use std::marker::Model;

/// Names, and an index of them. They are values, as the index takes them; each is a text.
#[derive(Drop)]
struct KeyList {
    names: Vec<Value>,
    index: ValueIndex,
}

impl Model for KeyList {
    ghost use Rattle.std.specs.Prelude.{List, ℕ};

    ghost Value = { List (List ℕ) };

    ghost use Rattle.fr_values.specs.KeyNames.{names_of, AreNames};

    ghost view = { λ it. names_of it.names.items };

    ghost invariant = { λ it. AreNames it.names.items it.index };
}

/// The text of a name. Takes no memory.
pub fn text_of(name: Value) -> Text
    ensures bytes { result ≡ name_of (view name) }
{
    match name {
        Value::Text(text) => text,
        Value::Unit | Value::Bool(_) | Value::Char(_) | Value::Int(_) | Value::Nat(_) => {
            Text::default()
        }
        Value::Token(_) | Value::Product(_) | Value::Variant(..) | Value::None => Text::default(),
        Value::Some(_) | Value::Ok(_) | Value::Err(_) | Value::Ptr(_) => Text::default(),
        Value::List(_) | Value::Map(_) | Value::Set(_) | Value::Dyn(_) => Text::default(),
    }
}

/// A copy of the text of a name.
fn copy_of(alloc: Global, name: &Value) -> Result<Text, OutOfMemory>
    ensures { IfOk result (λ key. key ≡ name_of (view name.now)) }
{
    match name {
        Value::Text(text) => Text::new(alloc, text.as_str()),
        Value::Unit | Value::Bool(_) | Value::Char(_) | Value::Int(_) | Value::Nat(_) => {
            Ok(Text::default())
        }
        Value::Token(_) | Value::Product(_) | Value::Variant(..) => Ok(Text::default()),
        Value::None | Value::Some(_) | Value::Ok(_) | Value::Err(_) => Ok(Text::default()),
        Value::List(_) | Value::Map(_) | Value::Set(_) => Ok(Text::default()),
        Value::Ptr(_) | Value::Dyn(_) => Ok(Text::default()),
    }
}

impl KeyList {
    /// No names. Takes no memory.
    fn none(alloc: Global) -> KeyList
        ensures empty { result ≡ [] }
    {
        KeyList {
            names: Vec::new(alloc),
            index: ValueIndex::new(alloc),
        }
    }

    /// How many names there are.
    fn len(&self) -> usize
        ensures count { result ≡ length self.now }
    {
        self.names.len()
    }

    /// The number of the entry that has this key, and the key back.
    fn number_of(&self, key: Text) -> (Option<usize>, Text)
        requires apart { keys_apart self.now ≡ true }
        ensures number { result.0 ≡ entry_found key self.now }
        ensures key { result.1 ≡ key }
    {
        let sought = Value::Text(key);
        let found = self.index.find(self.names.as_slice(), &sought);
        (found, text_of(sought))
    }

    /// A copy of the name of this number, or an empty one past the end.
    fn copy(&self, alloc: Global, i: u32) -> Result<Text, OutOfMemory>
        ensures copy { IfOk result (λ key. key ≡ key_nth self.now i) }
    {
        match self.names.get(i as usize) {
            Some(name) => copy_of(alloc, name),
            None => Ok(Text::default()),
        }
    }

    /// One more name behind the others. Without memory there are those that were there.
    fn push(&mut self, key: Text) -> Result<(), OutOfMemory>
        ensures added { OnOk result (self.new ≡ self.old ++ key ∷ []) }
        ensures refused { OnErr result (self.new ≡ self.old) }
    {
        self.names.push(Value::Text(key))?;
        let Ok(()) = self.index.add(self.names.as_slice()) else {
            self.names.pop();
            return Err(OutOfMemory);
        };
        Ok(())
    }

    /// The names, as values. Takes no memory.
    fn into_names(self) -> Vec<Value>
        ensures names { names_of result.items ≡ self }
    {
        self.names
    }
}

/// The keys of a dynamic object, in the order of its entries. The entry of a key is found without
/// looking at each. No keys take no memory.
#[derive(Drop)]
pub struct Keys {
    list: Option<Box<KeyList>>,
}

impl Model for Keys {
    ghost use Rattle.std.specs.Prelude.{List, ℕ, []};
    ghost use Rattle.std.specs.Option.{option_map_or};

    ghost Value = { List (List ℕ) };

    ghost view = { λ keys. option_map_or (λ list. list.value) keys.list [] };
}

impl Keys {
    /// No keys. Takes no memory.
    pub fn none() -> Keys
        ensures empty { result ≡ [] }
    {
        Keys { list: None }
    }

    /// How many keys there are.
    pub fn len(&self) -> usize
        ensures count { result ≡ length self.now }
    {
        match &self.list {
            Some(list) => list.len(),
            None => 0,
        }
    }

    /// The number of the entry that has this key, and the key back. Takes no memory.
    pub fn number_of(&self, key: Text) -> (Option<usize>, Text)
        requires apart { keys_apart self.now ≡ true }
        ensures number { result.0 ≡ entry_found key self.now }
        ensures key { result.1 ≡ key }
    {
        match &self.list {
            Some(list) => list.number_of(key),
            None => (None, key),
        }
    }

    /// A copy of the key of this number, or an empty one past the end.
    pub fn copy(&self, alloc: Global, i: u32) -> Result<Text, OutOfMemory>
        ensures copy { IfOk result (λ key. key ≡ key_nth self.now i) }
    {
        match &self.list {
            Some(list) => list.copy(alloc, i),
            None => Ok(Text::default()),
        }
    }

    /// One more key behind the others. Without memory there are those that were there.
    pub fn push(&mut self, alloc: Global, key: Text) -> Result<(), OutOfMemory>
        ensures added { OnOk result (self.new ≡ self.old ++ key ∷ []) }
        ensures refused { OnErr result (self.new ≡ self.old) }
    {
        if let Some(list) = &mut self.list {
            return list.push(key);
        }
        let mut list = KeyList::none(alloc);
        list.push(key)?;
        self.list = Some(Box::new(alloc, list)?);
        Ok(())
    }

    /// The keys, as values. Takes no memory.
    pub fn into_names(self, alloc: Global) -> Vec<Value>
        ensures names { names_of result.items ≡ self }
    {
        match self.list {
            Some(list) => Box::into_inner(list).into_names(),
            None => Vec::new(alloc),
        }
    }
}
