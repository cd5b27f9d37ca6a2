//! The names by which a field is found.
ghost use Rattle.std.specs.Prelude.{◌≡◌, IfOk};
ghost use Rattle.fr_rules.specs.Entries.{entries_of, first_named};

use fr_shape::{Field, Items, OutOfMemory, Text};
use smallvec::SmallVec;
use std::alloc::Global;

/// The most entries that a lookup holds itself and looks through one by one. One of more entries is
/// searched by halves.
pub const LOOKUP_THRESHOLD: usize = 8;

/// A name by which a field is found.
#[derive(Drop, Default)]
pub struct FieldLookupEntry {
    /// The whole name: the field's effective name or its alias.
    pub name: Text,
    /// The number of the field in its list, counted from 0.
    pub index: u32,
    /// Whether the name is the field's alias.
    pub is_alias: bool,
}

/// The entries of the fields, in order.
pub(crate) fn entries_of(
    alloc: Global,
    fields: &Items<Field>,
) -> Result<SmallVec<FieldLookupEntry, 16>, OutOfMemory>
    ensures { IfOk result (λ entries. entries.items ≡ entries_of fields.now) }
{
    let fields = fields.as_slice();
    let mut entries = SmallVec::new(alloc);
    for i in 0..fields.len() {
        let Ok(index) = u32::try_from(i) else {
            return Err(OutOfMemory);
        };
        let field = &fields[i];
        let name = field.effective_name();
        entries.push(FieldLookupEntry {
            name: Text::new(alloc, name.as_str())?,
            index,
            is_alias: false,
        })?;
        if let Some(alias) = &field.alias {
            entries.push(FieldLookupEntry {
                name: Text::new(alloc, alias.as_str())?,
                index,
                is_alias: true,
            })?;
        }
    }
    Ok(entries)
}

/// The number of the field in the first entry of this name.
pub(crate) fn first_named(name: &str, entries: &[FieldLookupEntry]) -> Option<usize>
    ensures { result ≡ first_named name.now entries.now }
{
    entries
        .iter()
        .find(|entry| entry.name.as_str() == name)
        .map(|entry| entry.index as usize)
}
