//! The entries of a dynamic object that is begun at one place, under their keys.
ghost use Rattle.std.specs.Prelude.{◌++◌, ◌∷◌, ◌≡◌};
ghost use Rattle.fr_frame.specs.Common.{None, OnErr, OnOk, [], absent, body_occurs, body_of, entry_found, keys_apart, keys_in, true, with_entry_for, ℕ};
ghost use Rattle.fr_frame.specs.Bodies.{IsObjectBody};

use crate::partial_values::put_first;
use crate::places::{EntriesKind, PartialValue, Tracker};
use fr_shape::{OutOfMemory, Text};
use fr_values::{Children, Keys};
use std::alloc::Global;

/// The number of the entry that a begun object has under a key, where it has one, and the key back.
/// Doesn't look at each entry.
pub(crate) fn entry_number(partial: &PartialValue, key: Text) -> (Option<usize>, Text)
    requires object { IsObjectBody (body_of partial.now) }
    requires apart { keys_apart (keys_in (body_of partial.now)) ≡ true }
    ensures number { result.0 ≡ entry_found key (keys_in (body_of partial.now)) }
    ensures key { result.1 ≡ key }
{
    match partial {
        PartialValue::Begun(Tracker::Entries(EntriesKind::Object(keys)), _) => keys.number_of(key),
        PartialValue::Entered | PartialValue::Whole(_) | PartialValue::Begun(..) => unreachable!(),
    }
}

/// One key and one child more behind the others, or neither.
fn push_entry(
    alloc: Global,
    keys: &mut Keys,
    children: &mut Children,
    key: Text,
) -> Result<(), OutOfMemory>
    ensures key_added { OnOk result (keys.new ≡ keys.old ++ key ∷ []) }
    ensures child_added { OnOk result (children.new ≡ children.old ++ absent ∷ []) }
    ensures keys_kept { OnErr result (keys.new ≡ keys.old) }
    ensures children_kept { OnErr result (children.new ≡ children.old) }
{
    children.push(alloc)?;
    let Ok(()) = keys.push(alloc, key) else {
        children.pop();
        return Err(OutOfMemory);
    };
    Ok(())
}

/// One entry more at a begun object, behind the others, under a key that it doesn't have. The
/// entry's value isn't there yet.
pub(crate) fn add_entry_for(
    alloc: Global,
    partial: &mut PartialValue,
    key: Text,
) -> Result<(), OutOfMemory>
    requires object { IsObjectBody (body_of partial.old) }
    requires lacked { entry_found key (keys_in (body_of partial.old)) ≡ None }
    ensures added { OnOk result (body_of partial.new ≡ with_entry_for key (body_of partial.old)) }
    ensures refused { OnErr result (body_of partial.new ≡ body_of partial.old) }
    ensures tokens { (t : ℕ) →
        body_occurs (body_of partial.new) t ≡ body_occurs (body_of partial.old) t }
{
    match std::mem::replace(partial, PartialValue::Entered) {
        PartialValue::Begun(tracker, mut children) => match tracker {
            Tracker::Entries(EntriesKind::Object(mut keys)) => {
                let added = push_entry(alloc, &mut keys, &mut children, key);
                let object = Tracker::Entries(EntriesKind::Object(keys));
                put_first(partial, PartialValue::Begun(object, children));
                added
            }
            Tracker::Entries(EntriesKind::Map(_)) | Tracker::Items(_) => unreachable!(),
            Tracker::Fields(_) | Tracker::Elements | Tracker::Content(_) => unreachable!(),
        },
        PartialValue::Entered | PartialValue::Whole(_) => unreachable!(),
    }
}
