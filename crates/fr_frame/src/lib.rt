//! Slots: the places of which a value is being built, each under a number that stays while it is in
//! use.
//!
//! A begun place holds the values of its children. A child that is being built is in a slot of its
//! own, and its parent knows which.
#![tactic(auto)]

mod admitting;
mod assembling;
mod changing;
mod completing;
mod converting;
mod defaulting;
mod draining;
mod entering;
mod field_plans;
mod filling;
mod growing;
mod lacking;
mod leaving;
mod linking;
mod list_items;
mod object_entries;
mod partial_values;
mod places;
mod slots;
mod splitting;
mod storing;
mod validating;

pub use admitting::{
    MOST_ELEMENTS, Opening, field_of, named_refusal, nth_opening, opening_at, selected,
};
pub use fr_values::{Children, Keys};
pub use partial_values::is_begun;
pub use places::{
    ChildWay, ContentKind, Conversion, EntriesKind, FrameOwner, Item, ItemsKind, PartialValue,
    Place, Slot, SlotId, Taker, Through, Tracker,
};
pub use slots::Slots;
