//! A child is entered, set to a value, and left: three calls as one.
ghost use Rattle.std.specs.Prelude.{◌+◌};
ghost use Rattle.fr_partial.specs.Common.{Call, IsCall, Room, holds, occurs};
ghost use Rattle.fr_partial.specs.Several.{AreCalls};
ghost use Rattle.fr_partial.specs.Spots.{begin_call, set_at};
ghost use Rattle.fr_partial.specs.Typed.{HasShape, own_number};

use crate::typed::shaped;
use crate::{Partial, ReflectError};
use fr_facet::Facet;
use fr_shape::{Hooks, Ledger, OutOfMemory, ReflectErrorKind, release};

/// Where a shorthand puts its value: at a field or an element, at the key of a new entry or the
/// value that the last one lacks, or at a new item.
#[derive(Clone, Copy)]
pub(crate) enum Spot<'k> {
    NthField(usize),
    Field(&'k str),
    Key,
    Value,
    ListItem,
    SetItem,
}

impl<'t, H: Hooks> Partial<'t, H> {
    /// Makes the call that enters the child.
    fn begin_at(self, spot: Spot, ledger: &mut Ledger) -> Result<Partial<'t, H>, ReflectError>
        requires room { Room (holds self) ledger.old }
        ensures call { IsCall (H.means self.entry.hooks) self.entry (begin_call spot.entry) result
            ledger.old ledger.new }
    {
        match spot {
            Spot::NthField(idx) => self.begin_nth_field(idx, ledger),
            Spot::Field(field_name) => self.begin_field(field_name, ledger),
            Spot::Key => self.begin_key(ledger),
            Spot::Value => self.begin_value(ledger),
            Spot::ListItem => self.begin_list_item(ledger),
            Spot::SetItem => self.begin_set_item(ledger),
        }
    }

    /// Enters the child, sets it to the value, and leaves it. The value is made before the first
    /// call, so that its tokens can be released where that is refused.
    fn put_at<U: Facet>(
        self,
        spot: Spot,
        value: U,
        ledger: &mut Ledger,
    ) -> Result<Partial<'t, H>, ReflectError>
        requires shape { HasShape U.is_own self.shapes }
        requires room { Room (λ t. holds self t + occurs (U.shown value) t) ledger.old }
        ensures calls { AreCalls (H.means self.entry.hooks) self.entry
            (set_at (begin_call spot.entry) (own_number U.is_own self.entry.shapes) (U.shown value))
            result ledger.old ledger.new }
    {
        let value = match shaped(self.work.alloc(), self.table(), value, ledger) {
            Ok(value) => value,
            Err(OutOfMemory) => {
                return Err(self.refuse(ReflectErrorKind::OutOfMemory, ledger));
            }
        };
        let begun = match self.begin_at(spot, ledger) {
            Ok(begun) => begun,
            Err(refused) => {
                release(value.into_value(), ledger);
                return Err(refused);
            }
        };
        match begun.set_shape(value, ledger) {
            Ok(set) => set.end(ledger),
            Err(refused) => Err(refused),
        }
    }

    /// `begin_nth_field`, `set` and `end`: the first refusal, with the path of the place before the
    /// call that is refused. As with the other shorthands, each of the three calls is counted; and to
    /// make the value may want memory before the first of them.
    pub fn set_nth_field<U: Facet>(
        self,
        idx: usize,
        value: U,
        ledger: &mut Ledger,
    ) -> Result<Partial<'t, H>, ReflectError>
        requires shape { HasShape U.is_own self.shapes }
        requires room { Room (λ t. holds self t + occurs (U.shown value) t) ledger.old }
        ensures calls { AreCalls (H.means self.entry.hooks) self.entry
            (set_at (Call.BeginNthField idx) (own_number U.is_own self.entry.shapes)
            (U.shown value)) result ledger.old ledger.new }
    {
        self.put_at(Spot::NthField(idx), value, ledger)
    }

    /// `begin_field`, `set` and `end`.
    pub fn set_field<U: Facet>(
        self,
        field_name: &str,
        value: U,
        ledger: &mut Ledger,
    ) -> Result<Partial<'t, H>, ReflectError>
        requires shape { HasShape U.is_own self.shapes }
        requires room { Room (λ t. holds self t + occurs (U.shown value) t) ledger.old }
        ensures calls { AreCalls (H.means self.entry.hooks) self.entry
            (set_at (Call.BeginField field_name.now) (own_number U.is_own self.entry.shapes)
            (U.shown value)) result ledger.old ledger.new }
    {
        self.put_at(Spot::Field(field_name), value, ledger)
    }

    /// `begin_key`, `set` and `end`.
    pub fn set_key<U: Facet>(
        self,
        value: U,
        ledger: &mut Ledger,
    ) -> Result<Partial<'t, H>, ReflectError>
        requires shape { HasShape U.is_own self.shapes }
        requires room { Room (λ t. holds self t + occurs (U.shown value) t) ledger.old }
        ensures calls { AreCalls (H.means self.entry.hooks) self.entry
            (set_at Call.BeginKey (own_number U.is_own self.entry.shapes) (U.shown value))
            result ledger.old ledger.new }
    {
        self.put_at(Spot::Key, value, ledger)
    }

    /// `begin_value`, `set` and `end`.
    pub fn set_value<U: Facet>(
        self,
        value: U,
        ledger: &mut Ledger,
    ) -> Result<Partial<'t, H>, ReflectError>
        requires shape { HasShape U.is_own self.shapes }
        requires room { Room (λ t. holds self t + occurs (U.shown value) t) ledger.old }
        ensures calls { AreCalls (H.means self.entry.hooks) self.entry
            (set_at Call.BeginValue (own_number U.is_own self.entry.shapes) (U.shown value))
            result ledger.old ledger.new }
    {
        self.put_at(Spot::Value, value, ledger)
    }

    /// `begin_list_item`, `set` and `end`.
    pub fn push<U: Facet>(
        self,
        value: U,
        ledger: &mut Ledger,
    ) -> Result<Partial<'t, H>, ReflectError>
        requires shape { HasShape U.is_own self.shapes }
        requires room { Room (λ t. holds self t + occurs (U.shown value) t) ledger.old }
        ensures calls { AreCalls (H.means self.entry.hooks) self.entry
            (set_at Call.BeginListItem (own_number U.is_own self.entry.shapes) (U.shown value))
            result ledger.old ledger.new }
    {
        self.put_at(Spot::ListItem, value, ledger)
    }

    /// `begin_set_item`, `set` and `end`.
    pub fn insert<U: Facet>(
        self,
        value: U,
        ledger: &mut Ledger,
    ) -> Result<Partial<'t, H>, ReflectError>
        requires shape { HasShape U.is_own self.shapes }
        requires room { Room (λ t. holds self t + occurs (U.shown value) t) ledger.old }
        ensures calls { AreCalls (H.means self.entry.hooks) self.entry
            (set_at Call.BeginSetItem (own_number U.is_own self.entry.shapes) (U.shown value))
            result ledger.old ledger.new }
    {
        self.put_at(Spot::SetItem, value, ledger)
    }
}
