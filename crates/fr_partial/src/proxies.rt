//! `begin_custom_deserialization` and `begin_custom_deserialization_from_shape`, with a format and
//! without: on to the source of a proxy.
ghost use Rattle.std.specs.Option.{option_copied};
ghost use Rattle.std.specs.Prelude.{◌≡◌};
ghost use Rattle.fr_partial.specs.Common.{Call, IfOk, IsCall, None, Room, holds};
ghost use Rattle.fr_model.specs.Step.{begins_from_shape};
ghost use Rattle.fr_partial.specs.Builder.{builder_then};

use crate::{Partial, ReflectError};
use fr_shape::{Hooks, Ledger};

impl<'t, H: Hooks> Partial<'t, H> {
    /// Enters the source of the proxy that the field has, at which the builder works: as the source
    /// ends, the proxy's hook makes the field's value of it. In deferred mode a place that is begun
    /// through a proxy with the same hook and the same source is entered again as it is; any other
    /// starts anew. Where the place is no field, or the field has no proxy, or none for all
    /// formats, that is the refusal, and never out of memory.
    #[inline(never)]
    pub fn begin_custom_deserialization(
        self,
        ledger: &mut Ledger,
    ) -> Result<Partial<'t, H>, ReflectError>
        requires room { Room (holds self) ledger.old }
        ensures call { IsCall (H.means self.entry.hooks) self.entry
            Call.BeginCustomDeserialization result ledger.old ledger.new }
    {
        let decided = self.work.begin_by_field_move(None);
        self.run(decided, ledger)
    }

    /// The same by the proxy that the field has for this format, if it has one, else by the one for
    /// all formats.
    #[inline(never)]
    pub fn begin_custom_deserialization_with_format(
        self,
        format: Option<&str>,
        ledger: &mut Ledger,
    ) -> Result<Partial<'t, H>, ReflectError>
        requires room { Room (holds self) ledger.old }
        ensures call { IsCall (H.means self.entry.hooks) self.entry
            (Call.BeginCustomDeserializationWithFormat (option_copied format.entry)) result
            ledger.old ledger.new }
    {
        let decided = self.work.begin_by_field_move(format);
        self.run(decided, ledger)
    }

    /// Enters the source of the proxy that the place's shape has, in the same way, and says so.
    /// Where it has none for all formats, or the place is a field that has proxies of its own,
    /// nothing changes, which takes no memory. It is never refused.
    #[inline(never)]
    pub fn begin_custom_deserialization_from_shape(
        self,
        ledger: &mut Ledger,
    ) -> Result<(Partial<'t, H>, bool), ReflectError>
        requires room { Room (holds self) ledger.old }
        ensures call { IsCall (H.means self.entry.hooks) self.entry
            Call.BeginCustomDeserializationFromShape (builder_then result) ledger.old ledger.new }
        ensures answer { IfOk result (λ both. both.1
            ≡ begins_from_shape self.entry.shapes self.entry.root self.entry.state None) }
    {
        let (decided, begins) = self.work.begin_from_shape_move(None);
        match self.run(decided, ledger) {
            Ok(partial) => Ok((partial, begins)),
            Err(error) => Err(error),
        }
    }

    /// The same by the proxy that the shape has for this format, if it has one, else by the one for
    /// all formats.
    #[inline(never)]
    pub fn begin_custom_deserialization_from_shape_with_format(
        self,
        format: Option<&str>,
        ledger: &mut Ledger,
    ) -> Result<(Partial<'t, H>, bool), ReflectError>
        requires room { Room (holds self) ledger.old }
        ensures call { IsCall (H.means self.entry.hooks) self.entry
            (Call.BeginCustomDeserializationFromShapeWithFormat (option_copied format.entry))
            (builder_then result) ledger.old ledger.new }
        ensures answer { IfOk result (λ both. both.1 ≡ begins_from_shape self.entry.shapes
            self.entry.root self.entry.state (option_copied format.entry)) }
    {
        let (decided, begins) = self.work.begin_from_shape_move(format);
        match self.run(decided, ledger) {
            Ok(partial) => Ok((partial, begins)),
            Err(error) => Err(error),
        }
    }
}
