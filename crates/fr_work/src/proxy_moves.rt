//! What the calls come to that begin a conversion.
ghost use Rattle.std.specs.Option.{option_copied};
ghost use Rattle.std.specs.Prelude.{◌≡◌};
ghost use Rattle.fr_work.specs.Common.{Call, Decides, None, shape_at};
ghost use Rattle.fr_model.specs.Conversions.{proxy_at};
ghost use Rattle.fr_model.specs.Step.{begins_from_shape};
ghost use Rattle.fr_model.specs.Tree.{cursor_field};
ghost use Rattle.fr_work.specs.Sources.{BeginsByField, BeginsFromShape};

use crate::work::Work;
use fr_moves::{Change, Move};
use fr_refusals::{by_proxy, proxy_at, proxy_of_field};
use fr_shape::{ProxyDef, ReflectErrorKind};

impl<'t> Work<'t> {
    /// On to the source of the proxy that the field which the place is has for a format, or for
    /// none.
    pub fn begin_by_field_move<'k>(
        &self,
        format: Option<&str>,
    ) -> Result<Move<'k>, ReflectErrorKind>
        ensures decides { (call : Call) → BeginsByField self.now call (option_copied format.entry)
            → Decides self.now call result }
    {
        let shape = self.place().1;
        match proxy_of_field(self.field_here(), format) {
            Ok(proxy) => Ok(self.on_to_source(by_proxy(proxy))),
            Err(operation) => Err(ReflectErrorKind::OperationFailed { shape, operation }),
        }
    }

    /// The proxy that the place's shape has for a format, or for none, where the place is no field
    /// with proxies of its own.
    fn proxy_here(&self, format: Option<&str>) -> Option<&ProxyDef>
        ensures { option_copied result ≡ proxy_at self.now.shapes (shape_at self.now)
            (cursor_field self.now.shapes self.now.root self.now.state) (option_copied format.entry) }
    {
        let (table, shape, _) = self.place();
        proxy_at(table, shape, self.field_here(), format)
    }

    /// On to the source of this proxy, which the place's shape has for a format or for none; where
    /// it has none, nothing comes of it. And whether it has one.
    pub fn begin_from_shape_move<'k>(
        &self,
        format: Option<&str>,
    ) -> (Result<Move<'k>, ReflectErrorKind>, bool)
        ensures decides { (call : Call) → BeginsFromShape self.now call (option_copied format.entry)
            → Decides self.now call result.0 }
        ensures answer { result.1 ≡ begins_from_shape self.now.shapes self.now.root self.now.state
            (option_copied format.entry) }
    {
        match self.proxy_here(format) {
            Some(proxy) => (Ok(self.on_to_source(by_proxy(proxy))), true),
            None => (Ok(Move::Stay(Change::Nothing)), false),
        }
    }
}
