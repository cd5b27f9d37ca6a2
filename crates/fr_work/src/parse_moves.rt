//! What `parse_from_str` and `parse_from_bytes` come to.
ghost use Rattle.std.specs.Prelude.{◌≡◌, Err};
ghost use Rattle.fr_shape.specs.Hooks.{Answers};
ghost use Rattle.fr_shape.specs.declared.hooks.HookFault.{HookFault as Fault};
ghost use Rattle.fr_work.specs.Common.{IfOk, IsChecked, IsMeant, NeedsNone, cursor_tree, false, shape_at, true};
ghost use Rattle.fr_work.specs.Deciding.{DecidesBy};
ghost use Rattle.fr_work.specs.ParseHooks.{input_meant, input_refusal, input_unparsed, may_want_memory, parse_call};

use crate::work::Work;
use fr_moves::{Change, Move};
use fr_shape::{
    HookFault, Hooks, Operation, ReflectErrorKind, ShapeId, ShapeTable, Value, law_hooks,
    parse_scalar,
};
use std::alloc::Global;

/// What is parsed.
#[derive(Clone, Copy)]
pub enum ParseInput<'a> {
    Text(&'a str),
    Bytes(&'a [u8]),
}

impl<'a> ParseInput<'a> {
    /// What it is parsed to at a place of this shape: by the shape's hook, or a text without one as
    /// the scalar that it writes.
    fn parse<H: Hooks>(
        self,
        alloc: Global,
        table: &ShapeTable,
        hooks: &H,
        shape: ShapeId,
    ) -> Result<Value, HookFault>
        requires checked { IsChecked table.now }
        ensures meaning { Answers (input_meant (H.means hooks.now) table.now shape.0 self.entry)
            result }
        ensures memory { result ≡ Err Fault.OutOfMemory
            → may_want_memory table.now shape.0 self.entry ≡ true }
    {
        let Some(entry) = table.get(shape) else {
            return Err(HookFault::Unsupported);
        };
        match self {
            ParseInput::Text(text) => match entry.parse {
                Some(hook) => hooks.parse(alloc, table, hook, shape, text),
                None => parse_scalar(alloc, &entry.def, text),
            },
            ParseInput::Bytes(bytes) => match entry.parse_bytes {
                Some(hook) => hooks.parse_bytes(alloc, table, hook, shape, bytes),
                None => Err(HookFault::Unsupported),
            },
        }
    }

    /// The refusal where its meaning at a place of this shape is one.
    fn refusal(self, shape: ShapeId) -> ReflectErrorKind
        ensures { result ≡ input_refusal shape.0 self.entry }
    {
        match self {
            ParseInput::Text(_) => ReflectErrorKind::ParseFailed { shape },
            ParseInput::Bytes(_) => ReflectErrorKind::OperationFailed {
                shape,
                operation: Operation::BytesNotParsed,
            },
        }
    }

    /// The refusal where it isn't supported at a place of this shape.
    fn unparsed(self, shape: ShapeId) -> ReflectErrorKind
        ensures { result ≡ input_unparsed shape.0 self.entry }
    {
        let operation = match self {
            ParseInput::Text(_) => Operation::NoParsing,
            ParseInput::Bytes(_) => Operation::NoParsingOfBytes,
        };
        ReflectErrorKind::OperationFailed { shape, operation }
    }
}

impl<'t> Work<'t> {
    /// What is parsed takes the place.
    pub fn parse_move<'k, H: Hooks>(
        &self,
        hooks: &H,
        input: ParseInput,
    ) -> Result<Move<'k>, ReflectErrorKind>
        ensures meant { IfOk result (IsMeant self.now) }
        ensures decides { DecidesBy (H.means hooks.now) self.now (parse_call input.entry) result }
        ensures memory { may_want_memory self.now.shapes (shape_at self.now) input.entry ≡ false
            → NeedsNone (cursor_tree self.now.state) result }
    {
        law_hooks::<H>();
        self.law_sound();
        let (table, shape, _) = self.place();
        match input.parse(self.alloc(), table, hooks, shape) {
            Ok(value) => Ok(Move::Stay(Change::Put(value))),
            Err(HookFault::Refused(_)) => Err(input.refusal(shape)),
            Err(HookFault::Unsupported) => Err(input.unparsed(shape)),
            Err(HookFault::OutOfMemory) => Err(ReflectErrorKind::OutOfMemory),
        }
    }
}
