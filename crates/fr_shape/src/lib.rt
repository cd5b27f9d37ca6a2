//! Types known at run time, the values that fit them, and the ledger of released tokens.
#![tactic(auto)]

mod checking;
mod comparing;
mod contents;
mod copying;
mod describing;
mod distinct;
mod error;
mod fitting;
mod hooks;
mod invariants;
mod items;
mod laws;
mod ledger;
mod names;
mod numbering;
mod ordering;
mod parsing;
mod parts;
mod releasing;
mod repeated;
mod rules;
mod scalars;
mod settling;
mod shape;
mod shaped;
mod table;
mod template;
mod text;
mod texts;
mod value;

pub use checking::TableFault;
pub use comparing::same;
pub use contents::ByContents;
pub use copying::clone_template;
pub use error::{
    AllocError, Expected, InitCall, Invariant, Operation, PlanError, PlanFault, Reason,
    ReflectErrorKind, ShapeMismatchError, TrackerKind, TryFromFault,
};
pub use fitting::fits;
pub use hooks::{HookFault, Hooks, NoHooks};
pub use invariants::keeps_invariants;
pub use items::{Items, NotPushed, OutOfMemory};
pub use laws::{law_conserved, law_hooks, law_invariants, law_no_hooks, law_parsing};
pub use ledger::Ledger;
pub use ordering::{compare, law_compare};
pub use parsing::parse_scalar;
pub use releasing::release;
pub use shape::{
    Def, DefaultSource, EnumDef, EnumRepr, Field, FieldRef, FormatProxy, HookId, KnownPointer,
    PointerDef, ProxyDef, ScalarKind, Shape, ShapeId, StructDef, StructKind, ValidatorDef,
    VariantDef,
};
pub use shaped::Shaped;
pub use table::ShapeTable;
pub use template::Template;
pub use text::Text;
pub use value::{Dyn, Value};
