//! What a builder works with: the plan that it goes by, and the places that are open or were left.
use crate::held_plan::HeldPlan;
use fr_frame::Slots;
use fr_path::Path;
use fr_refusals::Mode;
use fr_shape::{ShapeId, ShapeTable};
use fr_store::{FrameStore, Stack};
use std::alloc::Global;

/// The open places of a value of shape `root`, and those that were left half done.
#[derive(Drop)]
pub struct Frames<'t> {
    pub table: &'t ShapeTable,
    pub root: ShapeId,
    /// All these places, and what was put at them.
    pub slots: Slots,
    /// The slots of the open ones, the root's first and that of the place at which the builder
    /// works last.
    pub stack: Stack,
    /// The slots of those that were left half done.
    pub store: FrameStore,
    pub mode: Mode,
}

/// What a builder goes by, and all that its calls change.
#[derive(Drop)]
pub struct Parts<'t> {
    pub alloc: Global,
    pub plan: HeldPlan<'t>,
    pub frames: Frames<'t>,
    /// The path of the place at which the builder works.
    pub path: Path,
    /// How many calls succeeded.
    pub calls: u32,
}
