//! A refusal of the builder, and where it was.
use fr_path::Path;
use fr_shape::ReflectErrorKind;

/// Why a call of the builder was refused, and the path of the place at which the builder worked
/// before the call. The path is the builder's own, so no memory is needed for it.
#[derive(Drop)]
pub struct ReflectError {
    pub kind: ReflectErrorKind,
    pub path: Path,
}
