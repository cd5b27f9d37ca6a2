//! Laws of the forms and of the hooks.
ghost use Rattle.std.specs.Prelude.{◌≡◌, false};
ghost use Rattle.serde_json.specs.Written.{has_float};
ghost use Rattle.fr_shape.specs.Val.{Val};
ghost use Rattle.fr_doc.specs.Printed.{value_data};
ghost use Rattle.fr_doc.specs.DocHooks.{doc_hooks};

use crate::DocHooks;
use fr_shape::Hooks;

/// A printed value has no float, so its text is the compact text of its JSON.
pub fn law_printed_float_free()
    ensures float_free { (v : Val) → has_float (value_data v) ≡ false }
{}

/// What `DocHooks` means.
pub fn law_doc_hooks()
    ensures meaning { (hooks : DocHooks) → ⟦<DocHooks as Hooks>⟧.means hooks ≡ doc_hooks }
{}
