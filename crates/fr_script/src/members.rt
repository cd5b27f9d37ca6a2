//! The members of a document.
ghost use Rattle.std.specs.Prelude.{◌≡◌, option_map};
ghost use Rattle.serde_json.specs.View.{view as data_of};
ghost use Rattle.fr_script.specs.Members.{members_form};
ghost use Rattle.fr_script.specs.Reading.{members_view};

use fr_doc::has_only;
use serde_json::Value as Json;

/// What stands under the keys of a document.
#[derive(Drop)]
pub struct Members<'j> {
    pub shapes: &'j Json,
    pub root: &'j Json,
    pub tokens: Option<&'j Json>,
    pub commands: &'j Json,
}

/// The members of an object that has what a document needs and nothing else.
#[tactic(auto, unfolding(crate::specs::Members::members_form))]
pub fn members_of(json: &Json) -> Option<Members<'_>>
    ensures { option_map members_view result ≡ members_form (data_of json.now) }
{
    let Json::Object(members) = json else {
        return None;
    };
    if !has_only(members, &["shapes", "root", "tokens", "commands"]) {
        return None;
    }
    let shapes = json.get("shapes")?;
    let root = json.get("root")?;
    let commands = json.get("commands")?;
    Some(Members {
        shapes,
        root,
        tokens: json.get("tokens"),
        commands,
    })
}
