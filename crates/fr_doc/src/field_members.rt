//! The members of a field's object.
ghost use Rattle.std.specs.Prelude.{◌≡◌, option_map};
ghost use Rattle.serde_json.specs.View.{view as data_of};
ghost use Rattle.fr_doc.specs.FieldMembers.{parts_view, parts_and, field_parts};
ghost use Rattle.fr_doc.specs.Reading.{Reads};

use crate::read_error::{Broken, FormError};
use serde_json::Value as Json;

/// What stands under each of a field's keys.
#[derive(Clone, Copy)]
pub struct FieldMembers<'j> {
    pub name: Option<&'j Json>,
    pub shape: Option<&'j Json>,
    pub rename: Option<&'j Json>,
    pub alias: Option<&'j Json>,
    pub default: Option<&'j Json>,
    pub skip: Option<&'j Json>,
    pub flatten: Option<&'j Json>,
    pub proxy: Option<&'j Json>,
    pub format_proxies: Option<&'j Json>,
    pub validators: Option<&'j Json>,
}

/// The members of an object that has no other keys than a field's.
pub fn field_members_of(json: &Json) -> Result<FieldMembers<'_>, FormError>
    ensures { Reads parts_view (field_parts (data_of json.now)) result }
{
    let mut found = FieldMembers {
        name: None,
        shape: None,
        rename: None,
        alias: None,
        default: None,
        skip: None,
        flatten: None,
        proxy: None,
        format_proxies: None,
        validators: None,
    };
    for (key, inner) in json.as_object().ok_or(Broken)?.iter() {
        found = found.with(key.as_str(), inner).ok_or(Broken)?;
    }
    Ok(found)
}

impl<'j> FieldMembers<'j> {
    /// The same with what stands under one key more, if it is a field's. The first part of a key
    /// counts.
    #[tactic(auto, unfolding(crate::specs::FieldMembers::parts_and))]
    fn with(mut self, key: &str, inner: &'j Json) -> Option<FieldMembers<'j>>
        ensures { option_map parts_view result
            ≡ parts_and (parts_view self.entry) key.now (data_of inner.now) }
    {
        let part = Some(inner);
        match key {
            "name" => self.name = self.name.or(part),
            "shape" => self.shape = self.shape.or(part),
            "rename" => self.rename = self.rename.or(part),
            "alias" => self.alias = self.alias.or(part),
            "default" => self.default = self.default.or(part),
            "skip" => self.skip = self.skip.or(part),
            "flatten" => self.flatten = self.flatten.or(part),
            "proxy" => self.proxy = self.proxy.or(part),
            "format_proxies" => self.format_proxies = self.format_proxies.or(part),
            "validators" => self.validators = self.validators.or(part),
            _ => return None,
        }
        Some(self)
    }
}
