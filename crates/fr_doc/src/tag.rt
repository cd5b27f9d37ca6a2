//! The keys of one-key objects.
ghost use Rattle.std.specs.Prelude.{◌≡◌};
ghost use Rattle.fr_doc.specs.Tags.{tag_of, dyn_tag_of};

/// What the key of a value's one-key object says that stands under it.
#[derive(Clone, Copy, PartialEq, Eq)]
pub enum Tag {
    Nat,
    Int,
    Char,
    Token,
    Variant,
    Some,
    Ok,
    Err,
    Pointer,
    List,
    Set,
    Map,
    Dynamic,
}

/// The same inside a dynamic value.
#[derive(Clone, Copy, PartialEq, Eq)]
pub enum DynTag {
    Int,
    Bytes,
    Object,
}

/// The tag of a key, if it is one.
pub fn find_tag(key: &str) -> Option<Tag>
    ensures { result ≡ tag_of key.now }
{
    match key {
        "n" => Some(Tag::Nat),
        "i" => Some(Tag::Int),
        "c" => Some(Tag::Char),
        "t" => Some(Tag::Token),
        "v" => Some(Tag::Variant),
        "s" => Some(Tag::Some),
        "ok" => Some(Tag::Ok),
        "err" => Some(Tag::Err),
        "p" => Some(Tag::Pointer),
        "l" => Some(Tag::List),
        "e" => Some(Tag::Set),
        "m" => Some(Tag::Map),
        "d" => Some(Tag::Dynamic),
        _ => None,
    }
}

/// The tag of a key inside a dynamic value, if it is one.
pub fn find_dyn_tag(key: &str) -> Option<DynTag>
    ensures { result ≡ dyn_tag_of key.now }
{
    match key {
        "i" => Some(DynTag::Int),
        "b" => Some(DynTag::Bytes),
        "o" => Some(DynTag::Object),
        _ => None,
    }
}
