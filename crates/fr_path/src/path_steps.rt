//! One step of a path.
ghost use Rattle.std.specs.Prelude.{◌≡◌, ◌↔◌, IsTrue};
ghost use Rattle.std.specs.Cmp.{partial_equiv_from_equiv, eq_by_cmp_equiv};
ghost use Rattle.fr_path.specs.Order.{rank, number, key, step_order, step_eq};
ghost use Rattle.fr_path.specs.OrderLaws.{step_total};

use fr_shape::Text;
use std::cmp::Ordering;

/// How a path goes on from a place to one that is part of it.
///
/// Numbers count from 0. Contracts see the text of an `Entry` as its bytes.
#[derive(Drop)]
pub enum PathStep {
    /// To the field of this number, of a struct or of an enum's variant.
    Field(u32),
    /// To the element or item of this number: of an array, a list or a dynamic array, or of a
    /// slice, from a pointer to it.
    Index(u32),
    /// To what a pointer points to.
    Deref,
    /// To the value that one of this shape is converted from.
    Inner,
    /// To the content of an option.
    OptionSome,
    /// To the stand-in of a proxy.
    Proxy,
    /// To the key of the entry of this number.
    MapKey(u32),
    /// To the value of the entry of this number.
    MapValue(u32),
    /// To the content of an `Ok`.
    ResultOk,
    /// To the content of an `Err`.
    ResultErr,
    /// To the item that is being put into a set.
    SetItem,
    /// To the value of this key of a dynamic object.
    Entry(Text),
}

impl PathStep {
    // The place of its variant among the variants.
    fn rank(&self) -> u8
        ensures { result ≡ rank self.now }
    {
        match self {
            PathStep::Field(_) => 0,
            PathStep::Index(_) => 1,
            PathStep::Deref => 2,
            PathStep::Inner => 3,
            PathStep::OptionSome => 4,
            PathStep::Proxy => 5,
            PathStep::MapKey(_) => 6,
            PathStep::MapValue(_) => 7,
            PathStep::ResultOk => 8,
            PathStep::ResultErr => 9,
            PathStep::SetItem => 10,
            PathStep::Entry(_) => 11,
        }
    }

    fn number(&self) -> u32
        ensures { result ≡ number self.now }
    {
        match self {
            PathStep::Field(i) | PathStep::Index(i) => *i,
            PathStep::MapKey(i) | PathStep::MapValue(i) => *i,
            PathStep::Deref | PathStep::Inner | PathStep::OptionSome | PathStep::Proxy => 0,
            PathStep::ResultOk | PathStep::ResultErr | PathStep::SetItem | PathStep::Entry(_) => 0,
        }
    }

    fn key(&self) -> &str
        ensures { result.now ≡ key self.now }
    {
        match self {
            PathStep::Entry(key) => key.as_str(),
            PathStep::Field(_) | PathStep::Index(_) | PathStep::MapKey(_) => "",
            PathStep::MapValue(_) | PathStep::Deref | PathStep::Inner | PathStep::OptionSome => "",
            PathStep::Proxy | PathStep::ResultOk | PathStep::ResultErr | PathStep::SetItem => "",
        }
    }

    // Which of two steps is walked first.
    pub(crate) fn cmp_walk(&self, other: &PathStep) -> Ordering
        ensures { result ≡ step_order self.now other.now }
    {
        let by_rank = self.rank().cmp(&other.rank());
        let by_number = self.number().cmp(&other.number());
        let by_key = self.key().cmp(other.key());
        by_rank.then(by_number).then(by_key)
    }
}

/// Steps are equal where their variants, numbers and keys are.
impl PartialEq for PathStep {
    ghost eq = { step_eq };

    ghost laws = { partial_equiv_from_equiv (eq_by_cmp_equiv step_total) };

    fn eq(&self, other: &PathStep) -> bool
        ensures value { result ≡ step_eq self.now other.now }
        ensures same { IsTrue result ↔ (self.now ≡ other.now) }
    {
        self.cmp_walk(other).is_eq()
    }
}

impl Eq for PathStep {
    ghost laws = { eq_by_cmp_equiv step_total };
}
