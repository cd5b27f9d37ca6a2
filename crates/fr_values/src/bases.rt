//! What is known of the first children of a begun place: that they hold nothing twice.
ghost use Rattle.std.specs.Prelude.{take, ◌*◌, ◌≡◌, ◌≤◌};
ghost use Rattle.fr_values.specs.Common.{AreApart, List, Value, count_in_base, first_keys, length, none_twice, true, vals_view};
ghost use Rattle.fr_values.specs.Bases.{IsCut, IsGrown};

/// So many of the first children of a place are known to hold nothing twice, so that they needn't
/// be compared with each other.
#[derive(Clone, Copy)]
pub enum Base {
    /// Items, no two of which are `same`.
    Items(u32),
    /// Entries, each a key and a value in turn, no two of whose keys are `same`.
    Entries(u32),
}

impl Base {
    /// Nothing is known.
    pub fn none() -> Base
        ensures apart { (values : List Value) → AreApart result values }
    {
        Base::Items(0)
    }

    /// So many items, if they can be numbered, and else none.
    pub fn of_items(count: usize) -> Base
        ensures apart { (values : List Value) → length values ≡ count
            → none_twice (vals_view values) ≡ true → AreApart result values }
    {
        match u32::try_from(count) {
            Ok(count) => Base::Items(count),
            Err(_) => Base::none(),
        }
    }

    /// How many children it has.
    pub fn len(self) -> usize
        ensures count { result ≡ count_in_base self }
    {
        match self {
            Base::Items(count) => count as usize,
            Base::Entries(count) => 2 * count as usize,
        }
    }

    /// How many items it has.
    pub fn items(self) -> usize
        ensures within { result ≤ count_in_base self }
        ensures once { (values : List Value) → AreApart self values
            → none_twice (vals_view (take result values)) ≡ true }
    {
        match self {
            Base::Items(count) => count as usize,
            Base::Entries(_) => 0,
        }
    }

    /// How many entries it has.
    pub fn entries(self) -> usize
        ensures within { 2 * result ≤ count_in_base self }
        ensures once { (values : List Value) → AreApart self values
            → none_twice (first_keys result (vals_view values)) ≡ true }
    {
        match self {
            Base::Items(_) => 0,
            Base::Entries(count) => count as usize,
        }
    }

    /// Lets it end before this child, if it has it.
    pub fn cut_at(&mut self, number: usize)
        ensures cut { IsCut number self.old self.new }
    {
        match self {
            Base::Items(count) => {
                if number < *count as usize {
                    *count = number as u32;
                }
            }
            Base::Entries(count) => {
                if number / 2 < *count as usize {
                    *count = (number / 2) as u32;
                }
            }
        }
    }

    /// Lets it have the item of this number too, if it ends before it.
    pub fn grow_at(&mut self, number: usize)
        ensures grown { IsGrown number self.old self.new }
    {
        if let Base::Items(count) = self
            && *count as usize == number
        {
            *count = count.saturating_add(1);
        }
    }
}
