//! Named items.

/// The name of an item: the site that inserted it, and how many insertions that site had made by
/// then, this one included. Items of the opening layout have site 0.
#[derive(Clone, Copy, Debug, PartialEq, Eq)]
pub struct Name {
    pub site: u32,
    pub number: u32,
}

/// A value under a name.
#[derive(Clone, Copy, Debug, PartialEq, Eq)]
pub struct Item<V> {
    pub name: Name,
    pub value: V,
}
