//! Whether two sequences have the same items.
ghost use Rattle.std.specs.Prelude.{◌≡◌, ◌↔◌, IsTrue};

use crate::{Label, Seq};

/// The value of an item, which can be compared with another.
pub trait ItemValue: Copy {
    /// Whether both are one value.
    fn same(&self, other: &Self) -> bool
        ensures { IsTrue result ↔ (self.now ≡ other.now) };
}

impl ItemValue for char {
    fn same(&self, other: &char) -> bool {
        *self == *other
    }
}

impl ItemValue for Label {
    fn same(&self, other: &Label) -> bool {
        self.bytes() == other.bytes()
    }
}

impl<V: ItemValue> Seq<V> {
    /// Whether both have the same items in the same order: names and values.
    pub fn same(&self, other: &Seq<V>) -> bool
        ensures { IsTrue result ↔ (self.now.items ≡ other.now.items) }
    {
        let mut others = other.iter();
        for item in self.iter() {
            let Some(there) = others.next() else {
                return false;
            };
            if item.name != there.name || !item.value.same(&there.value) {
                return false;
            }
        }
        others.next().is_none()
    }
}
