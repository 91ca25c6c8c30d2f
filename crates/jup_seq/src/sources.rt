//! What can be found out of a sequence after an operation without applying it: how many items there are, and
//! where the item at a place came from.
ghost use Rattle.std.specs.Prelude.{◌≡◌, length};
ghost use Rattle.jup_value.specs.Items.{Items};
ghost use Rattle.jup_seq.specs.Operations.{IsValid, after};
ghost use Rattle.jup_seq.specs.Traces.{length_after, source, IsSource};

use crate::operations::SeqOp;
use jup_value::Name;

/// Where an item of a sequence came from, of which the place after an operation is known.
#[derive(Clone, Copy, Debug, PartialEq, Eq)]
pub enum Source {
    /// The operation put it there, under this name.
    Inserted(Name),
    /// It was at this place before.
    Place(u32),
}

impl<V: Copy> SeqOp<V> {
    /// How many items there are after the operation, if there were `len` before it.
    pub fn length_after(&self, len: u32) -> u32
        ensures exact { result ≡ length_after len self.now }
        ensures counts { (x : Items V) → IsValid self.now x → length x.items ≡ len
            → length (after self.now x).items ≡ result }
    {
        match self {
            SeqOp::Insert { .. } => len.saturating_add(1),
            SeqOp::Delete { .. } => len.saturating_sub(1),
            SeqOp::Relabel { .. } | SeqOp::Nothing => len,
        }
    }

    /// Where the item that is at a place after the operation came from.
    pub fn source(&self, place: u32) -> Source
        ensures exact { result ≡ source place self.now }
        ensures told { IsSource place self.now result }
    {
        match *self {
            SeqOp::Insert { place: at, item } if at == place => Source::Inserted(item.name),
            SeqOp::Insert { place: at, .. } if at < place => Source::Place(place - 1),
            SeqOp::Delete { place: at, .. } if at <= place => {
                Source::Place(place.saturating_add(1))
            }
            _ => Source::Place(place),
        }
    }
}
