//! The names of a sequence's items, looked up without going over the items.
ghost use Rattle.std.specs.Prelude.{◌≡◌, ◌||◌, false, not, IfOk, OnOk};
ghost use Rattle.jup_value.specs.declared.names.Name.{Name};
ghost use Rattle.jup_value.specs.Items.{name_eq};
ghost use Rattle.jup_layout.specs.Drafts.{is_held};

use jup_value::Name;
use jup_xform::NoMemory;
use std::alloc::Global;
use std::collections::BTreeSet;

/// Some names: the site and the number of each. They are in a tree and not in a table of hashes, since a stranger sends them
/// and could choose names that all fall into one place.
#[derive(Drop)]
pub(crate) struct Names {
    held: BTreeSet<(u32, u32)>,
}

impl Names {
    /// No name. It takes no memory.
    pub(crate) fn new(alloc: Global) -> Names
        ensures { (name : Name) → is_held name result ≡ false }
    {
        Names {
            held: BTreeSet::new(alloc),
        }
    }

    /// Adds a name, and says whether it is new.
    pub(crate) fn add(&mut self, name: Name) -> Result<bool, NoMemory>
        ensures added { IfOk result (λ added. added ≡ not (is_held name self.old)) }
        ensures held { OnOk result ((other : Name) → is_held other self.new ≡ (name_eq name other || is_held other self.old)) }
    {
        match self.held.insert((name.site, name.number)) {
            Ok(added) => Ok(added),
            Err(_) => Err(NoMemory),
        }
    }
}
