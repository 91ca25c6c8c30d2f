//! A world: whatever happens, and then quiet.
ghost use Rattle.std.specs.Prelude.{◌≡◌, true, IfOk, OnOk};
ghost use Rattle.jup_world.specs.Boards.{AllAgree};
ghost use Rattle.jup_world.specs.Lanes.{messages_of};

use jup_world::{Event, World};
use jup_xform::NoMemory;
use std::alloc::Global;

/// Plays events, whatever they are, and delivers all that is on its way: then the star and all its sites agree.
pub fn settle(alloc: Global, world: &mut World, events: &[Event]) -> Result<bool, NoMemory>
    ensures quiet { IfOk result (λ quiet. quiet ≡ true) }
    ensures agree { OnOk result (AllAgree (messages_of world.new)) }
{
    world.run(alloc, events).map_err(|_| NoMemory)?;
    world.drain(alloc)?;
    Ok(world.quiet())
}
