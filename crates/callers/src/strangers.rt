//! Two sites and a stranger.
ghost use Rattle.std.specs.Prelude.{◌≡◌, ◌≤◌, true, length, Some, None};
ghost use Rattle.jup_batch.specs.Boards.{board_batches};
ghost use Rattle.jup_star.specs.Stars.{link_of, left};
ghost use Rattle.jup_star.specs.declared.messages.Up.TheVariants as up;
ghost use Rattle.jup_star.specs.declared.faults.StarFault.TheVariants as fault;
ghost use Rattle.jup_world.specs.Events as event;
ghost use Rattle.jup_world.specs.declared.events.Reply.TheVariants as answer;
ghost use Rattle.jup_world.specs.Boards.{BoardAttached, BoardLink};
ghost use Rattle.jup_world.specs.Worlds.{attached, outcome};
ghost use Rattle.jup_world.specs.Sound.{IsEntry, SiteHolds, AllLinked};
ghost use Rattle.callers.specs.Crowd.{board, after, pair, crowd, turns_on, told, edited};

use jup_world::worlds_agree;

/// Sites 1 and 2 are at a star over a board of one toggle, and a stranger joins as number 3. What the theorem on worlds says of them:
///
/// - the stranger's edit is one entry of the order, and an acknowledgement of what it was not sent detaches it alone;
/// - once both sites have received the edit, each holds the star's board, where the toggle is on;
/// - an order of one edit is full, and so it detaches site 1 at its first edit;
/// - before the stranger joined, the attached sites were those that had links.
pub fn meet_a_stranger()
    ensures entry { (l : BoardLink) × (link_of 3 (after 2 crowd).star.links ≡ Some l)
        × (let o = outcome board_batches (after 2 crowd) (event.Stray 3 (up.Op turns_on)) in
        IsEntry board_batches (after 2 crowd).star 3 l turns_on o.reply o.star) }
    ensures rejected { (outcome board_batches (after 2 crowd) (event.Stray 3 (up.Ack 1))).star ≡ left 3 (after 2 crowd).star }
    ensures first { (l : BoardLink) × (a : BoardAttached) × (attached 1 (after 2 told).sites ≡ Some a)
        × SiteHolds board_batches (after 2 told) 1 l a × (a.site.board ≡ board true) }
    ensures second { (l : BoardLink) × (a : BoardAttached) × (attached 2 (after 2 told).sites ≡ Some a)
        × SiteHolds board_batches (after 2 told) 2 l a × (a.site.board ≡ board true) }
    ensures full { (outcome board_batches (after 1 edited) (event.Up 1)).reply ≡ answer.Detached fault.LogFull }
    ensures limit { (after 1 edited).star.limit ≤ length (after 1 edited).star.order }
    ensures plain { AllLinked board_batches (after 2 pair) }
{
    worlds_agree();
}
