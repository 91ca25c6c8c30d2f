//! What may happen in a world, and what each event answers.
ghost use Rattle.std.specs.Prelude.{◌≡◌, ◌↔◌, ◌⊎◌, ◌≤◌, [], IsTrue, IfOk};
ghost use Rattle.std.specs.Vec.{vec_capacity};
ghost use Rattle.jup_world.specs.Insides.{lane_event, most_edits, MakesFew};
ghost use Rattle.jup_world.specs.declared.events.Reply.TheVariants.{Nothing as nothing};

use jup_batch::{BoardEdits, Commands};
use jup_star::StarFault;
use jup_window::{BoardEdit, Command, EditFault};
use jup_xform::NoMemory;
use std::alloc::Global;

/// What may happen in a world.
#[derive(Debug, Drop, PartialEq, Eq)]
pub enum Event<C = Command> {
    /// A site joins.
    Join,
    /// This site leaves. What is on its way from it and to it is lost.
    Leave(u32),
    /// This site edits.
    Edit(u32, C),
    /// This site makes one edit of these commands, each of the board after those before it.
    Batch(u32, Commands),
    /// The star takes the oldest message from this site.
    Up(u32),
    /// This site receives the oldest message to it.
    Down(u32),
    /// This site sends a ping of this number.
    Ping(u32, u32),
    /// Up to so many bytes of this site's up stream are moved to the star's reader.
    PushUp(u32, u32),
    /// Up to so many bytes of this site's down stream are moved to its reader. A stream that has none is
    /// filled first with the oldest message of the site's outbox.
    PushDown(u32, u32),
}

/// What an event answers.
#[derive(Debug, Drop, PartialEq, Eq)]
pub enum Reply<E = BoardEdits, F = EditFault> {
    /// A site of this number joined.
    Joined(u32),
    NoJoin(StarFault),
    Left,
    /// The site made this edit: what each of its operations means.
    Made(E),
    Refused(F),
    /// The edit is at this place of the star's order.
    Taken(u32),
    /// The message was an acknowledgement, a ping or a pong.
    Heard,
    /// The message was refused, and the site is detached.
    Detached(StarFault),
    /// The site received an edit of another site.
    Shown,
    Asked,
    /// So many bytes were moved to a reader.
    Moved(u32),
    /// There is no such site, or no message to it or from it, or no byte was moved.
    Nothing,
}

impl Event {
    /// A copy of the event, whose commands go into a list that has room for them; one alone needs none. It
    /// takes no memory.
    pub fn copy_into(&self, list: Vec<Command>) -> Event
        requires empty { list.items ≡ [] }
        requires room { (most_edits self.now ≤ 1) ⊎ (most_edits self.now ≤ vec_capacity list) }
        ensures { lane_event result ≡ lane_event self.now }
    {
        match self {
            Event::Join => Event::Join,
            Event::Leave(number) => Event::Leave(*number),
            Event::Edit(number, command) => Event::Edit(*number, *command),
            Event::Batch(number, commands) => Event::Batch(*number, commands.copy_into(list)),
            Event::Up(number) => Event::Up(*number),
            Event::Down(number) => Event::Down(*number),
            Event::Ping(number, count) => Event::Ping(*number, *count),
            Event::PushUp(number, most) => Event::PushUp(*number, *most),
            Event::PushDown(number, most) => Event::PushDown(*number, *most),
        }
    }

    /// The most edits that the event may make: one for each command.
    pub fn most_edits(&self) -> usize
        ensures { result ≡ most_edits self.now }
    {
        match self {
            Event::Edit(_, _) => 1,
            Event::Batch(_, commands) => commands.as_slice().len(),
            Event::Join
            | Event::Leave(_)
            | Event::Up(_)
            | Event::Down(_)
            | Event::Ping(_, _)
            | Event::PushUp(_, _)
            | Event::PushDown(_, _) => 0,
        }
    }
}

/// An empty list with room for so many, made before an event whose commands or edits are to be copied; one
/// alone needs none.
pub fn room_for<T: Drop>(alloc: Global, most: usize) -> Result<Vec<T>, NoMemory>
    ensures empty { IfOk result (λ list. list.items ≡ []) }
    ensures room { IfOk result (λ list. (most ≤ 1) ⊎ (most ≤ vec_capacity list)) }
{
    let mut list = Vec::new(alloc);
    if most > 1 {
        list.reserve(most).map_err(|_| NoMemory)?;
    }
    Ok(list)
}

impl Reply {
    /// A copy of the reply, whose edits go into a list that has room for them; one alone needs none. It takes
    /// no memory.
    pub fn copy_into(&self, list: Vec<BoardEdit>) -> Reply
        requires empty { list.items ≡ [] }
        requires room { MakesFew self.now (vec_capacity list) }
        ensures { result ≡ self.now }
    {
        match self {
            Reply::Joined(number) => Reply::Joined(*number),
            Reply::NoJoin(fault) => Reply::NoJoin(*fault),
            Reply::Left => Reply::Left,
            Reply::Made(edits) => Reply::Made(edits.copy_into(list)),
            Reply::Refused(fault) => Reply::Refused(*fault),
            Reply::Taken(place) => Reply::Taken(*place),
            Reply::Heard => Reply::Heard,
            Reply::Detached(fault) => Reply::Detached(*fault),
            Reply::Shown => Reply::Shown,
            Reply::Asked => Reply::Asked,
            Reply::Moved(count) => Reply::Moved(*count),
            Reply::Nothing => Reply::Nothing,
        }
    }

    /// Whether there was no such site, or no message to it or from it, or no byte was moved.
    pub fn is_nothing(&self) -> bool
        ensures { IsTrue result ↔ (self.now ≡ nothing) }
    {
        match self {
            Reply::Nothing => true,
            Reply::Joined(_)
            | Reply::NoJoin(_)
            | Reply::Left
            | Reply::Made(_)
            | Reply::Refused(_)
            | Reply::Taken(_)
            | Reply::Heard
            | Reply::Detached(_)
            | Reply::Shown
            | Reply::Asked
            | Reply::Moved(_) => false,
        }
    }
}

/// An event with its reply.
#[derive(Debug, Drop, PartialEq, Eq)]
pub struct Happened<C = Command, E = BoardEdits, F = EditFault> {
    pub event: Event<C>,
    pub reply: Reply<E, F>,
}
