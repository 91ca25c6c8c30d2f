//! Messages that wait to be fetched.
ghost use Rattle.std.specs.Prelude.{◌≡◌, ℕ, ◌+◌, ◌≤◌, [], ◌∷◌, ◌++◌, length, take, drop, All, IfSome, OnOk, OnErr, IfOk, vec_len};
ghost use Rattle.std.specs.VecDeque.{deque_len, deque_capacity};
ghost use Rattle.std.specs.Vec.{vec_capacity};
ghost use Rattle.std.specs.Option.{option_to_list};
ghost use Rattle.jup_star.specs.Messages.{DownRelabelsNoText};

use crate::Down;
use jup_batch::BoardBatch;
use jup_link::Msg;
use jup_window::Within;
use jup_xform::NoMemory;
use std::alloc::Global;
use std::collections::VecDeque;
use std::marker::{Model, PhantomData};

/// Messages down, oldest first. Contracts see the list. None relabels a text.
#[derive(Drop)]
pub struct Downs {
    messages: Vec<Down>,
}

impl Model for Downs {
    ghost use Rattle.std.specs.Prelude.{List, All};
    ghost use Rattle.jup_batch.specs.Boards.{BoardBatch};
    ghost use Rattle.jup_star.specs.declared.messages.Down.{Down};
    ghost use Rattle.jup_star.specs.Messages.{DownRelabelsNoText};

    ghost Value = { List (Down BoardBatch) };

    ghost view = { λ d. d.messages.items };

    ghost invariant = { λ d. All DownRelabelsNoText d.messages.items };
}

impl Downs {
    /// The messages. It takes no memory.
    pub fn into_messages(self) -> Vec<Down>
        ensures messages { result.items ≡ self }
        ensures relabels { All DownRelabelsNoText result.items }
    {
        self.messages
    }

    /// The messages.
    pub fn as_slice(&self) -> &[Down]
        ensures messages { result.now ≡ self.now }
        ensures relabels { All DownRelabelsNoText result.now }
    {
        &self.messages
    }
}

/// The messages of a link that were not fetched yet, oldest first. Contracts see them, and `spare`, the
/// number of further messages that there is room for. None relabels a text.
#[derive(Drop)]
pub(crate) struct Outbox {
    messages: VecDeque<Down>,
    // The checker learns of the types within a message from a field that names them.
    within: PhantomData<(Within, BoardBatch, Msg<BoardBatch>)>,
}

impl Model for Outbox {
    ghost use Rattle.std.specs.Prelude.{◌-◌, All};
    ghost use Rattle.std.specs.VecDeque.{deque_len, deque_capacity};
    ghost use Rattle.jup_batch.specs.Boards.{BoardBatch};
    ghost use Rattle.jup_star.specs.Messages.{OutboxState, DownRelabelsNoText};

    ghost Value = { OutboxState BoardBatch };

    ghost view = { λ o. record { messages = o.messages.items; spare = deque_capacity o.messages - deque_len o.messages } };

    ghost invariant = { λ o. All DownRelabelsNoText o.messages.items };
}

// Moves the first `count` elements of a queue to the end of a list that has room for them.
fn move_front<T>(from: &mut VecDeque<T>, into: &mut Vec<T>, count: usize)
    requires room { vec_len into.old + count ≤ vec_capacity into.old }
    ensures into { into.new.items ≡ into.old.items ++ take count from.old.items }
    ensures from { from.new.items ≡ drop count from.old.items }
{
    for _ in 0..count {
        match from.pop_front() {
            Some(element) => into.push_reserved(element),
            None => {}
        }
    }
}

impl Outbox {
    pub(crate) fn new(alloc: Global) -> Outbox
        ensures { result.messages ≡ [] }
    {
        Outbox {
            messages: VecDeque::new(alloc),
            within: PhantomData,
        }
    }

    pub(crate) fn len(&self) -> usize
        ensures { result ≡ length self.now.messages }
    {
        self.messages.len()
    }

    // Makes room for one message.
    pub(crate) fn reserve_one(&mut self) -> Result<(), NoMemory>
        ensures ok { OnOk result (1 ≤ self.new.spare) }
        ensures same { self.new.messages ≡ self.old.messages }
        ensures refused_without_room { OnErr result (self.old.spare ≡ 0) }
    {
        self.messages.reserve(1).map_err(|_| NoMemory)
    }

    // Puts a message at the end. It takes no memory.
    pub(crate) fn push(&mut self, message: Down)
        requires room { 1 ≤ self.old.spare }
        requires relabels { DownRelabelsNoText message }
        ensures { self.new.messages ≡ self.old.messages ++ message ∷ [] }
    {
        self.messages.push_back_reserved(message);
    }

    // Moves the oldest message out, if there is one. It takes no memory.
    pub(crate) fn fetch_one(&mut self) -> Option<Down>
        ensures fetched { option_to_list result ≡ take 1 self.old.messages }
        ensures relabels { IfSome result DownRelabelsNoText }
        ensures rest { self.new.messages ≡ drop 1 self.old.messages }
    {
        self.messages.pop_front()
    }

    // Moves up to `max` of the oldest messages out.
    pub(crate) fn fetch(&mut self, alloc: Global, max: u32) -> Result<Downs, NoMemory>
        ensures fetched { IfOk result (λ downs. downs ≡ take max self.old.messages) }
        ensures ok { OnOk result (self.new.messages ≡ drop max self.old.messages) }
        ensures err { OnErr result (self.new.messages ≡ self.old.messages) }
        ensures some { OnErr result ((1 ≤ max) × (1 ≤ length self.old.messages)) }
    {
        let count = self.messages.len().min(max as usize);
        let mut messages = Vec::new(alloc);
        messages.reserve(count).map_err(|_| NoMemory)?;
        move_front(&mut self.messages, &mut messages, count);
        Ok(Downs { messages })
    }
}
