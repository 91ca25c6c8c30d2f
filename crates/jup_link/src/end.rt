//! One end of a link.

ghost use Rattle.std.specs.Prelude.{◌≡◌, ◌+◌, ◌<◌, ◌≤◌, ◌↔◌, length, drop, IsTrue, IsOk, OnOk, OnErr, IfOk, IsErrOf};
ghost use Rattle.std.specs.VecDeque.{deque_capacity};
ghost use Rattle.jup_limits.specs.Limits.{answer_after};
ghost use Rattle.jup_link.specs.Links.{IsCount, IsNumber, opened, generated, after_count, after_send, after_ack, received_operation, after_receive, message, sent};

use crate::{LinkFault, Msg};
use jup_limits::ANSWER_AFTER;
use jup_xform::{NoMemory, Side, Transform, across};
use std::alloc::Global;
use std::collections::VecDeque;
use std::marker::Model;

/// One end of a link: what it counted, and the queue of its operations that are not known to be received.
///
/// Contracts see its `link`, which has all that, and `spare`, the number of operations that the queue
/// has room for.
#[derive(Debug)]
pub struct End<T> {
    side: Side,
    received: u32,
    acknowledged: u32,
    generated: u32,
    unanswered: u32,
    outgoing: VecDeque<T>,
}

// Written out: a crate that drops an end then proves one call. It would prove a derived drop again, and those of all parts.
impl<T: Drop> Drop for End<T> {
    fn drop(self) {
        let End {
            side: _,
            received: _,
            acknowledged: _,
            generated: _,
            unanswered: _,
            outgoing: _,
        } = self;
    }
}

impl<T> Model for End<T> {
    ghost use Rattle.std.specs.Prelude.{ℕ, ◌≡◌, ◌+◌, ◌-◌, ◌≤◌, length};
    ghost use Rattle.std.specs.VecDeque.{deque_len, deque_capacity};
    ghost use Rattle.jup_link.specs.Links.{EndState};

    ghost Value = { EndState T };

    ghost view = { λ e. record {
      link = record {
        side = e.side;
        received = e.received;
        acknowledged = e.acknowledged;
        outgoing = e.outgoing.items;
        unanswered = e.unanswered;
      };
      spare = deque_capacity e.outgoing - deque_len e.outgoing;
    } };

    ghost invariant = { λ e. record {
      counted : e.acknowledged + length e.outgoing.items ≡ e.generated;
      answered : e.unanswered ≤ e.received;
    } };
}

// Drops the oldest entries of a queue.
fn drop_front<T: Drop>(queue: &mut VecDeque<T>, count: u32)
    ensures items { queue.new.items ≡ drop count queue.old.items }
    ensures capacity { deque_capacity queue.new ≡ deque_capacity queue.old }
{
    for _ in 0..count {
        queue.pop_front();
    }
}

impl<T: Transform> End<T> {
    /// A new end of a link on which nothing was sent.
    pub fn new(alloc: Global, side: Side) -> Self
        ensures { result.link ≡ opened side }
    {
        End {
            side,
            received: 0,
            acknowledged: 0,
            generated: 0,
            unanswered: 0,
            outgoing: VecDeque::new(alloc),
        }
    }

    /// Makes room for one operation, so that one [`End::send`] needs no memory.
    pub fn reserve_one(&mut self) -> Result<(), NoMemory>
        ensures ok { OnOk result (1 ≤ self.new.spare) }
        ensures refused { OnErr result (self.old.spare ≡ 0) }
        ensures spare { self.old.spare ≤ self.new.spare }
        ensures link { self.new.link ≡ self.old.link }
    {
        self.outgoing.reserve(1).map_err(|_| NoMemory)
    }

    /// The message of an operation that this end's owner applies; `kept` is a copy of it for the queue.
    /// The message acknowledges what was received, so the end owes nothing afterwards.
    pub fn send(&mut self, op: T, kept: T) -> Msg<T>
        requires same { kept ≡ op }
        requires room { 1 ≤ self.old.spare }
        requires counted { generated self.old.link < u32.MAX }
        ensures sent { sent result ≡ message self.old.link op }
        ensures link { self.new.link ≡ after_send self.old.link op }
        ensures spare { self.new.spare + 1 ≡ self.old.spare }
    {
        let msg = Msg {
            mine: self.generated,
            heard: self.ack(),
            op,
        };
        self.outgoing.push_back_reserved(kept);
        self.generated += 1;
        msg
    }

    /// What [`End::send`] does, with the room and the copy that it needs.
    pub fn generate(&mut self, alloc: Global, op: T) -> Result<Msg<T>, NoMemory>
        requires { generated self.old.link < u32.MAX }
        ensures sent { IfOk result (λ msg. sent msg ≡ message self.old.link op) }
        ensures ok { OnOk result (self.new.link ≡ after_send self.old.link op) }
        ensures err { OnErr result (self.new.link ≡ self.old.link) }
        ensures refused { OnErr result (T.copies_freely op → self.old.spare ≡ 0) }
    {
        let kept = op.copy(alloc)?;
        self.reserve_one()?;
        Ok(self.send(op, kept))
    }

    // Whether the other end may say that it received so many operations of this one.
    fn accepts(&self, heard: u32) -> bool
        ensures { IsTrue result ↔ IsCount self.now.link heard }
    {
        self.acknowledged <= heard && heard <= self.generated
    }

    /// Whether a message may be received now. It is the next one, or else `BadCount`; then its
    /// acknowledgement is one that this end can have, or else `BadAck`.
    pub fn check(&self, msg: &Msg<T>) -> Result<(), LinkFault>
        ensures ok { IsOk result
            ↔ (IsNumber self.now.link msg.now.mine × IsCount self.now.link msg.now.heard) }
        ensures count { IsErrOf result LinkFault.BadCount ↔ (¬ IsNumber self.now.link msg.now.mine) }
        ensures ack { IsErrOf result LinkFault.BadAck
            ↔ (IsNumber self.now.link msg.now.mine × ¬ IsCount self.now.link msg.now.heard) }
    {
        if msg.mine != self.received || self.received == u32::MAX {
            return Err(LinkFault::BadCount);
        }
        if !self.accepts(msg.heard) {
            return Err(LinkFault::BadAck);
        }
        Ok(())
    }

    // Drops the operations that the other end received.
    fn forget(&mut self, heard: u32)
        requires { IsCount self.old.link heard }
        ensures link { self.new.link ≡ after_count self.old.link heard }
        ensures spare { self.old.spare ≤ self.new.spare }
    {
        drop_front(&mut self.outgoing, heard - self.acknowledged);
        self.acknowledged = heard;
    }

    /// The operation of a message as it is to be applied here: moved past the operations of this end that
    /// its sender had not received. Those are moved past it.
    pub fn receive(&mut self, msg: Msg<T>) -> T
        requires number { IsNumber self.old.link msg.mine }
        requires count { IsCount self.old.link msg.heard }
        ensures op { result ≡ received_operation T.Transform self.old.link msg.heard msg.op }
        ensures link { self.new.link ≡ after_receive T.Transform self.old.link msg.heard msg.op }
        ensures spare { self.old.spare ≤ self.new.spare }
    {
        self.forget(msg.heard);
        let mut op = msg.op;
        across(&mut op, self.outgoing.make_contiguous(), self.side);
        self.received += 1;
        self.unanswered += 1;
        op
    }

    /// Takes an acknowledgement: the other end received so many operations of this one. A count below
    /// the last one, or above the number generated, is refused as `BadAck`.
    pub fn take_ack(&mut self, heard: u32) -> Result<(), LinkFault>
        ensures ok { IsOk result ↔ IsCount self.old.link heard }
        ensures refused { IsErrOf result LinkFault.BadAck ↔ (¬ IsCount self.old.link heard) }
        ensures taken { OnOk result (self.new.link ≡ after_count self.old.link heard) }
        ensures same { OnErr result (self.new.link ≡ self.old.link) }
        ensures spare { self.old.spare ≤ self.new.spare }
    {
        if !self.accepts(heard) {
            return Err(LinkFault::BadAck);
        }
        self.forget(heard);
        Ok(())
    }

    /// Whether this end owes an acknowledgement: it received 64 operations since it last sent an
    /// operation or an acknowledgement.
    pub fn owes(&self) -> bool
        ensures { IsTrue result ↔ (answer_after ≤ self.now.link.unanswered) }
    {
        self.unanswered >= ANSWER_AFTER
    }

    /// An acknowledgement to send: how many operations this end received. It owes none afterwards.
    pub fn ack(&mut self) -> u32
        ensures count { result ≡ self.old.link.received }
        ensures link { self.new.link ≡ after_ack self.old.link }
        ensures spare { self.new.spare ≡ self.old.spare }
    {
        self.unanswered = 0;
        self.received
    }

    /// How many operations of this end are not known to be received.
    pub fn backlog(&self) -> u32
        ensures { result ≡ length self.now.link.outgoing }
    {
        self.generated - self.acknowledged
    }
}
