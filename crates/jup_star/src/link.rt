//! The star's end of a link to a site.
ghost use Rattle.std.specs.Prelude.{◌≡◌, ◌≤◌, ◌<◌, length, take, IsTrue, IfSome, OnOk, OnErr, IfOk};
ghost use Rattle.jup_link.specs.Links.{IsNumber, IsCount, generated};
ghost use Rattle.jup_batch.specs.Boards as board;
ghost use Rattle.jup_batch.specs.Boards.{board_batches};
ghost use Rattle.jup_star.specs.Faults.{first_fault, fault_of};
ghost use Rattle.std.specs.Option.{option_to_list, IsSomeAnd};
ghost use Rattle.jup_limits.specs.Limits.{most_ordered};
ghost use Rattle.jup_star.specs.Stars.{opened_link, link_acked, link_ponged, link_fetched, link_sent, link_heard, operation_at, early_fault, edit_tests, ack_tests, log_tests, bare_link, HasRoom};
ghost use Rattle.jup_star.specs.Messages.{RelabelNoText, DownRelabelsNoText};

use crate::ends::{acknowledge, check_counts, lone, receive};
use crate::outbox::Outbox;
use crate::{Down, Downs, StarFault};
use jup_batch::{BoardBatch, all_insertions, bear_next, one_is_nothing};
use jup_link::{End, Msg};
use jup_xform::{Batch, NoMemory, Side, Transform};
use std::alloc::Global;

/// The star's end of a link: its site, what is to be fetched, and the insertions taken from the site.
#[derive(Drop)]
pub(crate) struct Link {
    pub(crate) site: u32,
    pub(crate) end: End<BoardBatch>,
    pub(crate) outbox: Outbox,
    pub(crate) named: u32,
    pub(crate) copies: Option<Copies>,
}

/// Copies of a batch that is about to be sent: one for the queue, and one for the message. They are made while an
/// allocation may still fail, and written over with the batch as it is then sent. One of a single operation needs none.
#[derive(Drop)]
pub(crate) struct Copies {
    pub(crate) kept: BoardBatch,
    pub(crate) sent: BoardBatch,
}

// The fault of an edit for which the order has no room.
fn check_log(limit: u32, count: usize) -> Result<(), StarFault>
    ensures { fault_of result ≡ first_fault (log_tests limit count) }
{
    if count >= limit as usize {
        return Err(StarFault::LogFull);
    }
    Ok(())
}

// Copies of an operation.
fn copies_of(alloc: Global, op: &BoardBatch) -> Result<Copies, NoMemory>
    ensures { IfOk result (λ copies. (copies.kept ≡ op.now) × (copies.sent ≡ op.now)) }
{
    Ok(Copies {
        kept: op.copy(alloc)?,
        sent: op.copy(alloc)?,
    })
}

// The copies by which a batch is sent, written over those that were made.
fn write_copies(made: &mut Option<Copies>, op: &BoardBatch) -> Copies
    requires { IsSomeAnd made.old (λ c. (board.shape op.now ≡ board.shape c.kept) × (board.shape op.now ≡ board.shape c.sent)) }
    ensures { (result.kept ≡ op.now) × (result.sent ≡ op.now) }
{
    let Some(mut copies) = made.take() else {
        unreachable!()
    };
    op.write_to(&mut copies.kept);
    op.write_to(&mut copies.sent);
    copies
}

impl Link {
    pub(crate) fn new(alloc: Global, site: u32) -> Link
        ensures { bare_link result ≡ opened_link site }
    {
        Link {
            site,
            end: End::new(alloc, Side::Server),
            outbox: Outbox::new(alloc),
            named: 0,
            copies: None,
        }
    }

    // Makes room for one message and one operation, and the copies that this needs.
    #[tactic(auto, using(crate::proofs::Relabels::length_shape))]
    pub(crate) fn reserve(&mut self, alloc: Global, op: &BoardBatch) -> Result<(), NoMemory>
        ensures room { OnOk result (HasRoom (board.shape op.now) self.new) }
        ensures same { bare_link self.new ≡ bare_link self.old }
    {
        self.outbox.reserve_one()?;
        self.end.reserve_one()?;
        if lone(op).is_none() {
            self.copies = Some(copies_of(alloc, op)?);
        }
        Ok(())
    }

    // The first fault of an edit, except for that of its operation on the board.
    pub(crate) fn check(
        &self,
        limit: u32,
        count: usize,
        msg: &Msg<BoardBatch>,
    ) -> Result<(), StarFault>
        requires named { self.now.named ≤ most_ordered }
        ensures { fault_of result ≡ early_fault board_batches limit count (bare_link self.now) msg.now }
    {
        check_counts(&self.end, msg)?;
        self.check_edit(&msg.op)?;
        check_log(limit, count)
    }

    // The first fault of what an edit means.
    fn check_edit(&self, op: &BoardBatch) -> Result<(), StarFault>
        requires { self.now.named ≤ most_ordered }
        ensures { fault_of result ≡ first_fault (edit_tests board_batches (bare_link self.now) (board.edit_of op.now)) }
    {
        if one_is_nothing(op.as_slice()) {
            return Err(StarFault::NotAnEdit);
        }
        if !bear_next(op.as_slice(), self.site, self.named) {
            return Err(StarFault::BadName);
        }
        Ok(())
    }

    // Takes an acknowledgement.
    pub(crate) fn take_ack(&mut self, heard: u32) -> Result<(), StarFault>
        ensures fault { fault_of result ≡ first_fault (ack_tests self.old.end.link heard) }
        ensures count { OnOk result (IsCount self.old.end.link heard) }
        ensures ok { OnOk result (bare_link self.new ≡ link_acked heard (bare_link self.old)) }
        ensures err { OnErr result (bare_link self.new ≡ bare_link self.old) }
    {
        self.end.take_ack(heard)?;
        Ok(())
    }

    // Receives an edit, and acknowledges what is then owed. The operation is to be applied to the board.
    pub(crate) fn hear(&mut self, msg: Msg<BoardBatch>) -> BoardBatch
        requires number { IsNumber self.old.end.link msg.mine }
        requires count { IsCount self.old.end.link msg.heard }
        requires room { 1 ≤ self.old.outbox.spare }
        requires named { self.old.named ≤ most_ordered }
        ensures op { result ≡ operation_at board_batches self.old.end.link msg }
        ensures link { bare_link self.new ≡ link_heard board_batches msg (bare_link self.old) }
    {
        self.named += all_insertions(msg.op.as_slice());
        let op = receive(&mut self.end, msg);
        if let Some(heard) = acknowledge(&mut self.end) {
            self.outbox.push(Down::Ack(heard));
        }
        op
    }

    // Puts the answer to a ping into the outbox.
    pub(crate) fn pong(&mut self, count: u32) -> Result<(), NoMemory>
        ensures ok { OnOk result (bare_link self.new ≡ link_ponged count (bare_link self.old)) }
        ensures err { OnErr result (bare_link self.new ≡ bare_link self.old) }
    {
        self.outbox.reserve_one()?;
        self.outbox.push(Down::Pong(count));
        Ok(())
    }

    // Sends an operation to the site.
    #[tactic(auto, using(crate::proofs::Relabels::copies_made))]
    pub(crate) fn send(&mut self, op: &BoardBatch)
        requires relabels { RelabelNoText op.now }
        requires room { HasRoom (board.shape op.now) self.old }
        requires counted { generated self.old.end.link < 4294967295 }
        ensures { bare_link self.new ≡ link_sent op.now (bare_link self.old) }
    {
        let copies = match lone(op) {
            Some(one) => Copies {
                kept: Batch::one(*one),
                sent: Batch::one(*one),
            },
            None => write_copies(&mut self.copies, op),
        };
        let msg = self.end.send(copies.sent, copies.kept);
        self.outbox.push(Down::Op(msg));
    }

    // Moves the oldest message out of the outbox, if there is one. It takes no memory.
    pub(crate) fn fetch_one(&mut self) -> Option<Down>
        ensures fetched { option_to_list result ≡ take 1 (bare_link self.old).outbox }
        ensures relabels { IfSome result DownRelabelsNoText }
        ensures link { bare_link self.new ≡ link_fetched 1 (bare_link self.old) }
    {
        self.outbox.fetch_one()
    }

    // Moves up to `max` of the oldest messages out of the outbox.
    pub(crate) fn fetch(&mut self, alloc: Global, max: u32) -> Result<Downs, NoMemory>
        ensures fetched { IfOk result (λ downs. downs ≡ take max (bare_link self.old).outbox) }
        ensures ok { OnOk result (bare_link self.new ≡ link_fetched max (bare_link self.old)) }
        ensures err { OnErr result (bare_link self.new ≡ bare_link self.old) }
        ensures some { OnErr result ((1 ≤ max) × (1 ≤ length (bare_link self.old).outbox)) }
    {
        self.outbox.fetch(alloc, max)
    }

    // How many messages wait to be fetched.
    pub(crate) fn waiting(&self) -> usize
        ensures { result ≡ length (bare_link self.now).outbox }
    {
        self.outbox.len()
    }
}
