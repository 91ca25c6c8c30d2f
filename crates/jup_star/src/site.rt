//! A site.
ghost use Rattle.std.specs.Prelude.{◌≡◌, ◌≤◌, ◌<◌, true, false, [], ◌∷◌, Ok, Err, length, IfOk, IfErr, OnOk, OnErr, IfSome, IfNone, is_some};
ghost use Rattle.jup_link.specs.Links.{IsNumber, IsCount, opened};
ghost use Rattle.jup_batch.specs.Boards.{BoardBatch, bare, after, edit_of, insertions, IsValid, HasRoom, accepts, board_batches};
ghost use Rattle.jup_window.specs.Operations.{next_name};
ghost use Rattle.jup_window.specs.Commands.{shown};
ghost use Rattle.jup_batch.specs.Laws.Boards.{all_shown};
ghost use Rattle.jup_star.specs.Faults.{fault_of, first_fault};
ghost use Rattle.jup_star.specs.Stars.{operation_at, end_after};
ghost use Rattle.jup_star.specs.Sites.{opened_site, edit_answer, within_bounds, shown_tests, deliver_tests, heard_fault, end_heard, applied, site_open_fault, EditAnswers, DeliverAnswers, IsAdmitted, fault_in, owed_of, shown_after, HandsBack, inserts, Bears, is_edit_memory, is_site_memory};
ghost use Rattle.jup_star.specs.Messages.{UpRelabelsNoText};
ghost use Rattle.jup_star.specs.declared.messages.Down.TheVariants.{Op};

use crate::edits::edits_of;
use crate::ends::{acknowledge, check_counts, copy_of, receive};
use crate::take::fits;
use crate::{Down, OpenFault, SiteFault, Undelivered, Up};
use jup_batch::{BoardBatch, BoardEdits, MOST_COMMANDS, all_insertions, name_all, one_bears_site};
use jup_limits::{HIGHEST_LIMIT, LAST_SITE, MOST_UNACKNOWLEDGED};
use jup_link::{End, Msg};
use jup_setting::SetOp;
use jup_value::Name;
use jup_window::{Board, BoardOp, Command, EditFault, WidgetOp, Within};
use jup_xform::{Batch, NoMemory, Side, Transform};
use std::alloc::Global;
use std::marker::{Model, PhantomData};
use std::slice;

// No operation: the place of one that is still to be named.
const NO_OPERATION: BoardOp = BoardOp {
    win: 0,
    wid: 0,
    op: WidgetOp::Toggle(SetOp::Nothing),
};

/// An edit that a site made, and its message to the star.
#[derive(Drop)]
pub struct Made {
    pub edit: BoardEdits,
    pub up: Up,
}

/// What a site did for a message of the star.
#[derive(Drop)]
pub struct Delivered {
    /// How many messages the site now acknowledges, if it owes that.
    pub owed: Option<u32>,
    /// The operations of another site's edit as this site applied them: transformed past its own edits on their way.
    pub shown: Option<BoardBatch>,
}

/// A client: its board, which shows its own edits immediately and those of others as they come, and its end
/// of the link to the star.
///
/// Contracts see it without the room that it keeps. Memory aside, each call has one reply and leaves one
/// site. A call that is refused because an allocation failed changes nothing.
pub struct Site {
    number: u32,
    limit: u32,
    board: Board,
    end: End<BoardBatch>,
    made: u32,
    named: u32,
    stopped: bool,
    // The checker learns of the types within operations and edits from a field that names them.
    within: PhantomData<(Within, BoardBatch, Msg<BoardBatch>, BoardEdits)>,
}

// Written out: a crate that drops a site then proves one call. It would prove a derived drop again, and those of all parts.
impl Drop for Site {
    fn drop(self) {
        let Site {
            number: _,
            limit: _,
            board: _,
            end: _,
            made: _,
            named: _,
            stopped: _,
            within: _,
        } = self;
    }
}

impl Model for Site {
    ghost use Rattle.jup_batch.specs.Boards.{board_batches};
    ghost use Rattle.jup_star.specs.Sites.{IsSite, BoardSite};

    ghost Value = { BoardSite };

    ghost use Rattle.jup_star.specs.Sites.{bare_site};

    ghost view = { bare_site };

    ghost invariant = { λ s. IsSite board_batches (bare_site s) };
}

impl Site {
    /// A site with the number, the limit and the board that the star gave it. It takes no memory. Refused,
    /// in this order: a limit that is not 1 to 16,777,216, a number that is not 1 to 65,535, and a board
    /// with an item of this site.
    pub fn open(alloc: Global, number: u32, limit: u32, board: Board) -> Result<Site, OpenFault>
        ensures refusal { fault_of result ≡ site_open_fault number limit (bare board) }
        ensures opened { IfOk result (λ site. site ≡ opened_site number limit (bare board)) }
    {
        if limit < 1 || limit > HIGHEST_LIMIT {
            return Err(OpenFault::BadLimit);
        }
        if number < 1 || number > LAST_SITE {
            return Err(OpenFault::BadSite);
        }
        if board.has_site(number) {
            return Err(OpenFault::BadSite);
        }
        Ok(Site {
            number,
            limit,
            board,
            end: End::new(alloc, Side::Client),
            made: 0,
            named: 0,
            stopped: false,
            within: PhantomData,
        })
    }

    /// This site's number.
    pub fn number(&self) -> u32
        ensures { result ≡ self.now.number }
    {
        self.number
    }

    /// What this site shows.
    pub fn board(&self) -> &Board
        ensures { bare result.now ≡ self.now.board }
    {
        &self.board
    }

    /// How many edits of this site the star has not acknowledged.
    pub fn backlog(&self) -> u32
        ensures { result ≡ length self.now.end.outgoing }
    {
        self.end.backlog()
    }

    // Why no edit can be made now, whatever it is.
    fn check_bounds(&self) -> Result<(), EditFault>
        ensures refused { IfErr result (λ fault. (op : BoardBatch) → within_bounds board_batches self.now (Ok op) ≡ Err fault) }
        ensures memory { IfErr result (λ fault. is_edit_memory fault ≡ false) }
        ensures ok { OnOk result ((op : BoardBatch) → within_bounds board_batches self.now (Ok op) ≡ Ok op) }
        ensures room { OnOk result (self.now.made < self.now.limit) }
    {
        if self.end.backlog() >= MOST_UNACKNOWLEDGED {
            return Err(EditFault::Backlog);
        }
        if self.made >= self.limit {
            return Err(EditFault::Spent);
        }
        Ok(())
    }

    // The operations that commands make, as one edit, or the first refusal. One alone takes no memory.
    fn name_batch(&self, alloc: Global, commands: &[Command]) -> Result<BoardBatch, EditFault>
        ensures ok { IfOk result (λ op. edit_answer board_batches commands.now self.now ≡ Ok op) }
        ensures refused { IfErr result (λ fault. EditAnswers commands.now self.now self.now (Err fault)) }
        ensures valid { IfOk result (λ op. IsValid op self.now.board) }
        ensures shown { IfOk result (λ op. after op self.now.board
            ≡ all_shown commands.now self.now.number self.now.named self.now.board) }
        ensures same_length { IfOk result (λ op. length op ≡ length commands.now) }
        ensures room { OnOk result (self.now.made < self.now.limit) }
    {
        if self.stopped {
            return Err(EditFault::Stopped);
        }
        if let [command] = commands {
            let name = Name {
                site: self.number,
                number: self.named + 1,
            };
            let op = self.board.name_it(command, name)?;
            self.check_bounds()?;
            return Ok(Batch::one(op));
        }
        if !(1..=MOST_COMMANDS).contains(&commands.len()) {
            return Err(EditFault::BadBatch);
        }
        self.name_several(alloc, commands)
    }

    // The operations that 1 to 32 commands make. The array of 32 operations is here, since an edit of one command needs none.
    #[inline(never)]
    fn name_several(&self, alloc: Global, commands: &[Command]) -> Result<BoardBatch, EditFault>
        requires running { self.now.stopped ≡ false }
        requires some { 1 ≤ length commands.now }
        requires few { length commands.now ≤ 32 }
        ensures ok { IfOk result (λ op. edit_answer board_batches commands.now self.now ≡ Ok op) }
        ensures refused { IfErr result (λ fault. EditAnswers commands.now self.now self.now (Err fault)) }
        ensures valid { IfOk result (λ op. IsValid op self.now.board) }
        ensures shown { IfOk result (λ op. after op self.now.board
            ≡ all_shown commands.now self.now.number self.now.named self.now.board) }
        ensures same_length { IfOk result (λ op. length op ≡ length commands.now) }
        ensures room { OnOk result (self.now.made < self.now.limit) }
    {
        let mut all = [NO_OPERATION; MOST_COMMANDS];
        let ops = &mut all[..commands.len()];
        name_all(&self.board, commands, self.number, self.named, ops)?;
        self.check_bounds()?;
        Ok(Batch::from_slice(alloc, ops)?)
    }

    /// Takes a message of the star, and answers an acknowledgement if one is then owed. The site shows an
    /// edit immediately.
    ///
    /// Refused, in this order, are:
    ///
    /// - every message at a stopped site;
    /// - of an edit: the wrong count, the wrong acknowledgement, an insertion that bears a name of this site,
    ///   no memory, and an operation that does not fit the board;
    /// - of an acknowledgement: the wrong count.
    ///
    /// Every refusal but `NoMemory` stops the site: its board stays as it was, its link is gone, and it takes
    /// no more.
    pub fn deliver(&mut self, alloc: Global, down: &Down) -> Result<Option<Up>, SiteFault>
        ensures { DeliverAnswers down.now self.old self.new result }
    {
        self.admit(alloc, down)?;
        match down {
            Down::Op(msg) => {
                let delivered = self.show_edit(alloc, copy_of(alloc, msg)?)?;
                Ok(delivered.owed.map(Up::Ack))
            }
            Down::Ack(_) | Down::Pong(_) => Ok(None),
        }
    }

    /// Delivers a message as [`Site::deliver`] does, but takes it and makes no copy of it. It also returns the operations that the
    /// site applied. A copy of the board before the call becomes the board after it by these operations, so a caller that keeps
    /// such a copy compares nothing. If an allocation fails, the message comes back.
    pub fn deliver_shown(&mut self, alloc: Global, down: Down) -> Result<Delivered, Undelivered>
        ensures answer { DeliverAnswers down self.old self.new (owed_of result) }
        ensures operations { IfOk result (λ delivered. delivered.shown ≡ applied board_batches down self.old) }
        ensures shown { IfOk result (λ delivered. self.new.board ≡ shown_after delivered.shown self.old.board) }
        ensures back { IfErr result (HandsBack down self.old self.new) }
        ensures asks { IfErr result (λ refusal. is_site_memory (fault_in refusal) ≡ true → inserts down ≡ true) }
    {
        self.admit(alloc, &down)?;
        match down {
            Down::Op(msg) => self.show_edit(alloc, msg),
            Down::Ack(_) | Down::Pong(_) => Ok(Delivered {
                owed: None,
                shown: None,
            }),
        }
    }

    // Takes a message, except that an edit is still to be shown. A fault stops the site.
    fn admit(&mut self, alloc: Global, down: &Down) -> Result<(), SiteFault>
        ensures refused { IfErr result (λ fault. DeliverAnswers down.now self.old self.new (Err fault)) }
        ensures memory { IfErr result (λ fault. is_site_memory fault ≡ false) }
        ensures admitted { OnOk result (IsAdmitted down.now self.old self.new) }
    {
        if self.stopped {
            return Err(SiteFault::Stopped);
        }
        let heard = hear(self.number, &mut self.end, down);
        if heard.is_err() {
            halt(alloc, &mut self.end, &mut self.stopped);
        }
        heard
    }

    // Shows an edit of another site, if it fits the board.
    fn show_edit(&mut self, alloc: Global, msg: Msg<BoardBatch>) -> Result<Delivered, Undelivered>
        requires { first_fault (deliver_tests board_batches self.old msg) ≡ None }
        ensures answer { DeliverAnswers (Op msg) self.old self.new (owed_of result) }
        ensures operations { IfOk result (λ delivered. delivered.shown ≡ applied board_batches (Op msg) self.old) }
        ensures shown { IfOk result (λ delivered. self.new.board ≡ shown_after delivered.shown self.old.board) }
        ensures back { IfErr result (HandsBack (Op msg) self.old self.new) }
        ensures asks { IfErr result (λ refusal. is_site_memory (fault_in refusal) ≡ true → inserts (Op msg) ≡ true) }
    {
        let Ok(()) = reserve_shown(alloc, &msg.op, &mut self.board) else {
            return Err(Undelivered::NoMemory(Down::Op(msg)));
        };
        let Some(op) = show(&mut self.board, &mut self.end, msg) else {
            halt(alloc, &mut self.end, &mut self.stopped);
            return Err(Undelivered::Fault(SiteFault::BadOp));
        };
        Ok(Delivered {
            owed: acknowledge(&mut self.end),
            shown: Some(op),
        })
    }

    /// Makes the edit of a command: the board shows it immediately, and the message is for the star. Refused,
    /// in this order: the site is stopped, what [`Board::name_it`] refuses, 1,024 edits are not acknowledged,
    /// all edits were made, no memory. A refusal changes nothing.
    pub fn edit(&mut self, alloc: Global, command: &Command) -> Result<Made, EditFault>
        ensures answer { EditAnswers (command.now ∷ []) self.old self.new result }
        ensures shown { OnOk result (self.new.board
            ≡ shown command.now (next_name self.old.number self.old.named) self.old.board) }
        ensures edits { IfOk result (λ made. length made.edit ≡ 1) }
        ensures bears { IfOk result (λ made. Bears made.edit made.up) }
        ensures relabels { IfOk result (λ made. UpRelabelsNoText made.up) }
    {
        self.edit_batch(alloc, slice::from_ref(command))
    }

    /// Makes one edit of 1 to 32 commands, each judged on the board after those before it. The board shows all
    /// of them immediately, and one message is for the star. Refused, in this order, are:
    ///
    /// - a stopped site;
    /// - not 1 to 32 commands;
    /// - a command that [`Board::name_it`] refuses: the first one counts;
    /// - 1,024 edits that are not acknowledged;
    /// - an edit after all edits were made;
    /// - no memory.
    ///
    /// A refusal changes nothing.
    pub fn edit_batch(&mut self, alloc: Global, commands: &[Command]) -> Result<Made, EditFault>
        ensures answer { EditAnswers commands.now self.old self.new result }
        ensures shown { OnOk result (self.new.board ≡ all_shown commands.now self.old.number self.old.named self.old.board) }
        ensures edits { IfOk result (λ made. length made.edit ≡ length commands.now) }
        ensures bears { IfOk result (λ made. Bears made.edit made.up) }
        ensures relabels { IfOk result (λ made. UpRelabelsNoText made.up) }
    {
        let op = self.name_batch(alloc, commands)?;
        let prepared = prepare(alloc, op, &mut self.board, &mut self.end)?;
        prepared.op.apply(&mut self.board);
        self.made += 1;
        self.named += all_insertions(prepared.op.as_slice());
        let msg = self.end.send(prepared.op, prepared.kept);
        Ok(Made {
            edit: prepared.edits,
            up: Up::Op(msg),
        })
    }
}

// Stops a site: its link is gone. It makes and takes nothing more, so it needs nothing of its old end. Its board stays.
fn halt(alloc: Global, end: &mut End<BoardBatch>, stopped: &mut bool)
    ensures end { end.new.link ≡ opened Side.Client }
    ensures stopped { stopped.new ≡ true }
{
    *end = End::new(alloc, Side::Client);
    *stopped = true;
}

// Takes a message at the end of a site, or finds its first fault. The operation of an edit is still to be received.
fn hear(number: u32, end: &mut End<BoardBatch>, down: &Down) -> Result<(), SiteFault>
    ensures fault { fault_of result ≡ heard_fault board_batches number end.old.link down.now }
    ensures ok { OnOk result (end.new.link ≡ end_heard end.old.link down.now) }
{
    match down {
        Down::Op(msg) => check_shown(number, end, msg),
        Down::Ack(heard) => Ok(end.take_ack(*heard)?),
        Down::Pong(_) => Ok(()),
    }
}

// The first fault of an edit of another site, except for that of its operation on the board.
fn check_shown(number: u32, end: &End<BoardBatch>, msg: &Msg<BoardBatch>) -> Result<(), SiteFault>
    ensures { fault_of result ≡ first_fault (shown_tests board_batches number end.now.link msg.now) }
{
    check_counts(end, msg)?;
    if one_bears_site(msg.op.as_slice(), number) {
        return Err(SiteFault::BadName);
    }
    Ok(())
}

// Makes the room that an edit of another site needs.
fn reserve_shown(alloc: Global, op: &BoardBatch, board: &mut Board) -> Result<(), NoMemory>
    ensures board { bare board.new ≡ bare board.old }
    ensures room { OnOk result (HasRoom op.now 0 board.new) }
    ensures inserts { OnErr result (1 ≤ insertions (edit_of op.now)) }
{
    op.reserve(alloc, 0, board)
}

// Receives an edit of another site and applies it, if it fits the board, and answers its operation as it was
// applied. It takes no memory.
fn show(board: &mut Board, end: &mut End<BoardBatch>, msg: Msg<BoardBatch>) -> Option<BoardBatch>
    requires number { IsNumber end.old.link msg.mine }
    requires count { IsCount end.old.link msg.heard }
    requires room { HasRoom msg.op 0 board.old }
    ensures fits { is_some result ≡ accepts (operation_at board_batches end.old.link msg) (bare board.old) }
    ensures end { end.new.link ≡ end_after board_batches end.old.link msg }
    ensures same { IfNone result (bare board.new ≡ bare board.old) }
    ensures op { IfSome result (λ op. op ≡ operation_at board_batches end.old.link msg) }
    ensures shown { IfSome result (λ op. bare board.new ≡ after op (bare board.old)) }
{
    let op = receive(end, msg);
    if !fits(&op, board) {
        return None;
    }
    op.apply(board);
    Some(op)
}

/// An edit of the site as it goes into the queue and into its message, and what it means.
#[derive(Drop)]
struct ReadyEdit {
    op: BoardBatch,
    kept: BoardBatch,
    edits: BoardEdits,
}

// Makes all room and all copies that an edit of the site needs.
fn prepare(
    alloc: Global,
    op: BoardBatch,
    board: &mut Board,
    end: &mut End<BoardBatch>,
) -> Result<ReadyEdit, NoMemory>
    ensures board { bare board.new ≡ bare board.old }
    ensures end { end.new.link ≡ end.old.link }
    ensures board_room { OnOk result (HasRoom op 0 board.new) }
    ensures end_room { OnOk result (1 ≤ end.new.spare) }
    ensures op { IfOk result (λ prepared. prepared.op ≡ op) }
    ensures kept { IfOk result (λ prepared. prepared.kept ≡ op) }
    ensures edits { IfOk result (λ prepared. prepared.edits ≡ edit_of op) }
{
    let kept = op.copy(alloc)?;
    let edits = edits_of(alloc, &op)?;
    op.reserve(alloc, 0, board)?;
    end.reserve_one()?;
    Ok(ReadyEdit { op, kept, edits })
}
