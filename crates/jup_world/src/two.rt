//! Two ends of a link over one text, edited and delivered by hand: the protocol by itself.
ghost use Rattle.std.specs.Prelude.{◌≡◌, ℕ, ◌↔◌, ◌+◌, ◌<◌, ◌≤◌, [], ◌++◌, length, map, false, Ok, IsTrue, OnOk, OnErr, IfOk};
ghost use Rattle.std.specs.VecDeque.{deque_len, deque_capacity};
ghost use Rattle.jup_limits.specs.Limits.{highest_limit, longest_input};
ghost use Rattle.jup_value.specs.Items.{has_name};
ghost use Rattle.jup_seq.specs.Operations.{HasRoom};
ghost use Rattle.jup_link.specs.Links.{generated, link_after, state_after, owed, answered, AcceptsMessage, AcceptsNext};
ghost use Rattle.jup_world.specs.Twos.{texts, plain, carried, HasRoomFor, HasRoomForNext, two_operation, edit_reply, edited, sent_by, move_reply, delivered, left_of, sent_back, two_reply, two_after, named_from, opened_end, opened_two, insertions, AreInStep};

use jup_limits::{HIGHEST_LIMIT, LONGEST_SEQUENCE};
use jup_link::{End, Msg};
use jup_seq::{SeqOp, TextOp};
use jup_value::{Item, Name, Seq};
use jup_window::EditFault;
use jup_xform::{NoMemory, Side, Transform};
use std::alloc::Global;
use std::collections::VecDeque;
use std::fmt;
use std::marker::Model;

/// The sites whose names the two ends give to the items that they insert.
const CLIENT: u32 = 1;

const SERVER: u32 = 2;

/// An edit of a text, at a place counted from 0.
#[derive(Clone, Copy, Debug, PartialEq, Eq)]
pub enum TwoEdit {
    Insert(u32, char),
    Delete(u32),
}

/// What may happen: an end makes an edit, or the oldest message is delivered to the server or to the
/// client.
#[derive(Clone, Copy, Debug, PartialEq, Eq)]
pub enum TwoEvent {
    Client(TwoEdit),
    Server(TwoEdit),
    Up,
    Down,
}

/// What an event answers: of a delivery `Nothing` if no message is on its way.
#[derive(Clone, Copy, Debug, PartialEq, Eq)]
pub enum TwoReply {
    Made,
    Refused(EditFault),
    Moved,
    Nothing,
}

impl fmt::Display for TwoReply {
    fn fmt<W: fmt::Write>(&self, f: &mut fmt::Formatter<W>) -> fmt::Result {
        match self {
            TwoReply::Made => write!(f, "made"),
            TwoReply::Refused(fault) => {
                let number = fault.number();
                write!(f, "refused {number}")
            }
            TwoReply::Moved => write!(f, "moved"),
            TwoReply::Nothing => write!(f, "nothing"),
        }
    }
}

// What travels between the ends.
#[derive(Drop)]
enum Travelling {
    Op(Msg<TextOp>),
    Ack(u32),
}

// An end with its text, and how many edits, and insertions among them, it has made.
#[derive(Drop)]
struct TextEnd {
    link: End<TextOp>,
    text: Seq<char>,
    made: u32,
    inserted: u32,
}

impl TextEnd {
    // The operation of an edit, or the first refusal that is due.
    fn operation(&self, site: u32, edit: &TwoEdit) -> Result<TextOp, EditFault>
        requires { self.now.inserted < 4294967295 }
        ensures { result ≡ two_operation site (plain self.now) edit.now }
    {
        match *edit {
            TwoEdit::Insert(place, value) => {
                if place > self.text.len() {
                    return Err(EditFault::BadPlace);
                }
                if self.text.len() >= LONGEST_SEQUENCE {
                    return Err(EditFault::LongText);
                }
                if self.made >= HIGHEST_LIMIT {
                    return Err(EditFault::Spent);
                }
                let name = Name {
                    site,
                    number: self.inserted + 1,
                };
                Ok(SeqOp::Insert {
                    place,
                    item: Item { name, value },
                })
            }
            TwoEdit::Delete(place) => {
                let Some(item) = self.text.get(place) else {
                    return Err(EditFault::BadPlace);
                };
                if self.made >= HIGHEST_LIMIT {
                    return Err(EditFault::Spent);
                }
                Ok(SeqOp::Delete {
                    place,
                    name: item.name,
                })
            }
        }
    }
}

// How many items an operation inserts.
fn insertions(op: &TextOp) -> u32
    ensures { result ≡ insertions op.now }
{
    match op {
        SeqOp::Insert { .. } => 1,
        SeqOp::Delete { .. } | SeqOp::Relabel { .. } | SeqOp::Nothing => 0,
    }
}

// An end makes an edit: it applies it immediately, and its message goes last into the stream.
fn make(
    alloc: Global,
    end: &mut TextEnd,
    site: u32,
    edit: &TwoEdit,
    out: &mut VecDeque<Travelling>,
) -> Result<TwoReply, NoMemory>
    requires few { end.old.made ≤ highest_limit }
    requires some { end.old.inserted ≤ end.old.made }
    requires counted { generated end.old.link.link < 4294967295 }
    requires fresh { has_name (record { site = site; number = end.old.inserted + 1 }) end.old.text.items ≡ false }
    ensures reply { IfOk result (λ reply. reply ≡ edit_reply (two_operation site (plain end.old) edit.now)) }
    ensures end { OnOk result (plain end.new ≡ edited (plain end.old) (two_operation site (plain end.old) edit.now)) }
    ensures out { OnOk result (map carried out.new.items
        ≡ map carried out.old.items ++ sent_by (plain end.old) (two_operation site (plain end.old) edit.now)) }
    ensures same_end { OnErr result (plain end.new ≡ plain end.old) }
    ensures same_out { OnErr result (map carried out.new.items ≡ map carried out.old.items) }
{
    let op = match end.operation(site, edit) {
        Ok(op) => op,
        Err(fault) => return Ok(TwoReply::Refused(fault)),
    };
    out.reserve(1).map_err(|_| NoMemory)?;
    op.reserve(alloc, 0, &mut end.text)?;
    let msg = end.link.generate(alloc, op)?;
    op.apply(&mut end.text);
    out.push_back_reserved(Travelling::Op(msg));
    end.made += 1;
    end.inserted += insertions(&op);
    Ok(TwoReply::Made)
}

// Makes room for the operation that comes next.
fn reserve_next(
    alloc: Global,
    stream: &VecDeque<Travelling>,
    text: &mut Seq<char>,
) -> Result<(), NoMemory>
    ensures room { OnOk result (HasRoomForNext stream.now.items text.new) }
    ensures same { text.new.items ≡ text.old.items }
{
    if let Some(Travelling::Op(msg)) = stream.front() {
        msg.op.reserve(alloc, 0, text)?;
    }
    Ok(())
}

// Delivers a message to an end.
fn take(end: &mut TextEnd, message: Travelling)
    requires accepted { AcceptsMessage texts end.old.link.link (plain end.old).text (carried message) }
    requires room { HasRoomFor message end.old.text }
    ensures link { end.new.link.link ≡ link_after texts end.old.link.link (carried message) }
    ensures text { (plain end.new).text ≡ state_after texts end.old.link.link (plain end.old).text (carried message) }
    ensures made { end.new.made ≡ end.old.made }
    ensures inserted { end.new.inserted ≡ end.old.inserted }
{
    match message {
        Travelling::Op(msg) => {
            let op = end.link.receive(msg);
            op.apply(&mut end.text);
        }
        Travelling::Ack(heard) => {
            let _taken = end.link.take_ack(heard);
        }
    }
}

// Sends the acknowledgement that an end owes, if it owes one.
fn answer(link: &mut End<TextOp>, stream: &mut VecDeque<Travelling>)
    requires { deque_len stream.old < deque_capacity stream.old }
    ensures link { link.new.link ≡ answered link.old.link }
    ensures stream { map carried stream.new.items ≡ map carried stream.old.items ++ owed link.old.link }
{
    if link.owes() {
        stream.push_back_reserved(Travelling::Ack(link.ack()));
    }
}

// Delivers the oldest message, if there is one.
fn deliver(
    alloc: Global,
    stream: &mut VecDeque<Travelling>,
    end: &mut TextEnd,
    back: &mut VecDeque<Travelling>,
) -> Result<TwoReply, NoMemory>
    requires { AcceptsNext texts end.old.link.link (plain end.old).text (map carried stream.old.items) }
    ensures reply { IfOk result (λ reply. reply ≡ move_reply (map carried stream.old.items)) }
    ensures end { OnOk result (plain end.new ≡ delivered (plain end.old) (map carried stream.old.items)) }
    ensures stream { OnOk result (map carried stream.new.items ≡ left_of (map carried stream.old.items)) }
    ensures back { OnOk result (map carried back.new.items
        ≡ map carried back.old.items ++ sent_back (plain end.old) (map carried stream.old.items)) }
    ensures same_end { OnErr result (plain end.new ≡ plain end.old) }
    ensures same_stream { OnErr result (map carried stream.new.items ≡ map carried stream.old.items) }
    ensures same_back { OnErr result (map carried back.new.items ≡ map carried back.old.items) }
{
    reserve_next(alloc, stream, &mut end.text)?;
    back.reserve(1).map_err(|_| NoMemory)?;
    let Some(message) = stream.pop_front() else {
        return Ok(TwoReply::Nothing);
    };
    take(end, message);
    answer(&mut end.link, back);
    Ok(TwoReply::Moved)
}

// The characters as items of site 0, numbered from 1.
fn named_text(alloc: Global, start: &[char]) -> Result<Seq<char>, NoMemory>
    requires { length start.now ≤ longest_input }
    ensures { IfOk result (λ text. text.items ≡ named_from 1 start.now) }
{
    let mut text = Seq::new(alloc);
    for (at, value) in start.iter().enumerate() {
        text.reserve_one().map_err(|_| NoMemory)?;
        let at = at as u32;
        let name = Name {
            site: 0,
            number: at + 1,
        };
        text.insert(
            at,
            Item {
                name,
                value: *value,
            },
        );
    }
    Ok(text)
}

fn open_end(alloc: Global, side: Side, start: &[char]) -> Result<TextEnd, NoMemory>
    requires { length start.now ≤ longest_input }
    ensures { IfOk result (λ end. plain end ≡ opened_end side start.now) }
{
    let text = named_text(alloc, start)?;
    Ok(TextEnd {
        link: End::new(alloc, side),
        text,
        made: 0,
        inserted: 0,
    })
}

/// A client's and a server's end of one link, each with its copy of a text, and the messages on their
/// way between them. The client's items are named 1.1, 1.2 and so on, the server's 2.1, 2.2 and so on.
#[derive(Drop)]
pub struct Two {
    client: TextEnd,
    server: TextEnd,
    up: VecDeque<Travelling>,
    down: VecDeque<Travelling>,
}

impl Model for Two {
    ghost use Rattle.jup_world.specs.Twos.{TwoState, IsTwo};

    ghost Value = { TwoState };

    ghost use Rattle.jup_world.specs.Twos.{bare_two};

    ghost view = { bare_two };

    ghost invariant = { λ t. IsTwo (bare_two t) };
}

impl Two {
    /// Two new ends over one text, whose items are named 0.1, 0.2 and so on.
    pub fn open(alloc: Global, start: &[char]) -> Result<Two, NoMemory>
        requires { length start.now ≤ longest_input }
        ensures { IfOk result (λ two. two ≡ opened_two start.now) }
    {
        Ok(Two {
            client: open_end(alloc, Side::Client, start)?,
            server: open_end(alloc, Side::Server, start)?,
            up: VecDeque::new(alloc),
            down: VecDeque::new(alloc),
        })
    }

    /// Plays one event. An edit is made exactly if none of its refusals holds. They are, in this order, a
    /// place past the end (4), an insertion into a text of 65,536 items or more (6), and 16,777,216 edits
    /// made (9). A delivery moves the oldest message, and sends the acknowledgement that is then owed. If an
    /// allocation fails, nothing has changed.
    pub fn step(&mut self, alloc: Global, event: &TwoEvent) -> Result<TwoReply, NoMemory>
        ensures reply { IfOk result (λ reply. reply ≡ two_reply self.old event.now) }
        ensures ok { OnOk result (self.new ≡ two_after self.old event.now) }
        ensures err { OnErr result (self.new ≡ self.old) }
    {
        match event {
            TwoEvent::Client(edit) => make(alloc, &mut self.client, CLIENT, edit, &mut self.up),
            TwoEvent::Server(edit) => make(alloc, &mut self.server, SERVER, edit, &mut self.down),
            TwoEvent::Up => deliver(alloc, &mut self.up, &mut self.server, &mut self.down),
            TwoEvent::Down => deliver(alloc, &mut self.down, &mut self.client, &mut self.up),
        }
    }

    /// What the client shows.
    pub fn client(&self) -> &Seq<char>
        ensures { result.now.items ≡ self.now.client.text.items }
    {
        &self.client.text
    }

    /// What the server shows.
    pub fn server(&self) -> &Seq<char>
        ensures { result.now.items ≡ self.now.server.text.items }
    {
        &self.server.text
    }

    /// Whether no message is on its way. Both ends then show one text; and whether or not, they are in
    /// step.
    pub fn quiet(&self) -> bool
        ensures quiet { IsTrue result ↔ ((self.now.up ≡ []) × (self.now.down ≡ [])) }
        ensures equal { IsTrue result → self.now.client.text ≡ self.now.server.text }
        ensures in_step { AreInStep self.now }
    {
        self.up.is_empty() && self.down.is_empty()
    }
}
