//! A crowd at one star: what its sites type, and what strangers send. It speaks of the text 1 and the toggle 2 of window 1.

use crate::{Dice, alone};
use jup_batch::{BoardBatch, all_insertions};
use jup_link::Msg;
use jup_seq::SeqOp;
use jup_star::{Star, Up};
use jup_value::{Item, Name};
use jup_window::{Board, BoardOp, Command, Setting, Value, WidgetOp};
use jup_xform::{Batch, NoMemory};
use std::alloc::Global;

// How many items the text has.
fn text_length(board: &Board) -> u32 {
    match board.widget(1, 1) {
        Some(text) => text.item_count(),
        None => 0,
    }
}

// The name of the text's item at a place.
fn name_at(board: &Board, place: u32) -> Option<Name> {
    match board.widget(1, 1) {
        Some(text) => text.name_at(place),
        None => None,
    }
}

// How many edits the star has taken.
fn taken_by(star: &Star) -> u32 {
    u32::try_from(star.order_len()).unwrap_or(u32::MAX)
}

/// An insertion, a deletion or a setting that the board allows.
pub fn any_command(dice: &mut Dice, board: &Board) -> Command {
    let (win, wid) = (1, 1);
    let length = text_length(board);
    match dice.roll(5) {
        0 => Command::Set {
            win,
            wid: 2,
            setting: Setting::Toggle(dice.once_in(2)),
        },
        1 | 2 if length > 0 => Command::Delete {
            win,
            wid,
            place: dice.roll(length),
        },
        _ => Command::Insert {
            win,
            wid,
            place: dice.roll(length.saturating_add(1)),
            value: Value::Char('h'),
        },
    }
}

/// A stranger's link, and what a site in its place would know. Its messages are valid, half valid and senseless.
#[derive(Drop)]
pub struct Stranger {
    /// Its number, or 0 if it has none.
    pub link: u32,
    // Once in so many times it says the next number in place of the right one.
    slips: u32,
    // How many edits the order had at its join.
    since: u32,
    // How many of its edits were taken, how many insertions are in these, and how many edits of others it has heard.
    made: u32,
    named: u32,
    heard: u32,
}

impl Stranger {
    /// One that has no link yet. Once in so many times it says the next number in place of the right one.
    pub fn new(slips: u32) -> Stranger {
        Stranger {
            link: 0,
            slips,
            since: 0,
            made: 0,
            named: 0,
            heard: 0,
        }
    }

    /// It has joined this star, and has a link of this number.
    pub fn joins(&mut self, link: u32, star: &Star) {
        *self = Stranger {
            link,
            slips: self.slips,
            since: taken_by(star),
            made: 0,
            named: 0,
            heard: 0,
        };
    }

    // The number, or sometimes the next.
    fn slips(&self, dice: &mut Dice, number: u32) -> u32 {
        if dice.once_in(self.slips) {
            number.saturating_add(1)
        } else {
            number
        }
    }

    // What it says to have heard: mostly all that has reached it, otherwise less, or one more.
    fn hears(&self, dice: &mut Dice, star: &Star) -> u32 {
        let others = taken_by(star).saturating_sub(self.since);
        let told = others.saturating_sub(self.made);
        if dice.once_in(4) {
            let more = told.saturating_sub(self.heard);
            self.heard.saturating_add(dice.roll(more.saturating_add(2)))
        } else {
            told
        }
    }

    // An insertion into the text, after so many that were taken.
    fn insertion(&self, dice: &mut Dice, board: &Board, named: u32) -> SeqOp<char> {
        let site = self.slips(dice, self.link);
        let number = self.slips(dice, named.saturating_add(1));
        SeqOp::Insert {
            place: dice.roll(text_length(board).saturating_add(2)),
            item: Item {
                name: Name { site, number },
                value: 's',
            },
        }
    }

    // The first operation of an edit: an insertion, the deletion of what is at a place, or nothing.
    fn operation(&self, dice: &mut Dice, board: &Board) -> SeqOp<char> {
        if dice.once_in(40) {
            return SeqOp::Nothing;
        }
        if dice.once_in(3) {
            let place = dice.roll(text_length(board).max(1));
            let from = self.slips(dice, place);
            if let Some(name) = name_at(board, from) {
                return SeqOp::Delete { place, name };
            }
        }
        self.insertion(dice, board, self.named)
    }

    // An edit of one operation, and at times of one more insertion.
    fn batch(&self, alloc: Global, dice: &mut Dice, board: &Board) -> Result<BoardBatch, NoMemory> {
        let first = self.operation(dice, board);
        if !dice.once_in(4) {
            return Ok(alone(alloc, on_text(first)));
        }
        let named = all_insertions(&[on_text(first)]);
        let next = self.insertion(dice, board, self.named.saturating_add(named));
        Batch::from_slice(alloc, &[on_text(first), on_text(next)])
    }

    /// What it sends next to this star: mostly an edit.
    pub fn message(&self, alloc: Global, dice: &mut Dice, star: &Star) -> Result<Up, NoMemory> {
        if dice.once_in(16) {
            return Ok(Up::Ping(dice.roll(100)));
        }
        let heard = self.hears(dice, star);
        if dice.once_in(8) {
            return Ok(Up::Ack(heard));
        }
        let mine = self.slips(dice, self.made);
        let op = self.batch(alloc, dice, star.board())?;
        Ok(Up::Op(Msg { mine, heard, op }))
    }

    /// The star has accepted this message of it.
    pub fn counts(&mut self, up: &Up) {
        match up {
            Up::Op(msg) => {
                let named = all_insertions(msg.op.as_slice());
                self.made = self.made.saturating_add(1);
                self.named = self.named.saturating_add(named);
                self.heard = msg.heard;
            }
            Up::Ack(heard) => self.heard = *heard,
            Up::Ping(_) => {}
        }
    }
}

fn on_text(op: SeqOp<char>) -> BoardOp {
    BoardOp {
        win: 1,
        wid: 1,
        op: WidgetOp::Text(op),
    }
}
