//! What the client's end of a link makes of the server's bytes.
ghost use Rattle.std.specs.Prelude.{◌↔◌, ◌≢◌, ◌<◌, length, IsTrue};
ghost use Rattle.jup_faults.specs.Faults.{fault_number};
ghost use Rattle.jup_lasting.specs.Links.{HearsPiece, HearsIn, HearsNote, HearsText, IsAnswered, Opens, Resumes, Forgets, Loses, EndsBy, IsFinal};

use super::{ClientLink, Heard, Hearing};
use crate::carriage::Carriage;
use crate::edits::count_unsent;
use crate::first_answer::FirstAnswer;
use crate::line_kind::LineKind;
use crate::terms::Terms;
use jup_faults::Fault;
use jup_resume::{Arrival, LineBytes, Note, Took};
use std::alloc::Global;

impl ClientLink {
    /// Hears bytes of the connection up to the end of the first line in them. If the link is cut or over, they are dropped.
    #[tactic(auto, using(crate::proofs::Pieces::brings_shorter, crate::proofs::Pieces::brings_short))]
    pub fn hear<'a>(&mut self, alloc: Global, piece: &'a [u8]) -> Hearing<'a>
        ensures heard { HearsPiece piece.now self.old result.heard result.rest.now self.new }
        ensures shorter { length piece.now ≢ 0 → length result.rest.now < length piece.now }
    {
        let Took { arrival, rest } = self.down.take(piece);
        let heard = self.hear_arrival(alloc, arrival);
        Hearing { heard, rest }
    }

    // Hears what a piece brought.
    fn hear_arrival(&mut self, alloc: Global, arrival: Arrival) -> Heard
        ensures { HearsIn self.old.carriage arrival self.old result self.new }
    {
        match self.carriage {
            Carriage::Asking => self.judge(alloc, FirstAnswer::of(&arrival)),
            Carriage::Carried => match arrival {
                Arrival::Part => Heard::Nothing,
                Arrival::Note(note) => self.hear_note(&note),
                Arrival::Line(text) => self.take_line(text),
                Arrival::LongLine(text) => {
                    self.give_up();
                    Heard::LongLine(text)
                }
            },
            Carriage::Cut | Carriage::Last | Carriage::Over => Heard::Nothing,
        }
    }

    // A note after the server's first line.
    fn hear_note(&mut self, note: &Note) -> Heard
        ensures { HearsNote note.now self.old result self.new }
    {
        match note {
            Note::Got { taken } => match self.up.got(*taken) {
                Ok(()) => Heard::Nothing,
                Err(_) => self.end_by(Fault::BadTaken),
            },
            Note::Hello => self.end_by(Fault::BadVersion),
            Note::Link { .. } | Note::Resume { .. } | Note::Resumed { .. } | Note::Ended { .. } =>
                self.end_by(Fault::BadLine),
        }
    }

    // A line of the link, which is handed on.
    fn take_line(&mut self, text: LineBytes) -> Heard
        ensures { HearsText text self.old result self.new }
    {
        if self.down.taken() == u32::MAX {
            return self.end_by(Fault::LinesSpent);
        }
        self.down.hand_on();
        self.confirming.take(self.down.taken());
        match LineKind::of(text.as_slice()) {
            LineKind::Ready => self.is_ready = true,
            LineKind::Last => {
                self.confirming.end();
                self.carriage = Carriage::Last;
            }
            LineKind::Other => {}
        }
        Heard::Line(text)
    }

    // The server's first line on this connection.
    fn judge(&mut self, alloc: Global, answer: FirstAnswer) -> Heard
        ensures { IsAnswered self.old.terms answer self.old result self.new }
    {
        match self.terms {
            None => self.judge_opening(answer),
            Some(_) => self.judge_resuming(alloc, answer),
        }
    }

    // It answers `hello 4`.
    fn judge_opening(&mut self, answer: FirstAnswer) -> Heard
        ensures { Opens answer self.old result self.new }
    {
        match answer {
            FirstAnswer::Nothing => Heard::Nothing,
            FirstAnswer::Opened(terms) => self.open(terms),
            FirstAnswer::Refused { number } => self.end_with(number),
            FirstAnswer::Resumed { .. } | FirstAnswer::Ended { .. } | FirstAnswer::Strange => {
                self.lose()
            }
        }
    }

    // It answers `resume`.
    fn judge_resuming(&mut self, alloc: Global, answer: FirstAnswer) -> Heard
        ensures { Resumes answer self.old result self.new }
    {
        match answer {
            FirstAnswer::Nothing => Heard::Nothing,
            FirstAnswer::Resumed { taken } => self.go_on(taken),
            FirstAnswer::Ended { taken } => self.end_at(alloc, taken),
            FirstAnswer::Refused { number } if is_final(number) => {
                self.forget(alloc, number, None)
            }
            FirstAnswer::Refused { .. } | FirstAnswer::Opened(_) | FirstAnswer::Strange => {
                self.lose()
            }
        }
    }
}

// What each of these makes of the link.
impl ClientLink {
    // The link is open.
    fn open(&mut self, terms: Terms) -> Heard
        ensures { Opens (FirstAnswer.Opened terms) self.old result self.new }
    {
        if self.up.begin(0).is_err() {
            return self.end_by(Fault::BadTaken);
        }
        self.terms = Some(terms);
        self.carriage = Carriage::Carried;
        Heard::Nothing
    }

    // The link goes on after the lines that the server has taken.
    fn go_on(&mut self, taken: u32) -> Heard
        ensures { Resumes (FirstAnswer.Resumed taken) self.old result self.new }
    {
        if self.up.begin(taken).is_err() {
            return self.end_by(Fault::BadTaken);
        }
        self.confirming.begin();
        self.carriage = Carriage::Carried;
        Heard::Nothing
    }

    // The link is over, and the server knows how many lines had their effect.
    fn end_at(&mut self, alloc: Global, taken: u32) -> Heard
        ensures { Resumes (FirstAnswer.Ended taken) self.old result self.new }
    {
        let mut arrived = None;
        if self.up.begin(taken).is_ok() {
            let lost = count_unsent(&mut self.up);
            arrived = Some(self.edits.saturating_sub(lost));
        }
        self.forget(alloc, Fault::NoSuchLink.number(), arrived)
    }

    // The server does not know the link any more.
    fn forget(&mut self, alloc: Global, number: u32, arrived: Option<u32>) -> Heard
        ensures { Forgets number arrived self.old result self.new }
    {
        if !self.is_ready {
            *self = ClientLink::new(alloc);
            return Heard::Begins;
        }
        self.cut();
        self.arrived = arrived;
        self.end_with(number)
    }

    // The connection does not carry the link.
    fn lose(&mut self) -> Heard
        ensures { Loses self.old result self.new }
    {
        self.cut();
        Heard::Lost
    }

    // The server is at fault.
    fn end_by(&mut self, fault: Fault) -> Heard
        ensures { EndsBy (fault_number fault) self.old result self.new }
    {
        self.end_with(fault.number())
    }

    fn end_with(&mut self, number: u32) -> Heard
        ensures { EndsBy number self.old result self.new }
    {
        self.give_up();
        Heard::Over(number)
    }
}

// Whether the server refuses a `resume` by this number for good.
fn is_final(number: u32) -> bool
    ensures { IsTrue result ↔ IsFinal number }
{
    matches!(number, 35 | 36 | 40 | 42)
}
