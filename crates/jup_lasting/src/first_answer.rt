//! What the server's first line on a connection says.
ghost use Rattle.jup_lasting.specs.Answers.{Says, SaysNote, SaysText};

use crate::line_kind::error_number;
use crate::terms::{MOST_SECONDS, Terms};
use jup_resume::{Arrival, Note};

/// What the server's first line on a connection says.
#[derive(Clone, Copy)]
pub(crate) enum FirstAnswer {
    /// It has not come whole.
    Nothing,
    /// A link is open.
    Opened(Terms),
    /// The link goes on. The server has taken so many lines.
    Resumed { taken: u32 },
    /// The link is over, and so many lines had their effect.
    Ended { taken: u32 },
    /// `error N`.
    Refused { number: u32 },
    /// Something else than a server has answered.
    Strange,
}

impl FirstAnswer {
    /// What came of the first line says this.
    pub(crate) fn of(arrival: &Arrival) -> FirstAnswer
        ensures { Says arrival.now result }
    {
        match arrival {
            Arrival::Part => FirstAnswer::Nothing,
            Arrival::Note(note) => of_note(note),
            Arrival::Line(text) => of_text(text.as_slice()),
            Arrival::LongLine(_) => FirstAnswer::Strange,
        }
    }
}

fn of_note(note: &Note) -> FirstAnswer
    ensures { SaysNote note.now result }
{
    match note {
        Note::Link {
            token,
            seconds,
            kept,
        } if *seconds <= MOST_SECONDS => FirstAnswer::Opened(Terms {
            token: *token,
            seconds: *seconds,
            kept: *kept,
        }),
        Note::Resumed { taken } => FirstAnswer::Resumed { taken: *taken },
        Note::Ended { taken } => FirstAnswer::Ended { taken: *taken },
        Note::Hello | Note::Link { .. } | Note::Resume { .. } | Note::Got { .. } => {
            FirstAnswer::Strange
        }
    }
}

fn of_text(text: &[u8]) -> FirstAnswer
    ensures { SaysText text.now result }
{
    match error_number(text) {
        Some(number) => FirstAnswer::Refused { number },
        None => FirstAnswer::Strange,
    }
}
