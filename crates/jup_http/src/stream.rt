//! The frames of a client, byte by byte.
ghost use Rattle.jup_http.specs.Frames.{held_bytes};
ghost use Rattle.jup_http.specs.Streams.{FitsPlace};

use crate::frame::{ControlFrame, DataFrame, Frame, Message, closed_of, frame_of, message_after};
use crate::{Breach, Held};
use websocket::protocol::frame::FrameHeader;
use websocket::protocol::frame::coding::Control;

/// Where a stream is.
#[derive(Clone, Copy)]
pub(crate) enum Place {
    /// Between two frames, or within a header.
    Head,
    /// Within the payload of a frame.
    Within(Frame),
    /// After a close or a breach.
    Over,
}

/// What frames report beside data.
#[derive(Clone, Copy)]
pub enum Event {
    /// A ping with this payload, which a pong answers.
    Ping(Held),
    /// The client closes the WebSocket, with this status code if it has one.
    Closed(Option<u16>),
    /// A rule is broken.
    Broken(Breach),
}

// What a byte gives.
#[derive(Clone, Copy)]
pub(crate) enum Met {
    Nothing,
    /// A byte of a message of data.
    Data(u8),
    Event(Event),
}

/// What a piece of the stream gave.
#[derive(Clone, Copy)]
pub struct Unframed {
    /// Bytes of the piece that were taken.
    pub taken: usize,
    /// Bytes of data that were given.
    pub given: usize,
    /// What the last byte that was taken reported, if it was no data.
    pub event: Option<Event>,
}

/// The frames that a client sends. Contracts see where the stream is.
#[derive(Clone, Copy)]
pub struct FrameStream {
    place: Place,
    /// The message whose last frame is not whole.
    pending: Option<Message>,
    held: Held,
    ghost in_place: { FitsPlace place (held_bytes held) },
}

impl FrameStream {
    ghost use Rattle.std.specs.Prelude.{◌≡◌, ℕ, List, [], ◌∷◌, ◌≤◌, ◌<◌, ◌⊎◌, ◌++◌, ◌↔◌, IsTrue, length, take, drop, map, Ok, None};
    ghost use Rattle.jup_http.specs.Streams.{brought, start, between, over, fails, ends_data, ends_control, begins, step_at, step, tells};
    ghost use Rattle.jup_http.specs.Events.{standing, told_by, told_by_event, told_by_option, stepped};
    ghost use Rattle.jup_http.specs.Frames.{IsNew, message_after};

    /// A stream before its first frame.
    pub fn new() -> FrameStream
        ensures { standing result ≡ start }
    {
        FrameStream {
            place: Place::Head,
            pending: None,
            held: Held::new(),
        }
    }

    /// Whether the client has closed the WebSocket, or broken a rule. Then no byte reports anything.
    pub fn is_over(&self) -> bool
        ensures { IsTrue result ↔ ((standing self.now).place ≡ Place.Over) }
    {
        matches!(self.place, Place::Over)
    }

    /// Takes bytes of the stream, and puts the data that they bring into `buf`: until all are taken, `buf` is full, or there is an
    /// event. What bytes bring does not depend on how they are cut into pieces.
    pub fn unframe(&mut self, bytes: &[u8], buf: &mut [u8]) -> Unframed
        ensures taken { result.taken ≤ length bytes.now }
        ensures given { result.given ≤ length buf.new }
        ensures told { (more : List ℕ) → tells (standing self.old) (bytes.now ++ more)
            ≡ map brought (take result.given buf.new) ++ told_by_option result.event ++ tells (standing self.new) (drop result.taken bytes.now ++ more) }
        ensures until { result.event ≡ None → (result.taken ≡ length bytes.now) ⊎ (result.given ≡ length buf.new) }
    {
        let mut given = 0;
        for taken in 0..bytes.len() {
            if given == buf.len() {
                return Unframed {
                    taken,
                    given,
                    event: None,
                };
            }
            match self.put(bytes[taken], buf, &mut given) {
                Some(event) => {
                    return Unframed {
                        taken: taken + 1,
                        given,
                        event: Some(event),
                    };
                }
                None => {}
            }
        }
        Unframed {
            taken: bytes.len(),
            given,
            event: None,
        }
    }

    // Takes a byte, and puts what it brings after the data that was given.
    fn put(&mut self, byte: u8, buf: &mut [u8], given: &mut usize) -> Option<Event>
        requires { given.old < length buf.old }
        ensures given { given.new ≤ length buf.new }
        ensures told { (rest : List ℕ) → map brought (take given.old buf.old) ++ tells (standing self.old) (byte ∷ rest)
            ≡ map brought (take given.new buf.new) ++ told_by_option result ++ tells (standing self.new) rest }
    {
        match self.take(byte) {
            Met::Nothing => None,
            Met::Data(byte) => {
                buf[*given] = byte;
                *given += 1;
                None
            }
            Met::Event(event) => Some(event),
        }
    }

    // Takes a byte.
    fn take(&mut self, byte: u8) -> Met
        ensures { step (standing self.old) byte ≡ stepped result self.new }
    {
        match self.place {
            Place::Head => self.take_head(byte),
            Place::Within(frame) => self.take_within(frame, byte),
            Place::Over => Met::Nothing,
        }
    }

    // A byte of a header.
    fn take_head(&mut self, byte: u8) -> Met
        requires { (standing self.old).place ≡ Place.Head }
        ensures { step_at Place.Head (standing self.old).pending (standing self.old).held byte ≡ stepped result self.new }
    {
        let mut held = self.held;
        held.push(byte);
        match FrameHeader::parse(held.bytes()) {
            Ok(None) => self.hold(held),
            Ok(Some((header, len))) => match frame_of(self.pending, &header, len) {
                Ok(frame) => self.begin(frame),
                Err(breach) => self.fail(breach),
            },
            Err(_) => self.fail(Breach::Header),
        }
    }

    // A byte of a payload.
    fn take_within(&mut self, frame: Frame, byte: u8) -> Met
        requires { (standing self.old).place ≡ Place.Within frame }
        ensures { step_at (Place.Within frame) (standing self.old).pending (standing self.old).held byte ≡ stepped result self.new }
    {
        match frame {
            Frame::Data(frame) => self.take_data(&frame, byte),
            Frame::Control(frame) => self.take_control(&frame, byte),
        }
    }

    // A byte of a frame of data.
    fn take_data(&mut self, frame: &DataFrame, byte: u8) -> Met
        requires { frame.now.at < frame.now.len }
        ensures { step_at (Place.Within (Frame.Data frame.now)) (standing self.old).pending (standing self.old).held byte ≡ stepped result self.new }
    {
        let byte = byte ^ frame.key[(frame.at % 4) as usize];
        let Some(kind) = frame.message.kind.after(byte) else {
            return self.fail(Breach::BadText);
        };
        let message = Message {
            kind,
            len: frame.message.len,
        };
        let at = frame.at + 1;
        if at == frame.len {
            return self.end_data(frame.is_final, message, Met::Data(byte));
        }
        self.place = Place::Within(Frame::Data(DataFrame {
            is_final: frame.is_final,
            key: frame.key,
            at,
            len: frame.len,
            message,
        }));
        Met::Data(byte)
    }

    // A byte of a control frame.
    fn take_control(&mut self, frame: &ControlFrame, byte: u8) -> Met
        requires { (standing self.old).place ≡ Place.Within (Frame.Control frame.now) }
        ensures { step_at (Place.Within (Frame.Control frame.now)) (standing self.old).pending (standing self.old).held byte ≡ stepped result self.new }
    {
        let mut held = self.held;
        let at = held.bytes().len();
        held.push(byte ^ frame.key[at % 4]);
        if held.bytes().len() as u64 == frame.len {
            return self.end_control(frame.code, held);
        }
        self.hold(held)
    }

    // The frame is not whole: its bytes wait for the others.
    fn hold(&mut self, held: Held) -> Met
        requires { FitsPlace (standing self.old).place (held_bytes held) }
        ensures { stepped result self.new ≡ record { next = record (standing self.old) { held = held_bytes held }; told = [] } }
    {
        self.held = held;
        Met::Nothing
    }

    // A frame begins. One with no payload is whole.
    fn begin(&mut self, frame: Frame) -> Met
        requires { IsNew frame }
        ensures { stepped result self.new ≡ begins (standing self.old).pending (Ok frame) }
    {
        match frame {
            Frame::Data(frame) if frame.len == 0 => {
                self.end_data(frame.is_final, frame.message, Met::Nothing)
            }
            Frame::Control(frame) if frame.len == 0 => self.end_control(frame.code, Held::new()),
            frame => {
                *self = FrameStream {
                    place: Place::Within(frame),
                    pending: self.pending,
                    held: Held::new(),
                };
                Met::Nothing
            }
        }
    }

    // A frame of data is whole, and its last byte came to this.
    fn end_data(&mut self, is_final: bool, message: Message, met: Met) -> Met
        ensures { stepped result self.new ≡ ends_data (told_by met) (message_after is_final message) }
    {
        match message_after(is_final, message) {
            Ok(pending) => self.rest(pending, met),
            Err(breach) => self.fail(breach),
        }
    }

    // A control frame is whole.
    fn end_control(&mut self, code: Control, payload: Held) -> Met
        ensures { stepped result self.new ≡ ends_control (standing self.old).pending code (held_bytes payload) }
    {
        let pending = self.pending;
        match code {
            Control::Ping => self.rest(pending, Met::Event(Event::Ping(payload))),
            Control::Pong => self.rest(pending, Met::Nothing),
            Control::Close => match closed_of(payload.bytes()) {
                Ok(code) => self.stop(Event::Closed(code)),
                Err(breach) => self.fail(breach),
            },
        }
    }

    // The stream is between two frames, and the last byte came to this.
    fn rest(&mut self, pending: Option<Message>, met: Met) -> Met
        ensures { stepped result self.new ≡ record { next = between pending; told = told_by met } }
    {
        *self = FrameStream {
            place: Place::Head,
            pending,
            held: Held::new(),
        };
        met
    }

    fn fail(&mut self, breach: Breach) -> Met
        ensures { stepped result self.new ≡ fails breach }
    {
        self.stop(Event::Broken(breach))
    }

    // The stream is over, and reported this at last.
    fn stop(&mut self, event: Event) -> Met
        ensures { stepped result self.new ≡ record { next = over; told = told_by_event event } }
    {
        *self = FrameStream {
            place: Place::Over,
            pending: None,
            held: Held::new(),
        };
        Met::Event(event)
    }
}
