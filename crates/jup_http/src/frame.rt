//! The frame after a header, and what its end gives (RFC 6455, sections 5.2 to 5.5).
ghost use Rattle.std.specs.Prelude.{◌≡◌, IfOk};
ghost use Rattle.websocket.specs.Text.{is_utf8};
ghost use Rattle.jup_http.specs.Frames.{begun, lengthened, control_of, frame_of, kind_after, message_after, closed_of, IsNew};

use crate::Breach;
use crate::texts::CharPart;
use websocket::protocol::CloseCode;
use websocket::protocol::frame::FrameHeader;
use websocket::protocol::frame::coding::{Control, Data, OpCode};

/// Bytes that a message may have, in one frame or in several.
pub const LONGEST_MESSAGE: u64 = 65_536;

/// Bytes that a control frame may have.
const LONGEST_CONTROL: u64 = 125;

#[derive(Clone, Copy)]
pub(crate) enum Kind {
    Binary,
    /// How far its last character has come.
    Text(CharPart),
}

/// A message of data whose last frame is not whole.
#[derive(Clone, Copy)]
pub(crate) struct Message {
    pub(crate) kind: Kind,
    /// Bytes of its frames that have begun.
    pub(crate) len: u64,
}

/// A frame of data of which `at` bytes have come.
#[derive(Clone, Copy)]
pub(crate) struct DataFrame {
    pub(crate) is_final: bool,
    pub(crate) key: [u8; 4],
    pub(crate) at: u64,
    pub(crate) len: u64,
    pub(crate) message: Message,
}

#[derive(Clone, Copy)]
pub(crate) struct ControlFrame {
    pub(crate) code: Control,
    pub(crate) key: [u8; 4],
    pub(crate) len: u64,
}

/// A frame whose payload comes.
#[derive(Clone, Copy)]
pub(crate) enum Frame {
    Data(DataFrame),
    Control(ControlFrame),
}

/// The frame after a header with this length, if this message is pending; or the rule that the header breaks.
pub(crate) fn frame_of(
    pending: Option<Message>,
    header: &FrameHeader,
    len: u64,
) -> Result<Frame, Breach>
    ensures frame { result ≡ frame_of pending header.now len }
    ensures before { IfOk result IsNew }
{
    if header.rsv1 || header.rsv2 || header.rsv3 {
        return Err(Breach::ReservedBit);
    }
    let Some(key) = header.mask else {
        return Err(Breach::Unmasked);
    };
    match header.opcode {
        OpCode::Control(code) => control_of(code, header.is_final, key, len),
        OpCode::Data(kind) => Ok(Frame::Data(DataFrame {
            is_final: header.is_final,
            key,
            at: 0,
            len,
            message: lengthened(begun(pending, kind)?, len)?,
        })),
    }
}

fn control_of(code: Control, is_final: bool, key: [u8; 4], len: u64) -> Result<Frame, Breach>
    ensures frame { result ≡ control_of code is_final key len }
    ensures before { IfOk result IsNew }
{
    if !is_final {
        return Err(Breach::FragmentedControl);
    }
    if len > LONGEST_CONTROL {
        return Err(Breach::LongControl);
    }
    Ok(Frame::Control(ControlFrame { code, key, len }))
}

// The message that a frame of data belongs to, before its bytes.
fn begun(pending: Option<Message>, kind: Data) -> Result<Message, Breach>
    ensures { result ≡ begun pending kind }
{
    match (pending, kind) {
        (Some(message), Data::Continue) => Ok(message),
        (None, Data::Continue) => Err(Breach::NothingToContinue),
        (Some(_), Data::Text | Data::Binary) => Err(Breach::MessageOpen),
        (None, Data::Text) => Ok(Message {
            kind: Kind::Text(CharPart::Whole),
            len: 0,
        }),
        (None, Data::Binary) => Ok(Message {
            kind: Kind::Binary,
            len: 0,
        }),
    }
}

// A message with one more frame, of so many bytes.
fn lengthened(message: Message, more: u64) -> Result<Message, Breach>
    ensures { result ≡ lengthened message more }
{
    let len = message.len.saturating_add(more);
    if len > LONGEST_MESSAGE {
        return Err(Breach::LongMessage);
    }
    Ok(Message {
        kind: message.kind,
        len,
    })
}

impl Kind {
    /// The same with one more byte; `None` if no text goes on so.
    pub(crate) fn after(self, byte: u8) -> Option<Kind>
        ensures { result ≡ kind_after self byte }
    {
        match self {
            Kind::Binary => Some(Kind::Binary),
            Kind::Text(part) => match part.after(byte) {
                Some(part) => Some(Kind::Text(part)),
                None => None,
            },
        }
    }
}

/// The message that stays pending after a frame of it.
pub(crate) fn message_after(is_final: bool, message: Message) -> Result<Option<Message>, Breach>
    ensures { result ≡ message_after is_final message }
{
    if !is_final {
        return Ok(Some(message));
    }
    match message.kind {
        Kind::Binary | Kind::Text(CharPart::Whole) => Ok(None),
        Kind::Text(_) => Err(Breach::BadText),
    }
}

/// The status code that a close has, if it has one.
pub(crate) fn closed_of(payload: &[u8]) -> Result<Option<u16>, Breach>
    ensures { result ≡ closed_of payload.now }
{
    match payload {
        [] => Ok(None),
        [_] => Err(Breach::BadClose),
        [high, low, reason @ ..] => {
            let code = u16::from_be_bytes([*high, *low]);
            if !CloseCode::from(code).is_allowed() {
                return Err(Breach::BadClose);
            }
            if !is_utf8(reason) {
                return Err(Breach::BadText);
            }
            Ok(Some(code))
        }
    }
}

fn is_utf8(bytes: &[u8]) -> bool
    ensures { result ≡ is_utf8 bytes.now }
{
    match str::from_utf8(bytes) {
        Ok(_) => true,
        Err(_) => false,
    }
}
