//! What a browser sends and is sent: the head of its request, and the frames of a WebSocket (RFC 6455) as a link's bytes.
//! Nothing here knows what these bytes mean.
#![tactic(auto)]

mod asked;
mod breach;
mod ending;
mod frame;
mod held;
mod laws;
mod origins;
mod reader;
mod refusal;
mod request;
mod responses;
mod sending;
mod stream;
mod texts;
mod whole;
mod writer;

pub use asked::{Asked, BadHead, LONGEST_HEAD, MOST_FIELDS, read_asked};
pub use breach::Breach;
pub use ending::Ending;
pub use frame::LONGEST_MESSAGE;
pub use held::Held;
pub use laws::{bad_headers_are_refused, frames_arrive, limits_are_stated, utf8_is_taken};
pub use origins::is_origin;
pub use reader::MessageReader;
pub use refusal::Refusal;
pub use request::{Request, read_request};
pub use responses::{Media, body_head, refusal_body, refusal_head};
pub use sending::{put_close, put_ping, put_pong, put_text};
pub use stream::{Event, FrameStream, Unframed};
pub use whole::Whole;
pub use writer::{LONGEST_SENT, MessageWriter};
