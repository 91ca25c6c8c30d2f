//! Frames that a server sends.
ghost use Rattle.std.specs.Prelude.{◌≡◌, ◌++◌, None, OnOk, OnErr};
ghost use Rattle.websocket.specs.Connection.{whole_header};
ghost use Rattle.websocket.specs.Frame.{encode_frame};
ghost use Rattle.jup_http.specs.Frames.{text_frame, ping_frame, pong_frame, close_frame};

use std::alloc::AllocError;
use websocket::protocol::frame::coding::{Control, Data, OpCode};
use websocket::protocol::frame::{FrameHeader, write_frame};

/// Puts a text message of these bytes at the end, as one frame.
pub fn put_text(payload: &[u8], out: &mut Vec<u8>) -> Result<(), AllocError>
    ensures ok { OnOk result (out.new.items ≡ out.old.items ++ text_frame payload.now) }
    ensures err { OnErr result (out.new.items ≡ out.old.items) }
{
    put(OpCode::Data(Data::Text), payload, out)
}

/// Puts a ping with this payload at the end.
pub fn put_ping(payload: &[u8], out: &mut Vec<u8>) -> Result<(), AllocError>
    ensures ok { OnOk result (out.new.items ≡ out.old.items ++ ping_frame payload.now) }
    ensures err { OnErr result (out.new.items ≡ out.old.items) }
{
    put(OpCode::Control(Control::Ping), payload, out)
}

/// Puts the pong that answers a ping with this payload at the end.
pub fn put_pong(payload: &[u8], out: &mut Vec<u8>) -> Result<(), AllocError>
    ensures ok { OnOk result (out.new.items ≡ out.old.items ++ pong_frame payload.now) }
    ensures err { OnErr result (out.new.items ≡ out.old.items) }
{
    put(OpCode::Control(Control::Pong), payload, out)
}

/// Puts a close with this status code, or with none, at the end.
pub fn put_close(code: Option<u16>, out: &mut Vec<u8>) -> Result<(), AllocError>
    ensures ok { OnOk result (out.new.items ≡ out.old.items ++ close_frame code) }
    ensures err { OnErr result (out.new.items ≡ out.old.items) }
{
    match code {
        Some(code) => put(OpCode::Control(Control::Close), &code.to_be_bytes(), out),
        None => put(OpCode::Control(Control::Close), &[], out),
    }
}

fn put(opcode: OpCode, payload: &[u8], out: &mut Vec<u8>) -> Result<(), AllocError>
    ensures ok { OnOk result (out.new.items ≡ out.old.items ++ encode_frame (whole_header opcode None) payload.now) }
    ensures err { OnErr result (out.new.items ≡ out.old.items) }
{
    write_frame(&FrameHeader::new(opcode, None), payload, out)
}
