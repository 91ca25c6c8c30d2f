//! The WebSocket of a browser: what reads it as long as the browser is there, and what closes it.
use crate::caller::{Caller, Ends};
use crate::stop::Stop;
use crate::turn::{BROWSER_PATIENCE, InTurn};
use crate::until_stop::UntilStop;
use jup_carrier::{CarrierEnd, Connection, Timed};
use jup_http::{MessageReader, MessageWriter, put_close, put_ping};
use jup_io::write_whole;
use jup_service::{Closing, Heard, Parted, Presence};
use jup_session::Outgoing;
use std::alloc::{AllocError, Global};
use std::io;
use std::io::{ErrorKind, Read, Write};
use std::net::{Shutdown, TcpStream};
use std::sync::{Mutex, Wait};
use std::time::Duration;

/// For how many seconds a read of a browser waits.
pub(crate) const LOOK: u64 = 1;

/// The socket of a browser, as those who read and write it share it.
#[derive(Drop)]
pub(crate) struct BrowserSocket<'a, R: Wait> {
    rt: &'a R,
    alloc: Global,
    stream: &'a TcpStream,
    /// Whose turn it is to write.
    turn: Mutex<()>,
    closing: Mutex<Closing>,
}

impl<'a, R: Wait> BrowserSocket<'a, R> {
    pub(crate) fn new(rt: &'a R, alloc: Global, stream: &'a TcpStream) -> BrowserSocket<'a, R> {
        BrowserSocket {
            rt,
            alloc,
            stream,
            turn: Mutex::new(()),
            closing: Mutex::new(Closing::new()),
        }
    }

    /// One half's way to the browser.
    pub(crate) fn way(&self) -> InTurn<'_, R, Outgoing<'_>> {
        InTurn::of_browser(self.rt, &self.turn, self.stream)
    }

    /// What puts lines into messages.
    pub(crate) fn writer(&self) -> Result<MessageWriter<InTurn<'_, R, Outgoing<'_>>>, AllocError> {
        MessageWriter::new(self.alloc, self.way())
    }

    /// What reads the payloads of the browser's messages.
    pub(crate) fn reader<'b>(&'b self, stop: &'b Stop) -> Result<BrowserReader<'b, R>, AllocError> {
        let bytes = BrowserBytes::new(self.alloc, self.stream, self.way())?;
        let messages = MessageReader::new(self.alloc, bytes, self.way())?;
        Ok(BrowserReader {
            messages: UntilStop::new(messages),
            socket: self,
            stop,
        })
    }

    // Sends the close, if none was sent.
    fn close<O: Write>(&self, parted: Parted, to: &mut O) -> io::Result<()> {
        let Some(code) = self.closing.lock(self.rt).close(parted) else {
            return Ok(());
        };
        let mut frame = Vec::new(self.alloc);
        put_close(code, &mut frame)?;
        to.write_all(&frame)
    }
}

impl<'a, R: Wait> Connection for BrowserSocket<'a, R> {
    fn finish(&self, end: CarrierEnd) {
        let parted = match end {
            CarrierEnd::LastLine => Parted::Over,
            CarrierEnd::Nothing => Parted::Away,
        };
        let _ = self.close(parted, &mut self.way());
        let _ = self.stream.shutdown(Shutdown::Write);
    }

    /// It sends a close if nobody else writes.
    fn cut(&self) {
        if let Some(_mine) = self.turn.try_lock() {
            let _ = self.close(Parted::Away, &mut Outgoing::new(self.stream, 1));
        }
        let _ = self.stream.shutdown(Shutdown::Both);
    }
}

impl<'a, R: Wait> Ends for BrowserSocket<'a, R> {
    fn end_session(&self, stops: bool) {
        let parted = if stops { Parted::Away } else { Parted::Over };
        let _ = self.close(parted, &mut self.way());
    }
}

/// Reads what a browser sends, and sends it a ping after a silence. After a second silence its bytes have ended. A read ends after a second as one that was
/// interrupted.
#[derive(Drop)]
struct BrowserBytes<'a, R: Wait> {
    stream: &'a TcpStream,
    to: InTurn<'a, R, Outgoing<'a>>,
    presence: Presence,
    ping: Vec<u8>,
}

impl<'a, R: Wait> BrowserBytes<'a, R> {
    fn new(
        alloc: Global,
        stream: &'a TcpStream,
        to: InTurn<'a, R, Outgoing<'a>>,
    ) -> Result<BrowserBytes<'a, R>, AllocError> {
        let mut ping = Vec::new(alloc);
        put_ping(&[], &mut ping)?;
        Ok(BrowserBytes {
            stream,
            to,
            presence: Presence::new(),
            ping,
        })
    }
}

impl<'a, R: Wait> Read for BrowserBytes<'a, R> {
    fn read(&mut self, buf: &mut [u8]) -> io::Result<usize> {
        let mut from = self.stream;
        match self.presence.hear(from.read(buf))? {
            Heard::Bytes(len) => return Ok(len),
            Heard::Gone => return Ok(0),
            Heard::Nothing => {}
            Heard::Silence => write_whole(&mut self.to, &self.ping)?,
        }
        Err(io::Error::from(ErrorKind::Interrupted))
    }
}

/// Reads the payloads of a browser's messages until the server has to stop.
#[derive(Drop)]
pub(crate) struct BrowserReader<'a, R: Wait> {
    messages: UntilStop<MessageReader<BrowserBytes<'a, R>, InTurn<'a, R, Outgoing<'a>>>>,
    socket: &'a BrowserSocket<'a, R>,
    stop: &'a Stop,
}

impl<'a, R: Wait> Read for BrowserReader<'a, R> {
    fn read(&mut self, buf: &mut [u8]) -> io::Result<usize> {
        let look = self.stop.look(self.socket.rt);
        let read = self.messages.read(look, buf);
        if let Some(ending) = self.messages.ending() {
            self.socket.closing.lock(self.socket.rt).note(ending);
        }
        read
    }
}

impl<'a, R: Wait> Timed for BrowserReader<'a, R> {
    fn wait_at_most(&mut self, wait: Option<Duration>) -> io::Result<()> {
        let look = Duration::from_secs(LOOK);
        self.socket
            .stream
            .set_read_timeout(Some(wait.unwrap_or(look).min(look)))
    }
}

impl<'a, R: Wait> Caller for BrowserReader<'a, R> {
    fn begin_carrying(&mut self) {
        self.messages.begin_carrying();
    }
}
