//! The rules that a client may break.
ghost use Rattle.std.specs.Prelude.{◌≡◌};
ghost use Rattle.jup_http.specs.Frames.{breach_number};

/// What a client's frames break of RFC 6455, or of the bounds of this server.
#[derive(Clone, Copy, Debug, PartialEq, Eq)]
pub enum Breach {
    /// A reserved opcode, or a length that is not in its shortest form.
    Header,
    /// A reserved bit is set, and no extension was agreed on.
    ReservedBit,
    /// A frame that is not masked.
    Unmasked,
    /// A control frame in fragments.
    FragmentedControl,
    /// A control frame with more than 125 bytes.
    LongControl,
    /// A continuation, and no message is open.
    NothingToContinue,
    /// A new message, and the last one is open.
    MessageOpen,
    /// A message with more than 65536 bytes.
    LongMessage,
    /// A text that is not UTF-8.
    BadText,
    /// A close with half a status code, or with one that may not be sent.
    BadClose,
}

impl Breach {
    /// The status code of the close that reports this breach (RFC 6455, section 7.4.1).
    pub fn number(self) -> u16
        ensures { result ≡ breach_number self }
    {
        match self {
            Breach::BadText => 1_007,
            Breach::LongMessage => 1_009,
            Breach::Header
            | Breach::ReservedBit
            | Breach::Unmasked
            | Breach::FragmentedControl
            | Breach::LongControl
            | Breach::NothingToContinue
            | Breach::MessageOpen
            | Breach::BadClose => 1_002,
        }
    }
}
