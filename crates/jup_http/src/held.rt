//! Bytes of a frame that wait for its others.
ghost use Rattle.std.specs.Prelude.{◌≤◌};

/// A header has fewer bytes, and the payload of a control frame no more.
const MOST_HELD: usize = 125;

/// At most 125 bytes: of a header, or of the payload of a control frame.
#[derive(Clone, Copy)]
pub struct Held {
    len: usize,
    bytes: [u8; MOST_HELD],
    ghost in_range: { len ≤ 125 },
}

impl Held {
    ghost use Rattle.std.specs.Prelude.{◌≡◌, ◌<◌, [], ◌∷◌, ◌++◌, length};
    ghost use Rattle.jup_http.specs.Frames.{held_bytes};

    pub(crate) fn new() -> Held
        ensures { held_bytes result ≡ [] }
    {
        Held {
            len: 0,
            bytes: [0; MOST_HELD],
        }
    }

    /// The bytes, in order.
    pub fn bytes(&self) -> &[u8]
        ensures { result.now ≡ held_bytes self.now }
    {
        &self.bytes[..self.len]
    }

    /// Puts a byte at the end.
    pub(crate) fn push(&mut self, byte: u8)
        requires { length (held_bytes self.old) < 125 }
        ensures { held_bytes self.new ≡ held_bytes self.old ++ byte ∷ [] }
    {
        self.bytes[self.len] = byte;
        self.len += 1;
    }
}
