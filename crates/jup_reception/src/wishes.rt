//! What a connection asks for after its first line, and whether it may make boards.
ghost use Rattle.std.specs.Prelude.{◌≡◌, ◌↔◌, ◌⊎◌, true, IsTrue};
ghost use Rattle.jup_keys.specs.declared.makers.Makers.TheVariants.{Anyone, Owner};
ghost use Rattle.jup_reception.specs.Wishes.{IsGuestWish};

use jup_keys::Makers;

/// What the bytes of a connection ask for whose key was right, before its link.
#[derive(Clone, Copy, Debug, PartialEq, Eq)]
pub enum GuestWish {
    /// The keys that its right gives.
    Keys,
    /// News of the board.
    News,
    /// A session or a link: these bytes are the first of protocol 3 or 4.
    Link,
    /// It takes more bytes to tell.
    Unknown,
}

/// What the next bytes ask for of a connection whose key was right.
pub fn guest_wish(bytes: &[u8]) -> GuestWish
    ensures { IsGuestWish bytes.now result }
{
    if bytes.starts_with(b"keys\n") {
        return GuestWish::Keys;
    }
    if bytes.starts_with(b"news\n") {
        return GuestWish::News;
    }
    if b"keys\n".starts_with(bytes) || b"news\n".starts_with(bytes) {
        GuestWish::Unknown
    } else {
        GuestWish::Link
    }
}

/// Whether a connection may make boards.
pub fn may_make(makers: Makers, is_owner: bool) -> bool
    ensures { IsTrue result ↔ ((makers ≡ Anyone) ⊎ ((makers ≡ Owner) × (is_owner ≡ true))) }
{
    match makers {
        Makers::Anyone => true,
        Makers::Owner => is_owner,
        Makers::Nobody => false,
    }
}
