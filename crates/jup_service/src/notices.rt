//! What a server reports to its operator, each notice once.
ghost use Rattle.std.specs.IoError.{error_kind};
ghost use Rattle.std.specs.Prelude.{◌≡◌, ◌⊎◌, ◌↔◌, not, true, false, IsNone, IfSome};
ghost use Rattle.jup_service.specs.Servers.{notice_of, is_told, with_told};

use jup_faults::Fault;
use std::io;
use std::io::ErrorKind;

/// What a server reports to its operator while it runs.
#[derive(Clone, Copy, Debug, PartialEq, Eq)]
pub enum Notice {
    SitesSpent,
    OrderFull,
    CannotAccept,
    CannotWrite,
}

impl Notice {
    /// What the operator reads of it.
    pub fn text(self) -> &'static str {
        match self {
            Notice::SitesSpent =>
                "all site numbers are spent: nobody can join any more; a restart with the same board begins again",
            Notice::OrderFull =>
                "the order is full: no edit is taken any more; a restart with the same board begins again",
            Notice::CannotAccept => "cannot accept a connection: it is tried again",
            Notice::CannotWrite => "cannot write the board: it is tried again",
        }
    }
}

/// What the server reports to its operator after a session that a fault of this number ended, if it reports anything.
pub fn notice_of(fault: u32) -> Option<Notice>
    ensures { result ≡ notice_of fault }
{
    if fault == Fault::SitesSpent.number() {
        Some(Notice::SitesSpent)
    } else if fault == Fault::LogFull.number() {
        Some(Notice::OrderFull)
    } else {
        None
    }
}

/// What the server reports if an accept failed so. It reports nothing of a client that was gone before it was accepted, or of an interruption.
pub fn notice_of_accept(error: &io::Error) -> Option<Notice>
    ensures none { IsNone result ↔ ((error_kind error.now ≡ ErrorKind.ConnectionAborted) ⊎ (error_kind error.now ≡ ErrorKind.Interrupted)) }
    ensures some { IfSome result (λ notice. notice ≡ Notice.CannotAccept) }
{
    match error.kind() {
        ErrorKind::ConnectionAborted | ErrorKind::Interrupted => None,
        _ => Some(Notice::CannotAccept),
    }
}

/// Which notices the server has reported.
#[derive(Clone, Copy)]
pub struct Told {
    sites: bool,
    order: bool,
    accept: bool,
    write: bool,
}

impl Told {
    /// The server has reported none.
    pub fn new() -> Told
        ensures { (notice : Notice) → is_told result notice ≡ false }
    {
        Told {
            sites: false,
            order: false,
            accept: false,
            write: false,
        }
    }

    /// Counts a notice as reported. True if it was not, so that the server has to report it now.
    pub fn tell(&mut self, notice: Notice) -> bool
        ensures first { result ≡ not (is_told self.old notice) }
        ensures told { self.new ≡ with_told self.old notice true }
    {
        let was = match notice {
            Notice::SitesSpent => std::mem::replace(&mut self.sites, true),
            Notice::OrderFull => std::mem::replace(&mut self.order, true),
            Notice::CannotAccept => std::mem::replace(&mut self.accept, true),
            Notice::CannotWrite => std::mem::replace(&mut self.write, true),
        };
        !was
    }

    /// Whether the server has reported a notice that is not over.
    pub fn has(&self, notice: Notice) -> bool
        ensures { result ≡ is_told self.now notice }
    {
        match notice {
            Notice::SitesSpent => self.sites,
            Notice::OrderFull => self.order,
            Notice::CannotAccept => self.accept,
            Notice::CannotWrite => self.write,
        }
    }

    /// What the notice reports is over. If it comes back, the server has to report it again.
    pub fn clear(&mut self, notice: Notice)
        ensures { self.new ≡ with_told self.old notice false }
    {
        match notice {
            Notice::SitesSpent => self.sites = false,
            Notice::OrderFull => self.order = false,
            Notice::CannotAccept => self.accept = false,
            Notice::CannotWrite => self.write = false,
        }
    }
}
