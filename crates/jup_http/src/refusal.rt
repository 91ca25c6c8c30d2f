//! Why a request is refused.
ghost use Rattle.std.specs.Prelude.{◌≡◌};
ghost use Rattle.jup_http.specs.Heads.{status_of};

/// Why a request is refused.
#[derive(Clone, Copy, Debug, PartialEq, Eq)]
pub enum Refusal {
    /// No head of a request, or one that is too long.
    BadHead,
    /// A page of another origin asks, or the request names another host.
    Foreign,
    /// No page is there.
    NoPage,
    /// Another method than GET.
    BadMethod,
    /// A link is asked for by no upgrade to a WebSocket.
    NoUpgrade,
    /// Another version of WebSockets.
    OtherVersion,
    /// The server has as many connections as it serves at a time. It refuses whatever is asked.
    Busy,
}

impl Refusal {
    /// The status code of the answer.
    pub fn status(self) -> u16
        ensures { result ≡ status_of self }
    {
        match self {
            Refusal::BadHead | Refusal::NoUpgrade => 400,
            Refusal::Foreign => 403,
            Refusal::NoPage => 404,
            Refusal::BadMethod => 405,
            Refusal::OtherVersion => 426,
            Refusal::Busy => 503,
        }
    }
}
