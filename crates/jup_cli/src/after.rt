//! What a client waits for next.
ghost use Rattle.std.specs.Prelude.{◌≡◌};
ghost use Rattle.jup_cli.specs.Running.{after_of};

use jup_client::Request;

/// What a client waits for, once it has said what a request asks it to say.
#[derive(Clone, Copy, Debug, PartialEq, Eq)]
pub enum After {
    /// The pong of its ping, and then the next request.
    Pong,
    /// The next request.
    Request,
    /// Nothing: it ends.
    Nothing,
}

impl After {
    /// What it waits for after this request.
    pub fn request(request: &Request) -> After
        ensures { result ≡ after_of request.now }
    {
        match request {
            Request::Sync => After::Pong,
            Request::Edit(_) | Request::Batch(_) | Request::Show | Request::Bad => After::Request,
            Request::Quit => After::Nothing,
        }
    }
}
