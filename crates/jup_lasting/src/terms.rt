//! What a server says of a link as it opens.
use jup_resume::Token;

/// The most seconds for which a server lets a link wait.
pub const MOST_SECONDS: u32 = 86_400;

/// What a server says of a link as it opens.
#[derive(Clone, Copy)]
pub struct Terms {
    /// What names the link. Its holder can carry it.
    pub token: Token,
    /// For how many seconds the link waits whenever no connection carries it.
    pub seconds: u32,
    /// Whether what the server confirms outlives the server's process.
    pub kept: bool,
}
