//! Where the tokens of a server's links come from.

use jup_resume::{TOKEN_BYTES, Token};
use std::random::RandomSource;

/// Where a server has the tokens of its links from.
pub trait Tokens {
    /// Whether it has any. A server without tokens speaks protocol 3 alone.
    fn gives(&self) -> bool;

    /// A new token, which nobody can guess. `None` if none can be made.
    fn draw(&self) -> Option<Token>;
}

/// No tokens.
#[derive(Drop)]
pub struct NoTokens;

impl Tokens for NoTokens {
    fn gives(&self) -> bool {
        false
    }

    fn draw(&self) -> Option<Token> {
        None
    }
}

/// Tokens of random bytes of the system.
#[derive(Drop)]
pub struct RandomTokens<'a, R: RandomSource> {
    source: &'a R,
}

impl<'a, R: RandomSource> RandomTokens<'a, R> {
    pub fn new(source: &'a R) -> RandomTokens<'a, R> {
        RandomTokens { source }
    }
}

impl<'a, R: RandomSource> Tokens for RandomTokens<'a, R> {
    fn gives(&self) -> bool {
        true
    }

    fn draw(&self) -> Option<Token> {
        let mut bytes = [0; TOKEN_BYTES];
        self.source.fill_bytes(&mut bytes).ok()?;
        Some(Token::new(&bytes))
    }
}
