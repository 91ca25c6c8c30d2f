//! What a client tells its user of a link's connections.

use std::fmt;

/// What a client tells its user of a link's connections.
#[derive(Clone, Copy, Debug, PartialEq, Eq)]
pub enum Notice {
    Lost,
    Resumed,
}

impl fmt::Display for Notice {
    ghost use Rattle.std.specs.Prelude.{Some};
    ghost use Rattle.jup_redial.specs.Notices.{notice_text};

    ghost output = { λ notice. Some (notice_text notice) };

    fn fmt<W: fmt::Write>(&self, f: &mut fmt::Formatter<W>) -> fmt::Result {
        match self {
            Notice::Lost => write!(f, "link lost"),
            Notice::Resumed => write!(f, "link resumed"),
        }
    }
}
