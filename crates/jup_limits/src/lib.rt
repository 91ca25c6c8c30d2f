//! The limits of the protocol, each in one place, and the refusal that any call may meet.
//!
//! Each constant is what the definition of the same name in `specs/` says. Three definitions have no constant, since only
//! proofs name them. What bounds no message and no state, as the sizes of rooms and how long a program waits, is in the
//! crate that chose it.
#![tactic(auto)]

ghost use Rattle.std.specs.Prelude.{◌≡◌};
ghost use Rattle.jup_limits.specs.Limits.{
  most_attached,
  last_site,
  most_entries,
  longest_sequence,
  highest_limit,
  most_unacknowledged,
  answer_after,
  most_operations,
  longest_label,
  longest_input,
  longest_board,
  small_length,
  most_behind,
};

mod memory;

pub use memory::NoMemory;

/// How many sites are attached to a star at a time.
pub const MOST_ATTACHED: usize = 64;

/// The highest number of a site. The numbers of sites that left are not given again.
pub const LAST_SITE: u32 = 65_535;

/// How many windows a board holds, and how many widgets a window.
pub const MOST_ENTRIES: usize = 64;

/// How many items a text or a list holds before an insertion is refused.
pub const LONGEST_SEQUENCE: u32 = 65_536;

/// The highest limit of edits that a star can be opened with.
pub const HIGHEST_LIMIT: u32 = 16_777_216;

/// How many edits a site has on their way, of which it does not know that they were received.
pub const MOST_UNACKNOWLEDGED: u32 = 1_024;

/// How many operations an end receives before it owes an acknowledgement.
pub const ANSWER_AFTER: u32 = 64;

/// How many operations a batch has.
pub const MOST_OPERATIONS: u32 = 32;

/// How many bytes a label has.
pub const LONGEST_LABEL: usize = 48;

/// How many bytes a script has, and a layout.
pub const LONGEST_INPUT: u64 = 16_777_216;

/// How many bytes a printed board has that is read.
pub const LONGEST_BOARD: u64 = 33_554_432;

/// How many operations of others, which it has not acknowledged, a site of a running server may be behind before its session ends.
pub const MOST_BEHIND: u32 = 262_144;

/// A sequence takes an insertion while it has fewer items than this.
pub const SMALL_LENGTH: u32 = 2_147_483_648;

/// The constants are the numbers that the definitions name.
pub fn limits_are_stated()
    ensures attached { MOST_ATTACHED ≡ most_attached }
    ensures site { LAST_SITE ≡ last_site }
    ensures entries { MOST_ENTRIES ≡ most_entries }
    ensures sequence { LONGEST_SEQUENCE ≡ longest_sequence }
    ensures limit { HIGHEST_LIMIT ≡ highest_limit }
    ensures unacknowledged { MOST_UNACKNOWLEDGED ≡ most_unacknowledged }
    ensures answer { ANSWER_AFTER ≡ answer_after }
    ensures operations { MOST_OPERATIONS ≡ most_operations }
    ensures label { LONGEST_LABEL ≡ longest_label }
    ensures input { LONGEST_INPUT ≡ longest_input }
    ensures board { LONGEST_BOARD ≡ longest_board }
    ensures small { SMALL_LENGTH ≡ small_length }
    ensures behind { MOST_BEHIND ≡ most_behind }
{}
