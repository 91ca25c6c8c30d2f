//! Refusals other than those because an allocation failed.
ghost use Rattle.std.specs.Prelude.{◌≡◌, true, false, IfOk, OnErr};
ghost use Rattle.jup_star.specs.Stars.{is_no_memory};
ghost use Rattle.jup_star.specs.Sites.{is_edit_memory};

use jup_star::StarFault;
use jup_window::EditFault;
use jup_xform::NoMemory;

/// A refusal of an edit, unless an allocation failed.
pub(crate) fn edit_refusal(fault: EditFault) -> Result<EditFault, NoMemory>
    ensures same { IfOk result (λ refusal. refusal ≡ fault) }
    ensures other { IfOk result (λ refusal. is_edit_memory fault ≡ false) }
    ensures memory { OnErr result (is_edit_memory fault ≡ true) }
{
    match fault {
        EditFault::NoMemory => Err(NoMemory),
        EditFault::NoWindow
        | EditFault::NoWidget
        | EditFault::WrongKind
        | EditFault::BadPlace
        | EditFault::BadValue
        | EditFault::LongText
        | EditFault::Backlog
        | EditFault::Spent
        | EditFault::BadBatch
        | EditFault::Stopped => Ok(fault),
    }
}

/// A refusal of the star, unless an allocation failed.
pub fn star_refusal(fault: StarFault) -> Result<StarFault, NoMemory>
    ensures same { IfOk result (λ refusal. refusal ≡ fault) }
    ensures other { IfOk result (λ refusal. is_no_memory fault ≡ false) }
    ensures memory { OnErr result (is_no_memory fault ≡ true) }
{
    match fault {
        StarFault::NoMemory => Err(NoMemory),
        StarFault::BadCount
        | StarFault::BadAck
        | StarFault::BadName
        | StarFault::BadOp
        | StarFault::NotAnEdit
        | StarFault::Full
        | StarFault::SitesSpent
        | StarFault::LogFull
        | StarFault::NoLink => Ok(fault),
    }
}
