//! What a batch of operations on boards means, without a list of its edits.
ghost use Rattle.std.specs.Prelude.{◌≡◌, ◌+◌, ◌<◌, ◌≤◌, length};
ghost use Rattle.jup_xform.specs.Batches.{edits};
ghost use Rattle.jup_window.specs.Operations.{boards, board_operations};
ghost use Rattle.jup_batch.specs.Batched as batched;

use jup_window::BoardOp;

/// Whether one of the operations changes nothing.
pub fn one_is_nothing(ops: &[BoardOp]) -> bool
    ensures { result ≡ batched.one_is_nothing board_operations (edits boards ops.now) }
{
    for op in ops {
        if op.meaning().is_nothing() {
            return true;
        }
    }
    false
}

/// Whether one of them inserts an item that is named by this site.
pub fn one_bears_site(ops: &[BoardOp], site: u32) -> bool
    ensures { result ≡ batched.one_bears_site board_operations site (edits boards ops.now) }
{
    for op in ops {
        if op.meaning().bears_site(site) {
            return true;
        }
    }
    false
}

/// Whether what they insert is named by this site and counted next, in order, after `count`
/// insertions of that site.
pub fn bear_next(ops: &[BoardOp], site: u32, count: u32) -> bool
    requires { count + length ops.now < 4294967296 }
    ensures { result ≡ batched.bear_next board_operations site count (edits boards ops.now) }
{
    let mut next = count;
    for op in ops {
        let edit = op.meaning();
        if !edit.bears_next(site, next) {
            return false;
        }
        next += edit.insertions();
    }
    true
}

/// How many items they insert.
pub fn all_insertions(ops: &[BoardOp]) -> u32
    requires { length ops.now < 4294967296 }
    ensures count { result ≡ batched.all_insertions board_operations (edits boards ops.now) }
    ensures few { result ≤ length ops.now }
{
    let mut count = 0;
    for op in ops {
        count += op.meaning().insertions();
    }
    count
}
