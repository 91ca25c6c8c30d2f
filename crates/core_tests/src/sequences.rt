//! What tests of texts share, and each call of an operation on a list once. `conformance/transforms` has the pairs of concurrent operations, and
//! `conformance/lines` has operations that are not valid.
use crate::expect::{expect_eq, expect_that};
use jup_seq::{ListOp, SeqEdit, SeqOp, TextOp};
use jup_value::{Item, Label, Name, Seq};
use jup_xform::Transform;
use std::alloc::Global;
use std::process::Abort;

// The first insertion of a site.
pub(crate) fn insert(place: u32, site: u32, value: char) -> TextOp {
    let name = Name { site, number: 1 };
    SeqOp::Insert {
        place,
        item: Item { name, value },
    }
}

// Applies an operation if it is valid and there is memory, and says whether it did.
pub(crate) fn attempt<T: Transform>(alloc: Global, op: &T, state: &mut T::State) -> bool
    requires { T.can_reserve 0 }
{
    if !op.valid(state) || op.reserve(alloc, 0, state).is_err() {
        return false;
    }
    op.apply(state);
    true
}

// An opening text.
pub(crate) fn text(alloc: Global, letters: &str) -> Seq<char> {
    let mut seq = Seq::new(alloc);
    for value in letters.chars() {
        let place = seq.len();
        let name = Name {
            site: 0,
            number: place.saturating_add(1),
        };
        let item = Item { name, value };
        attempt(alloc, &SeqOp::Insert { place, item }, &mut seq);
    }
    seq
}

// Whether the text has these letters.
pub(crate) fn reads(seq: &Seq<char>, letters: &str) -> bool {
    let mut rest = letters.chars();
    for item in seq.iter() {
        if rest.next() != Some(item.value) {
            return false;
        }
    }
    rest.next().is_none()
}

const FIRST: Name = Name { site: 1, number: 1 };

// The insertion of a label at the head of a list.
fn put_in(value: Label) -> ListOp {
    SeqOp::Insert {
        place: 0,
        item: Item { name: FIRST, value },
    }
}

// The deletion of that label, written over another operation.
fn taken_out() -> ListOp {
    let mut gone = SeqOp::Nothing;
    SeqOp::Delete {
        place: 0,
        name: FIRST,
    }
    .write_to(&mut gone);
    gone
}

// A relabel of the first item of site 1.
fn relabel_first(value: Label) -> ListOp {
    SeqOp::Relabel {
        place: 0,
        name: FIRST,
        value,
    }
}

// The relabel says what it is, and has another name than any insertion.
fn is_a_relabel(rt: &impl Abort, alloc: Global, relabel: &ListOp, label: Label, put: &ListOp) {
    let due = SeqEdit::Relabelled(FIRST, label);
    expect_eq(rt, relabel.edit(alloc), Ok(due));
    expect_eq(rt, relabel.copy(alloc), Ok(*relabel));
    expect_that(
        rt,
        relabel.apart(put) && put.apart(relabel) && put.fresh_after(relabel),
    );
}

#[test]
fn operations_on_a_list_are_copied_and_compared(rt: HostRuntime) {
    let red = Label::read(b"red").expect(&rt, "a label");
    let (put, gone) = (put_in(red), taken_out());
    expect_that(&rt, put.edit(rt.alloc()) == Ok(SeqEdit::Put(FIRST, red)));
    expect_that(&rt, gone.edit(rt.alloc()) == Ok(SeqEdit::Deleted(FIRST)));
    expect_that(&rt, put.copy(rt.alloc()) == Ok(put));
    expect_that(
        &rt,
        put.apart(&gone) && !put.apart(&put) && !put.fresh_after(&gone),
    );
    is_a_relabel(&rt, rt.alloc(), &relabel_first(red), red, &put);
}
