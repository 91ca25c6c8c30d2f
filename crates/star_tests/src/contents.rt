//! What a board holds, without its order, and what edits make of that. It is computed here, from the documented meaning of each edit.
use jup_value::Item;
use jup_window::{Board, BoardEdit, Effect, Widget};
use std::alloc::Global;
use std::process::Abort;

/// The items of the text 1 and the setting of the toggle 2 of window 1.
#[derive(Drop)]
pub(crate) struct Content {
    text: Vec<Item<char>>,
    on: bool,
}

/// The text's items, in order.
pub(crate) fn items_of(rt: &impl Abort, alloc: Global, board: &Board) -> Vec<Item<char>> {
    let mut items = Vec::new(alloc);
    if let Some(Widget::Text(text)) = board.widget(1, 1) {
        for item in text.iter() {
            items.push(*item).expect(rt, "memory");
        }
    }
    items
}

fn are_among(items: &[Item<char>], others: &[Item<char>]) -> bool {
    items.iter().all(|item| others.contains(item))
}

impl Content {
    pub(crate) fn of(rt: &impl Abort, alloc: Global, board: &Board) -> Content {
        let on = match board.widget(1, 2) {
            Some(Widget::Toggle(toggle)) => toggle.on,
            _ => panic!(rt; "a toggle"),
        };
        let text = items_of(rt, alloc, board);
        Content { text, on }
    }

    /// Whether both hold the same items and the same setting.
    pub(crate) fn same(&self, other: &Content) -> bool {
        self.text.len() == other.text.len()
            && are_among(&self.text, &other.text)
            && are_among(&other.text, &self.text)
            && self.on == other.on
    }

    /// Edits take effect, one after the other.
    pub(crate) fn take_all(&mut self, rt: &impl Abort, edits: &[BoardEdit]) {
        for edit in edits {
            match edit.shown().what {
                Effect::PutChar(name, value) => self
                    .text
                    .push(Item { name, value })
                    .expect(rt, "memory"),
                Effect::Deleted(name) => self.text.retain(|item| item.name != name),
                Effect::Toggled(on) => self.on = on,
                _ => {}
            }
        }
    }
}

/// Whether the items that both lists have are in one order in both: those of the first ascend in the second.
pub(crate) fn is_one_order(items: &[Item<char>], others: &[Item<char>]) -> bool {
    let mut reached = 0;
    for item in items {
        match others.iter().position(|other| other.name == item.name) {
            Some(at) if at < reached => return false,
            Some(at) => reached = at,
            None => {}
        }
    }
    true
}

/// Whether items are in the same order as in each of the lists that were kept.
pub(crate) fn keeps_orders(items: &[Item<char>], kept: &[Vec<Item<char>>]) -> bool {
    kept.iter().all(|old| is_one_order(old, items))
}
