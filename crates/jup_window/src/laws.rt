//! What boards hold and what their edits mean, written out. The laws of `Transform` use an implementation's
//! own words for these. These functions say what those words are for boards, and do nothing else.
ghost use Rattle.std.specs.Prelude.{◌≡◌, ◌≢◌, ◌↔◌, ℕ, ℤ, Bool, List, [], ◌∷◌, ◌++◌, Contains, ◌⊎◌, Some, None, IsTrue};
ghost use Rattle.jup_value.specs.declared.names.Name.{Name};
ghost use Rattle.jup_value.specs.declared.names.Item.{Item};
ghost use Rattle.jup_value.specs.Items.{Items};
ghost use Rattle.jup_setting.specs.declared.toggle.Toggle.{Toggle};
ghost use Rattle.jup_setting.specs.Sliders.{SliderState};
ghost use Rattle.jup_seq.specs.Operations.{Content as SeqContent, is_no_relabel};
ghost use Rattle.jup_seq.specs.declared.operations.SeqOp.{SeqOp};
ghost use Rattle.jup_seq.specs.declared.operations.SeqEdit.{SeqEdit};
ghost use Rattle.jup_setting.specs.declared.operation.SetOp.{SetOp};
ghost use Rattle.jup_setting.specs.declared.operation.SettingEdit.{SettingEdit};
ghost use Rattle.jup_window.specs.declared.kinds.Widget.{Widget};
ghost use Rattle.jup_window.specs.declared.board_operations.BoardOp.{BoardOp};
ghost use Rattle.jup_window.specs.declared.edits.BoardEdit.{BoardEdit};
ghost use Rattle.jup_window.specs.Entries.{Place, EachWidget, widget_at};
ghost use Rattle.jup_window.specs.Kinds.{InSequences, AreOfOneKind, AreOperationsOfOneKind};
ghost use Rattle.jup_window.specs.Boards.{Windows, Content, Placed, place, edit_place};
ghost use Rattle.jup_window.specs.Kinds.{Chars, Labelled, On, At, of_text, of_list, of_toggle, of_slider, op_at, edit_at, shown_at, character, label, shown_edit};
ghost use Rattle.jup_window.specs.Operations.{AreLawful, board_operations};

use crate::{BoardOp, Effect, Widget, WidgetOp};
use jup_seq::{SeqEdit, SeqOp};
use jup_setting::{SetOp, SettingEdit};
use jup_value::Label;
use jup_xform::Transform;

/// Operations on boards have every law that a star and its sites rest on.
pub fn boards_are_lawful()
    ensures { AreLawful board_operations }
{}

/// The content of a board has the content of each widget under its ids. Of a text or a list it has the values
/// by the names of the items, without their order. Of a setting it has the value.
pub fn board_content()
    ensures text { (board : Windows) (p : Place) (text : Items ℕ)
        → widget_at p board ≡ Some (Widget.Text text)
        → ⟦<BoardOp as Transform>⟧.content board p
        ≡ Some (Chars (⟦<SeqOp<char> as Transform>⟧.content text)) }
    ensures list { (board : Windows) (p : Place) (list : Items (List ℕ))
        → widget_at p board ≡ Some (Widget.List list)
        → ⟦<BoardOp as Transform>⟧.content board p
        ≡ Some (Labelled (⟦<SeqOp<Label> as Transform>⟧.content list)) }
    ensures toggle { (board : Windows) (p : Place) (toggle : Toggle)
        → widget_at p board ≡ Some (Widget.Toggle toggle)
        → ⟦<BoardOp as Transform>⟧.content board p ≡ Some (On toggle.on) }
    ensures slider { (board : Windows) (p : Place) (slider : SliderState)
        → widget_at p board ≡ Some (Widget.Slider slider)
        → ⟦<BoardOp as Transform>⟧.content board p ≡ Some (At slider.value) }
    ensures absent { (board : Windows) (p : Place)
        → widget_at p board ≡ None → ⟦<BoardOp as Transform>⟧.content board p ≡ None }
{}

/// An operation may be applied if its ids name a widget of its kind and it may be applied there; but a
/// relabel of a text may not.
pub fn operation_validity()
    ensures text { (p : Place) (op : SeqOp ℕ) (board : Windows) (text : Items ℕ)
        → widget_at p board ≡ Some (Widget.Text text)
        → ⟦<BoardOp as Transform>⟧.is_valid (op_at p (WidgetOp.Text op)) board
        ↔ (IsTrue (is_no_relabel op) × ⟦<SeqOp<char> as Transform>⟧.is_valid op text) }
    ensures list { (p : Place) (op : SeqOp (List ℕ)) (board : Windows) (list : Items (List ℕ))
        → widget_at p board ≡ Some (Widget.List list)
        → ⟦<BoardOp as Transform>⟧.is_valid (op_at p (WidgetOp.List op)) board
        ↔ ⟦<SeqOp<Label> as Transform>⟧.is_valid op list }
    ensures toggle { (p : Place) (op : SetOp Bool) (board : Windows) (toggle : Toggle)
        → widget_at p board ≡ Some (Widget.Toggle toggle)
        → ⟦<BoardOp as Transform>⟧.is_valid (op_at p (WidgetOp.Toggle op)) board }
    ensures slider { (p : Place) (op : SetOp ℤ) (board : Windows) (slider : SliderState)
        → widget_at p board ≡ Some (Widget.Slider slider)
        → ⟦<BoardOp as Transform>⟧.is_valid (op_at p (WidgetOp.Slider op)) board
        ↔ ⟦<SetOp<i32> as Transform>⟧.is_valid op slider }
    ensures other_kind { (op : BoardOp) (board : Windows) (widget : Widget)
        → widget_at (place op) board ≡ Some widget
        → ¬ AreOfOneKind op.op widget → ¬ ⟦<BoardOp as Transform>⟧.is_valid op board }
    ensures absent { (op : BoardOp) (board : Windows)
        → widget_at (place op) board ≡ None → ¬ ⟦<BoardOp as Transform>⟧.is_valid op board }
{}

/// An operation changes the widget that its ids name, as it changes a text, a list, a toggle or a
/// slider, and no other widget.
pub fn operation_outcome()
    ensures text { (p : Place) (op : SeqOp ℕ) (board : Windows) (text : Items ℕ)
        → widget_at p board ≡ Some (Widget.Text text)
        → widget_at p (⟦<BoardOp as Transform>⟧.after (op_at p (WidgetOp.Text op)) board)
        ≡ Some (Widget.Text (⟦<SeqOp<char> as Transform>⟧.after op text)) }
    ensures list { (p : Place) (op : SeqOp (List ℕ)) (board : Windows) (list : Items (List ℕ))
        → widget_at p board ≡ Some (Widget.List list)
        → widget_at p (⟦<BoardOp as Transform>⟧.after (op_at p (WidgetOp.List op)) board)
        ≡ Some (Widget.List (⟦<SeqOp<Label> as Transform>⟧.after op list)) }
    ensures toggle { (p : Place) (op : SetOp Bool) (board : Windows) (toggle : Toggle)
        → widget_at p board ≡ Some (Widget.Toggle toggle)
        → widget_at p (⟦<BoardOp as Transform>⟧.after (op_at p (WidgetOp.Toggle op)) board)
        ≡ Some (Widget.Toggle (⟦<SetOp<bool> as Transform>⟧.after op toggle)) }
    ensures slider { (p : Place) (op : SetOp ℤ) (board : Windows) (slider : SliderState)
        → widget_at p board ≡ Some (Widget.Slider slider)
        → widget_at p (⟦<BoardOp as Transform>⟧.after (op_at p (WidgetOp.Slider op)) board)
        ≡ Some (Widget.Slider (⟦<SetOp<i32> as Transform>⟧.after op slider)) }
    ensures elsewhere { (op : BoardOp) (board : Windows) (p : Place) → place op ≢ p
        → widget_at p (⟦<BoardOp as Transform>⟧.after op board) ≡ widget_at p board }
{}

/// Two operations on one widget are transformed as operations on a text, a list, a toggle or a
/// slider. Two on different widgets, or of different kinds, stay as they are.
pub fn operation_transform()
    ensures text { (p : Place) (c s : SeqOp ℕ)
        → let on : SeqOp ℕ → BoardOp = λ op. op_at p (WidgetOp.Text op) in
        (⟦<BoardOp as Transform>⟧.client_past (on c) (on s)
        ≡ on (⟦<SeqOp<char> as Transform>⟧.client_past c s))
        × (⟦<BoardOp as Transform>⟧.server_past (on s) (on c)
        ≡ on (⟦<SeqOp<char> as Transform>⟧.server_past s c)) }
    ensures list { (p : Place) (c s : SeqOp (List ℕ))
        → let on : SeqOp (List ℕ) → BoardOp = λ op. op_at p (WidgetOp.List op) in
        (⟦<BoardOp as Transform>⟧.client_past (on c) (on s)
        ≡ on (⟦<SeqOp<Label> as Transform>⟧.client_past c s))
        × (⟦<BoardOp as Transform>⟧.server_past (on s) (on c)
        ≡ on (⟦<SeqOp<Label> as Transform>⟧.server_past s c)) }
    ensures toggle { (p : Place) (c s : SetOp Bool)
        → let on : SetOp Bool → BoardOp = λ op. op_at p (WidgetOp.Toggle op) in
        (⟦<BoardOp as Transform>⟧.client_past (on c) (on s)
        ≡ on (⟦<SetOp<bool> as Transform>⟧.client_past c s))
        × (⟦<BoardOp as Transform>⟧.server_past (on s) (on c)
        ≡ on (⟦<SetOp<bool> as Transform>⟧.server_past s c)) }
    ensures slider { (p : Place) (c s : SetOp ℤ)
        → let on : SetOp ℤ → BoardOp = λ op. op_at p (WidgetOp.Slider op) in
        (⟦<BoardOp as Transform>⟧.client_past (on c) (on s)
        ≡ on (⟦<SetOp<i32> as Transform>⟧.client_past c s))
        × (⟦<BoardOp as Transform>⟧.server_past (on s) (on c)
        ≡ on (⟦<SetOp<i32> as Transform>⟧.server_past s c)) }
    ensures other_kind { (c s : BoardOp) → ¬ AreOperationsOfOneKind c.op s.op
        → (⟦<BoardOp as Transform>⟧.client_past c s ≡ c)
        × (⟦<BoardOp as Transform>⟧.server_past s c ≡ s) }
    ensures elsewhere { (c s : BoardOp) → place c ≢ place s
        → (⟦<BoardOp as Transform>⟧.client_past c s ≡ c)
        × (⟦<BoardOp as Transform>⟧.server_past s c ≡ s) }
{}

/// If order is kept from one board to another, it is kept in each text and each list that has the same ids in
/// both.
pub fn board_order()
    ensures text { (x y : Windows) (p : Place) (v w : Items ℕ)
        → ⟦<BoardOp as Transform>⟧.keeps_order x y
        → widget_at p x ≡ Some (Widget.Text v) → widget_at p y ≡ Some (Widget.Text w)
        → ⟦<SeqOp<char> as Transform>⟧.keeps_order v w }
    ensures list { (x y : Windows) (p : Place) (v w : Items (List ℕ))
        → ⟦<BoardOp as Transform>⟧.keeps_order x y
        → widget_at p x ≡ Some (Widget.List v) → widget_at p y ≡ Some (Widget.List w)
        → ⟦<SeqOp<Label> as Transform>⟧.keeps_order v w }
{}

/// The edit of an operation is what it means on a text, a list, a toggle or a slider, of the widget that its ids
/// name. A relabel of a text has no edit.
pub fn operation_edits()
    ensures text { (p : Place) (op : SeqOp ℕ) → IsTrue (is_no_relabel op)
        → ⟦<BoardOp as Transform>⟧.edit_of (op_at p (WidgetOp.Text op))
        ≡ edit_at p (of_text (⟦<SeqOp<char> as Transform>⟧.edit_of op)) }
    ensures relabel_of_text { (p : Place) (at : ℕ) (name : Name) (value : ℕ)
        → ⟦<BoardOp as Transform>⟧.edit_of (op_at p (WidgetOp.Text (SeqOp.Relabel at name value)))
        ≡ edit_at p (of_text SeqEdit.Nothing) }
    ensures list { (p : Place) (op : SeqOp (List ℕ))
        → ⟦<BoardOp as Transform>⟧.edit_of (op_at p (WidgetOp.List op))
        ≡ edit_at p (of_list (⟦<SeqOp<Label> as Transform>⟧.edit_of op)) }
    ensures toggle { (p : Place) (op : SetOp Bool)
        → ⟦<BoardOp as Transform>⟧.edit_of (op_at p (WidgetOp.Toggle op))
        ≡ edit_at p (of_toggle (⟦<SetOp<bool> as Transform>⟧.edit_of op)) }
    ensures slider { (p : Place) (op : SetOp ℤ)
        → ⟦<BoardOp as Transform>⟧.edit_of (op_at p (WidgetOp.Slider op))
        ≡ edit_at p (of_slider (⟦<SetOp<i32> as Transform>⟧.edit_of op)) }
{}

/// How edits are shown. An insertion puts its value under its name, and a deletion deletes its name. A relabel of a
/// list gives its name its label, whatever the place in the sequence. A setting sets its value. Each acts on the
/// widget that the operation's ids name.
pub fn shown_edits()
    ensures character { (p : Place) (at : ℕ) (item : Item ℕ)
        → shown_edit (⟦<BoardOp as Transform>⟧.edit_of (op_at p (WidgetOp.Text (SeqOp.Insert at item))))
        ≡ shown_at p (Effect.PutChar item.name item.value) }
    ensures label { (p : Place) (at : ℕ) (item : Item (List ℕ))
        → shown_edit (⟦<BoardOp as Transform>⟧.edit_of (op_at p (WidgetOp.List (SeqOp.Insert at item))))
        ≡ shown_at p (Effect.PutLabel item.name item.value) }
    ensures deletion_in_text { (p : Place) (at : ℕ) (name : Name)
        → shown_edit (⟦<BoardOp as Transform>⟧.edit_of (op_at p (WidgetOp.Text (SeqOp.Delete at name))))
        ≡ shown_at p (Effect.Deleted name) }
    ensures deletion_in_list { (p : Place) (at : ℕ) (name : Name)
        → shown_edit (⟦<BoardOp as Transform>⟧.edit_of (op_at p (WidgetOp.List (SeqOp.Delete at name))))
        ≡ shown_at p (Effect.Deleted name) }
    ensures relabel_in_list { (p : Place) (at : ℕ) (name : Name) (value : List ℕ)
        → shown_edit (⟦<BoardOp as Transform>⟧.edit_of (op_at p (WidgetOp.List (SeqOp.Relabel at name value))))
        ≡ shown_at p (Effect.Relabelled name value) }
    ensures relabel_in_text { (p : Place) (at : ℕ) (name : Name) (value : ℕ)
        → shown_edit (⟦<BoardOp as Transform>⟧.edit_of (op_at p (WidgetOp.Text (SeqOp.Relabel at name value))))
        ≡ shown_at p Effect.Nothing }
    ensures toggle { (p : Place) (on : Bool)
        → shown_edit (⟦<BoardOp as Transform>⟧.edit_of (op_at p (WidgetOp.Toggle (SetOp.Set on))))
        ≡ shown_at p (Effect.Toggled on) }
    ensures slider { (p : Place) (value : ℤ)
        → shown_edit (⟦<BoardOp as Transform>⟧.edit_of (op_at p (WidgetOp.Slider (SetOp.Set value))))
        ≡ shown_at p (Effect.Slid value) }
    ensures nothing_in_text { (p : Place)
        → shown_edit (⟦<BoardOp as Transform>⟧.edit_of (op_at p (WidgetOp.Text SeqOp.Nothing)))
        ≡ shown_at p Effect.Nothing }
    ensures nothing_in_list { (p : Place)
        → shown_edit (⟦<BoardOp as Transform>⟧.edit_of (op_at p (WidgetOp.List SeqOp.Nothing)))
        ≡ shown_at p Effect.Nothing }
    ensures nothing_on_toggle { (p : Place)
        → shown_edit (⟦<BoardOp as Transform>⟧.edit_of (op_at p (WidgetOp.Toggle SetOp.Nothing)))
        ≡ shown_at p Effect.Nothing }
    ensures nothing_on_slider { (p : Place)
        → shown_edit (⟦<BoardOp as Transform>⟧.edit_of (op_at p (WidgetOp.Slider SetOp.Nothing)))
        ≡ shown_at p Effect.Nothing }
{}

/// The premises of the laws:
///
/// - of a board, that each text and each list has distinct names and is small;
/// - of two operations, that they insert no name in common, in whatever widgets;
/// - of a later operation of a batch, that it inserts no name that an earlier one inserts or deletes.
pub fn premises()
    ensures distinct { (board : Windows)
        → ⟦<BoardOp as Transform>⟧.is_distinct board
        ↔ EachWidget (InSequences ⟦<SeqOp<char> as Transform>⟧.is_distinct ⟦<SeqOp<Label> as Transform>⟧.is_distinct) board }
    ensures small { (more : ℕ) (board : Windows)
        → ⟦<BoardOp as Transform>⟧.is_small more board
        ↔ EachWidget (InSequences (⟦<SeqOp<char> as Transform>⟧.is_small more) (⟦<SeqOp<Label> as Transform>⟧.is_small more)) board }
    ensures apart { (c s : BoardOp) → ⟦<BoardOp as Transform>⟧.are_apart c s
        ↔ ((m n : Placed) → ⟦<BoardOp as Transform>⟧.inserts (⟦<BoardOp as Transform>⟧.edit_of c) m
        → ⟦<BoardOp as Transform>⟧.inserts (⟦<BoardOp as Transform>⟧.edit_of s) n → m.name ≢ n.name) }
    ensures fresh { (later earlier : BoardOp) → ⟦<BoardOp as Transform>⟧.is_fresh later earlier
        ↔ ((m n : Placed) → ⟦<BoardOp as Transform>⟧.inserts (⟦<BoardOp as Transform>⟧.edit_of later) m
        → ⟦<BoardOp as Transform>⟧.inserts (⟦<BoardOp as Transform>⟧.edit_of earlier) n
        ⊎ ⟦<BoardOp as Transform>⟧.deletes (⟦<BoardOp as Transform>⟧.edit_of earlier) n → m.name ≢ n.name) }
{}

/// The names that an edit inserts, those that it deletes, and those that it changes, each in the widget of
/// the edit's ids. It changes those that it deletes or gives another label.
pub fn edited_names()
    ensures character { (p : Place) (name : Name) (value : ℕ) (n : Placed)
        → ⟦<BoardOp as Transform>⟧.inserts (edit_at p (of_text (SeqEdit.Put name value))) n
        ↔ (n ≡ record { at = p; name = name }) }
    ensures label { (p : Place) (name : Name) (value : List ℕ) (n : Placed)
        → ⟦<BoardOp as Transform>⟧.inserts (edit_at p (of_list (SeqEdit.Put name value))) n
        ↔ (n ≡ record { at = p; name = name }) }
    ensures deletion_in_text { (p : Place) (name : Name) (n : Placed)
        → ⟦<BoardOp as Transform>⟧.deletes (edit_at p (of_text (SeqEdit.Deleted name))) n
        ↔ (n ≡ record { at = p; name = name }) }
    ensures deletion_in_list { (p : Place) (name : Name) (n : Placed)
        → ⟦<BoardOp as Transform>⟧.deletes (edit_at p (of_list (SeqEdit.Deleted name))) n
        ↔ (n ≡ record { at = p; name = name }) }
    ensures nothing_inserted { (edit : BoardEdit) (n : Placed)
        → ((value : ℕ) → edit.what ≢ of_text (SeqEdit.Put n.name value))
        → ((value : List ℕ) → edit.what ≢ of_list (SeqEdit.Put n.name value))
        → ¬ ⟦<BoardOp as Transform>⟧.inserts edit n }
    ensures nothing_deleted { (edit : BoardEdit) (n : Placed)
        → edit.what ≢ of_text (SeqEdit.Deleted n.name) → edit.what ≢ of_list (SeqEdit.Deleted n.name)
        → ¬ ⟦<BoardOp as Transform>⟧.deletes edit n }
    ensures changed_by_deletion_in_text { (p : Place) (name : Name) (n : Placed)
        → ⟦<BoardOp as Transform>⟧.changes (edit_at p (of_text (SeqEdit.Deleted name))) n
        ↔ (n ≡ record { at = p; name = name }) }
    ensures changed_by_deletion_in_list { (p : Place) (name : Name) (n : Placed)
        → ⟦<BoardOp as Transform>⟧.changes (edit_at p (of_list (SeqEdit.Deleted name))) n
        ↔ (n ≡ record { at = p; name = name }) }
    ensures changed_by_relabel { (p : Place) (name : Name) (value : List ℕ) (n : Placed)
        → ⟦<BoardOp as Transform>⟧.changes (edit_at p (of_list (SeqEdit.Relabelled name value))) n
        ↔ (n ≡ record { at = p; name = name }) }
    ensures nothing_changed { (edit : BoardEdit) (n : Placed)
        → edit.what ≢ of_text (SeqEdit.Deleted n.name) → edit.what ≢ of_list (SeqEdit.Deleted n.name)
        → ((value : List ℕ) → edit.what ≢ of_list (SeqEdit.Relabelled n.name value))
        → ¬ ⟦<BoardOp as Transform>⟧.changes edit n }
{}

/// What a list of edits makes of a text. It has the names that it had and those that are inserted, less those
/// that are deleted anywhere in the list. Each has the character of its last insertion, else its own.
pub fn text_meaning()
    ensures deleted { (before : Content) (edits : List BoardEdit) (p : Place) (name : Name)
        → Contains edits (edit_at p (of_text (SeqEdit.Deleted name)))
        → character name (⟦<BoardOp as Transform>⟧.meaning before edits p) ≡ None }
    ensures inserted { (before : Content) (earlier later : List BoardEdit) (p : Place) (name : Name)
        (value : ℕ) (had : SeqContent ℕ) → before p ≡ Some (Chars had)
        → let edits = earlier ++ edit_at p (of_text (SeqEdit.Put name value)) ∷ later in
        ¬ Contains edits (edit_at p (of_text (SeqEdit.Deleted name)))
        → ((other : ℕ) → ¬ Contains later (edit_at p (of_text (SeqEdit.Put name other))))
        → character name (⟦<BoardOp as Transform>⟧.meaning before edits p) ≡ Some value }
    ensures kept { (before : Content) (edits : List BoardEdit) (p : Place) (name : Name)
        → ¬ Contains edits (edit_at p (of_text (SeqEdit.Deleted name)))
        → ((other : ℕ) → ¬ Contains edits (edit_at p (of_text (SeqEdit.Put name other))))
        → character name (⟦<BoardOp as Transform>⟧.meaning before edits p)
        ≡ character name (before p) }
{}

/// What a list of edits makes of a list of labels. It has the names that it had and those that are inserted,
/// less those that are deleted anywhere in the list. Each has the label of its last relabel, else of its last
/// insertion, else its own.
pub fn list_meaning()
    ensures deleted { (before : Content) (edits : List BoardEdit) (p : Place) (name : Name)
        → Contains edits (edit_at p (of_list (SeqEdit.Deleted name)))
        → label name (⟦<BoardOp as Transform>⟧.meaning before edits p) ≡ None }
    ensures relabelled { (before : Content) (earlier later : List BoardEdit) (p : Place) (name : Name)
        (value other : List ℕ) (had : SeqContent (List ℕ)) → before p ≡ Some (Labelled had)
        → let edits = earlier ++ edit_at p (of_list (SeqEdit.Relabelled name value)) ∷ later in
        ¬ Contains edits (edit_at p (of_list (SeqEdit.Deleted name)))
        → ((next : List ℕ) → ¬ Contains later (edit_at p (of_list (SeqEdit.Relabelled name next))))
        → (had name ≡ Some other) ⊎ Contains edits (edit_at p (of_list (SeqEdit.Put name other)))
        → label name (⟦<BoardOp as Transform>⟧.meaning before edits p) ≡ Some value }
    ensures inserted { (before : Content) (earlier later : List BoardEdit) (p : Place) (name : Name)
        (value : List ℕ) (had : SeqContent (List ℕ)) → before p ≡ Some (Labelled had)
        → let edits = earlier ++ edit_at p (of_list (SeqEdit.Put name value)) ∷ later in
        ¬ Contains edits (edit_at p (of_list (SeqEdit.Deleted name)))
        → ((other : List ℕ) → ¬ Contains edits (edit_at p (of_list (SeqEdit.Relabelled name other))))
        → ((other : List ℕ) → ¬ Contains later (edit_at p (of_list (SeqEdit.Put name other))))
        → label name (⟦<BoardOp as Transform>⟧.meaning before edits p) ≡ Some value }
    ensures kept { (before : Content) (edits : List BoardEdit) (p : Place) (name : Name)
        → ¬ Contains edits (edit_at p (of_list (SeqEdit.Deleted name)))
        → ((other : List ℕ) → ¬ Contains edits (edit_at p (of_list (SeqEdit.Relabelled name other))))
        → ((other : List ℕ) → ¬ Contains edits (edit_at p (of_list (SeqEdit.Put name other))))
        → label name (⟦<BoardOp as Transform>⟧.meaning before edits p) ≡ label name (before p) }
    ensures absent { (before : Content) (edits : List BoardEdit) (p : Place) (name : Name)
        → label name (before p) ≡ None
        → ((other : List ℕ) → ¬ Contains edits (edit_at p (of_list (SeqEdit.Put name other))))
        → label name (⟦<BoardOp as Transform>⟧.meaning before edits p) ≡ None }
{}

/// What a list of edits makes of a toggle or a slider: its last setting, and if it has none, what was there
/// before.
pub fn setting_meaning()
    ensures toggle { (before : Content) (edits : List BoardEdit) (p : Place) (had on : Bool)
        → before p ≡ Some (On had)
        → ⟦<BoardOp as Transform>⟧.meaning before (edits ++ edit_at p (of_toggle (SettingEdit.Set on)) ∷ []) p
        ≡ Some (On on) }
    ensures slider { (before : Content) (edits : List BoardEdit) (p : Place) (had value : ℤ)
        → before p ≡ Some (At had)
        → ⟦<BoardOp as Transform>⟧.meaning before (edits ++ edit_at p (of_slider (SettingEdit.Set value)) ∷ []) p
        ≡ Some (At value) }
    ensures toggle_kept { (before : Content) (edits : List BoardEdit) (edit : BoardEdit) (p : Place)
        (had : Bool) → before p ≡ Some (On had)
        → ((on : Bool) → edit ≢ edit_at p (of_toggle (SettingEdit.Set on)))
        → ⟦<BoardOp as Transform>⟧.meaning before (edits ++ edit ∷ []) p
        ≡ ⟦<BoardOp as Transform>⟧.meaning before edits p }
    ensures slider_kept { (before : Content) (edits : List BoardEdit) (edit : BoardEdit) (p : Place)
        (had : ℤ) → before p ≡ Some (At had)
        → ((value : ℤ) → edit ≢ edit_at p (of_slider (SettingEdit.Set value)))
        → ⟦<BoardOp as Transform>⟧.meaning before (edits ++ edit ∷ []) p
        ≡ ⟦<BoardOp as Transform>⟧.meaning before edits p }
{}

/// No edit changes nothing, no edit makes a widget, and an edit of another widget changes nothing.
pub fn other_meaning()
    ensures none { (before : Content) → ⟦<BoardOp as Transform>⟧.meaning before [] ≡ before }
    ensures absent { (before : Content) (edits : List BoardEdit) (p : Place)
        → before p ≡ None → ⟦<BoardOp as Transform>⟧.meaning before edits p ≡ None }
    ensures elsewhere { (before : Content) (edits : List BoardEdit) (edit : BoardEdit) (p : Place)
        → edit_place edit ≢ p
        → ⟦<BoardOp as Transform>⟧.meaning before (edits ++ edit ∷ []) p
        ≡ ⟦<BoardOp as Transform>⟧.meaning before edits p }
{}
