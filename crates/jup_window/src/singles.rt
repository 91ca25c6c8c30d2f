//! Whether an operation on a board may be applied after others, without applying them: only those on
//! the same widget matter.
ghost use Rattle.std.specs.Prelude.{◌≡◌, ◌↔◌, IsTrue};
ghost use Rattle.jup_window.specs.Widgets as widget;
ghost use Rattle.jup_window.specs.Traces as traces;

use crate::board_operations::BoardOp;
use crate::boards::Board;
use crate::kinds::{Widget, WidgetOp};
use jup_seq::SeqTrace;
use jup_xform::{Single, Transform};

/// What of a widget determines whether an operation may be applied to it.
#[derive(Clone, Copy, Debug, PartialEq, Eq)]
pub enum WidgetTrace {
    /// What is traced in a text or a list.
    Sequence(SeqTrace),
    /// Whether the operation may be applied. An operation on a widget without items changes that for no other.
    Decided(bool),
}

impl WidgetOp {
    // The trace that is taken of a widget.
    fn trace(&self, state: &Widget) -> WidgetTrace
        ensures { traces.IsTraceOn result self.now (widget.bare state.now) }
    {
        match (self, state) {
            (WidgetOp::Text(op), Widget::Text(text)) => WidgetTrace::Sequence(op.trace(text)),
            (WidgetOp::List(op), Widget::List(list)) => WidgetTrace::Sequence(op.trace(list)),
            _ => WidgetTrace::Decided(self.valid(state)),
        }
    }

    // The trace once an earlier operation was applied to the widget.
    fn trace_after(&self, trace: WidgetTrace, earlier: &WidgetOp) -> WidgetTrace
        ensures { result ≡ traces.widget_trace_past trace self.now earlier.now }
    {
        match (trace, self, earlier) {
            (WidgetTrace::Sequence(trace), WidgetOp::Text(op), WidgetOp::Text(earlier)) => {
                WidgetTrace::Sequence(op.trace_after(trace, earlier))
            }
            (WidgetTrace::Sequence(trace), WidgetOp::List(op), WidgetOp::List(earlier)) => {
                WidgetTrace::Sequence(op.trace_after(trace, earlier))
            }
            _ => trace,
        }
    }

    // Whether the trace allows the operation. A text takes no relabel.
    fn allowed_by(&self, trace: WidgetTrace) -> bool
        ensures { IsTrue result ↔ traces.AllowsOn trace self.now }
    {
        match (trace, self) {
            (WidgetTrace::Sequence(trace), WidgetOp::Text(op)) => op.is_no_relabel()
                && op.allowed_by(trace),
            (WidgetTrace::Sequence(trace), WidgetOp::List(op)) => op.allowed_by(trace),
            (WidgetTrace::Decided(taken), _) => taken,
            _ => false,
        }
    }
}

impl Single for BoardOp {
    type Trace = WidgetTrace;

    ghost is_trace = { traces.IsTrace };

    ghost trace_past = { traces.trace_past };

    ghost allows = { traces.Allows };

    fn trace(&self, state: &Board) -> WidgetTrace {
        match state.widget(self.win, self.wid) {
            Some(widget) => self.op.trace(widget),
            None => WidgetTrace::Decided(false),
        }
    }

    fn trace_after(&self, trace: WidgetTrace, earlier: &BoardOp) -> WidgetTrace {
        if earlier.is_with(self) {
            self.op.trace_after(trace, &earlier.op)
        } else {
            trace
        }
    }

    fn allowed_by(&self, trace: WidgetTrace) -> bool {
        self.op.allowed_by(trace)
    }

    ghost traced = { traces.traced };

    ghost told = { traces.told };
}
