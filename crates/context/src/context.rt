// The context of a command. Beside CommandContext of command/mod.rs; a method hands back the next context by value.
ghost use Rattle.std.specs.Prelude.{◌≡◌};
ghost use Rattle.context.specs.Context.{fresh as fresh_one, set_tab, set_axis, set_side, set_flags, axis_of, side_of, open_in, split_in, switch_in, window_in};

use actions::action::{
    Action, Axis, Count, FocusChange, OpenTarget, Side, TabAction, WindowAction,
};
use actions::flags::OpenFlags;

// What a tab prefix, an axis prefix and a side prefix set, if there was one; what stands for an axis and a side that none set; and the flags
// with which something is opened.
#[derive(Clone, Copy)]
pub struct CommandContext {
    pub tab: Option<FocusChange>,
    pub axis: Option<Axis>,
    pub rel: Option<Side>,
    pub axis_default: Axis,
    pub rel_default: Side,
    pub open_flags: OpenFlags,
}

impl CommandContext {
    // Nothing is set.
    pub fn fresh() -> CommandContext
        ensures { result ≡ fresh_one }
    {
        CommandContext {
            tab: None,
            axis: None,
            rel: None,
            axis_default: Axis::Horizontal,
            rel_default: Side::Previous,
            open_flags: OpenFlags::NONE,
        }
    }

    pub fn with_tab(self, f: FocusChange) -> CommandContext
        ensures { result ≡ set_tab f self }
    {
        CommandContext {
            tab: Some(f),
            ..self
        }
    }

    // This and the next two set a field each, of a type of its own: one function could not name the field.
    pub fn with_axis(self, a: Axis) -> CommandContext
        ensures { result ≡ set_axis a self }
    {
        CommandContext {
            axis: Some(a),
            ..self
        }
    }

    pub fn with_side(self, d: Side) -> CommandContext
        ensures { result ≡ set_side d self }
    {
        CommandContext {
            rel: Some(d),
            ..self
        }
    }

    pub fn with_open_flags(self, f: OpenFlags) -> CommandContext
        ensures { result ≡ set_flags f self }
    {
        CommandContext {
            open_flags: f,
            ..self
        }
    }

    // The axis that was set, or else the default.
    pub fn axis(self) -> Axis
        ensures { result ≡ axis_of self }
    {
        self.axis.unwrap_or(self.axis_default)
    }

    // The side that was set, or else the default.
    pub fn relation(self) -> Side
        ensures { result ≡ side_of self }
    {
        self.rel.unwrap_or(self.rel_default)
    }

    pub fn open(self, target: OpenTarget, count: Count) -> Action
        ensures { result ≡ open_in self target count }
    {
        let flags = self.open_flags;
        Action::Window(WindowAction::Open(target, flags, self.axis(), self.relation(), count))
    }

    pub fn split(self, target: OpenTarget, count: Count) -> Action
        ensures { result ≡ split_in self target count }
    {
        let flags = self.open_flags;
        Action::Window(WindowAction::Split(target, flags, self.axis(), self.relation(), count))
    }

    // Switches to the target; after a tab prefix it is opened in a tab, after an axis or side prefix in a split.
    pub fn switch(self, target: OpenTarget) -> Action
        ensures { result ≡ switch_in self target }
    {
        match (self.tab, self.axis, self.rel) {
            (Some(f), _, _) => Action::Tab(TabAction::Open(target, self.open_flags, f)),
            (None, None, None) => Action::Window(WindowAction::Switch(target, self.open_flags)),
            _ => self.split(target, Count::Exact(1)),
        }
    }

    // Opens a window: in a tab after a tab prefix, or else with its size, or else by a split.
    pub fn window(self, target: OpenTarget, size: Option<Count>) -> Action
        ensures { result ≡ window_in self target size }
    {
        match (self.tab, size) {
            (Some(f), _) => Action::Tab(TabAction::Open(target, self.open_flags, f)),
            (None, Some(n)) => self.open(target, n),
            (None, None) => self.split(target, Count::Exact(1)),
        }
    }
}
