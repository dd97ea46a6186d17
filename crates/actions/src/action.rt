// Actions: what a line does. An action holds a target, a target holds a focus, a focus holds a count.
use super::flags::{CloseFlags, OpenFlags, WriteFlags};
use lists::list::Item;
use ranges::range::MoveDir1D;

#[derive(Clone, Copy)]
pub enum Count {
    Contextual,
    Exact(u64),
}

#[derive(Clone, Copy)]
pub enum Axis {
    Horizontal,
    Vertical,
}

// The side of the current window on which a window is opened.
#[derive(Clone, Copy)]
pub enum Side {
    Next,
    Previous,
}

// Offset's flag is always false, and is left out.
#[derive(Clone, Copy)]
pub enum FocusChange {
    Current,
    Offset(u64),
    Direction1D(MoveDir1D, Count, bool),
    Beginning,
    End,
}

// Of windows or of tabs.
#[derive(Clone, Copy)]
pub enum Target {
    Single(FocusChange),
    AllBut(FocusChange),
    All,
}

// What is opened. A name is told by its place in the argument, since an enum cannot hold bytes.
#[derive(Clone, Copy)]
pub enum OpenTarget {
    Current,
    Alternate,
    Unnamed,
    Name(Item),
}

#[derive(Clone, Copy)]
pub enum SizeChange {
    Exact(u64),
    Increase(u64),
    Decrease(u64),
}

#[derive(Clone, Copy)]
pub enum WindowAction {
    Close(Target, CloseFlags),
    Resize(FocusChange, Axis, SizeChange),
    Open(OpenTarget, OpenFlags, Axis, Side, Count),
    Split(OpenTarget, OpenFlags, Axis, Side, Count),
    Switch(OpenTarget, OpenFlags),
    Write(Target, Option<Item>, WriteFlags),
}

#[derive(Clone, Copy)]
pub enum TabAction {
    Close(Target, CloseFlags),
    Focus(FocusChange),
    Move(FocusChange),
    Open(OpenTarget, OpenFlags, FocusChange),
}

#[derive(Clone, Copy)]
pub enum Action {
    Window(WindowAction),
    Tab(TabAction),
}
