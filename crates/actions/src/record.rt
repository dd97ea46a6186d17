// Records written to a store. Each function needs room for the longest that it can write, and says that it wrote no more. It takes the store
// and a place and answers the next: a writer would hold both, and each of its methods would say the same of the store before and after.
ghost use Rattle.std.specs.Prelude.{◌++◌, ◌+◌, ◌≤◌, ◌<◌, length, ◌≡◌, ℕ};
ghost use Rattle.limits.specs.Limits.{spare};
ghost use Rattle.store.specs.Sevens.{encode, named};
ghost use Rattle.lists.specs.Lists.{text_at};
ghost use Rattle.actions.specs.Within.{Within};
ghost use Rattle.actions.specs.Record.{direction_no, side_no, axis_no, bool_no, count_bytes, focus_bytes, target_bytes, opened_of, opened_bytes, written_of, written_bytes, change_bytes, window_of, tab_of, paper_record, nothing_record, record_of};

use super::action::{
    Action, Axis, Count, FocusChange, OpenTarget, Side, SizeChange, TabAction, Target, WindowAction,
};
use super::flags::{CloseFlags, OpenFlags, WriteFlags};
use lists::list::{Item, put_item};
use ranges::range::MoveDir1D;
use store::put_number;

// A number below 128, in one byte.
fn put_small(store: &mut [u8], at: usize, n: u64) -> usize
    requires at_in_bounds { at + 1 ≤ length store.old }
    requires n_bound { n < 128 }
    ensures { Within store.old store.new at result (encode n) 1 }
{
    store[at] = n as u8;
    at + 1
}

// Any number.
fn put_any(store: &mut [u8], at: usize, n: u64) -> usize
    requires { at + 10 ≤ length store.old }
    ensures { Within store.old store.new at result (encode n) 10 }
{
    put_number(store, at, n)
}

// A type of few cases, each of which has a number in the record.
trait Cases: Copy {
    ghost no: { Self → ℕ };

    fn number(self) -> u64
        ensures value { result ≡ no self }
        ensures small { result < 128 };
}

impl Cases for MoveDir1D {
    ghost no = { direction_no };

    fn number(self) -> u64 {
        self as u64
    }
}

impl Cases for Side {
    ghost no = { side_no };

    fn number(self) -> u64 {
        self as u64
    }
}

impl Cases for Axis {
    ghost no = { axis_no };

    fn number(self) -> u64 {
        self as u64
    }
}

impl Cases for bool {
    ghost no = { bool_no };

    fn number(self) -> u64 {
        self as u64
    }
}

// The number of a case.
fn put_case<K: Cases>(store: &mut [u8], at: usize, k: K) -> usize
    requires { at + 1 ≤ length store.old }
    ensures { Within store.old store.new at result (encode (K.no k)) 1 }
{
    put_small(store, at, k.number())
}

fn put_count(store: &mut [u8], at: usize, c: Count) -> usize
    requires { at + 11 ≤ length store.old }
    ensures { Within store.old store.new at result (count_bytes c) 11 }
{
    match c {
        Count::Contextual => put_small(store, at, 0),
        Count::Exact(n) => {
            let i = put_small(store, at, 1);
            put_any(store, i, n)
        }
    }
}

fn put_focus(store: &mut [u8], at: usize, f: FocusChange) -> usize
    requires { at + 14 ≤ length store.old }
    ensures { Within store.old store.new at result (focus_bytes f) 14 }
{
    match f {
        FocusChange::Current => put_small(store, at, 0),
        FocusChange::Offset(n) => {
            let i = put_small(store, at, 1);
            put_any(store, i, n)
        }
        FocusChange::Direction1D(d, c, w) => {
            let i = put_small(store, at, 2);
            let j = put_case(store, i, d);
            let k = put_count(store, j, c);
            put_case(store, k, w)
        }
        FocusChange::Beginning => put_small(store, at, 3),
        FocusChange::End => put_small(store, at, 4),
    }
}

fn put_target(store: &mut [u8], at: usize, t: Target) -> usize
    requires { at + 15 ≤ length store.old }
    ensures { Within store.old store.new at result (target_bytes t) 15 }
{
    match t {
        Target::Single(f) => {
            let i = put_small(store, at, 0);
            put_focus(store, i, f)
        }
        Target::AllBut(f) => {
            let i = put_small(store, at, 1);
            put_focus(store, i, f)
        }
        Target::All => put_small(store, at, 2),
    }
}

fn put_change(store: &mut [u8], at: usize, c: SizeChange) -> usize
    requires { at + 11 ≤ length store.old }
    ensures { Within store.old store.new at result (change_bytes c) 11 }
{
    match c {
        SizeChange::Exact(n) => {
            let i = put_small(store, at, 0);
            put_any(store, i, n)
        }
        SizeChange::Increase(n) => {
            let i = put_small(store, at, 1);
            put_any(store, i, n)
        }
        SizeChange::Decrease(n) => {
            let i = put_small(store, at, 2);
            put_any(store, i, n)
        }
    }
}

// The item of the argument `s` at `start`, as a name.
fn put_item_within(store: &mut [u8], at: usize, s: &[u8], start: usize) -> usize
    requires { at + (10 + length s.now) ≤ length store.old }
    ensures { Within store.old store.new at result (named (text_at s.now start)) (10 + length s.now) }
{
    put_item(s, start, store, at)
}

// What is opened: a name of the argument `s` is written unescaped.
fn put_opened(store: &mut [u8], at: usize, s: &[u8], t: OpenTarget) -> usize
    requires { at + (11 + length s.now) ≤ length store.old }
    ensures { Within store.old store.new at result (opened_bytes (opened_of s.now t)) (11 + length s.now) }
{
    match t {
        OpenTarget::Current => put_small(store, at, 0),
        OpenTarget::Alternate => put_small(store, at, 1),
        OpenTarget::Unnamed => put_small(store, at, 2),
        OpenTarget::Name(x) => {
            let i = put_small(store, at, 3);
            put_item_within(store, i, s, x.start)
        }
    }
}

// The file that is written, if it is named.
fn put_written(store: &mut [u8], at: usize, s: &[u8], n: Option<Item>) -> usize
    requires { at + (11 + length s.now) ≤ length store.old }
    ensures { Within store.old store.new at result (written_bytes (written_of s.now n)) (11 + length s.now) }
{
    match n {
        None => put_small(store, at, 0),
        Some(x) => {
            let i = put_small(store, at, 1);
            put_item_within(store, i, s, x.start)
        }
    }
}

// A kind, and what is closed: target, flags.
fn put_closed(store: &mut [u8], at: usize, kind: u64, t: Target, f: CloseFlags) -> usize
    requires at_in_bounds { at + 26 ≤ length store.old }
    requires kind_bound { kind < 128 }
    ensures { Within store.old store.new at result (encode kind ++ (target_bytes t ++ encode f.bits)) 26 }
{
    let i = put_small(store, at, kind);
    let j = put_target(store, i, t);
    put_any(store, j, f.bits)
}

// A kind and a focus.
fn put_focused(store: &mut [u8], at: usize, kind: u64, f: FocusChange) -> usize
    requires at_in_bounds { at + 15 ≤ length store.old }
    requires kind_bound { kind < 128 }
    ensures { Within store.old store.new at result (encode kind ++ focus_bytes f) 15 }
{
    let i = put_small(store, at, kind);
    put_focus(store, i, f)
}

// A window that is resized: focus, axis, change.
fn put_resized(store: &mut [u8], at: usize, f: FocusChange, a: Axis, c: SizeChange) -> usize
    requires { at + 27 ≤ length store.old }
    ensures { Within store.old store.new at result (encode 2 ++ (focus_bytes f ++ (encode (axis_no a) ++ change_bytes c))) 27 }
{
    let i = put_small(store, at, 2);
    let j = put_focus(store, i, f);
    let k = put_case(store, j, a);
    put_change(store, k, c)
}

// A kind, and a window that is opened or split: target, flags, axis, side, count.
fn put_window(
    store: &mut [u8],
    at: usize,
    kind: u64,
    s: &[u8],
    t: OpenTarget,
    f: OpenFlags,
    a: Axis,
    d: Side,
    n: Count,
) -> usize
    requires s_in_bounds { at + (35 + length s.now) ≤ length store.old }
    requires kind_bound { kind < 128 }
    ensures { Within store.old store.new at result (encode kind ++ (opened_bytes (opened_of s.now t) ++ (encode f.bits ++ (encode (axis_no a) ++ (encode (side_no d) ++ count_bytes n))))) (35 + length s.now) }
{
    let h = put_small(store, at, kind);
    let i = put_opened(store, h, s, t);
    let j = put_any(store, i, f.bits);
    let k = put_case(store, j, a);
    let l = put_case(store, k, d);
    put_count(store, l, n)
}

// A window that is switched: target, flags.
fn put_switched(store: &mut [u8], at: usize, s: &[u8], t: OpenTarget, f: OpenFlags) -> usize
    requires { at + (22 + length s.now) ≤ length store.old }
    ensures { Within store.old store.new at result (encode 5 ++ (opened_bytes (opened_of s.now t) ++ encode f.bits)) (22 + length s.now) }
{
    let i = put_small(store, at, 5);
    let j = put_opened(store, i, s, t);
    put_any(store, j, f.bits)
}

// Windows that are written: target, name, flags.
fn put_write(
    store: &mut [u8],
    at: usize,
    s: &[u8],
    t: Target,
    n: Option<Item>,
    f: WriteFlags,
) -> usize
    requires { at + (37 + length s.now) ≤ length store.old }
    ensures { Within store.old store.new at result (encode 6 ++ (target_bytes t ++ (written_bytes (written_of s.now n) ++ encode f.bits))) (37 + length s.now) }
{
    let i = put_small(store, at, 6);
    let j = put_target(store, i, t);
    let k = put_written(store, j, s, n);
    put_any(store, k, f.bits)
}

fn put_window_action(store: &mut [u8], at: usize, s: &[u8], w: WindowAction) -> usize
    requires { at + (spare + length s.now) ≤ length store.old }
    ensures { Within store.old store.new at result (paper_record (window_of s.now w)) (spare + length s.now) }
{
    match w {
        WindowAction::Close(t, f) => put_closed(store, at, 1, t, f),
        WindowAction::Resize(f, a, c) => put_resized(store, at, f, a, c),
        WindowAction::Open(t, f, a, d, n) => put_window(store, at, 3, s, t, f, a, d, n),
        WindowAction::Split(t, f, a, d, n) => put_window(store, at, 4, s, t, f, a, d, n),
        WindowAction::Switch(t, f) => put_switched(store, at, s, t, f),
        WindowAction::Write(t, n, f) => put_write(store, at, s, t, n, f),
    }
}

fn put_tab_action(store: &mut [u8], at: usize, s: &[u8], t: TabAction) -> usize
    requires { at + (spare + length s.now) ≤ length store.old }
    ensures { Within store.old store.new at result (paper_record (tab_of s.now t)) (spare + length s.now) }
{
    match t {
        TabAction::Close(x, f) => put_closed(store, at, 7, x, f),
        TabAction::Focus(f) => put_focused(store, at, 8, f),
        TabAction::Move(f) => put_focused(store, at, 9, f),
        TabAction::Open(x, f, c) => {
            let i = put_small(store, at, 10);
            let j = put_opened(store, i, s, x);
            let k = put_any(store, j, f.bits);
            put_focus(store, k, c)
        }
    }
}

// Writes the record of an action, whose name, if it has one, has its place in the argument `s`, and answers the place after it.
pub fn put_action(store: &mut [u8], at: usize, s: &[u8], a: Action) -> usize
    requires { at + (spare + length s.now) ≤ length store.old }
    ensures { Within store.old store.new at result (record_of s.now a) (spare + length s.now) }
{
    match a {
        Action::Window(w) => put_window_action(store, at, s, w),
        Action::Tab(t) => put_tab_action(store, at, s, t),
    }
}

// Writes the record of no action.
pub fn put_nothing(store: &mut [u8], at: usize) -> usize
    requires { at + 1 ≤ length store.old }
    ensures { Within store.old store.new at result nothing_record 1 }
{
    put_small(store, at, 0)
}
