// What one reading leads to, without the context: an end, a command to run, or a prefix's change and its argument.
ghost use Rattle.std.specs.Prelude.{◌≡◌};
ghost use Rattle.commands.specs.Handle.{role_of};
ghost use Rattle.commands.specs.Run.{by_focus, by_role, by_name, change};

use actions::action::{Axis, FocusChange, Side};
use context::context::CommandContext;
use focus::focus::{Focused, window_range_target};
use limits::refusal::Refusal;
use reading::line::CommandDescription;

// The role of a command: a prefix of one of three kinds, or an action of its own.
#[derive(Clone, Copy)]
pub enum Role {
    Tab,
    Axis(Axis),
    Side(Side),
    Action,
}

// What a prefix sets in the context.
#[derive(Clone, Copy)]
pub enum Change {
    Tab(FocusChange),
    Axis(Axis),
    Side(Side),
}

// What a reading leads to. Unknown has the place of the word, Again that of the argument.
#[derive(Clone, Copy)]
pub enum Next {
    Empty,
    Refused(Refusal),
    Unknown(usize, usize),
    Runs(u64, CommandDescription),
    Again(Change, usize, usize),
}

// A command by its number.
impl From<u64> for Role {
    ghost from_gives = { λ n r. r ≡ role_of n };

    #[tactic(auto, unfolding(crate::specs::Handle::role_of))]
    fn from(n: u64) -> Role {
        match n {
            13 => Role::Tab,
            24 => Role::Axis(Axis::Horizontal),
            25 => Role::Axis(Axis::Vertical),
            26 => Role::Side(Side::Previous),
            27 => Role::Side(Side::Next),
            _ => Role::Action,
        }
    }
}

fn by_focus(d: CommandDescription, f: Focused) -> Next
    ensures { result ≡ by_focus d f }
{
    let a = d.argument;
    let e = d.stop;
    match f {
        Ok(x) => Next::Again(Change::Tab(x), a, e),
        Err(x) => Next::Refused(x),
    }
}

fn by_role(s: &[u8], d: CommandDescription, n: u64, r: Role) -> Next
    ensures { result ≡ by_role s.now d n r }
{
    let a = d.argument;
    let e = d.stop;
    match r {
        Role::Tab => {
            let g = d.range;
            by_focus(d, window_range_target(s, g))
        }
        Role::Axis(x) => Next::Again(Change::Axis(x), a, e),
        Role::Side(x) => Next::Again(Change::Side(x), a, e),
        Role::Action => Next::Runs(n, d),
    }
}

// What a reading leads to whose word was looked up.
pub fn by_name(s: &[u8], d: CommandDescription, m: Option<u64>) -> Next
    ensures { result ≡ by_name s.now d m }
{
    match m {
        Some(n) => by_role(s, d, n, Role::from(n)),
        None => {
            let a = d.word;
            let e = d.end;
            Next::Unknown(a, e)
        }
    }
}

// The context after a prefix.
pub fn changed(ch: Change, x: CommandContext) -> CommandContext
    ensures { result ≡ change ch x }
{
    match ch {
        Change::Tab(f) => x.with_tab(f),
        Change::Axis(a) => x.with_axis(a),
        Change::Side(d) => x.with_side(d),
    }
}
