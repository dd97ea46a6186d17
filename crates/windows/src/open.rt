// The handlers that open a window or a tab: `:split`, `:vsplit`, `:view` and `:tabedit`.
ghost use Rattle.std.specs.Prelude.{◌≡◌};
ghost use Rattle.windows.specs.Open.{target_of, opened, opening as opening_of, viewing as viewing_of, size_of, split_of, vsplit_in, view_of, tabedit_of};

use super::one::only_item;
use actions::action::{Action, Axis, Count, OpenTarget, TabAction};
use actions::flags::OpenFlags;
use context::context::CommandContext;
use focus::focus::{range_to_count, window_range_target};
use handlers::done::Done;
use limits::refusal::Refusal;
use lists::list::{Item, lone};
use ranges::range::RangeRead;
use reading::line::{CommandDescription, argument};

// The file name that an item is: a lone `#`, a lone `%`, or a name.
#[tactic(auto, unfolding(crate::specs::Open::target_of))]
fn target_of(a: &[u8], x: Item) -> OpenTarget
    ensures { result ≡ target_of a.now x }
{
    if lone(a, x, 0x23) {
        return OpenTarget::Alternate;
    }
    if lone(a, x, 0x25) {
        return OpenTarget::Current;
    }
    OpenTarget::Name(x)
}

// What the argument `a` names, or else `unnamed`.
#[tactic(auto, unfolding(crate::specs::Open::opened, crate::specs::Open::opened_by))]
fn open_target(a: &[u8], unnamed: OpenTarget) -> Result<OpenTarget, Refusal>
    ensures { result ≡ opened a.now unnamed }
{
    match only_item(a)? {
        Some(x) => Ok(target_of(a, x)),
        None => Ok(unnamed),
    }
}

// This and the next choose between two constants: with the constants as parameters each would be its `if`.
#[tactic(auto, unfolding(crate::specs::Open::opening))]
fn opening(bang: bool) -> OpenFlags
    ensures { result ≡ opening_of bang }
{
    if bang {
        return OpenFlags::FORCE;
    }
    OpenFlags::NONE
}

#[tactic(auto, unfolding(crate::specs::Open::viewing))]
fn viewing(bang: bool) -> OpenFlags
    ensures { result ≡ viewing_of bang }
{
    if bang {
        return OpenFlags::FR;
    }
    OpenFlags::READONLY
}

// The range as a window's height or width.
#[tactic(auto, unfolding(crate::specs::Open::size_of, crate::specs::Open::sized_by))]
fn window_size(s: &[u8], g: RangeRead) -> Result<Option<Count>, Refusal>
    ensures { result ≡ size_of s.now g }
{
    match g? {
        Some((r, _)) => Ok(Some(Count::Exact(range_to_count(s, r)?))),
        None => Ok(None),
    }
}

// The `:split` command. Alias: `sp`. Opens a window of the size that its range says, or else splits the current one; behind a tab prefix it
// opens a tab.
#[tactic(auto, unfolding(crate::specs::Open::split_of, crate::specs::Open::window_by, crate::specs::Open::window_target))]
pub fn vim_cmd_sp(s: &[u8], d: CommandDescription, x: CommandContext) -> Done
    ensures { result ≡ split_of s.now d x }
{
    let size = window_size(s, d.range)?;
    let target = open_target(argument(s, d), OpenTarget::Current)?;
    Ok(x.with_open_flags(opening(d.bang)).window(target, size))
}

// The `:vsplit` command. Aliases: `vs`, `vsp`. Does what split does along the vertical axis, whatever the context says: the context in which
// split is then run.
pub fn vim_cmd_vs(x: CommandContext) -> CommandContext
    ensures { result ≡ vsplit_in x }
{
    x.with_axis(Axis::Vertical)
}

// The `:view` command. Alias: `vie`. Opens a file for reading.
#[tactic(auto, unfolding(crate::specs::Open::view_of, crate::specs::Open::switch_by))]
pub fn vim_cmd_view(s: &[u8], d: CommandDescription, x: CommandContext) -> Done
    ensures { result ≡ view_of s.now d x }
{
    let target = open_target(argument(s, d), OpenTarget::Current)?;
    Ok(x.with_open_flags(viewing(d.bang)).switch(target))
}

// The `:tabedit` command. Aliases: `tabe`, `tabnew`. Opens a tab.
#[tactic(auto, unfolding(crate::specs::Open::tabedit_of, crate::specs::Open::tab_by, crate::specs::Open::tab_at))]
pub fn vim_cmd_tabedit(s: &[u8], d: CommandDescription) -> Done
    ensures { result ≡ tabedit_of s.now d }
{
    let target = open_target(argument(s, d), OpenTarget::Unnamed)?;
    let place = window_range_target(s, d.range)?;
    Ok(Action::Tab(TabAction::Open(target, opening(d.bang), place)))
}
