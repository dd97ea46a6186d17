// The handlers that go to a tab or move one, by a range before the word or as the argument.
ghost use Rattle.std.specs.Prelude.{◌≡◌};
ghost use Rattle.tabs.specs.Tabs.{unargued as unargued_of, argued as argued_of, tab_range, focusing, moving, back as back_of, back_end, next_by, tabnext_of, prev_by, tabprev_of, move_argument, move_range, tabmove_of};

use actions::action::{Action, Count, FocusChange, TabAction};
use focus::focus::{Focused, focus_again, range_to_fc};
use handlers::done::Done;
use limits::refusal::Refusal;
use ranges::range::{
    MoveDir1D, RangeEnding, RangeEndingType, RangeRead, RangeSpec, WholeRead, parse_whole_range,
};
use reading::line::{CommandDescription, argument};

// The range of a command that takes it before its word or as its argument.
#[derive(Clone, Copy)]
pub enum TabRange {
    Absent,
    InLine(RangeSpec),
    InArgument(RangeSpec),
}

#[tactic(auto, unfolding(crate::specs::Tabs::unargued))]
fn unargued(g: RangeRead) -> Result<TabRange, Refusal>
    ensures { result ≡ unargued_of g }
{
    match g? {
        Some((x, _)) => Ok(TabRange::InLine(x)),
        None => Ok(TabRange::Absent),
    }
}

#[tactic(auto, unfolding(crate::specs::Tabs::argued))]
fn argued(w: WholeRead) -> Result<TabRange, Refusal>
    ensures { result ≡ argued_of w }
{
    match w? {
        Some(x) => Ok(TabRange::InArgument(x)),
        None => Err(Refusal::InvalidArgument),
    }
}

#[tactic(auto, unfolding(crate::specs::Tabs::tab_range, crate::specs::Tabs::either))]
fn tab_range(g: RangeRead, a: &[u8]) -> Result<TabRange, Refusal>
    ensures { result ≡ tab_range g a.now }
{
    if a.len() == 0 {
        return unargued(g);
    }
    match g? {
        Some(_) => Err(Refusal::InvalidArgument),
        None => argued(parse_whole_range(a)),
    }
}

#[tactic(auto, unfolding(crate::specs::Tabs::focusing))]
fn focused(x: Focused) -> Done
    ensures { result ≡ focusing x }
{
    Ok(Action::Tab(TabAction::Focus(focus_again(x?))))
}

#[tactic(auto, unfolding(crate::specs::Tabs::moving))]
fn moved(x: Focused) -> Done
    ensures { result ≡ moving x }
{
    Ok(Action::Tab(TabAction::Move(focus_again(x?))))
}

#[tactic(auto, unfolding(crate::specs::Tabs::next_by))]
fn next_by(s: &[u8], a: &[u8], g: Result<TabRange, Refusal>) -> Focused
    ensures { result ≡ next_by s.now a.now g }
{
    match g? {
        TabRange::Absent => Ok(FocusChange::Direction1D(MoveDir1D::Next, Count::Contextual, true)),
        TabRange::InLine(x) => range_to_fc(s, x, true),
        TabRange::InArgument(x) => range_to_fc(a, x, true),
    }
}

// The `:tabnext` command. Alias: `tabn`. Goes to the next tab, or to the one that its range or argument names.
#[tactic(auto, unfolding(crate::specs::Tabs::tabnext_of))]
pub fn vim_cmd_tabnext(s: &[u8], d: CommandDescription) -> Done
    ensures { result ≡ tabnext_of s.now d }
{
    let g = d.range;
    let a = argument(s, d);
    focused(next_by(s, a, tab_range(g, a)))
}

// Digits alone go back as many tabs.
#[tactic(auto, unfolding(crate::specs::Tabs::back_end))]
fn back_end(e: RangeEnding) -> Focused
    ensures { result ≡ back_end e.atom e.from e.to }
{
    let a = e.atom;
    let from = e.from;
    let to = e.to;
    match a {
        RangeEndingType::Absolute(n) if from == to => Ok(FocusChange::Direction1D(
            MoveDir1D::Previous,
            Count::Exact(n),
            true,
        )),
        _ => Err(Refusal::InvalidRange),
    }
}

#[tactic(auto, unfolding(crate::specs::Tabs::back))]
fn back(g: RangeSpec) -> Focused
    ensures { result ≡ back_of g }
{
    match g {
        RangeSpec::Single(e) => back_end(e),
        RangeSpec::Double(_, _, _) => Err(Refusal::InvalidRange),
    }
}

#[tactic(auto, unfolding(crate::specs::Tabs::prev_by))]
fn prev_by(g: Result<TabRange, Refusal>) -> Focused
    ensures { result ≡ prev_by g }
{
    match g? {
        TabRange::Absent => Ok(FocusChange::Direction1D(
            MoveDir1D::Previous,
            Count::Contextual,
            true,
        )),
        TabRange::InLine(x) | TabRange::InArgument(x) => back(x),
    }
}

// The `:tabprevious` command. Aliases: `tabp`, `tabN`, `tabNext`. Goes back a tab, or as many as its range or argument says.
#[tactic(auto, unfolding(crate::specs::Tabs::tabprev_of))]
pub fn vim_cmd_tabprev(s: &[u8], d: CommandDescription) -> Done
    ensures { result ≡ tabprev_of s.now d }
{
    let g = d.range;
    focused(prev_by(tab_range(g, argument(s, d))))
}

#[tactic(auto, unfolding(crate::specs::Tabs::move_argument))]
fn move_argument(a: &[u8], w: WholeRead) -> Focused
    ensures { result ≡ move_argument a.now w }
{
    match w? {
        Some(x) => range_to_fc(a, x, false),
        None => Err(Refusal::ParseFailed),
    }
}

// The range before the word wins, and the argument is then not looked at.
#[tactic(auto, unfolding(crate::specs::Tabs::move_range))]
fn move_range(s: &[u8], g: RangeRead, a: &[u8]) -> Focused
    ensures { result ≡ move_range s.now g a.now }
{
    match g? {
        Some((x, _)) => range_to_fc(s, x, false),
        None => {
            if a.len() == 0 {
                return Ok(FocusChange::End);
            }
            move_argument(a, parse_whole_range(a))
        }
    }
}

// The `:tabmove` command. Alias: `tabm`. Moves the tab to the end, or where its range or argument says.
#[tactic(auto, unfolding(crate::specs::Tabs::tabmove_of))]
pub fn vim_cmd_tabmove(s: &[u8], d: CommandDescription) -> Done
    ensures { result ≡ tabmove_of s.now d }
{
    let g = d.range;
    moved(move_range(s, g, argument(s, d)))
}
