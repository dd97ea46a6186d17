// The handlers that close windows and tabs, and those that go to the first and the last tab.
ghost use Rattle.std.specs.Prelude.{◌≡◌};
ghost use Rattle.handlers.specs.Close.{forced as forced_of, quitting as quitting_of, close_of, only_of, quit_of, quitall_of, tabclose_of, tabonly_of, tabfirst_of, tablast_of};

use super::done::Done;
use actions::action::{Action, FocusChange, TabAction, Target, WindowAction};
use actions::flags::CloseFlags;
use focus::focus::{focus_again, window_range_target};
use reading::line::CommandDescription;

// This and the next choose between two constants: with the constants as parameters each would be its `if`.
fn forced(bang: bool) -> CloseFlags
    ensures { result ≡ forced_of bang }
{
    if bang {
        return CloseFlags::FORCE;
    }
    CloseFlags::NONE
}

fn quitting(bang: bool) -> CloseFlags
    ensures { result ≡ quitting_of bang }
{
    if bang {
        return CloseFlags::FQ;
    }
    CloseFlags::QUIT
}

// The `:close` command. Alias: `clo`. Closes the window that its range names.
pub fn vim_cmd_close(s: &[u8], d: CommandDescription) -> Done
    ensures { result ≡ close_of s.now d }
{
    let x = focus_again(window_range_target(s, d.range)?);
    Ok(Action::Window(WindowAction::Close(Target::Single(x), forced(d.bang))))
}

// The `:only` command. Alias: `on`. Closes all windows but the one that its range names.
pub fn vim_cmd_only(s: &[u8], d: CommandDescription) -> Done
    ensures { result ≡ only_of s.now d }
{
    let x = focus_again(window_range_target(s, d.range)?);
    Ok(Action::Window(WindowAction::Close(Target::AllBut(x), quitting(d.bang))))
}

// The `:quit` command. Alias: `q`. Closes a window, and quits with the last one.
pub fn vim_cmd_quit(s: &[u8], d: CommandDescription) -> Done
    ensures { result ≡ quit_of s.now d }
{
    let x = focus_again(window_range_target(s, d.range)?);
    Ok(Action::Window(WindowAction::Close(Target::Single(x), quitting(d.bang))))
}

// The `:quitall` command. Aliases: `qa`, `qall`, `quita`. Closes all tabs and quits.
pub fn vim_cmd_quitall(d: CommandDescription) -> Done
    ensures { result ≡ quitall_of d }
{
    Ok(Action::Tab(TabAction::Close(Target::All, quitting(d.bang))))
}

// The `:tabclose` command. Alias: `tabc`. Closes the tab that its range names.
pub fn vim_cmd_tabclose(s: &[u8], d: CommandDescription) -> Done
    ensures { result ≡ tabclose_of s.now d }
{
    let x = focus_again(window_range_target(s, d.range)?);
    Ok(Action::Tab(TabAction::Close(Target::Single(x), quitting(d.bang))))
}

// The `:tabonly` command. Alias: `tabo`. Closes all tabs but the one that its range names.
pub fn vim_cmd_tabonly(s: &[u8], d: CommandDescription) -> Done
    ensures { result ≡ tabonly_of s.now d }
{
    let x = focus_again(window_range_target(s, d.range)?);
    Ok(Action::Tab(TabAction::Close(Target::AllBut(x), quitting(d.bang))))
}

// The `:tabfirst` command. Aliases: `tabr`, `tabrewind`, `tabfir`. Goes to the first tab.
pub fn vim_cmd_tabfirst() -> Done
    ensures { result ≡ tabfirst_of }
{
    Ok(Action::Tab(TabAction::Focus(FocusChange::Beginning)))
}

// The `:tablast` command. Alias: `tabl`. Goes to the last tab.
pub fn vim_cmd_tablast() -> Done
    ensures { result ≡ tablast_of }
{
    Ok(Action::Tab(TabAction::Focus(FocusChange::End)))
}
