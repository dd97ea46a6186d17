// The handlers that write windows: `:write` and `:wall`.
ghost use Rattle.std.specs.Prelude.{◌≡◌};
ghost use Rattle.windows.specs.Write.{writing as writing_of, write_of, wall_of};

use super::one::only_item;
use actions::action::{Action, FocusChange, Target, WindowAction};
use actions::flags::WriteFlags;
use handlers::done::Done;
use reading::line::{CommandDescription, argument};

// A choice between two constants, as in `open`.
#[tactic(auto, unfolding(crate::specs::Write::writing))]
fn writing(bang: bool) -> WriteFlags
    ensures { result ≡ writing_of bang }
{
    if bang {
        return WriteFlags::FORCE;
    }
    WriteFlags::NONE
}

// The `:write` command. Alias: `w`. Writes the window, under a name if one is given.
#[tactic(auto, unfolding(crate::specs::Write::write_of, crate::specs::Write::write_by))]
pub fn vim_cmd_write(s: &[u8], d: CommandDescription) -> Done
    ensures { result ≡ write_of s.now d }
{
    let name = only_item(argument(s, d))?;
    let flags = writing(d.bang);
    Ok(Action::Window(WindowAction::Write(Target::Single(FocusChange::Current), name, flags)))
}

// The `:wall` command. Alias: `wa`. Writes all windows.
#[tactic(auto, unfolding(crate::specs::Write::wall_of))]
pub fn vim_cmd_write_all(d: CommandDescription) -> Done
    ensures { result ≡ wall_of d }
{
    Ok(Action::Window(WindowAction::Write(Target::All, None, writing(d.bang))))
}
