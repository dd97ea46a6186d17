// The handlers by the numbers of their commands, in the order of default_cmds. Prefixes are no part of it.
ghost use Rattle.std.specs.Prelude.{◌≡◌};
ghost use Rattle.commands.specs.Handle.{split_context, handle_of};

use context::context::CommandContext;
use handlers::close::{
    vim_cmd_close, vim_cmd_only, vim_cmd_quit, vim_cmd_quitall, vim_cmd_tabclose, vim_cmd_tabfirst,
    vim_cmd_tablast, vim_cmd_tabonly,
};
use handlers::done::Done;
use limits::refusal::Refusal;
use reading::line::CommandDescription;
use resize::resize::vim_cmd_resize;
use tabs::tabs::{vim_cmd_tabmove, vim_cmd_tabnext, vim_cmd_tabprev};
use windows::open::{vim_cmd_sp, vim_cmd_tabedit, vim_cmd_view, vim_cmd_vs};
use windows::write::{vim_cmd_write, vim_cmd_write_all};

// The context in which split is run: for `:split`, command 10, the context itself. Both commands call split in one place, so that what it
// answers stays in registers.
fn split_context(n: u64, x: CommandContext) -> CommandContext
    ensures { result ≡ split_context n x }
{
    if n == 11 {
        return vim_cmd_vs(x);
    }
    x
}

// What the command `n` does with a reading `d` of the text `s`; `!`, `&`, read, print and substitute, and numbers that no command has, are
// refused by 11.
// By a `match`: a table of functions would call each through a pointer, and none would be put in here.
pub fn handle(n: u64, s: &[u8], d: CommandDescription, x: CommandContext) -> Done
    ensures { result ≡ handle_of n s.now d x }
{
    match n {
        5 => vim_cmd_close(s, d),
        6 => vim_cmd_only(s, d),
        7 => vim_cmd_quit(s, d),
        8 => vim_cmd_quitall(d),
        9 => vim_cmd_resize(s, d, x),
        10 | 11 => vim_cmd_sp(s, d, split_context(n, x)),
        12 => vim_cmd_view(s, d, x),
        14 => vim_cmd_tabclose(s, d),
        15 => vim_cmd_tabedit(s, d),
        16 => vim_cmd_tabmove(s, d),
        17 => vim_cmd_tabnext(s, d),
        18 => vim_cmd_tabonly(s, d),
        19 => vim_cmd_tabprev(s, d),
        20 => vim_cmd_tabfirst(),
        21 => vim_cmd_tablast(),
        22 => vim_cmd_write(s, d),
        23 => vim_cmd_write_all(d),
        _ => Err(Refusal::Unimplemented),
    }
}
