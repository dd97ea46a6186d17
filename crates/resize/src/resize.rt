// The handler that resizes a window: `:resize`.
ghost use Rattle.std.specs.Prelude.{◌≡◌};
ghost use Rattle.resize.specs.Resize.{exact_by, step_by, stepped as stepped_of, end_change, range_change, change_by, change_of, resize_at, resize_by, resize_of};

use actions::action::{Action, Axis, SizeChange, WindowAction};
use context::context::CommandContext;
use focus::focus::{Focused, window_range_target};
use focus::sum::{Sum, moved, sum_mods};
use handlers::done::Done;
use limits::refusal::Refusal;
use ranges::range::{
    MoveDir1D, RangeEnding, RangeEndingType, RangeSpec, WholeRead, parse_whole_range,
};
use reading::line::{CommandDescription, argument};

#[tactic(auto, unfolding(crate::specs::Resize::exact_by))]
fn exact_by(n: u64, s: Sum) -> Result<SizeChange, Refusal>
    ensures { result ≡ exact_by n s }
{
    let (d, k) = s?;
    Ok(SizeChange::Exact(moved(n, d, k)))
}

#[tactic(auto, unfolding(crate::specs::Resize::stepped))]
fn stepped(d: MoveDir1D, k: u64) -> SizeChange
    ensures { result ≡ stepped_of d k }
{
    match d {
        MoveDir1D::Next => SizeChange::Increase(k),
        MoveDir1D::Previous => SizeChange::Decrease(k),
    }
}

#[tactic(auto, unfolding(crate::specs::Resize::step_by))]
fn step_by(s: Sum) -> Result<SizeChange, Refusal>
    ensures { result ≡ step_by s }
{
    let (d, k) = s?;
    Ok(stepped(d, k))
}

// Digits give the size, offsets alone a step.
#[tactic(auto, unfolding(crate::specs::Resize::end_change))]
fn end_change(a: &[u8], e: RangeEnding) -> Result<SizeChange, Refusal>
    ensures { result ≡ end_change a.now e.atom e.from }
{
    let t = e.atom;
    let from = e.from;
    match t {
        RangeEndingType::Absolute(n) => exact_by(n, sum_mods(a, from)),
        RangeEndingType::Unspecified => step_by(sum_mods(a, from)),
        _ => Err(Refusal::InvalidRange),
    }
}

#[tactic(auto, unfolding(crate::specs::Resize::range_change))]
fn range_change(a: &[u8], g: RangeSpec) -> Result<SizeChange, Refusal>
    ensures { result ≡ range_change a.now g }
{
    match g {
        RangeSpec::Single(e) => end_change(a, e),
        RangeSpec::Double(_, _, _) => Err(Refusal::InvalidRange),
    }
}

#[tactic(auto, unfolding(crate::specs::Resize::change_by))]
fn change_by(a: &[u8], w: WholeRead) -> Result<SizeChange, Refusal>
    ensures { result ≡ change_by a.now w }
{
    match w? {
        Some(g) => range_change(a, g),
        None => Err(Refusal::ParseFailed),
    }
}

// The change that the argument `a` asks for.
#[tactic(auto, unfolding(crate::specs::Resize::change_of))]
fn size_change(a: &[u8]) -> Result<SizeChange, Refusal>
    ensures { result ≡ change_of a.now }
{
    if a.len() == 0 {
        return Err(Refusal::InvalidArgument);
    }
    change_by(a, parse_whole_range(a))
}

#[tactic(auto, unfolding(crate::specs::Resize::resize_at))]
fn resize_at(axis: Axis, c: SizeChange, f: Focused) -> Done
    ensures { result ≡ resize_at axis c f }
{
    Ok(Action::Window(WindowAction::Resize(f?, axis, c)))
}

#[tactic(auto, unfolding(crate::specs::Resize::resize_by))]
fn resize_by(axis: Axis, c: Result<SizeChange, Refusal>, f: Focused) -> Done
    ensures { result ≡ resize_by axis c f }
{
    resize_at(axis, c?, f)
}

// The `:resize` command. Alias: `res`. Changes the size of a window along the axis of the context.
#[tactic(auto, unfolding(crate::specs::Resize::resize_of))]
pub fn vim_cmd_resize(s: &[u8], d: CommandDescription, x: CommandContext) -> Done
    ensures { result ≡ resize_of s.now d x }
{
    let g = d.range;
    resize_by(
        x.axis(),
        size_change(argument(s, d)),
        window_range_target(s, g),
    )
}
