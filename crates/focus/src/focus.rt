// Counts and focuses from ranges.
ghost use Rattle.std.specs.Prelude.{◌≡◌};
ghost use Rattle.focus.specs.Focus.{toward as toward_of, placed as placed_of, end_focus, range_focus, focus_of, at_least_one, sized as sized_of, end_count, range_count};

use super::sum::{Sum, moved, sum_mods};
use actions::action::{Count, FocusChange};
use limits::MOST;
use limits::refusal::Refusal;
use ranges::again::{ending_again, spec_again};
use ranges::range::{RangeEnding, RangeEndingType, RangeRead, RangeSpec};
use scan::part::text_again;

// The focus that a range names, or a refusal.
pub type Focused = Result<FocusChange, Refusal>;

// The same focus, taken apart by its cases and put together again, so that its parts travel in registers.
pub fn focus_again(f: FocusChange) -> FocusChange
    ensures { result ≡ f }
{
    match f {
        FocusChange::Current => FocusChange::Current,
        FocusChange::Offset(n) => FocusChange::Offset(n),
        FocusChange::Direction1D(d, n, wrap) => FocusChange::Direction1D(d, n, wrap),
        FocusChange::Beginning => FocusChange::Beginning,
        FocusChange::End => FocusChange::End,
    }
}

#[tactic(auto, unfolding(crate::specs::Focus::toward))]
fn toward(s: Sum, wrap: bool) -> Focused
    ensures { result ≡ toward_of s wrap }
{
    let (d, k) = s?;
    Ok(FocusChange::Direction1D(d, Count::Exact(k), wrap))
}

#[tactic(auto, unfolding(crate::specs::Focus::placed))]
fn placed(n: u64, s: Sum) -> Focused
    ensures { result ≡ placed_of n s }
{
    let (d, k) = s?;
    Ok(FocusChange::Offset(moved(n, d, k)))
}

// Digits give Offset; none or `.` gives Direction1D; bare `$` gives End.
#[tactic(auto, unfolding(crate::specs::Focus::end_focus))]
fn end_focus(s: &[u8], e: RangeEnding, wrap: bool) -> Focused
    ensures { result ≡ end_focus s.now e.atom e.from e.to wrap }
{
    let a = e.atom;
    let from = e.from;
    let to = e.to;
    match a {
        RangeEndingType::Absolute(n) => placed(n, sum_mods(text_again(s), from)),
        RangeEndingType::Unspecified | RangeEndingType::Current => {
            toward(sum_mods(text_again(s), from), wrap)
        }
        RangeEndingType::Last if from == to => Ok(FocusChange::End),
        _ => Err(Refusal::InvalidRange),
    }
}

// It stands apart: put into each handler that calls it, it makes `run` too large to be put where a line is run, which costs every line more.
#[tactic(auto, unfolding(crate::specs::Focus::range_focus))]
#[inline(never)]
pub fn range_to_fc(s: &[u8], g: RangeSpec, wrap: bool) -> Focused
    ensures { result ≡ range_focus s.now g wrap }
{
    match g {
        RangeSpec::Single(e) => end_focus(s, ending_again(e), wrap),
        RangeSpec::Double(_, _, _) => Err(Refusal::InvalidRange),
    }
}

// The focus of an optional range: without one the current window or tab.
#[tactic(auto, unfolding(crate::specs::Focus::focus_of))]
pub fn window_range_target(s: &[u8], g: RangeRead) -> Focused
    ensures { result ≡ focus_of s.now g }
{
    match g? {
        Some((r, _)) => range_to_fc(s, spec_again(r), false),
        None => Ok(FocusChange::Current),
    }
}

#[tactic(auto, unfolding(crate::specs::Focus::at_least_one))]
fn at_least_one(n: u64) -> u64
    ensures { result ≡ at_least_one n }
{
    if n == 0 { 1 } else { n }
}

#[tactic(auto, unfolding(crate::specs::Focus::sized))]
fn sized(n: u64, s: Sum) -> Result<u64, Refusal>
    ensures { result ≡ sized_of n s }
{
    let (d, k) = s?;
    Ok(at_least_one(moved(n, d, k)))
}

// Digits and offsets, at least 1; anything else is 2^64 - 1, its offsets ignored.
#[tactic(auto, unfolding(crate::specs::Focus::end_count))]
fn end_count(s: &[u8], e: RangeEnding) -> Result<u64, Refusal>
    ensures { result ≡ end_count s.now e.atom e.from }
{
    let a = e.atom;
    let from = e.from;
    match a {
        RangeEndingType::Absolute(n) => sized(n, sum_mods(text_again(s), from)),
        _ => Ok(MOST),
    }
}

// The right end of two.
#[tactic(auto, unfolding(crate::specs::Focus::range_count))]
pub fn range_to_count(s: &[u8], g: RangeSpec) -> Result<u64, Refusal>
    ensures { result ≡ range_count s.now g }
{
    match g {
        RangeSpec::Single(e) => end_count(s, e),
        RangeSpec::Double(_, e, _) => end_count(s, e),
    }
}
