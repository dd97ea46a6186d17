// The text that the last reading of a line read: what stands behind the prefixes of the readings before it.
ghost use Rattle.std.specs.Prelude.{◌≤◌, length};
ghost use Rattle.spots.specs.Spot.{Placed};
ghost use Rattle.spots.specs.Text.{LastText, UnknownAt};

use super::spot::{Spot, spot_in};
use blocks::run::skip_spaces;
use scan::classes;
use scan::part::part;
use scan::run::run_end;
use scanner::token::lead_of;

// Where a text stands in its line.
#[derive(Clone, Copy)]
pub struct Text {
    pub from: usize,
    pub to: usize,
}

// The text of the last of so many readings.
pub fn last_text(line: &[u8], readings: u64) -> Text
    ensures order { result.from ≤ result.to }
    ensures inside { result.to ≤ length line.now }
    ensures last { LastText line.now readings result.from result.to }
{
    let mut from = skip_spaces(line, 0);
    let mut to = line.len();
    let mut left = readings;
    // The turns are told by how many readings are left, which is what the walk is stated by.
    while 1 < left {
        let s = part(line, from, to);
        let l = lead_of(s);
        let a = l.argument;
        to = from + run_end::<classes::Text>(s, a);
        from = from + a;
        left -= 1;
    }
    Text { from: from, to: to }
}

// The word of a line's last reading.
pub fn unknown_spot(line: &[u8], readings: u64) -> Option<Spot>
    ensures placed { Placed (length line.now) result }
    ensures word { UnknownAt line.now readings result }
{
    let t = last_text(line, readings);
    let from = t.from;
    let l = lead_of(part(line, from, t.to));
    spot_in(line, from + l.range, from + l.word)
}
