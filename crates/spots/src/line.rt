// The place in a line that its refusal is about.
ghost use Rattle.std.specs.Prelude.{◌≡◌, length};
ghost use Rattle.limits.specs.Refusals.{refusal_no};
ghost use Rattle.spots.specs.Spot.{Placed};
ghost use Rattle.spots.specs.Text.{UnknownAt};
ghost use Rattle.spots.specs.Utf8.{BadAt};

use super::bytes::byte_spot;
use super::places::text_spot;
use super::spot::{Spot, plus, spot_in};
use super::text::{last_text, unknown_spot};
use limits::refusal::Refusal;
use scan::part::part;

// The place in the text of the last reading.
fn read_spot(session: &[u8], line: &[u8], x: Refusal, readings: u64) -> Option<Spot>
    ensures { Placed (length line.now) result }
{
    if readings == 0 {
        return None;
    }
    let t = last_text(line, readings);
    let from = t.from;
    let p = text_spot(session, part(line, from, t.to), x)?;
    spot_in(line, plus(from, p.start), plus(from, p.stop))
}

// The place in a line by its refusal: before any reading only 2 has one.
fn refusal_spot(session: &[u8], line: &[u8], x: Refusal, readings: u64) -> Option<Spot>
    ensures placed { Placed (length line.now) result }
    ensures bad { x ≡ Refusal.NotUtf8 → BadAt line.now result }
    ensures word { x ≡ Refusal.UnknownWord → UnknownAt line.now readings result }
{
    match x {
        Refusal::NotUtf8 => byte_spot(line),
        Refusal::UnknownWord => unknown_spot(line, readings),
        _ => read_spot(session, line, x, readings),
    }
}

// The place in a line that was run on a session and refused so, in so many readings.
pub fn spot_of(session: &[u8], line: &[u8], refusal: u64, readings: u64) -> Option<Spot>
    ensures placed { Placed (length line.now) result }
    ensures bad { refusal ≡ refusal_no Refusal.NotUtf8 → BadAt line.now result }
    ensures word { refusal ≡ refusal_no Refusal.UnknownWord → UnknownAt line.now readings result }
{
    match Refusal::try_from(refusal) {
        Ok(x) => refusal_spot(session, line, x, readings),
        Err(_) => None,
    }
}
