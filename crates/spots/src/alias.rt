// The place in a line of an alias file that its refusal is about.
ghost use Rattle.std.specs.Prelude.{length};
ghost use Rattle.spots.specs.Spot.{Placed};

use super::bytes::{byte_spot, field_end, trimmed};
use super::spot::{Spot, spot_in};
use blocks::run::skip_spaces;
use limits::refusal::Refusal;

// The fields of a line: the word from `word` up to `end`, the command from `command` up to `stop`, and what is one too many from `more` on.
#[derive(Clone, Copy)]
struct Fields {
    word: usize,
    end: usize,
    command: usize,
    stop: usize,
    more: usize,
}

fn fields_of(line: &[u8]) -> Fields {
    let word = skip_spaces(line, 0);
    let end = field_end(line, word);
    let command = skip_spaces(line, end);
    let stop = field_end(line, command);
    Fields {
        word: word,
        end: end,
        command: command,
        stop: stop,
        more: skip_spaces(line, stop),
    }
}

// What stands behind two fields; where there is one field only, that.
fn odd_spot(line: &[u8], f: Fields) -> Option<Spot>
    ensures { Placed (length line.now) result }
{
    let n = line.len();
    if n <= f.command {
        return spot_in(line, f.word, f.end);
    }
    spot_in(line, f.more, trimmed(line, f.more, n))
}

fn refusal_spot(line: &[u8], x: Refusal) -> Option<Spot>
    ensures { Placed (length line.now) result }
{
    let f = fields_of(line);
    match x {
        Refusal::NotUtf8 => byte_spot(line),
        Refusal::ParseFailed => odd_spot(line, f),
        Refusal::BadAlias => spot_in(line, f.word, f.end),
        Refusal::AliasesFull => spot_in(line, f.word, f.end),
        Refusal::BadCommand => spot_in(line, f.command, f.stop),
        Refusal::UnknownWord => spot_in(line, f.command, f.stop),
        _ => None,
    }
}

// The place in a line of an alias file that was refused so.
pub fn alias_spot(line: &[u8], refusal: u64) -> Option<Spot>
    ensures { Placed (length line.now) result }
{
    match Refusal::try_from(refusal) {
        Ok(x) => refusal_spot(line, x),
        Err(_) => None,
    }
}
