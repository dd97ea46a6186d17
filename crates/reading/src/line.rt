// One reading of a text: range, word, bang and where the argument stands.
// Beside parse_cmd_name, parse_cmd_argument, parse_cmd_descr and parse of parse.rs.
ghost use Rattle.std.specs.Prelude.{◌≡◌, ◌<◌};
ghost use Rattle.scan.specs.Bytes.{is_text};
ghost use Rattle.scan.specs.Scan.{run_at, part_of};
ghost use Rattle.reading.specs.Line.{skip_byte, word_at, rest_at, after_word, start_of, reading_of};
ghost use Rattle.reading.specs.WordPlaces.{word_place};

use blocks::run::{skip_spaces, word_end};
use blocks::text::text_stop;
use limits::refusal::Refusal;
use ranges::again::range_again;
use ranges::range::{RangeRead, parse_range};
use scan::classes::{Class, Colon, Text, Word};
use scan::part::{byte_at, part};
use scan::run::run_end;

// What a text says: its range, where its word and its argument start and end, and whether it has a bang.
#[derive(Clone, Copy)]
pub struct CommandDescription {
    pub range: RangeRead,
    pub word: usize,
    pub end: usize,
    pub bang: bool,
    pub argument: usize,
    pub stop: usize,
}

// A reading, or why there is none: the text fails, or has a number that is too large.
pub type CommandRead = Result<CommandDescription, Refusal>;

pub fn skip_byte(s: &[u8], i: usize, b: u8) -> usize
    requires { 0 < b }
    ensures { result ≡ skip_byte s.now i b }
{
    if byte_at(s, i) == b {
        return i + 1;
    }
    i
}

// The word at `at`, `!` alone, or a run of word characters, or empty: where it ends, and where the reading goes on.
pub fn parse_cmd_name(s: &[u8], at: usize) -> Option<(usize, usize)>
    ensures { result ≡ word_at s.now at }
{
    let b = byte_at(s, at);
    if b == 0x21 {
        return Some((at + 1, at + 1));
    }
    let e = word_end(s, at);
    if e == at {
        if s.len() <= at {
            return Some((at, at));
        }
        if b == 0x0A {
            return Some((at, at + 1));
        }
        return None;
    }
    Some((e, e))
}

// The same description, its range taken apart and put together again, so that its parts travel in registers.
pub fn description_again(d: CommandDescription) -> CommandDescription
    ensures { result ≡ d }
{
    let g = d.range;
    CommandDescription {
        range: range_again(g),
        word: d.word,
        end: d.end,
        bang: d.bang,
        argument: d.argument,
        stop: d.stop,
    }
}

// Where the text of an argument at `a` ends, where the first 0x0A of the whole text is known.
fn text_from(s: &[u8], a: usize, stop: usize) -> usize
    requires { stop ≡ run_at is_text s.now 0 }
    ensures { result ≡ run_at is_text s.now a }
{
    if a <= stop {
        return stop;
    }
    run_end::<Text>(s, a)
}

// The bang and the argument after a word, and the end of the text.
fn parse_cmd_argument(
    s: &[u8],
    range: RangeRead,
    word: usize,
    end: usize,
    next: usize,
    stop: usize,
) -> CommandRead
    requires { stop ≡ run_at is_text s.now 0 }
    ensures { result ≡ rest_at s.now range word end next (skip_byte s.now next 0x21) }
{
    let b = skip_byte(s, next, 0x21);
    let a = skip_spaces(s, b);
    let e = text_from(s, a, stop);
    if skip_byte(s, e, 0x0A) == s.len() {
        return Ok(CommandDescription {
            range: range_again(range),
            word: word,
            end: end,
            bang: b != next,
            argument: a,
            stop: e,
        });
    }
    Err(Refusal::ParseFailed)
}

// The word and what follows it.
#[tactic(auto, unfolding(crate::specs::Line::after_word))]
fn parse_cmd_after_range(s: &[u8], range: RangeRead, at: usize, stop: usize) -> CommandRead
    requires { stop ≡ run_at is_text s.now 0 }
    ensures { result ≡ after_word s.now range at (word_at s.now at) }
{
    let (end, next) = parse_cmd_name(s, at).ok_or(Refusal::ParseFailed)?;
    parse_cmd_argument(s, range, at, end, next, stop)
}

// Past the spaces, the colons and the spaces that a text may start with. A word's first byte tells that there are none.
fn line_start(s: &[u8]) -> usize
    ensures { result ≡ start_of s.now }
{
    if Word::has(byte_at(s, 0)) {
        return 0;
    }
    let i = run_end::<Colon>(s, skip_spaces(s, 0));
    skip_spaces(s, i)
}

// Where the word stands behind a range that was looked for at `i`, unless a number in it is too large.
#[tactic(auto, unfolding(crate::specs::WordPlaces::word_place))]
fn word_place(i: usize, g: RangeRead) -> Result<usize, Refusal>
    ensures { result ≡ word_place i g }
{
    match g? {
        None => Ok(i),
        Some((_, j)) => Ok(j),
    }
}

// The reading of a text whose first 0x0A, or its end, is at `stop`: found once for a line, whatever its number of readings.
pub fn parse_cmd_descr(s: &[u8], stop: usize) -> CommandRead
    requires { stop ≡ run_at is_text s.now 0 }
    ensures { result ≡ reading_of s.now }
{
    let i = line_start(s);
    let range = parse_range(s, i);
    let j = word_place(i, range)?;
    parse_cmd_after_range(s, range, j, stop)
}

// The reading of a text.
pub fn parse(s: &[u8]) -> CommandRead
    ensures { result ≡ reading_of s.now }
{
    let stop = text_stop(s);
    parse_cmd_descr(s, stop)
}

// The argument of a reading: the part of the text from the argument's first byte on, lent.
pub fn argument(s: &[u8], descr: CommandDescription) -> &[u8]
    ensures { result.now ≡ part_of s.now descr.argument descr.stop }
{
    part(s, descr.argument, descr.stop)
}
