// One line of a report.
#![tactic(auto, using(texts::specs::WrittenLaws::adding))]

ghost use Rattle.texts.specs.Written.{Adds};

use limits::LINE;
use reasons::{put_refusal, put_refused, put_refused_word};
use run::reply::LineReply;
use scan::part::part;
use spots::alias::alias_spot;
use spots::line::spot_of;
use spots::spot::Spot;
use texts::page::Page;
use wording::record::put_record;

// How many bytes of a line that is too long are shown.
const SHOWN: usize = 64;

// A number and a space.
pub fn put_number(page: &mut Page<'_>, n: u64)
    ensures { Adds page.old page.new }
{
    page.decimal(n);
    page.byte(b' ');
}

// What a line wrote, in hex: its record, or after refusal 10 the word as a name. Other refused lines wrote nothing.
fn put_written(page: &mut Page<'_>, written: &[u8])
    ensures { Adds page.old page.new }
{
    if written.is_empty() {
        page.byte(b'-');
    } else {
        page.hex(written);
    }
}

// Refusal, readings and what was written, as document 01's sample lines have them.
pub fn put_reply(page: &mut Page<'_>, r: LineReply, written: &[u8])
    ensures { Adds page.old page.new }
{
    put_number(page, r.refusal);
    put_number(page, r.readings);
    put_written(page, written);
}

// The action or the refusal in words.
fn put_words(page: &mut Page<'_>, r: LineReply, written: &[u8])
    ensures { Adds page.old page.new }
{
    if r.refusal == 0 {
        put_record(page, written);
    } else {
        put_refused(page, r.refusal, r.readings, written);
    }
}

// The words of a line and the end of the report's line.
fn put_told(page: &mut Page<'_>, r: LineReply, written: &[u8])
    ensures { Adds page.old page.new }
{
    page.byte(b' ');
    put_words(page, r, written);
    page.byte(b'\n');
}

// A line of a sheet: its number, refusal, readings, record, and the action or the refusal in words.
fn put_line(page: &mut Page<'_>, number: u64, r: LineReply, written: &[u8])
    ensures { Adds page.old page.new }
{
    put_number(page, number);
    put_reply(page, r, written);
    put_told(page, r, written);
}

// The refusal of a line of an alias file; 10 is about a word.
fn put_alias_refusal(page: &mut Page<'_>, refusal: u64, word: &[u8])
    ensures { Adds page.old page.new }
{
    if word.is_empty() {
        put_refusal(page, refusal);
    } else {
        put_refused_word(page, refusal, word);
    }
}

// The same as a line of the report, with the line's number.
fn put_alias_line(page: &mut Page<'_>, number: u64, refusal: u64, word: &[u8])
    ensures { Adds page.old page.new }
{
    put_alias_head(page, number, refusal);
    put_alias_refusal(page, refusal, word);
    page.byte(b'\n');
}

// `alias`, the line's number and the refusal's.
fn put_alias_head(page: &mut Page<'_>, number: u64, refusal: u64)
    ensures { Adds page.old page.new }
{
    page.text(b"alias ");
    put_number(page, number);
    put_number(page, refusal);
}

// The start of a line that shows a text.
fn put_indent(page: &mut Page<'_>)
    ensures { Adds page.old page.new }
{
    page.text(b"    ");
}

// A line as it stands.
fn put_whole(page: &mut Page<'_>, line: &[u8])
    ensures { Adds page.old page.new }
{
    put_indent(page);
    page.shown(line);
    page.byte(b'\n');
}

// The start of a line that is too long.
fn put_start(page: &mut Page<'_>, line: &[u8])
    ensures { Adds page.old page.new }
{
    put_indent(page);
    page.shown(part(line, 0, SHOWN));
    page.text(b"...\n");
}

// A mark under a place of the line above it.
fn put_mark(page: &mut Page<'_>, line: &[u8], s: Spot)
    ensures { Adds page.old page.new }
{
    put_indent(page);
    page.marked(line, s.start, s.stop);
    page.byte(b'\n');
}

// A refused line as it stands, and a mark under the place that the refusal is about, where it can be told. Of a line that is too long the
// start is shown.
fn put_refused_line(page: &mut Page<'_>, line: &[u8], s: Option<Spot>)
    ensures { Adds page.old page.new }
{
    if LINE < line.len() {
        put_start(page, line);
        return;
    }
    put_whole(page, line);
    if let Some(s) = s {
        put_mark(page, line, s);
    }
}

// What an alias came to: only a refusal is told, and the line is shown.
pub fn put_alias_told(page: &mut Page<'_>, number: u64, refusal: u64, word: &[u8], line: &[u8])
    ensures { Adds page.old page.new }
{
    if refusal > 0 {
        put_alias_line(page, number, refusal, word);
        put_refused_line(page, line, alias_spot(line, refusal));
    }
}

// A line that was run on a session, if it was refused.
pub fn put_refused_text(page: &mut Page<'_>, session: &[u8], line: &[u8], r: LineReply)
    ensures { Adds page.old page.new }
{
    if r.refusal > 0 {
        let spot = spot_of(session, line, r.refusal, r.readings);
        put_refused_line(page, line, spot);
    }
}

// What a line of a sheet came to; one that is refused is shown.
pub fn put_line_told(
    page: &mut Page<'_>,
    number: u64,
    r: LineReply,
    written: &[u8],
    session: &[u8],
    line: &[u8],
)
    ensures { Adds page.old page.new }
{
    put_line(page, number, r, written);
    put_refused_text(page, session, line, r);
}
