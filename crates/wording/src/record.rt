// Actions in words, read from their records. Document 01, section Session, "The record". Bytes that are no record are dealt with too.
ghost use Rattle.texts.specs.Written.{Adds};

use phrases::focus::focus_behind;
use phrases::parts::{count, decimal_behind, flags, name, one_of, said};
use phrases::reader::Reader;
use texts::page::Page;

// A window or tab target.
fn window_or_tab(
    record: &mut Reader<'_>,
    page: &mut Page<'_>,
    single: &[u8],
    but: &[u8],
    all: &[u8],
) -> Option<()>
    ensures { Adds page.old page.new }
{
    match record.number()? {
        0 => focus_behind(record, page, single),
        1 => focus_behind(record, page, but),
        2 => said(page, all),
        _ => None,
    }
}

// What is opened.
fn open_target(record: &mut Reader<'_>, page: &mut Page<'_>) -> Option<()>
    ensures { Adds page.old page.new }
{
    match record.number()? {
        0 => said(page, b"current"),
        1 => said(page, b"alternate"),
        2 => said(page, b"unnamed"),
        3 => name(record, page),
        _ => None,
    }
}

// The name under which a window is written, or none.
fn written_name(record: &mut Reader<'_>, page: &mut Page<'_>) -> Option<()>
    ensures { Adds page.old page.new }
{
    match record.number()? {
        0 => Some(()),
        1 => {
            page.text(b" to ");
            name(record, page)
        }
        _ => None,
    }
}

// How a window is written: under which name, and with which flags.
fn written(record: &mut Reader<'_>, page: &mut Page<'_>) -> Option<()>
    ensures { Adds page.old page.new }
{
    written_name(record, page)?;
    one_of(record, page, b"", b", force")
}

// A change of size.
fn change(record: &mut Reader<'_>, page: &mut Page<'_>) -> Option<()>
    ensures { Adds page.old page.new }
{
    match record.number()? {
        0 => decimal_behind(record, page, b" to "),
        1 => decimal_behind(record, page, b" by +"),
        2 => decimal_behind(record, page, b" by -"),
        _ => None,
    }
}

// Close, of a window or a tab, by its texts.
fn close(
    record: &mut Reader<'_>,
    page: &mut Page<'_>,
    single: &[u8],
    but: &[u8],
    all: &[u8],
) -> Option<()>
    ensures { Adds page.old page.new }
{
    page.text(b"close ");
    window_or_tab(record, page, single, but, all)?;
    flags(record, page, b", quit", b", force")
}

// Close of a window.
fn close_window(record: &mut Reader<'_>, page: &mut Page<'_>) -> Option<()>
    ensures { Adds page.old page.new }
{
    close(
        record,
        page,
        b"window ",
        b"all windows but ",
        b"all windows",
    )
}

// Close of a tab.
fn close_tab(record: &mut Reader<'_>, page: &mut Page<'_>) -> Option<()>
    ensures { Adds page.old page.new }
{
    close(record, page, b"tab ", b"all tabs but ", b"all tabs")
}

// Resize.
fn resize(record: &mut Reader<'_>, page: &mut Page<'_>) -> Option<()>
    ensures { Adds page.old page.new }
{
    focus_behind(record, page, b"resize window ")?;
    one_of(record, page, b", height", b", width")?;
    change(record, page)
}

// What is opened, and how.
fn opened(record: &mut Reader<'_>, page: &mut Page<'_>, lead: &[u8]) -> Option<()>
    ensures { Adds page.old page.new }
{
    page.text(lead);
    open_target(record, page)?;
    flags(record, page, b", force", b", read-only")
}

// The axis along which a window is opened, which its side and its size say in words.
#[derive(Clone, Copy)]
enum Axis {
    Height,
    Width,
}

// The axis along which a window is opened.
fn read_axis(record: &mut Reader<'_>) -> Option<Axis> {
    match record.number()? {
        0 => Some(Axis::Height),
        1 => Some(Axis::Width),
        _ => None,
    }
}

// On which side of this one a window is opened.
fn side(record: &mut Reader<'_>, page: &mut Page<'_>, along: Axis) -> Option<()>
    ensures { Adds page.old page.new }
{
    match along {
        Axis::Height => one_of(record, page, b", below", b", above"),
        Axis::Width => one_of(record, page, b", on the right", b", on the left"),
    }
}

// The size along an axis; nothing where the context decides.
fn size(record: &mut Reader<'_>, page: &mut Page<'_>, along: Axis) -> Option<()>
    ensures { Adds page.old page.new }
{
    match along {
        Axis::Height => count(record, page, b", height "),
        Axis::Width => count(record, page, b", width "),
    }
}

// How often, if it is not once.
fn often(record: &mut Reader<'_>, page: &mut Page<'_>) -> Option<()>
    ensures { Adds page.old page.new }
{
    let times = record.number()?;
    if times != 1 {
        page.text(b", ");
        page.decimal(times);
        page.text(b" times");
    }
    Some(())
}

// A count of times.
fn times(record: &mut Reader<'_>, page: &mut Page<'_>) -> Option<()>
    ensures { Adds page.old page.new }
{
    match record.number()? {
        0 => said(page, b", as often as the context says"),
        1 => often(record, page),
        _ => None,
    }
}

// Open: where, and the size of the new window.
fn open(record: &mut Reader<'_>, page: &mut Page<'_>) -> Option<()>
    ensures { Adds page.old page.new }
{
    opened(record, page, b"open ")?;
    let along = read_axis(record)?;
    side(record, page, along)?;
    size(record, page, along)
}

// Split: where, and how often.
fn split(record: &mut Reader<'_>, page: &mut Page<'_>) -> Option<()>
    ensures { Adds page.old page.new }
{
    opened(record, page, b"split ")?;
    let along = read_axis(record)?;
    side(record, page, along)?;
    times(record, page)
}

// Switch.
fn switch(record: &mut Reader<'_>, page: &mut Page<'_>) -> Option<()>
    ensures { Adds page.old page.new }
{
    opened(record, page, b"switch to ")
}

// Write.
fn write(record: &mut Reader<'_>, page: &mut Page<'_>) -> Option<()>
    ensures { Adds page.old page.new }
{
    page.text(b"write ");
    window_or_tab(
        record,
        page,
        b"window ",
        b"all windows but ",
        b"all windows",
    )?;
    written(record, page)
}

// Open of a tab.
fn open_tab(record: &mut Reader<'_>, page: &mut Page<'_>) -> Option<()>
    ensures { Adds page.old page.new }
{
    opened(record, page, b"open tab ")?;
    focus_behind(record, page, b", at ")
}

// Focus of a tab.
fn focus_tab(record: &mut Reader<'_>, page: &mut Page<'_>) -> Option<()>
    ensures { Adds page.old page.new }
{
    focus_behind(record, page, b"focus tab ")
}

// Move of a tab.
fn move_tab(record: &mut Reader<'_>, page: &mut Page<'_>) -> Option<()>
    ensures { Adds page.old page.new }
{
    focus_behind(record, page, b"move tab to ")
}

// A record, by its kind. A text is made anew where the function starts that has it, so each kind has a function of its own.
fn action(record: &mut Reader<'_>, page: &mut Page<'_>) -> Option<()>
    ensures { Adds page.old page.new }
{
    match record.number()? {
        0 => said(page, b"nothing"),
        1 => close_window(record, page),
        2 => resize(record, page),
        3 => open(record, page),
        4 => split(record, page),
        5 => switch(record, page),
        6 => write(record, page),
        7 => close_tab(record, page),
        8 => focus_tab(record, page),
        9 => move_tab(record, page),
        10 => open_tab(record, page),
        _ => None,
    }
}

// A whole record in words.
pub fn put_record(page: &mut Page<'_>, record: &[u8])
    ensures { Adds page.old page.new }
{
    let start = page.len();
    let mut reader = Reader::new(record);
    let told = action(&mut reader, page);
    if told.is_some() && reader.rest().is_empty() {
        return;
    }
    page.cut(start);
    page.text(b"the bytes are not a record");
}
