// A focus in words.
ghost use Rattle.texts.specs.Written.{Adds};

use super::parts::{count, decimal, one_of, said};
use super::reader::Reader;
use texts::page::Page;

// A direction, a count and whether it wraps.
fn direction(record: &mut Reader<'_>, page: &mut Page<'_>) -> Option<()>
    ensures { Adds page.old page.new }
{
    one_of(record, page, b"next", b"previous")?;
    count(record, page, b" ")?;
    one_of(record, page, b"", b", wrapping")
}

// A focus.
pub fn focus(record: &mut Reader<'_>, page: &mut Page<'_>) -> Option<()>
    ensures { Adds page.old page.new }
{
    match record.number()? {
        0 => said(page, b"current"),
        1 => decimal(record, page),
        2 => direction(record, page),
        3 => said(page, b"first"),
        4 => said(page, b"last"),
        _ => None,
    }
}

// A focus behind a text.
pub fn focus_behind(record: &mut Reader<'_>, page: &mut Page<'_>, lead: &[u8]) -> Option<()>
    ensures { Adds page.old page.new }
{
    page.text(lead);
    focus(record, page)
}
