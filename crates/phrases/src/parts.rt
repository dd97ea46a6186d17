// Parts of a record, read and written in words. None is answered where no record has what stands there.
ghost use Rattle.texts.specs.Written.{Adds};

use super::reader::Reader;
use texts::page::Page;

// A text.
pub fn said(page: &mut Page<'_>, text: &[u8]) -> Option<()>
    ensures { Adds page.old page.new }
{
    page.text(text);
    Some(())
}

// A number.
pub fn decimal(record: &mut Reader<'_>, page: &mut Page<'_>) -> Option<()>
    ensures { Adds page.old page.new }
{
    page.decimal(record.number()?);
    Some(())
}

// A number behind a text.
pub fn decimal_behind(record: &mut Reader<'_>, page: &mut Page<'_>, lead: &[u8]) -> Option<()>
    ensures { Adds page.old page.new }
{
    page.text(lead);
    decimal(record, page)
}

// A name, in quotes.
pub fn name(record: &mut Reader<'_>, page: &mut Page<'_>) -> Option<()>
    ensures { Adds page.old page.new }
{
    page.quoted(record.name()?);
    Some(())
}

// One of two texts.
pub fn one_of(record: &mut Reader<'_>, page: &mut Page<'_>, zero: &[u8], one: &[u8]) -> Option<()>
    ensures { Adds page.old page.new }
{
    match record.number()? {
        0 => said(page, zero),
        1 => said(page, one),
        _ => None,
    }
}

// A count behind a text; nothing where the context decides.
pub fn count(record: &mut Reader<'_>, page: &mut Page<'_>, lead: &[u8]) -> Option<()>
    ensures { Adds page.old page.new }
{
    match record.number()? {
        0 => Some(()),
        1 => decimal_behind(record, page, lead),
        _ => None,
    }
}

// The flags that are set: two of them, or none.
pub fn flags(record: &mut Reader<'_>, page: &mut Page<'_>, one: &[u8], two: &[u8]) -> Option<()>
    ensures { Adds page.old page.new }
{
    match record.number()? {
        0 => Some(()),
        1 => said(page, one),
        2 => said(page, two),
        3 => {
            page.text(one);
            said(page, two)
        }
        _ => None,
    }
}
