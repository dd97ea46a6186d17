// What a line of a report is, by the bytes that it starts with.
ghost use Rattle.std.specs.Prelude.{◌≡◌};
ghost use Rattle.reports.specs.Kind.{of_alias, numbered_by, of_number, kind_of};

use scan::decimal::{Decimal, digits, is_digit};
use scan::part::{byte_at, part};

// The kinds of lines. A numbered line is of the sheet, or of a checklist's orders.
#[derive(Clone, Copy, PartialEq, Eq)]
pub enum Kind {
    Exsheet,
    Checklist,
    Sheet,
    Aliases,
    Reference,
    Heading,
    Text,
    Alias(u64),
    Numbered(u64),
    Other,
}

// A refused alias, by the number behind its word.
fn of_alias(d: Decimal) -> Kind
    ensures { result ≡ of_alias d }
{
    match d {
        Ok(Some((n, _))) => Kind::Alias(n),
        _ => Kind::Other,
    }
}

// A line that starts with a number, by what stands behind it.
fn numbered(n: u64, rest: &[u8]) -> Kind
    ensures { result ≡ numbered_by n rest.now }
{
    if rest.starts_with(b" ") && is_digit(byte_at(rest, 1)) {
        Kind::Numbered(n)
    } else {
        Kind::Other
    }
}

// A line that starts with no word, by the number that it starts with.
fn of_number(line: &[u8], d: Decimal) -> Kind
    ensures { result ≡ of_number line.now d }
{
    match d {
        Ok(Some((n, e))) => numbered(n, part(line, e, line.len())),
        _ => Kind::Other,
    }
}

// The kind of a line.
#[tactic(auto, unfolding(crate::specs::Kind::kind_of))]
pub fn kind_of(line: &[u8]) -> Kind
    ensures { result ≡ kind_of line.now }
{
    if line.starts_with(b"    ") {
        return Kind::Text;
    }
    if line.starts_with(b"alias ") {
        return of_alias(digits(line, 6));
    }
    if line.starts_with(b"exsheet ") {
        return Kind::Exsheet;
    }
    if line.starts_with(b"checklist ") {
        return Kind::Checklist;
    }
    if line.starts_with(b"sheet ") {
        return Kind::Sheet;
    }
    if line.starts_with(b"aliases ") {
        return Kind::Aliases;
    }
    if line.starts_with(b"reference sheet, ") {
        return Kind::Reference;
    }
    if line == b"reference sheet".as_slice() {
        return Kind::Heading;
    }
    of_number(line, digits(line, 0))
}
