// Refusals in words: those of bindings/rust/src/words.rs.
#![tactic(auto, using(texts::specs::WrittenLaws::adding))]

ghost use Rattle.texts.specs.Written.{Adds};

use limits::refusal::{NoRefusal, Refusal};
use limits::{ALIASES, LAST_COMMAND, LINE, MOST, WORD};
use phrases::reader::name_of;
use texts::page::Page;

// Words about a limit.
// The texts about a limit have a function each below: a text is made anew where the function starts that has it.
fn put_limit(page: &mut Page<'_>, before: &[u8], limit: u64, behind: &[u8])
    ensures { Adds page.old page.new }
{
    page.text(before);
    page.decimal(limit);
    page.text(behind);
}

// A line that is too long.
fn put_line_limit(page: &mut Page<'_>)
    ensures { Adds page.old page.new }
{
    put_limit(page, b"the line is longer than ", LINE as u64, b" bytes");
}

// A number that is too large.
fn put_number_limit(page: &mut Page<'_>)
    ensures { Adds page.old page.new }
{
    put_limit(page, b"a number is above ", MOST, b"");
}

// A sum that is too large.
fn put_sum_limit(page: &mut Page<'_>)
    ensures { Adds page.old page.new }
{
    put_limit(page, b"a sum of offsets is above ", MOST, b"");
}

// An alias that is none.
fn put_alias_limit(page: &mut Page<'_>)
    ensures { Adds page.old page.new }
{
    put_limit(
        page,
        b"the alias is not 1 to ",
        WORD as u64,
        b" word characters",
    );
}

// A command that there is not.
fn put_command_limit(page: &mut Page<'_>)
    ensures { Adds page.old page.new }
{
    put_limit(
        page,
        b"the command's number is above ",
        LAST_COMMAND as u64,
        b"",
    );
}

// An alias too many.
fn put_aliases_limit(page: &mut Page<'_>)
    ensures { Adds page.old page.new }
{
    put_limit(
        page,
        b"there are ",
        ALIASES as u64,
        b" aliases, and no place for a new one",
    );
}

// The one home of the words: a case that has none is an error. A text is made anew where the function starts that has it, so those about a
// limit have functions of their own.
fn put_words(page: &mut Page<'_>, x: Refusal)
    ensures { Adds page.old page.new }
{
    match x {
        Refusal::LineTooLong => put_line_limit(page),
        Refusal::NotUtf8 => page.text(b"the line is not UTF-8"),
        Refusal::ParseFailed => page.text(b"the line, or a list or range in it, does not parse"),
        Refusal::NumberTooLarge => put_number_limit(page),
        Refusal::InvalidArgument => page.text(b"the command does not take this argument"),
        Refusal::InvalidRange => page.text(b"the command does not take this range"),
        Refusal::SumTooLarge => put_sum_limit(page),
        Refusal::BadAlias => put_alias_limit(page),
        Refusal::BadCommand => put_command_limit(page),
        Refusal::UnknownWord => page.text(b"no command has this word"),
        Refusal::Unimplemented => page.text(b"the command is not implemented"),
        Refusal::StoreTooShort => page.text(b"the store is too short"),
        Refusal::AliasesFull => put_aliases_limit(page),
        Refusal::NotASession => page.text(b"the bytes are not a session"),
    }
}

// A refusal by its number.
pub fn put_refusal(page: &mut Page<'_>, n: u64)
    ensures { Adds page.old page.new }
{
    match Refusal::try_from(n) {
        Ok(x) => put_words(page, x),
        Err(NoRefusal { number: 0 }) => page.text(b"not refused"),
        Err(NoRefusal { number }) => put_limit(page, b"no refusal has the number ", number, b""),
    }
}

// The refusal of a word.
pub fn put_refused_word(page: &mut Page<'_>, n: u64, word: &[u8])
    ensures { Adds page.old page.new }
{
    put_refusal(page, n);
    page.text(b": ");
    page.quoted(word);
}

// The refusal of a line, with what it is about: the word that no command has, which the line wrote as a name, or else the reading that
// was refused, where one was begun.
pub fn put_refused(page: &mut Page<'_>, n: u64, readings: u64, written: &[u8])
    ensures { Adds page.old page.new }
{
    if n == u64::from(Refusal::UnknownWord) {
        put_refused_word(page, n, name_of(written));
        return;
    }
    put_refusal(page, n);
    if readings > 0 {
        page.text(b", in reading ");
        page.decimal(readings);
    }
}
