// The argument readings called alone: filenames, strings, options and range of CommandArgument in parse.rs, with their refusals.
ghost use Rattle.std.specs.Prelude.{◌≡◌, ◌≤◌, length, OnOk};
ghost use Rattle.std.proofs.lemmas.List.Edits.{sets};
ghost use Rattle.store.specs.Splice.{Room};
ghost use Rattle.lists.specs.Lists.{text_at, filename_of};
ghost use Rattle.lists.specs.Listed.{option_bytes};
ghost use Rattle.reading.specs.Told.{filename_told, option_told};
ghost use Rattle.reading.specs.Alone.{check_for, line_room, range_answer, filenames_alone, strings_alone, options_alone, range_alone};
ghost use Rattle.reading.specs.Alone.{reply_told, range_told, told, filename_seen, option_counts, filename_bytes, written_by, at_front};
ghost use Rattle.reading.specs.Checks.{item_alone};

use limits::refusal::Refusal;
use limits::{LINE, SPARE};
use lists::list::{Item, copy_item, lone, parse_list};
use lists::option::{OptionType, copy_option};
use ranges::range::{RangeSpec, WholeRead, parse_whole_range};
use utf8::utf8::is_utf8;

// A file name: a lone `#`, a lone `%`, or a name of so many bytes.
#[derive(Clone, Copy)]
pub enum FilenameType {
    Alternate,
    Current,
    Name(usize),
}

// How many items there are, and the one at the place, if there is one.
#[derive(Clone, Copy)]
pub struct Listed<T> {
    pub count: usize,
    pub item: Option<T>,
}

// What a list called alone answers: a refusal, or its count and item.
pub type ListReply<T> = Result<Listed<T>, Refusal>;

// What the checks 1, 12 and 2 say: nothing, or the refusal.
pub type Checked = Result<(), Refusal>;

// The checks 1, 12 and 2, in this order, for a text that asks for `need` bytes of a store of `size`.
fn check_for(text: &[u8], need: usize, size: usize) -> Checked
    ensures { result ≡ check_for need text.now size }
{
    if LINE < text.len() {
        return Err(Refusal::LineTooLong);
    }
    if size < need {
        return Err(Refusal::StoreTooShort);
    }
    if is_utf8(text) {
        return Ok(());
    }
    Err(Refusal::NotUtf8)
}

// The checks of a line, and of a list.
pub fn check_line(line: &[u8], size: usize) -> Checked
    ensures { result ≡ check_for (line_room line.now) line.now size }
{
    let n = line.len();
    if LINE < n {
        return Err(Refusal::LineTooLong);
    }
    check_for(line, n + SPARE, size)
}

// The file name that an item is: a name goes to the front of the store.
fn filename(s: &[u8], x: Item, store: &mut [u8]) -> FilenameType
    requires { Room store.old 0 (text_at s.now x.start) }
    ensures kind { filename_told result ≡ filename_seen (filename_of s.now x) }
    ensures written { store.new ≡ sets store.old 0 (filename_bytes (filename_of s.now x)) }
{
    if lone(s, x, 0x23) {
        return FilenameType::Alternate;
    }
    if lone(s, x, 0x25) {
        return FilenameType::Current;
    }
    FilenameType::Name(copy_item(s, x.start, store, 0))
}

// The range that a text was read as, where the whole text must be one.
#[tactic(auto, unfolding(crate::specs::Alone::range_answer, crate::specs::Alone::range_told))]
fn range_reply(w: WholeRead) -> Result<RangeSpec, Refusal>
    ensures { range_told result ≡ range_answer w }
{
    w?.ok_or(Refusal::ParseFailed)
}

// The list that a text is, behind its checks: how many items, and the one at `place`. Where flags are looked for, none may have an empty key.
fn list_at(text: &[u8], place: usize, flags: bool, size: usize) -> ListReply<Item>
    ensures answer { reply_told (λ x. x) result ≡ item_alone text.now flags place size }
    ensures room { OnOk result (length text.now ≤ size) }
{
    check_line(text, size)?;
    let seen = parse_list(text, place, flags).ok_or(Refusal::ParseFailed)?;
    if seen.keyless {
        return Err(Refusal::InvalidArgument);
    }
    Ok(Listed {
        count: seen.count,
        item: seen.picked.found(),
    })
}

// The file names of a text: how many there are, and the one at `place`.
pub fn filenames(text: &[u8], place: usize, store: &mut [u8]) -> ListReply<FilenameType>
    ensures answer { reply_told filename_told result ≡ told filename_seen (filenames_alone text.now place (length store.old)) }
    ensures written { store.new ≡ at_front (written_by filename_bytes (filenames_alone text.now place (length store.old))) store.old }
{
    let listed = list_at(text, place, false, store.len())?;
    let count = listed.count;
    match listed.item {
        None => Ok(Listed { count, item: None }),
        Some(x) => Ok(Listed {
            count,
            item: Some(filename(text, x, store)),
        }),
    }
}

// The strings of a text: how many there are, and the one at `place`, by its byte count.
pub fn strings(text: &[u8], place: usize, store: &mut [u8]) -> ListReply<usize>
    ensures answer { reply_told (λ n. n) result ≡ told length (strings_alone text.now place (length store.old)) }
    ensures written { store.new ≡ at_front (written_by (λ t. t) (strings_alone text.now place (length store.old))) store.old }
{
    let listed = list_at(text, place, false, store.len())?;
    let count = listed.count;
    match listed.item {
        None => Ok(Listed { count, item: None }),
        Some(x) => Ok(Listed {
            count,
            item: Some(copy_item(text, x.start, store, 0)),
        }),
    }
}

// The options of a text: how many there are, and the one at `place`.
pub fn options(text: &[u8], place: usize, store: &mut [u8]) -> ListReply<OptionType>
    ensures answer { reply_told option_told result ≡ told option_counts (options_alone text.now place (length store.old)) }
    ensures written { store.new ≡ at_front (written_by option_bytes (options_alone text.now place (length store.old))) store.old }
{
    let listed = list_at(text, place, true, store.len())?;
    let count = listed.count;
    match listed.item {
        None => Ok(Listed { count, item: None }),
        Some(x) => Ok(Listed {
            count,
            item: Some(copy_option(text, x.start, store)),
        }),
    }
}

// The range that a text is.
pub fn range(text: &[u8]) -> Result<RangeSpec, Refusal>
    ensures { range_told result ≡ range_alone text.now }
{
    check_for(text, 0, 0)?;
    range_reply(parse_whole_range(text))
}
