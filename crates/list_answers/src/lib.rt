// What `reading` answers to a text that is a list of file names, strings or options (ops 4 to 6), as the oracle writes it: a refusal, or
// how many items there are, and each. An item is asked for by its place.
#![tactic(auto)]

use limits::{LINE, STORE};
use lists::option::OptionType;
use reading::alone::{FilenameType, ListReply};
use scan::part::part;
use vectors::answer::Answer;
use vectors::op::List;

fn put_filename(out: &mut Answer, t: FilenameType, store: &[u8]) {
    match t {
        FilenameType::Alternate => out.put_number(0),
        FilenameType::Current => out.put_number(1),
        FilenameType::Name(m) => {
            out.put_number(2);
            out.put_name(part(store, 0, m));
        }
    }
}

fn put_option(out: &mut Answer, o: OptionType, store: &[u8]) {
    match o {
        OptionType::Positional(k) => {
            out.put_number(0);
            out.put_name(part(store, 0, k));
        }
        OptionType::Flag(k) => {
            out.put_number(1);
            out.put_name(part(store, 0, k));
        }
        OptionType::FlagValue(k, v) => {
            out.put_number(2);
            out.put_name(part(store, 0, k));
            out.put_name(part(part(store, k, store.len()), 0, v));
        }
    }
}

// What comes before an item: a refusal, or at place 0 the class and the count. Then the item, if there is one at the place.
fn put_head<T: Copy>(out: &mut Answer, place: usize, reply: ListReply<T>) -> Option<T> {
    match reply {
        Ok(listed) => {
            if place == 0 {
                out.put_two(0, listed.count as u64);
            }
            listed.item
        }
        Err(why) => {
            out.refuse(why);
            None
        }
    }
}

// The item of a list at a place, and whether there is one. The items of each kind of list have a type of their own, so each has a function.
fn put_filename_at(out: &mut Answer, text: &[u8], place: usize) -> bool {
    let mut store = [0u8; STORE];
    match put_head(
        out,
        place,
        reading::alone::filenames(text, place, &mut store),
    ) {
        Some(t) => {
            put_filename(out, t, &store);
            true
        }
        None => false,
    }
}

fn put_string_at(out: &mut Answer, text: &[u8], place: usize) -> bool {
    let mut store = [0u8; STORE];
    match put_head(out, place, reading::alone::strings(text, place, &mut store)) {
        Some(k) => {
            out.put_name(part(&store, 0, k));
            true
        }
        None => false,
    }
}

fn put_option_at(out: &mut Answer, text: &[u8], place: usize) -> bool {
    let mut store = [0u8; STORE];
    match put_head(out, place, reading::alone::options(text, place, &mut store)) {
        Some(o) => {
            put_option(out, o, &store);
            true
        }
        None => false,
    }
}

fn put_item_at(list: List, out: &mut Answer, text: &[u8], place: usize) -> bool {
    match list {
        List::Filenames => put_filename_at(out, text, place),
        List::Strings => put_string_at(out, text, place),
        List::Options => put_option_at(out, text, place),
    }
}

// A list, item by item, and once more past its last place.
pub fn answer_list(list: List, text: &[u8], out: &mut Answer) {
    for place in 0..LINE + 1 {
        if !put_item_at(list, out, text, place) {
            break;
        }
    }
}
