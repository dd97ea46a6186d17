// A reading or a run of a text, to be counted in instructions: the first byte of standard input says which, the rest is the text.
// It prints a number that depends on the answer, so that no work is left out.
#![tactic(auto)]

use layout::bytes::sound;
use limits::{LINE, STORE};
use scan::part::part;
use session::lent::line_in;
use session::value::fresh;
use std::io;
use std::io::Read;

fn by_utf8(text: &[u8]) -> u64 {
    if utf8::utf8::is_utf8(text) { 1 } else { 0 }
}

fn by_reading(text: &[u8]) -> u64 {
    match reading::line::parse(text) {
        Ok(d) => d.stop as u64,
        Err(_) => 0,
    }
}

fn by_range(text: &[u8]) -> u64 {
    match reading::alone::range(text) {
        Ok(_) => 1,
        Err(_) => 0,
    }
}

fn by_filenames(text: &[u8]) -> u64 {
    let mut store = [0u8; STORE];
    match reading::alone::filenames(text, 0, &mut store) {
        Ok(listed) => listed.count as u64,
        Err(_) => 0,
    }
}

fn by_strings(text: &[u8]) -> u64 {
    let mut store = [0u8; STORE];
    match reading::alone::strings(text, 0, &mut store) {
        Ok(listed) => listed.item.unwrap_or(listed.count) as u64,
        Err(_) => 0,
    }
}

fn by_options(text: &[u8]) -> u64 {
    let mut store = [0u8; STORE];
    match reading::alone::options(text, 0, &mut store) {
        Ok(listed) => listed.count as u64,
        Err(_) => 0,
    }
}

fn by_lookup(text: &[u8]) -> u64 {
    match layout::lookup::find_word(&text[0..0], text) {
        Some(n) => n,
        None => 28,
    }
}

fn run_line(session: &mut [u8], text: &[u8]) -> u64 {
    let mut store = [0u8; STORE];
    let r = line_in(session, text, &mut store);
    r.refusal | (r.readings << 8) | (r.count << 32)
}

fn by_line(text: &[u8]) -> u64 {
    let mut session = fresh().bytes;
    run_line(&mut session, text)
}

// The same line again, where it is the one that is remembered.
fn by_line_again(text: &[u8]) -> u64 {
    let mut session = fresh().bytes;
    run_line(&mut session, text);
    run_line(&mut session, text)
}

// The session's bytes are looked at once more.
fn by_session(text: &[u8]) -> u64 {
    let mut session = fresh().bytes;
    let n = run_line(&mut session, text);
    if sound(&session) { n } else { 0 }
}

// `0` does nothing: what the program itself costs.
fn measured(which: u8, text: &[u8]) -> u64 {
    match which {
        0x75 => by_utf8(text),
        0x6C => by_reading(text),
        0x72 => by_range(text),
        0x66 => by_filenames(text),
        0x73 => by_strings(text),
        0x6F => by_options(text),
        0x77 => by_lookup(text),
        0x61 => by_line(text),
        0x62 => by_line_again(text),
        0x6B => by_session(text),
        _ => 0,
    }
}

fn main(rt: HostRuntime) -> io::Result<()> {
    let mut buffer = [0u8; LINE + 1];
    let mut input = rt.reader().take(LINE as u64 + 1);
    let mut room = &mut buffer[..];
    let n = io::copy(&mut input, &mut room)? as usize;
    let which = buffer[0];
    if 1 <= n {
        println!(rt; "{}", measured(which, part(&buffer, 1, n)))?;
    }
    Ok(())
}
