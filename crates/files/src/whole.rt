// Whether a file is a whole report: its first line names a program, and its last line has the number of the bytes before it.
use super::file::{Unread, window};
use super::tell::{tell, tell_changed, tell_failed};
use console::told::Errors;
use reports::kind::{Kind, kind_of};
use reports::text::{count_ends, first_line};
use scan::decimal::digits;
use scan::part::{byte_at, part};
use std::fs::File;
use std::io::{Seek, SeekFrom};
use std::os::unix::fs::FileExt;

// Why a file is no whole report: nothing could be read, which was told; it is no report; its last line has no number; or its number and
// that of its bytes differ.
#[derive(Clone, Copy, PartialEq, Eq)]
pub enum Wrong {
    Unread,
    Foreign,
    Cut,
    Changed(u64, u64),
}

impl From<Unread> for Wrong {
    fn from(_e: Unread) -> Wrong {
        Wrong::Unread
    }
}

// How many bytes a last line can have.
const LAST: u64 = 34;

// The number that digits have, if nothing stands behind them and no zero before them.
fn plain_number(s: &[u8]) -> Option<u64> {
    if byte_at(s, 0) == b'0' && s.len() > 1 {
        return None;
    }
    match digits(s, 0) {
        Ok(Some((n, e))) if e == s.len() => Some(n),
        _ => None,
    }
}

// The number that a last line says.
fn number_of(line: &[u8]) -> Option<u64> {
    plain_number(line.strip_prefix(b"number of this report: ")?)
}

// Whether a file that starts with these bytes is a report.
fn is_report(s: &[u8]) -> bool {
    matches!(kind_of(s), Kind::Exsheet | Kind::Checklist)
}

// The sum of the bytes before `stop`. A proved loop has to end, so it counts its turns up to a number that no run
// reaches.
fn sum_before(rt: &impl Errors, name: &[u8], file: &File, stop: u64) -> Result<u64, Unread> {
    let mut bytes = [0u8; 65536];
    let mut crc = crc::start();
    let mut at: u64 = 0;
    for _ in 0..u64::MAX {
        if stop <= at {
            break;
        }
        let text = window(rt, name, file, at, stop, &mut bytes)?;
        crc = crc::more(crc, text);
        at = at.wrapping_add(text.len() as u64);
    }
    Ok(crc::end(crc))
}

// Where the last line of a report starts, by the bytes at its end, which start at `at`.
fn by_end(rt: &impl Errors, name: &[u8], file: &File, at: u64, bytes: &[u8]) -> Result<u64, Wrong> {
    let text = bytes.strip_suffix(b"\n").unwrap_or(bytes);
    let behind = count_ends(text).behind;
    let number = number_of(&text[behind..]).ok_or(Wrong::Cut)?;
    let last = at.wrapping_add(behind as u64);
    let sum = sum_before(rt, name, file, last)?;
    if sum == number {
        Ok(last)
    } else {
        Err(Wrong::Changed(number, sum))
    }
}

// The same of a report of so many bytes. Its last line is looked for where the longest one would start, and a newline before it.
fn by_size(rt: &impl Errors, name: &[u8], file: &File, size: u64) -> Result<u64, Wrong> {
    let at = size.saturating_sub(LAST + 1);
    let mut bytes = [0u8; 4096];
    let text = window(rt, name, file, at, size, &mut bytes)?;
    by_end(rt, name, file, at, text)
}

// The same of a file that starts with these bytes.
fn by_start(rt: &impl Errors, name: &[u8], file: &File, start: &[u8]) -> Result<u64, Wrong> {
    if !is_report(start) {
        return Err(Wrong::Foreign);
    }
    let mut handle = file;
    match handle.seek(SeekFrom::End(0)) {
        Err(e) => {
            tell_failed(rt, name, e);
            Err(Wrong::Unread)
        }
        Ok(size) => by_size(rt, name, file, size),
    }
}

// Tells what is wrong with a file that starts with these bytes.
fn tell_wrong(rt: &impl Errors, name: &[u8], start: &[u8], w: Wrong) {
    match w {
        Wrong::Unread => return,
        Wrong::Foreign => tell(rt, name, b" is not a report of exsheet or checklist"),
        Wrong::Cut => tell(
            rt,
            name,
            b" is not a whole report: its last line has no number",
        ),
        Wrong::Changed(number, sum) => tell_changed(rt, name, number, sum),
    }
    if first_line(start).ends_with(b"\r") {
        tell(
            rt,
            name,
            b" has carriage returns: it was changed on its way",
        );
    }
}

// Looks at a whole file: where its last line starts, or what is wrong with it, which is told.
pub fn look(rt: &impl Errors, name: &[u8], file: &File) -> Result<u64, Wrong> {
    let mut bytes = [0u8; 65536];
    match file.read_at(&mut bytes, 0) {
        Err(e) => {
            tell_failed(rt, name, e);
            Err(Wrong::Unread)
        }
        Ok(n) => {
            let start = part(&bytes, 0, n);
            let found = by_start(rt, name, file, start);
            if let Err(w) = found {
                tell_wrong(rt, name, start, w);
            }
            found
        }
    }
}
