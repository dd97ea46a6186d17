// A file that is read twice: once for its sum, which stands at the head of the report, and once for its lines.
ghost use Rattle.texts.specs.Written.{Adds};

use super::program::Program;
use super::told::{Errors, Failure, say, tell};
use scan::part::part;
use std::io::{Read, Seek, SeekFrom};
use std::rt::Files;
use std::str::from_utf8;
use std::{fs, io};
use texts::page::Page;

// How many bytes were read, and their CRC-32 so far.
#[derive(Clone, Copy, PartialEq, Eq)]
pub struct Sum {
    bytes: u64,
    crc: u64,
}

// A file that is open at its start, and its sum.
#[derive(Drop)]
pub struct File {
    pub handle: fs::File,
    pub sum: Sum,
}

// What the system answers where a path is no text.
const NO_TEXT: i32 = 84;

// Opens a file to read it. Only a path that is UTF-8 can be opened.
pub fn open_read<R: Files>(rt: &R, path: &[u8]) -> io::Result<R::File> {
    match from_utf8(path) {
        Ok(path) => fs::open(rt, path),
        Err(_) => Err(io::Error::from_raw_os_error(NO_TEXT)),
    }
}

impl Sum {
    // Of no byte.
    pub fn new() -> Sum {
        Sum {
            bytes: 0,
            crc: crc::start(),
        }
    }

    // With more bytes.
    pub fn add(&mut self, bytes: &[u8]) {
        self.bytes = self.bytes.wrapping_add(bytes.len() as u64);
        self.crc = crc::more(self.crc, bytes);
    }

    // The CRC-32 of all bytes.
    pub fn crc(&self) -> u64 {
        crc::end(self.crc)
    }
}

// What a file is called in messages. Standard input has no name.
fn called(name: &[u8]) -> &[u8] {
    if name.is_empty() {
        return b"standard input";
    }
    name
}

// What is wrong with a file.
pub fn say_of(rt: &impl Errors, p: Program, name: &[u8], wrong: &[u8]) {
    say(rt, p, called(name), wrong);
}

// What a call on a file answered. If it failed, that is told.
fn told_of<T: Drop>(
    rt: &impl Errors,
    p: Program,
    name: &[u8],
    r: io::Result<T>,
) -> Result<T, Failure> {
    match r {
        Ok(x) => Ok(x),
        Err(e) => {
            tell(rt, p, called(name), e);
            Err(Failure)
        }
    }
}

// Reads once: bytes at the start of the buffer, or none at the end of the file.
pub fn read_part<'b, F: Read>(
    rt: &impl Errors,
    p: Program,
    file: &mut F,
    name: &[u8],
    into: &'b mut [u8],
) -> Result<&'b [u8], Failure> {
    let n = told_of(rt, p, name, file.read(into))?;
    Ok(part(into, 0, n))
}

// Reads to the end. A proved loop has to end, so it counts its turns up to a number that no run reaches.
fn sum_of<F: Read>(
    rt: &impl Errors,
    p: Program,
    file: &mut F,
    name: &[u8],
) -> Result<Sum, Failure> {
    let mut bytes = [0u8; 65536];
    let mut sum = Sum::new();
    for _ in 0..u64::MAX {
        let text = read_part(rt, p, file, name, &mut bytes)?;
        if text.is_empty() {
            break;
        }
        sum.add(text);
    }
    Ok(sum)
}

// Goes back to the start.
pub fn rewind<F: Seek>(
    rt: &impl Errors,
    p: Program,
    file: &mut F,
    name: &[u8],
) -> Result<(), Failure> {
    told_of(rt, p, name, file.seek(SeekFrom::Start(0)))?;
    Ok(())
}

// Opens a file, sums it and goes back to its start. What fails is told.
pub fn open_file<R: Errors + Files<File = fs::File>>(
    rt: &R,
    p: Program,
    path: &[u8],
    name: &[u8],
) -> Result<File, Failure> {
    let mut handle = told_of(rt, p, name, open_read(rt, path))?;
    let sum = sum_of(rt, p, &mut handle, name)?;
    rewind(rt, p, &mut handle, name)?;
    Ok(File { handle, sum })
}

// The last part of a path.
fn last_part(path: &[u8]) -> &[u8] {
    match path.iter().rposition(|b| *b == b'/') {
        Some(i) => &path[i + 1..],
        None => path,
    }
}

// A file's name without its folder.
fn put_name(page: &mut Page<'_>, name: &[u8])
    ensures { Adds page.old page.new }
{
    if name.is_empty() {
        page.text(b"standard input");
    } else {
        page.quoted(last_part(name));
    }
}

// The words behind a number of bytes.
fn put_unit(page: &mut Page<'_>, bytes: u64)
    ensures { Adds page.old page.new }
{
    if bytes == 1 {
        page.text(b" byte, CRC-32 ");
    } else {
        page.text(b" bytes, CRC-32 ");
    }
}

// How many bytes a file has.
fn put_bytes(page: &mut Page<'_>, bytes: u64)
    ensures { Adds page.old page.new }
{
    page.text(b", ");
    page.decimal(bytes);
    put_unit(page, bytes);
}

// How many bytes a file has, and their CRC-32.
pub fn put_sum(page: &mut Page<'_>, s: Sum)
    ensures { Adds page.old page.new }
{
    put_bytes(page, s.bytes);
    page.decimal(s.crc());
    page.byte(b'\n');
}

// A line at the head of a report: what a file is, its name and its sum.
pub fn put_file(page: &mut Page<'_>, what: &[u8], name: &[u8], s: Sum)
    ensures { Adds page.old page.new }
{
    page.text(what);
    put_name(page, name);
    put_sum(page, s);
}
