// What stands above a place of a report: what numbered lines are there, and the last line that is no text under another.
use console::told::Errors;
use files::file::{Unread, window};
use reports::kind::{Kind, kind_of};
use std::fs::File;
use texts::page::Page;

// As many bytes of a line as show its kind.
const HEAD: usize = 64;

// What lines with a number are.
#[derive(Clone, Copy)]
pub enum Numbered {
    Sheet,
    Other,
}

// What stands above.
#[derive(Clone, Copy)]
pub struct Above {
    pub numbered: Numbered,
    pub kind: Kind,
}

impl Above {
    // One line more. An exsheet report's numbered lines are the sheet's, and a checklist's those behind the heading.
    fn below(self, k: Kind) -> Above {
        match k {
            Kind::Text => self,
            Kind::Exsheet | Kind::Heading => Above {
                numbered: Numbered::Sheet,
                kind: k,
            },
            _ => Above { kind: k, ..self },
        }
    }
}

// What stands above as far as a report was read, and how a line starts that was read in part.
#[derive(Drop)]
struct Reading<'a> {
    head: Page<'a>,
    above: Above,
}

impl<'a> Reading<'a> {
    // The line ends whose head is held.
    fn end(&mut self) {
        let kind = kind_of(self.head.written());
        self.above = self.above.below(kind);
        self.head.cut(0);
    }

    // Goes through bytes that were read.
    fn through(&mut self, bytes: &[u8]) {
        for line in bytes.split_inclusive(|b| *b == b'\n') {
            match line.strip_suffix(b"\n") {
                Some(text) => {
                    self.head.text(text);
                    self.end();
                }
                None => self.head.text(line),
            }
        }
    }
}

// Reads a report up to a place. A proved loop has to end, so it counts its turns up to a number that no run reaches.
pub fn read_above(rt: &impl Errors, name: &[u8], file: &File, stop: u64) -> Result<Above, Unread> {
    let mut bytes = [0u8; 65536];
    let mut head = [0u8; HEAD];
    let mut r = Reading {
        head: Page::new(&mut head),
        above: Above {
            numbered: Numbered::Other,
            kind: Kind::Other,
        },
    };
    let mut at: u64 = 0;
    for _ in 0..u64::MAX {
        if stop <= at {
            break;
        }
        let text = window(rt, name, file, at, stop, &mut bytes)?;
        r.through(text);
        at = at.wrapping_add(text.len() as u64);
    }
    Ok(r.above)
}
