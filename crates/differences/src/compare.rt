// Two reports compared: the first line that differs in more than the name of a file.
use super::differ::{Pair, Place, difference};
use console::told::Errors;
use files::file::Unread;
use reports::names::{Named, Names, named_at};

// What two reports come to: the same; the same but for names, first at a place; or a place where they differ.
#[derive(Clone, Copy)]
pub enum Outcome {
    Equal,
    Names(Place, Names),
    Differ(Place),
}

// The lines at a place, if they differ in a name alone. One that is a report's last line differs in more than a name.
fn named(rt: &impl Errors, r: Pair<'_>, p: Place) -> Result<Option<Named>, Unread> {
    if r.a.last <= p.a || r.b.last <= p.b {
        return Ok(None);
    }
    let mut x = [0u8; 65536];
    let of_a = r.a.bytes(rt, p.a, &mut x);
    let mut y = [0u8; 65536];
    let of_b = r.b.bytes(rt, p.b, &mut y);
    Ok(named_at(p.line, of_a?, of_b?))
}

// Names that differ, and where the first of them does, with those of one place more.
fn joined(named: Option<(Place, Names)>, p: Place, names: Names) -> (Place, Names) {
    match named {
        None => (p, names),
        Some((first, before)) if before == names => (first, names),
        Some((first, _)) => (first, Names::Both),
    }
}

// Compares two reports. At most two lines differ in a name alone, so the third turn is the last.
pub fn compare(rt: &impl Errors, r: Pair<'_>) -> Result<Outcome, Unread> {
    let mut from = Place {
        line: 1,
        a: 0,
        b: 0,
    };
    let mut so_far: Option<(Place, Names)> = None;
    for _ in 0..3 {
        let Some(p) = difference(rt, r, from)? else {
            break;
        };
        let Some(n) = named(rt, r, p)? else {
            return Ok(Outcome::Differ(p));
        };
        from = p.further(
            1,
            (n.a as u64).wrapping_add(1),
            (n.b as u64).wrapping_add(1),
        );
        so_far = Some(joined(so_far, p, n.names));
    }
    Ok(match so_far {
        None => Outcome::Equal,
        Some((first, names)) => Outcome::Names(first, names),
    })
}
