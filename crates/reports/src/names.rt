// Lines that differ in the name of a file alone: what stands behind the name, how many bytes it has and their number, is the same.
ghost use Rattle.std.specs.Prelude.{IfSome, ◌<◌, length};

// Which names differ: the sheet's, the alias file's, or both.
#[derive(Clone, Copy, PartialEq, Eq)]
pub enum Names {
    Sheet,
    Aliases,
    Both,
}

// Two lines that differ in a name alone: in which, and where each of them ends.
#[derive(Clone, Copy)]
pub struct Named {
    pub names: Names,
    pub a: usize,
    pub b: usize,
}

// What stands behind the name: the last two parts of a line, from the comma before them on.
fn behind_name(line: &[u8]) -> Option<&[u8]> {
    let second = line.iter().rposition(|b| *b == b',')?;
    let first = line[..second].iter().rposition(|b| *b == b',')?;
    Some(&line[first..])
}

// Whether two lines have the same behind their names, and something.
fn same_behind(a: &[u8], b: &[u8]) -> bool {
    match (behind_name(a), behind_name(b)) {
        (Some(x), Some(y)) => x == y,
        _ => false,
    }
}

// The lines that two texts start with, if both start with a word, end in the texts and differ in a name alone.
fn named_by(a: &[u8], b: &[u8], word: &[u8], names: Names) -> Option<Named>
    ensures { IfSome result (λ n. (n.a < length a.now) × (n.b < length b.now)) }
{
    if !a.starts_with(word) || !b.starts_with(word) {
        return None;
    }
    let i = a.iter().position(|c| *c == b'\n')?;
    let j = b.iter().position(|c| *c == b'\n')?;
    if same_behind(&a[..i], &b[..j]) {
        Some(Named { names, a: i, b: j })
    } else {
        None
    }
}

// The lines with this number that two texts start with, if they differ in a name alone: the second names the sheet, the third the aliases.
pub fn named_at(line: u64, a: &[u8], b: &[u8]) -> Option<Named>
    ensures { IfSome result (λ n. (n.a < length a.now) × (n.b < length b.now)) }
{
    match line {
        2 => named_by(a, b, b"sheet ", Names::Sheet),
        3 => named_by(a, b, b"aliases ", Names::Aliases),
        _ => None,
    }
}
