// A line composed of some of its prefixes in an order, and its last text, with one space behind each prefix.
use super::prefixes::{MOST, Prefix, Prefixes};
use scan::part::part;
use texts::page::Page;

// Which prefixes are kept.
#[derive(Clone, Copy)]
pub enum Keep {
    All,
    LastOfKind,
}

// Whether a prefix is kept that these follow in an order.
fn is_kept(p: &Prefixes, keep: Keep, one: Prefix, behind: &[u8]) -> bool {
    match keep {
        Keep::All => true,
        Keep::LastOfKind => !behind.iter().any(|k| p.at(*k).kind == one.kind),
    }
}

// The composed line. A `for` over the places, since what follows a prefix is looked at too.
pub fn put_composed(
    page: &mut Page<'_>,
    line: &[u8],
    p: &Prefixes,
    order: &[u8; MOST],
    keep: Keep,
) {
    let order = &order[..p.count.min(MOST)];
    for j in 0..order.len() {
        let one = p.at(order[j]);
        if is_kept(p, keep, one, &order[j + 1..]) {
            page.text(part(line, one.start, one.stop));
            page.byte(b' ');
        }
    }
    page.text(part(line, p.text, p.stop));
}
