// An argument that may name one thing.
ghost use Rattle.std.specs.Prelude.{◌≡◌};
ghost use Rattle.windows.specs.One.{only_read, only_item};

use limits::refusal::Refusal;
use lists::list::{Item, Seen, parse_list};

// The item of a list that has none or one, or why the list is refused.
pub type OnlyItem = Result<Option<Item>, Refusal>;

#[tactic(auto, unfolding(crate::specs::One::only_read))]
fn only_read(l: Option<Seen>) -> OnlyItem
    ensures { result ≡ only_read l }
{
    let seen = l.ok_or(Refusal::ParseFailed)?;
    if 1 < seen.count {
        return Err(Refusal::InvalidArgument);
    }
    Ok(seen.picked.found())
}

// The item of the argument `a`, of which there may be one.
#[tactic(auto, using(crate::specs::OneLaws::only_read_lem))]
pub fn only_item(a: &[u8]) -> OnlyItem
    ensures { result ≡ only_item a.now }
{
    only_read(parse_list(a, 0, false))
}
