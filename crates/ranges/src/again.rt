// The same range, taken apart by its cases and put together again. A range is answered into memory field by field; copied as a whole, each
// copy would wait until these fields are written, while its fields alone travel in registers.
ghost use Rattle.std.specs.Prelude.{◌≡◌};

use super::range::{RangeEnding, RangeEndingType, RangeRead, RangeSpec};

fn atom_again(a: RangeEndingType) -> RangeEndingType
    ensures { result ≡ a }
{
    match a {
        RangeEndingType::Unspecified => RangeEndingType::Unspecified,
        RangeEndingType::Absolute(n) => RangeEndingType::Absolute(n),
        RangeEndingType::Current => RangeEndingType::Current,
        RangeEndingType::All => RangeEndingType::All,
        RangeEndingType::Last => RangeEndingType::Last,
        RangeEndingType::Search(d) => RangeEndingType::Search(d),
        RangeEndingType::SubPatSearch => RangeEndingType::SubPatSearch,
        RangeEndingType::Mark(b) => RangeEndingType::Mark(b),
    }
}

pub fn ending_again(e: RangeEnding) -> RangeEnding
    ensures { result ≡ e }
{
    let a = e.atom;
    RangeEnding {
        atom: atom_again(a),
        from: e.from,
        to: e.to,
    }
}

pub fn spec_again(g: RangeSpec) -> RangeSpec
    ensures { result ≡ g }
{
    match g {
        RangeSpec::Single(e) => RangeSpec::Single(ending_again(e)),
        RangeSpec::Double(l, e, p) => RangeSpec::Double(ending_again(l), ending_again(e), p),
    }
}

pub fn range_again(g: RangeRead) -> RangeRead
    ensures { result ≡ g }
{
    match g {
        Ok(Some((x, j))) => Ok(Some((spec_again(x), j))),
        Ok(None) => Ok(None),
        Err(why) => Err(why),
    }
}
