// CRC-32. A report is summed part by part: start, then the bytes of each part, then the end.
#![tactic(auto)]

mod table;

ghost use Rattle.std.specs.Prelude.{◌≡◌};
ghost use Rattle.std.specs.Int.Bits.{bit_xor};
ghost use Rattle.crc.specs.Crc.{crc_from};

use scan::number::low_eight;
use table::{byte, eight};

// What no byte has made of it.
pub fn start() -> u64
    ensures { result ≡ 0xFFFFFFFF }
{
    0xFFFFFFFF
}

// More bytes: by sixteen at a time, the first eight with eight more behind them, and then those that are left.
#[tactic(auto, using(crate::specs::CrcLaws::from_on, crate::specs::CrcLaws::from_end, crate::specs::TableLaws::from_sixteen))]
pub fn more(c: u64, s: &[u8]) -> u64
    ensures { result ≡ crc_from c s.now }
{
    let mut d = c;
    let whole = s.len() / 16;
    for k in 0..whole {
        let i = k * 16;
        d = (eight(8, low_eight(s, i) ^ d) ^ eight(0, low_eight(s, i + 8))) as u64;
    }
    for i in whole * 16..s.len() {
        d = byte(d, s[i]);
    }
    d
}

// The number that stands for all of them.
pub fn end(c: u64) -> u64
    ensures { result ≡ bit_xor 0xFFFFFFFF c }
{
    0xFFFFFFFF ^ c
}
