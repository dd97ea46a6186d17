// Tests of one byte.
ghost use Rattle.std.specs.Prelude.{◌≡◌};
ghost use Rattle.scan.specs.Bytes.{within as within_of};

// Whether a byte is from `lo` to `hi`.
pub fn within(lo: u8, hi: u8, b: u8) -> bool
    ensures { result ≡ within_of lo hi b }
{
    lo <= b && b <= hi
}
