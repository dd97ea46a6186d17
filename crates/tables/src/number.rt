// The last bytes of a word as one number, so that two words of one length are compared at once.
ghost use Rattle.std.specs.Prelude.{◌≡◌, ◌-◌, ◌*◌, ◌≤◌, length};
ghost use Rattle.fields.specs.Field.{Bytes};
ghost use Rattle.tables.specs.Tail.{hidden_of, tail_of};

use scan::number::low_eight;

// Where a word ends, at least eight bytes from the front.
#[derive(Clone, Copy)]
pub struct End<'a> {
    pub b: &'a [u8],
    pub e: usize,
    pub ghost typed: { Bytes b.now },
    pub ghost eight: { 8 ≤ e },
    pub ghost inside: { e ≤ length b.now },
}

impl End<'_> {
    // The last bytes, at most eight, of the word that ends there, above h bits that are 0.
    pub fn tail(&self, h: u64) -> u64
        requires { h ≤ 56 }
        ensures { result ≡ tail_of self.now.b.now self.now.e h }
    {
        (low_eight(self.b, self.e - 8) >> h) << h
    }
}

// So many bits of eight bytes are not those of a word of m bytes that ends with them.
pub fn hidden(m: usize) -> u64
    ensures { result ≡ hidden_of m }
{
    if m < 8 { 64 - 8 * m as u64 } else { 0 }
}
