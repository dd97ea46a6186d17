// Numbers, names and bytes written into a lent store: each function writes from a place on, answers the place after, and changes
// no other byte.
#![tactic(auto)]

ghost use Rattle.store.specs.Sevens.{encode, named};
ghost use Rattle.store.specs.Splice.{Put, Room};

// Writes all of `src` from place `at` on.
pub fn put_bytes(store: &mut [u8], at: usize, src: &[u8]) -> usize
    requires { Room store.old at src.now }
    ensures { Put store.old store.new at result src.now }
{
    // Byte by byte: `copy_from_slice` is a call of memmove, which callers in C would then have to have.
    for j in 0..src.len() {
        store[at + j] = src[j];
    }
    at + src.len()
}

// Writes a number in groups of seven bits.
pub fn put_number(store: &mut [u8], at: usize, n: u64) -> usize
    requires { Room store.old at (encode n) }
    ensures { Put store.old store.new at result (encode n) }
{
    let mut i = at;
    let mut left = n;
    // How many groups there are is told by what is left of the number.
    while 128 <= left {
        store[i] = (left % 128 + 128) as u8;
        left = left / 128;
        i += 1;
    }
    store[i] = left as u8;
    i + 1
}

// Writes a name: its byte count and its bytes.
pub fn put_name(store: &mut [u8], at: usize, name: &[u8]) -> usize
    requires { Room store.old at (named name.now) }
    ensures { Put store.old store.new at result (named name.now) }
{
    let i = put_number(store, at, name.len() as u64);
    put_bytes(store, i, name)
}
