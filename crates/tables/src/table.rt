// A table that is read.
ghost use Rattle.std.specs.Prelude.{◌≡◌, ◌^◌, ◌<◌, ◌≤◌, length, IfSome, IfNone};
ghost use Rattle.tables.specs.Table.{table_end};

use limits::WORD;

// The table at `at` with room for `most` words: all its bytes are there.
#[derive(Clone, Copy)]
pub struct Table<'a> {
    pub b: &'a [u8],
    pub at: usize,
    pub most: usize,
    pub ghost whole: { table_end at most ≤ length b.now },
}

impl<'a> Table<'a> {
    // None where some of its bytes are not there.
    pub fn new(b: &'a [u8], at: usize, most: usize) -> Option<Table<'a>>
        requires { table_end at most < 2 ^ 64 }
        ensures there { IfSome result (λ t. (t.b.now ≡ b.now) × (t.at ≡ at) × (t.most ≡ most)) }
        ensures short { IfNone result (length b.now < table_end at most) }
    {
        if b.len() < at + 1 + WORD + most + WORD * most {
            return None;
        }
        Some(Table { b, at, most })
    }
}
