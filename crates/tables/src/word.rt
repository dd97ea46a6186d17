// A word as long as those of a table.
ghost use Rattle.std.specs.Prelude.{◌≡◌, ◌⊎◌, ◌<◌, ◌≤◌, length, IfSome, IfNone};
ghost use Rattle.fields.specs.Field.{Bytes};
ghost use Rattle.limits.specs.Limits.{word_limit};

use limits::WORD;

// A word of 1 to 24 bytes.
#[derive(Clone, Copy)]
pub struct ShortWord<'a> {
    pub bytes: &'a [u8],
    pub ghost typed: { Bytes bytes.now },
    pub ghost some: { 1 ≤ length bytes.now },
    pub ghost short: { length bytes.now ≤ word_limit },
}

impl<'a> ShortWord<'a> {
    // None where there are no bytes, or more.
    pub fn new(w: &'a [u8]) -> Option<ShortWord<'a>>
        ensures same { IfSome result (λ x. x.bytes.now ≡ w.now) }
        ensures other { IfNone result ((length w.now ≡ 0) ⊎ (word_limit < length w.now)) }
    {
        if w.len() == 0 {
            return None;
        }
        if WORD < w.len() {
            return None;
        }
        Some(ShortWord { bytes: w })
    }
}
