// ASCII: the bytes that are characters by themselves.
ghost use Rattle.utf8.specs.Utf8.{is_ascii};

use scan::classes::Class;

pub struct Ascii;

impl Class for Ascii {
    ghost rule = { is_ascii };

    #[tactic(auto, unfolding(crate::specs::Utf8::is_ascii))]
    fn has(b: u8) -> bool {
        b < 0x80
    }
}
