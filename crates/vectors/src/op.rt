// What a vector asks for.
ghost use Rattle.std.specs.Prelude.{◌≡◌};
ghost use Rattle.vectors.specs.Op.{op_of};

// A list of which items is read.
#[derive(Clone, Copy, PartialEq, Eq)]
pub enum List {
    Filenames,
    Strings,
    Options,
}

// A session is made anew; an alias or a line goes to it, a line also with a store of a size, or with a byte of the session damaged. Or a
// text is read alone: as a range, a list or a whole reading.
#[derive(Clone, Copy, PartialEq, Eq)]
pub enum Op {
    Fresh,
    Alias,
    Line,
    Range,
    Items(List),
    Reading,
    Sized,
    Damaged,
}

// The oracle's numbers. Those above 9 do not occur, and are read as 9.
impl From<u8> for Op {
    ghost from_gives = { λ n o. o ≡ op_of n };

    #[tactic(auto, unfolding(crate::specs::Op::op_of))]
    fn from(number: u8) -> Op {
        match number {
            0 => Op::Fresh,
            1 => Op::Alias,
            2 => Op::Line,
            3 => Op::Range,
            4 => Op::Items(List::Filenames),
            5 => Op::Items(List::Strings),
            6 => Op::Items(List::Options),
            7 => Op::Reading,
            8 => Op::Sized,
            _ => Op::Damaged,
        }
    }
}
