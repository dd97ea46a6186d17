// Refusals: why a call is turned down, and the number that it then answers.
ghost use Rattle.std.specs.Prelude.{◌≡◌, ◌<◌, ℕ, IfErr, length};
ghost use Rattle.limits.specs.Refusals.{refusal_no, refusals, refusal_of, place_of, number_of};

// Each refusal and its number.
#[derive(Clone, Copy, PartialEq, Eq)]
pub enum Refusal {
    LineTooLong = 1,
    NotUtf8 = 2,
    ParseFailed = 3,
    NumberTooLarge = 4,
    InvalidArgument = 5,
    InvalidRange = 6,
    SumTooLarge = 7,
    BadAlias = 8,
    BadCommand = 9,
    UnknownWord = 10,
    Unimplemented = 11,
    StoreTooShort = 12,
    AliasesFull = 13,
    NotASession = 99,
}

// How many refusals there are, and the greatest number of one.
pub const REFUSALS: usize = 14;

pub const LAST_REFUSAL: u64 = Refusal::NotASession as u64;

impl Refusal {
    // The place of a refusal among all, in the order of their numbers.
    // By cases: the numbers have a gap before 99, so that the place is no cast.
    pub fn place(self) -> usize
        ensures value { result ≡ place_of self }
        ensures bound { result < length refusals }
    {
        match self {
            Refusal::LineTooLong => 0,
            Refusal::NotUtf8 => 1,
            Refusal::ParseFailed => 2,
            Refusal::NumberTooLarge => 3,
            Refusal::InvalidArgument => 4,
            Refusal::InvalidRange => 5,
            Refusal::SumTooLarge => 6,
            Refusal::BadAlias => 7,
            Refusal::BadCommand => 8,
            Refusal::UnknownWord => 9,
            Refusal::Unimplemented => 10,
            Refusal::StoreTooShort => 11,
            Refusal::AliasesFull => 12,
            Refusal::NotASession => 13,
        }
    }
}

impl From<Refusal> for u64 {
    ghost from_gives = { λ x n. n ≡ refusal_no x };

    fn from(x: Refusal) -> u64 {
        x as u64
    }
}

// The number that a call over C answers: a refusal's, or 0 where it is not refused.
pub fn number_of(r: Result<(), Refusal>) -> u64
    ensures number { result ≡ number_of r }
    ensures refused { IfErr r (λ x. 0 < result) }
{
    match r {
        Ok(()) => 0,
        Err(x) => u64::from(x),
    }
}

// A number that is no refusal's: 0, which a call that is not refused answers, or one that no call answers.
#[derive(Clone, Copy, PartialEq, Eq)]
pub struct NoRefusal {
    pub number: u64,
}

impl TryFrom<u64> for Refusal {
    type Error = NoRefusal;

    ghost try_from_gives = { λ n r. r ≡ refusal_of n };

    #[tactic(auto, unfolding(crate::specs::Refusals::refusal_of))]
    fn try_from(n: u64) -> Result<Refusal, NoRefusal> {
        match n {
            0 => Err(NoRefusal { number: 0 }),
            1 => Ok(Refusal::LineTooLong),
            2 => Ok(Refusal::NotUtf8),
            3 => Ok(Refusal::ParseFailed),
            4 => Ok(Refusal::NumberTooLarge),
            5 => Ok(Refusal::InvalidArgument),
            6 => Ok(Refusal::InvalidRange),
            7 => Ok(Refusal::SumTooLarge),
            8 => Ok(Refusal::BadAlias),
            9 => Ok(Refusal::BadCommand),
            10 => Ok(Refusal::UnknownWord),
            11 => Ok(Refusal::Unimplemented),
            12 => Ok(Refusal::StoreTooShort),
            13 => Ok(Refusal::AliasesFull),
            99 => Ok(Refusal::NotASession),
            _ => Err(NoRefusal { number: n }),
        }
    }
}
