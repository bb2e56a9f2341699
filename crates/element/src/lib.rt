// The element layer: what is read at the front of a part, what a walk answers, and the numbers of faults.
#![tactic(auto)]

ghost use Rattle.std.specs.Prelude.{◌≡◌};
ghost use Rattle.element.specs.Fault.{number_of};

// A fault by its kind.
#[derive(Clone, Copy)]
pub enum FaultKind {
    CutOff,
    BadTag,
    BadLength,
    PassesEnd,
    TooDeep,
    CodeZero,
    Overlong,
    NoMessage,
    OctetsAfter,
    Missing,
    Another,
    TooMany,
    BadContents,
    Seventeenth,
    UnknownComponent,
}

// How a series goes on: it ends here, its end pair is missing, or another element stands here.
#[derive(Clone, Copy)]
pub enum EndRead {
    Ended,
    Unfinished,
    More,
}

// The front of a part, read as a tag: its first octet, and how many it takes.
// No `Result`: a tag is two numbers, for which `Ok` would need a struct of its own, and the definitions and laws of reading take both apart in one case.
#[derive(Clone, Copy)]
pub enum TagRead {
    Fault(FaultKind),
    Tag { first: u8, size: usize },
}

// The front of a part, read as a length: how many octets it takes, and how many contents octets it names.
#[derive(Clone, Copy)]
pub enum LengthRead {
    Fault(FaultKind),
    Definite { size: usize, count: usize },
    Indefinite,
}

// A walk to the bottom: the fault that was found first and its place, or the octets that were walked.
// No `Result`: a fault is a kind and a place, for which `Err` would need a struct of its own, and the laws take both apart in one case.
#[derive(Clone, Copy)]
pub enum Walk {
    Fault { kind: FaultKind, place: usize },
    Whole { size: usize },
}

// The number of a fault, as documents 01 and 02 have it.
impl From<FaultKind> for u8 {
    ghost from_gives = { λ kind n. n ≡ number_of kind };

    #[tactic(auto, unfolding(crate::specs::Fault::number_of))]
    fn from(kind: FaultKind) -> u8 {
        match kind {
            FaultKind::CutOff => 1,
            FaultKind::BadTag => 2,
            FaultKind::BadLength => 3,
            FaultKind::PassesEnd => 4,
            FaultKind::TooDeep => 5,
            FaultKind::CodeZero => 6,
            FaultKind::Overlong => 7,
            FaultKind::NoMessage => 8,
            FaultKind::OctetsAfter => 9,
            FaultKind::Missing => 14,
            FaultKind::Another => 15,
            FaultKind::TooMany => 16,
            FaultKind::BadContents => 11,
            FaultKind::Seventeenth => 12,
            FaultKind::UnknownComponent => 13,
        }
    }
}

// The same, for callers whose contracts say the number.
pub fn number_of(kind: FaultKind) -> u8
    ensures { result ≡ number_of kind }
{
    kind.into()
}
