// The number of a fault, taken apart.
#![tactic(auto)]

ghost use Rattle.std.specs.Prelude.{◌≡◌};
ghost use Rattle.read_fault.specs.Faults.{kind_from};

use element::FaultKind;
use read_place::{FaultAt, OPEN};

// The kind of a fault, by the blocks of read_place's constants in their order (CUT_OFF is block 2); its place is the number's rest by OPEN. No From: both types are of other crates.
#[tactic(auto, using(base::proofs::Tests::tests), unfolding(crate::specs::Faults::kind_at))]
pub fn kind_from(fault: FaultAt) -> FaultKind
    ensures { result ≡ kind_from fault.0 }
{
    match fault.0 / OPEN {
        2 => FaultKind::CutOff,
        3 => FaultKind::BadTag,
        4 => FaultKind::BadLength,
        5 => FaultKind::PassesEnd,
        6 => FaultKind::TooDeep,
        7 => FaultKind::CodeZero,
        8 => FaultKind::Overlong,
        9 => FaultKind::NoMessage,
        10 => FaultKind::OctetsAfter,
        11 => FaultKind::Missing,
        12 => FaultKind::Another,
        13 => FaultKind::TooMany,
        14 => FaultKind::BadContents,
        15 => FaultKind::Seventeenth,
        _ => FaultKind::UnknownComponent,
    }
}
