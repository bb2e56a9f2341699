// Writing: what it answers, and by which number. Definitions and theorems stand here, the writer in `writer`.
#![tactic(auto)]

ghost use Rattle.std.specs.Prelude.{◌≡◌};
ghost use Rattle.writing.specs.Writing.{write_number};
ghost use Rattle.writing.specs.inner.Ranks.{fault_at};

use write_check_row::Wrong;

// Why a record is not written; document 01 numbers these 24, 23, 21, 22 and 25.
#[derive(Clone, Copy)]
pub enum WriteFault {
    WrongParts,
    OutOfRange,
    OutOfMaterial,
    Unshaped,
    NoRoom,
}

#[tactic(auto, unfolding(crate::specs::inner::Ranks::fault_at))]
impl From<Wrong> for WriteFault {
    ghost from_gives = { λ wrong fault. fault ≡ fault_at wrong };

    fn from(wrong: Wrong) -> WriteFault {
        match wrong {
            Wrong::WRONG_PARTS => WriteFault::WrongParts,
            Wrong::OUT_OF_RANGE => WriteFault::OutOfRange,
            Wrong::OUT_OF_MATERIAL => WriteFault::OutOfMaterial,
            _ => WriteFault::Unshaped,
        }
    }
}

#[tactic(auto, unfolding(crate::specs::Writing::write_number))]
impl From<WriteFault> for u64 {
    ghost from_gives = { λ fault number. number ≡ write_number fault };

    fn from(fault: WriteFault) -> u64 {
        match fault {
            WriteFault::WrongParts => 24,
            WriteFault::OutOfRange => 23,
            WriteFault::OutOfMaterial => 21,
            WriteFault::Unshaped => 22,
            WriteFault::NoRoom => 25,
        }
    }
}
