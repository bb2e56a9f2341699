// The table of open transactions as octets: what they hold, and how a step on them is refused, and by which number. The steps are in table_octets and table_number.
#![tactic(auto)]

ghost use Rattle.std.specs.Prelude.{◌≡◌};
ghost use Rattle.table_layout.specs.declared.StepFault.TheVariants.{Refused};
ghost use Rattle.table_layout.specs.Octets.{fault_number};

use transaction_states::TableRefusal;

// Why a step on lent octets is refused: for want of room before all else.
#[derive(Clone, Copy)]
pub enum StepFault {
    NoRoom,
    Refused(TableRefusal),
}

impl From<TableRefusal> for StepFault {
    ghost from_gives = { λ refusal fault. fault ≡ Refused refusal };

    fn from(refusal: TableRefusal) -> StepFault {
        StepFault::Refused(refusal)
    }
}

impl From<StepFault> for u64 {
    ghost from_gives = { λ fault number. number ≡ fault_number fault };

    fn from(fault: StepFault) -> u64 {
        match fault {
            StepFault::NoRoom => 25,
            StepFault::Refused(refusal) => refusal.into(),
        }
    }
}
