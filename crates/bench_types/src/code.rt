//! The codes by which texts name what is wrong.
ghost use Rattle.std.specs.Prelude.{◌≡◌};
ghost use Rattle.bench_types.specs.Codes.{refusal_code, fault_code, edit_fault_code};

use crate::{EditFault, Fault, Refusal};

impl Refusal {
    /// E1 to E10.
    pub fn code(self) -> &'static str
        ensures { result.now ≡ refusal_code self }
    {
        match self {
            Refusal::Held => "E1",
            Refusal::Displaced => "E2",
            Refusal::SwitchDue => "E3",
            Refusal::InCall => "E4",
            Refusal::NotInCall => "E5",
            Refusal::HoldBlock => "E6",
            Refusal::NoHold => "E7",
            Refusal::HoldDeep => "E8",
            Refusal::NotHolder => "E9",
            Refusal::NotDue => "E10",
        }
    }
}

impl Fault {
    /// F1 to F5.
    pub fn code(self) -> &'static str
        ensures { result.now ≡ fault_code self }
    {
        match self {
            Fault::BadHeader => "F1",
            Fault::BadCore => "F2",
            Fault::BadTask => "F3",
            Fault::BadMutex => "F4",
            Fault::BadArgument => "F5",
        }
    }
}

impl EditFault {
    /// F1 to F5, J1 or J2.
    pub fn code(self) -> &'static str
        ensures { result.now ≡ edit_fault_code self }
    {
        match self {
            EditFault::Bench(fault) => fault.code(),
            EditFault::NoPlace => "J1",
            EditFault::TooLong => "J2",
        }
    }
}
