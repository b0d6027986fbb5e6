// What a refused call answers.
ghost use Rattle.std.specs.Prelude.{◌≡◌};
ghost use Rattle.spec.specs.Code.{as_refused, fault_number, refusal, RefusedAt};

// Why a call is refused, in the order of the numbers that files, listings and other languages have for it.
#[derive(Clone, Copy, PartialEq, Eq)]
pub enum Fault {
    // 1: the length of the file is no multiple of 32, or above 65,536.
    WrongLength,
    // 2: an unknown kind, or a field of an unknown form.
    UnknownKind,
    // 3: something that the kind does not use is not 0.
    StrayByte,
    // 4: a record out of order, or no projector.
    OutOfOrder,
    // 5: the 33rd field, the 257th constraint.
    TooMany,
    // 6: a named field is not described before.
    NoSuchField,
    // 7: p, q or r off the scale, a negative mask or step.
    OffScale,
    // 8: the domain of a field is empty.
    EmptyDomain,
    // 9: an axis or the offset of a decompose.
    BadPacking,
    // 10: the total is above the limit.
    TooLarge,
    // 11: the scratch has no room for the lists.
    ScratchShort,
    // 12: the kept maps lead from some field back to it.
    CyclicMaps,
    // 13: a key of a kept map has no child value in its list.
    ChildlessKey,
    // 14: the output has no room.
    OutputShort,
    // 15: the given start is no tuple that is emitted.
    NotEmitted,
    // 16: the projector of a file to be joined is not a sum.
    NotASum,
}

impl From<Fault> for u8 {
    ghost from_gives = { λ fault number. number ≡ fault_number fault };

    fn from(fault: Fault) -> u8 {
        match fault {
            Fault::WrongLength => 1,
            Fault::UnknownKind => 2,
            Fault::StrayByte => 3,
            Fault::OutOfOrder => 4,
            Fault::TooMany => 5,
            Fault::NoSuchField => 6,
            Fault::OffScale => 7,
            Fault::EmptyDomain => 8,
            Fault::BadPacking => 9,
            Fault::TooLarge => 10,
            Fault::ScratchShort => 11,
            Fault::CyclicMaps => 12,
            Fault::ChildlessKey => 13,
            Fault::OutputShort => 14,
            Fault::NotEmitted => 15,
            Fault::NotASum => 16,
        }
    }
}

// The fault, and the record from 1 on, or 0 for the whole.
#[derive(Clone, Copy, PartialEq, Eq)]
pub struct Refusal {
    pub fault: Fault,
    pub record: usize,
}

impl Fault {
    // The refusal for this fault of a record, which is counted from 1; 0 for the whole.
    pub fn at(self, number: usize) -> Refusal
        ensures { as_refused result ≡ refusal self number }
    {
        Refusal {
            fault: self,
            record: number,
        }
    }
}

// What was judged; a fault of it is the refusal of a record, which is counted from 1; 0 for the whole.
pub fn refuse_at<T>(judged: Result<T, Fault>, number: usize) -> Result<T, Refusal>
    ensures { RefusedAt judged number result }
{
    judged.map_err(|fault| fault.at(number))
}
