// What a command may break at a point of a walk (document 01: 7 of a foreign 51, then 9, 10, 11, 12), with document 01's numbers.
#![tactic(auto)]

ghost use Rattle.std.specs.Prelude.{◌≡◌, Err};
ghost use Rattle.walk_fault.specs.Fault.{is_foreign, is_bad, fault_number};

// What a command breaks at a point, the first in this order.
#[derive(Clone, Copy)]
pub enum Fault {
    Foreign,
    Forbidden,
    TooDeep,
    NoCall,
    PastEnd,
}

// Document 01's number of what judging a point comes to; 0 where nothing is broken.
pub fn number(judged: Result<(), Fault>) -> u32
    ensures { result ≡ fault_number judged }
{
    judged.err().map_or(0, |fault| fault.number())
}

// Whether a 51 ends another task at the point.
pub fn is_foreign(judged: Result<(), Fault>) -> bool
    ensures { result ≡ is_foreign judged }
{
    judged.is_err_and(|fault| fault.is_foreign())
}

// Whether the point is bad by 9 to 12.
pub fn is_bad(judged: Result<(), Fault>) -> bool
    ensures { result ≡ is_bad judged }
{
    judged.is_err_and(|fault| fault.is_bad())
}

impl Fault {
    // Document 01's number.
    pub fn number(self) -> u32
        ensures { result ≡ fault_number (Err self) }
    {
        match self {
            Fault::Foreign => 7,
            Fault::Forbidden => 9,
            Fault::TooDeep => 10,
            Fault::NoCall => 11,
            Fault::PastEnd => 12,
        }
    }

    // Whether a 51 ends another task.
    pub fn is_foreign(self) -> bool
        ensures { result ≡ is_foreign (Err self) }
    {
        matches!(self, Fault::Foreign)
    }

    // Whether the point is bad by 9 to 12.
    pub fn is_bad(self) -> bool
        ensures { result ≡ is_bad (Err self) }
    {
        !matches!(self, Fault::Foreign)
    }
}
