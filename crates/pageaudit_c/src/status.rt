/// What a call answers. Its number is the program's exit status for the same texts.
#[derive(Debug, Clone, Copy, PartialEq, Eq)]
pub enum CallStatus {
    /// 0: the certificate or the change is cleared, the audit found no fault, or lint no error.
    Clear,
    /// 1: it is refused, or there are faults or errors.
    Faulty,
    /// 2: the ceiling or the keyings are out of range, or the groups are no list.
    BadPolicy,
    /// 3: a text is at fault.
    BadText,
    /// 4: memory was refused.
    OutOfMemory,
}

impl CallStatus {
    ghost use Rattle.std.specs.Prelude.{◌≡◌};
    ghost use Rattle.pageaudit_c.specs.Status.{number_of, of_judged};

    // The status of a judgment.
    pub fn of(judged: audit_report::Status) -> CallStatus
        ensures { result ≡ of_judged judged }
    {
        match judged {
            audit_report::Status::Clear => CallStatus::Clear,
            audit_report::Status::Faulty => CallStatus::Faulty,
        }
    }

    pub fn number(self) -> u32
        ensures value { result ≡ number_of self }
        ensures clear { result ≡ 0 → self ≡ CallStatus.Clear }
    {
        match self {
            CallStatus::Clear => 0,
            CallStatus::Faulty => 1,
            CallStatus::BadPolicy => 2,
            CallStatus::BadText => 3,
            CallStatus::OutOfMemory => 4,
        }
    }
}
