ghost use Rattle.std.specs.Prelude.{◌≡◌, ◌≤◌};
ghost use Rattle.std.specs.Option.{SomeIff};
ghost use Rattle.frame_records.specs.Bases.{IsPrice, IsGroup};

use crate::limits::MOST_PENCE;
use std::marker::Model;

/// A price in whole pence, 0 to 9,999. Contracts see the number.
#[derive(Debug, Clone, Copy, PartialEq, Eq, PartialOrd, Ord)]
pub struct Pence {
    number: u16,
}

impl Model for Pence {
    ghost use Rattle.std.specs.Prelude.{ℕ, ◌≤◌};
    ghost use Rattle.frame_records.specs.declared.limits.TheConstants.{MOST_PENCE};

    ghost Value = { ℕ };

    ghost view = { λ p. p.number };

    ghost invariant = { λ p. p.number ≤ MOST_PENCE };

    ghost inverse = { λ n. record { number = n } };
}

impl Pence {
    /// Free of charge.
    pub const FREE: Pence = Pence { number: 0 };

    /// The price of a number of pence; `None` above 9,999.
    pub fn new(number: u16) -> Option<Pence>
        ensures { SomeIff result (IsPrice number) number }
    {
        if number <= MOST_PENCE {
            Some(Pence { number })
        } else {
            None
        }
    }

    /// The price of a number that is in range.
    pub fn of(number: u16) -> Pence
        requires { IsPrice number }
        ensures { result ≡ number }
    {
        Pence { number }
    }

    /// The number of pence.
    pub fn get(self) -> u16
        ensures value { result ≡ self }
        ensures in_range { IsPrice self }
    {
        self.number
    }
}

/// The number of a closed user group, 1 to 65,535. Contracts see the number.
#[derive(Debug, Clone, Copy, PartialEq, Eq, PartialOrd, Ord)]
pub struct GroupNo {
    number: u16,
}

impl Model for GroupNo {
    ghost use Rattle.std.specs.Prelude.{ℕ, ◌≤◌};

    ghost Value = { ℕ };

    ghost view = { λ g. g.number };

    ghost use Rattle.frame_records.specs.declared.limits.TheConstants.{MOST_GROUP};

    ghost invariant = { λ g. (1 ≤ g.number) × (g.number ≤ MOST_GROUP) };

    ghost inverse = { λ n. record { number = n } };
}

impl GroupNo {
    /// The group of a number; `None` at 0.
    pub fn new(number: u16) -> Option<GroupNo>
        ensures { SomeIff result (IsGroup number) number }
    {
        if number >= 1 {
            Some(GroupNo { number })
        } else {
            None
        }
    }

    /// The group of a number that is in range.
    pub fn of(number: u16) -> GroupNo
        requires { IsGroup number }
        ensures { result ≡ number }
    {
        GroupNo { number }
    }

    /// The number.
    pub fn get(self) -> u16
        ensures value { result ≡ self }
        ensures in_range { IsGroup self }
    {
        self.number
    }
}
