ghost use Rattle.std.specs.Prelude.{◌≡◌, ◌<◌};
ghost use Rattle.std.specs.Option.{SomeIff};
ghost use Rattle.page_ids.specs.Keys.{IsKey, AreKeys};

use std::marker::Model;

/// A digit of a route, 0 to 9. Contracts see the number.
#[derive(Debug, Clone, Copy, PartialEq, Eq, PartialOrd, Ord, Hash)]
pub struct Digit {
    number: u8,
}

impl Model for Digit {
    ghost use Rattle.std.specs.Prelude.{ℕ, ◌<◌};

    ghost Value = { ℕ };

    ghost view = { λ d. d.number };

    ghost invariant = { λ d. d.number < 10 };

    ghost inverse = { λ n. record { number = n } };
}

impl Digit {
    /// The digit of a number; `None` above 9.
    pub fn new(number: u8) -> Option<Digit>
        ensures { SomeIff result (number < 10) number }
    {
        if number < 10 {
            Some(Digit { number })
        } else {
            None
        }
    }

    /// The number.
    pub fn get(self) -> u8
        ensures value { result ≡ self }
        ensures in_range { self < 10 }
    {
        self.number
    }
}

/// A key of the caller, as the terminal sends it.
#[derive(Debug, Clone, Copy, PartialEq, Eq)]
pub enum Key {
    /// `0` to `9`: the page to which the present frame's route leads.
    Route(Digit),
    /// `#`: the next frame of the present page.
    Next,
    /// `*#`: back to the frame that was left last.
    Prev,
    /// `*00`: the present frame again, without a charge.
    Reprint,
    /// `*09`: the present frame anew, charged again.
    Update,
}

/// Keys in the order in which they are pressed. Contracts see the list.
#[derive(Debug, Drop)]
pub struct KeyList {
    keys: Vec<Key>,
}

impl Model for KeyList {
    ghost use Rattle.std.specs.Prelude.{List};
    ghost use Rattle.page_ids.specs.declared.key.Key.{Key};
    ghost use Rattle.page_ids.specs.Keys.{AreKeys};

    ghost Value = { List Key };

    ghost view = { λ l. l.keys.items };

    ghost invariant = { λ l. AreKeys l.keys.items };
}

// What a key's type says of its digit.
fn has_digit(key: &Key)
    ensures { IsKey key.now }
{
    if let Key::Route(digit) = key {
        digit.get();
    }
}

// The same of each key: nothing is computed, so that the compiler leaves the loop out.
fn have_digits(keys: &[Key])
    ensures { AreKeys keys.now }
{
    for key in keys {
        has_digit(key);
    }
}

impl KeyList {
    /// These keys.
    pub fn of(keys: Vec<Key>) -> KeyList
        ensures { result ≡ keys.items }
    {
        have_digits(keys.as_slice());
        KeyList { keys }
    }

    /// The keys, in order. Each route's digit is 0 to 9.
    pub fn as_slice(&self) -> &[Key]
        ensures value { result.now ≡ self.now }
        ensures in_range { AreKeys self.now }
    {
        self.keys.as_slice()
    }
}
