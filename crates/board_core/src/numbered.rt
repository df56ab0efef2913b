//! Values of at most two that are numbered from 1.
ghost use Rattle.std.specs.Prelude.{◌≡◌, ◌≤◌};
ghost use Rattle.board_core.specs.inner.Numbers.{at_number, with_number, count_in};

/// A value or none for each of two that are numbered 1 and 2.
#[derive(Clone, Copy)]
pub(crate) struct Numbered<T> {
    pub(crate) first: Option<T>,
    pub(crate) second: Option<T>,
}

impl<T: Copy> Numbered<T> {
    /// No value.
    pub(crate) fn none() -> Numbered<T>
        ensures first { result.first ≡ None }
        ensures second { result.second ≡ None }
    {
        Numbered {
            first: None,
            second: None,
        }
    }

    /// The value of a number.
    pub(crate) fn of(&self, number: u8) -> Option<T>
        ensures { result ≡ at_number self.now number }
    {
        match number {
            1 => self.first,
            2 => self.second,
            _ => None,
        }
    }

    /// Another value for the number 1 or 2.
    pub(crate) fn set(&mut self, number: u8, value: Option<T>)
        ensures { self.new ≡ with_number number value self.old }
    {
        if number == 1 {
            self.first = value;
        } else {
            self.second = value;
        }
    }

    /// How many have a value.
    pub(crate) fn count(&self) -> usize
        ensures count { result ≡ count_in self.now }
        ensures at_most_two { result ≤ 2 }
    {
        usize::from(self.first.is_some()) + usize::from(self.second.is_some())
    }
}
