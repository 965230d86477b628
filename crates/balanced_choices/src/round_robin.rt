//! Which candidate has its turn, as the numbers that choose rise.
ghost use Rattle.std.specs.Prelude.{◌≡◌, ◌<◌, ◌+◌, ◌/◌, ◌%◌, ◌^◌, max};
ghost use Rattle.balanced_choices.specs.RoundRobin.{IsTurn, IsOfSame};

/// The turn of a number among candidates: the number's digit plus an offset, modulo the number of candidates. Moving to
/// one of the 2 * `weight` numbers from `start` on takes no division.
#[derive(Clone, Copy)]
pub struct RoundRobin {
    /// The weight of the digit. The digit of a number is the number divided by the weight, rounded down.
    weight: usize,
    /// The number that is added to the digit.
    offset: usize,
    /// The number of candidates.
    count: usize,
    /// The least number that has the same digit as the current number.
    start: usize,
    /// The turn of the numbers that have this digit: the index of the candidate that they choose.
    choice: usize,
}

impl RoundRobin {
    /// Returns the turn of `number` among `count` candidates, with the digit weight `weight` and the offset `offset`.
    /// `weight` and `count` must not be 0. `offset` and `number` must be less than 2^63.
    pub fn at(weight: usize, offset: usize, count: usize, number: usize) -> Self
        requires weight { 0 < weight }
        requires offset { offset < 2 ^ 63 }
        requires count { 0 < count }
        requires number { number < 2 ^ 63 }
        ensures turn { IsTurn result }
        ensures weight { result.weight ≡ weight }
        ensures offset { result.offset ≡ offset }
        ensures count { result.count ≡ count }
        ensures choice { result.choice ≡ (number / weight + offset) % count }
    {
        let digit = number / weight;
        RoundRobin {
            weight,
            offset,
            count,
            start: digit * weight,
            choice: (digit + offset) % count,
        }
    }

    /// Returns the turn of the number 0 among `count` candidates, with the digit weight `weight` and the offset
    /// `position` modulo `count`. If `weight` is 0, the digit weight is 1. `count` must be from 1 to 2^63 - 1.
    pub fn first(weight: usize, position: usize, count: usize) -> Self
        requires { (0 < count) × (count < 2 ^ 63) }
        ensures turn { IsTurn result }
        ensures count { result.count ≡ count }
        ensures offset { result.offset ≡ position % count }
        ensures weight { result.weight ≡ max weight 1 }
    {
        RoundRobin::at(weight.max(1), position % count, count, 0)
    }

    /// Moves to the turn of `number`. `number` must be less than 2^63.
    pub fn go_to(&mut self, number: usize)
        requires turn { IsTurn self.old }
        requires number { number < 2 ^ 63 }
        ensures turn { IsTurn self.new }
        ensures same { IsOfSame self.old self.new }
        ensures choice { self.new.choice ≡ (number / self.old.weight + self.old.offset) % self.old.count }
    {
        if number < self.start {
            *self = RoundRobin::at(self.weight, self.offset, self.count, number);
            return;
        }
        let past = number - self.start;
        if past < self.weight {
            return;
        }
        if past - self.weight < self.weight {
            self.start += self.weight;
            self.choice = next_round(self.choice, self.count);
        } else {
            *self = RoundRobin::at(self.weight, self.offset, self.count, number);
        }
    }

    /// Returns the index of the candidate that has the turn.
    pub fn choice(&self) -> usize
        ensures { result ≡ self.now.choice }
    {
        self.choice
    }
}

/// Returns the index of the candidate after `choice` among `count` candidates, or 0 if `choice` is the last one.
fn next_round(choice: usize, count: usize) -> usize
    requires { choice < count }
    ensures { result ≡ (choice + 1) % count }
{
    if choice + 1 == count { 0 } else { choice + 1 }
}
