//! The calls of an object in memory that are to fail.

ghost use Rattle.std.specs.Prelude.{◌≡◌, ◌+◌, ◌-◌, ◌↔◌, ℕ, [], true, false};

/// The numbers, from 1, of the calls that are to fail, and how many were made.
#[derive(Drop)]
pub struct FailingCalls {
    numbers: Vec<u64>,
    made: u64,
}

impl FailingCalls {
    ghost use Rattle.outer_io.specs.Failing.{IsListed};

    /// No call was made yet.
    pub fn new(numbers: Vec<u64>) -> FailingCalls
        ensures numbers { result.numbers.items ≡ numbers.items }
        ensures made { result.made ≡ 0 }
    {
        FailingCalls { numbers, made: 0 }
    }

    /// Counts one more call, and says whether it is to fail.
    pub fn next_fails(&mut self) -> bool
        ensures listed { IsListed self.old 1 ↔ (result ≡ true) }
        ensures later { (k : ℕ) → IsListed self.new k ↔ IsListed self.old (k + 1) }
        ensures none { self.old.numbers.items ≡ [] → result ≡ false }
        ensures same { self.new.numbers ≡ self.old.numbers }
    {
        self.made = self.made.saturating_add(1);
        self.numbers.contains(&self.made)
    }
}
