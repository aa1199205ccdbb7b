//! Draws of a seed.

ghost use Rattle.std.specs.Prelude.{◌≡◌, ◌+◌, ◌^◌, ◌<◌};
ghost use Rattle.made_input.specs.Generator.{next_state, state_behind, drawn};

const MULTIPLIER: u128 = 6_364_136_223_846_793_005;

const INCREMENT: u128 = 1_442_695_040_888_963_407;

const STATES: u128 = 1 << 64;

/// The generator, from which so many draws were taken.
#[derive(Clone, Copy, Debug, PartialEq, Eq)]
pub(crate) struct Generator {
    pub seed: u32,
    pub taken: u32,
    pub state: u64,
    ghost state_is: { state ≡ state_behind seed taken },
}

impl Generator {
    /// Before the first draw.
    #[tactic(auto, unfolding(crate::specs::Generator::state_behind))]
    pub fn new(seed: u32) -> Generator
        ensures seed { result.seed ≡ seed }
        ensures taken { result.taken ≡ 0 }
    {
        Generator {
            seed,
            taken: 0,
            state: u64::from(seed),
        }
    }

    /// The next draw of the numbers below `n`.
    pub fn below(&mut self, n: u32) -> u32
        requires some { 0 < n }
        requires taken { self.old.taken < 2 ^ 31 }
        ensures draw { result ≡ drawn self.old.seed self.old.taken n }
        ensures below { result < n }
        ensures seed { self.new.seed ≡ self.old.seed }
        ensures taken { self.new.taken ≡ self.old.taken + 1 }
    {
        let state = next_state(self.state);
        *self = Generator {
            seed: self.seed,
            taken: self.taken + 1,
            state,
        };
        (state >> 33) as u32 % n
    }
}

/// The state behind one more draw.
#[tactic(auto, unfolding(crate::specs::Generator::next_state))]
fn next_state(state: u64) -> u64
    ensures { result ≡ next_state state }
{
    ((MULTIPLIER * u128::from(state) + INCREMENT) % STATES) as u64
}
