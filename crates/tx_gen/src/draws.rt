//! Numbers that look random.
ghost use Rattle.std.specs.Prelude.{◌≡◌, ◌/◌, ◌^◌, ◌<◌};
ghost use Rattle.tx_gen.specs.Draws.{state_after};

const FACTOR: u64 = 6_364_136_223_846_793_005;

const STEP: u64 = 1_442_695_040_888_963_407;

/// Numbers below 2^31, drawn one after another; the number that they begin with says which.
#[derive(Clone, Copy)]
pub struct Draws {
    /// The number from which the next one is drawn.
    pub state: u64,
}

impl Draws {
    /// The next number: the leading 31 bits of the new state.
    #[tactic(auto, unfolding(crate::specs::Draws::state_after), using(crate::proofs::Sums::sum_of_remainder))]
    pub fn draw(&mut self) -> u64
        ensures state { self.new.state ≡ state_after self.old.state }
        ensures value { result ≡ state_after self.old.state / 2 ^ 33 }
        ensures small { result < 2 ^ 31 }
    {
        self.state = self.state.wrapping_mul(FACTOR).wrapping_add(STEP);
        self.state >> 33
    }
}
