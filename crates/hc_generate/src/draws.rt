//! Draws: numbers that follow one another by a linear step, from a seed.
ghost use Rattle.std.specs.Prelude.{◌≡◌, ◌<◌};
ghost use Rattle.hc_generate.specs.Draws.{draw_below, past_pick, choice_of, state_after_draw};

/// The state of the draws.
#[derive(Clone, Copy)]
pub(crate) struct Draws {
    state: u64,
}

impl Draws {
    /// Those that follow the seed.
    pub(crate) fn new(seed: u64) -> Draws
        ensures { result.state ≡ seed }
    {
        Draws { state: seed }
    }

    /// A number below `n`.
    pub(crate) fn below(&mut self, n: u64) -> u64
        requires { 0 < n }
        ensures number { result ≡ draw_below n self.old.state }
        ensures state { self.new.state ≡ state_after_draw self.old.state }
        ensures below { result < n }
    {
        self.state = self
            .state
            .wrapping_mul(6_364_136_223_846_793_005)
            .wrapping_add(1_442_695_040_888_963_407);
        // The low bits of such a state have short periods.
        (self.state >> 33) % n
    }

    /// One of these. None, and no draw, exactly where there is none.
    pub(crate) fn pick(&mut self, numbers: &[u64]) -> Option<u64>
        ensures number { result ≡ choice_of numbers.now self.old.state }
        ensures state { self.new.state ≡ past_pick result self.old.state }
    {
        if numbers.is_empty() {
            return None;
        }
        let i = self.below(numbers.len() as u64);
        Some(numbers[i as usize])
    }
}
