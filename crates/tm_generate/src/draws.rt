//! Draws by a rule, from a number.

ghost use Rattle.std.specs.Prelude.{◌≡◌, ◌<◌};
ghost use Rattle.tm_generate.specs.Generated.{next, answer};

/// The state of a run of draws, which starts as the number given.
#[derive(Clone, Copy)]
pub struct Draws {
    pub x: u64,
}

impl Draws {
    /// The next draw: a number below `bound`.
    pub fn draw(&mut self, bound: u64) -> u64
        requires { 0 < bound }
        ensures x { self.new.x ≡ next self.old.x }
        ensures answer { result ≡ answer self.new.x bound }
        ensures below { result < bound }
    {
        let product = u128::from(self.x) * 6_364_136_223_846_793_005 + 1_442_695_040_888_963_407;
        self.x = (product % (1 << 64)) as u64;
        (self.x >> 33) % bound
    }
}
