//! Numbers drawn by a seed.

/// A state from which numbers are drawn, by a linear congruence.
#[derive(Clone, Copy, Debug, PartialEq, Eq)]
pub struct Draws(pub u64);

impl Draws {
    /// The next number below this one; 0 if there is none.
    pub fn below(&mut self, bound: u16) -> u16 {
        self.0 = self
            .0
            .wrapping_mul(6_364_136_223_846_793_005)
            .wrapping_add(1_442_695_040_888_963_407);
        if bound == 0 {
            return 0;
        }
        ((self.0 >> 33) % u64::from(bound)) as u16
    }
}
