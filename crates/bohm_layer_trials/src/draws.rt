//! A seeded generator.

ghost use Rattle.std.specs.Prelude.{◌<◌, length};

/// Numbers that a seed determines.
#[derive(Clone, Copy)]
pub struct Draws {
    state: u64,
}

impl Draws {
    pub fn new(seed: u32) -> Draws {
        Draws {
            state: u64::from(seed),
        }
    }

    /// A number below this one, from the upper half of a linear congruential generator's state.
    pub fn below(&mut self, count: usize) -> usize
        requires { 0 < count }
        ensures { result < count }
    {
        let product = self.state.wrapping_mul(6_364_136_223_846_793_005);
        self.state = product.wrapping_add(1_442_695_040_888_963_407);
        (self.state / 4_294_967_296 % count as u64) as usize
    }
}

/// One of these values.
pub fn one_of<T: Copy>(draws: &mut Draws, choices: &[T]) -> T
    requires { 0 < length choices.now }
{
    choices[draws.below(choices.len())]
}
