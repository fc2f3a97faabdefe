// The draws of a script.
ghost use Rattle.std.specs.Prelude.{◌≡◌};
ghost use Rattle.fd_gen.specs.Draws.{drawn, next};

const MULTIPLIER: u64 = 6_364_136_223_846_793_005;

const INCREMENT: u64 = 1_442_695_040_888_963_407;

// The bits of a number that aren't drawn.
const LOWER_BITS: u32 = 33;

/// A sequence of numbers, at one of them.
#[derive(Drop)]
pub(crate) struct Draws {
    pub(crate) at: u64,
}

impl Draws {
    /// Goes on to the next number, and takes its upper 31 bits.
    pub(crate) fn draw(&mut self) -> u32
        ensures moved { self.new.at ≡ next self.old.at }
        ensures value { result ≡ drawn self.new.at }
    {
        self.at = self.at.wrapping_mul(MULTIPLIER).wrapping_add(INCREMENT);
        (self.at >> LOWER_BITS) as u32
    }
}
