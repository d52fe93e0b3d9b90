ghost use Rattle.std.specs.Prelude.{◌≡◌};
ghost use Rattle.un_gen.specs.Generator.{seeded, draw, drawn};

/// The states are below this.
const MODULUS: u32 = 2_147_483_648;

/// A linear congruential generator.
#[derive(Drop)]
pub struct Draws {
    /// Below 2^31.
    pub state: u32,
}

impl Draws {
    /// The draws of a seed.
    pub fn new(seed: u32) -> Draws
        ensures { result.state ≡ seeded seed }
    {
        Draws {
            state: seed % MODULUS,
        }
    }

    /// The next number, from 0 to 7.
    pub(crate) fn draw(&mut self) -> u32
        ensures state { self.new.state ≡ draw self.old.state }
        ensures number { result ≡ drawn self.new.state }
    {
        let next = (u64::from(self.state) * 1_103_515_245 + 12_345) % u64::from(MODULUS);
        self.state = next as u32;
        self.state / 65_536 % 8
    }
}
