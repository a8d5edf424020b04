// The bits of a word that hold one number.
// Assumes nothing.
ghost use Rattle.std.specs.Prelude.{◌≡◌, ◌/◌, ◌%◌, ◌^◌, ◌<◌};

// So many bits of a word, from a lowest one on.
#[derive(Clone, Copy)]
pub struct Bits {
    pub low: u32,
    pub count: u32,
    ghost inside: { low < 32 },
    ghost narrow: { count < 32 },
}

// The tag of an entry word of any kind of this repository: its highest four bits.
pub const TAG: Bits = Bits { low: 28, count: 4 };

impl Bits {
    // The number that they hold.
    pub fn of(self, word: u32) -> u32
        ensures { result ≡ word / 2 ^ self.low % 2 ^ self.count }
    {
        (word >> self.low) % (1 << self.count)
    }
}
