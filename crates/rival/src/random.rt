ghost use Rattle.std.specs.Prelude.{◌≤◌};

/// A generator of numbers, xorshift64*: the same numbers for each seed.
#[derive(Clone, Copy)]
pub struct Random {
    state: u64,
}

impl Random {
    pub fn new(seed: u64) -> Random {
        // seeds side by side are spread out, and a state of 0 would stay 0
        Random {
            state: seed.wrapping_mul(0x9E37_79B9_7F4A_7C15) | 1,
        }
    }

    fn draw(&mut self) -> u64 {
        self.state ^= self.state >> 12;
        self.state ^= self.state << 25;
        self.state ^= self.state >> 27;
        self.state.wrapping_mul(0x2545_F491_4F6C_DD1D)
    }

    /// A number from 0 to `most`.
    pub fn up_to(&mut self, most: u16) -> u16
        ensures { result ≤ most }
    {
        // the upper half, which is the better one
        let drawn = self.draw() >> 32;
        (drawn % (u64::from(most) + 1)) as u16
    }

    /// The same for a number of one byte.
    pub fn byte_up_to(&mut self, most: u8) -> u8
        ensures { result ≤ most }
    {
        self.up_to(u16::from(most)) as u8
    }

    /// True once in so many times; always for 0 and 1.
    pub fn once_in(&mut self, times: u16) -> bool {
        self.up_to(times.saturating_sub(1)) == 0
    }
}
