//! A small generator of numbers.

ghost use Rattle.std.specs.Prelude.{◌<◌};

/// The generator's state, which is never 0.
#[derive(Clone, Copy)]
pub struct Random {
    state: usize,
}

impl Random {
    pub const FIRST: Random = Random {
        state: 88172645463325252,
    };

    /// A number below n; 0 where n is 0.
    pub fn below(&mut self, n: usize) -> usize
        ensures { 0 < n → result < n }
    {
        let a = self.state ^ (self.state << 13);
        let b = a ^ (a >> 7);
        let c = b ^ (b << 17);
        self.state = c;
        if n == 0 { 0 } else { (c >> 20) % n }
    }

    /// A number below n, which is small.
    pub fn small(&mut self, n: usize) -> u16 {
        let [.., high, low] = self.below(n).to_be_bytes();
        u16::from_be_bytes([high, low])
    }

    pub fn byte(&mut self) -> u8 {
        let [.., low] = self.below(256).to_be_bytes();
        low
    }
}
