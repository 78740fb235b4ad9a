// Random numbers: a linear congruential generator modulo 2^31.
ghost use Rattle.std.specs.Prelude.{◌<◌};

#[derive(Clone, Copy, Debug)]
pub struct Random(pub u64);

impl Random {
    // A number below 32,768, from the upper bits of the next state.
    pub fn draw(&mut self) -> u16
        ensures { result < 32768 }
    {
        self.0 = (self.0 % 2147483648 * 1103515245 + 12345) % 2147483648;
        (self.0 / 65536) as u16
    }
}
