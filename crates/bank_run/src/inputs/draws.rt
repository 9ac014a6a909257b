//! The generator.

ghost use Rattle.std.specs.Prelude.{◌≡◌, ◌<◌};
ghost use Rattle.bank_run.specs.inputs.Bank.{advanced, drawn};

/// A linear congruential generator of 31 bits.
#[derive(Clone, Copy, Debug)]
pub struct Draws {
    pub state: u32,
}

impl Draws {
    /// Draws a number below 32,768.
    pub fn draw(&mut self) -> u32
        requires { self.old.state < 2147483648 }
        ensures state { self.new.state ≡ advanced self.old.state }
        ensures range { self.new.state < 2147483648 }
        ensures value { result ≡ drawn self.new.state }
    {
        let next = (u64::from(self.state) * 1_103_515_245 + 12_345) % 2_147_483_648;
        self.state = next as u32;
        self.state / 65_536
    }
}
