ghost use Rattle.std.specs.Prelude.{◌≡◌, ◌<◌};
ghost use Rattle.guest_state.specs.Register.{register, with_register};

/// What a thread has of its own: the program counter, the registers x1 to x31 and the reservation (RISC-V
/// Unprivileged ISA 20191213, 2.1 and 8.2).
#[derive(Clone, Copy, Debug, PartialEq, Eq)]
pub struct Hart {
    pub pc: u32,
    /// x1 at place 0, x31 at place 30. Register x0 is not kept.
    pub x: [u32; 31],
    /// The address that is reserved.
    pub held: Option<u32>,
}

impl Hart {
    /// Reads a register; x0 reads 0.
    pub fn register(&self, number: u8) -> u32
        requires { number < 32 }
        ensures { result ≡ register self.now number }
    {
        if number == 0 {
            0
        } else {
            self.x[number as usize - 1]
        }
    }

    /// Writes a register; a write to x0 is dropped.
    pub fn set_register(&mut self, number: u8, value: u32)
        requires { number < 32 }
        ensures { self.new ≡ with_register self.old number value }
    {
        if number != 0 {
            self.x[number as usize - 1] = value;
        }
    }
}
