// Registers of a hart, by the names of the calling convention (RISC-V ABI, "Register Convention").
ghost use Rattle.std.specs.Prelude.{◌≡◌, ◌<◌};
ghost use Rattle.guest_gen.specs.Register.{register_number};

/// A register that made guests use.
#[derive(Clone, Copy)]
pub(crate) enum Register {
    Zero,
    Ra,
    T0,
    T1,
    S0,
    S1,
    A0,
    A1,
    A2,
    A3,
    A7,
    S2,
    S3,
    S4,
}

impl Register {
    /// Returns its number.
    pub(crate) fn number(self) -> u32
        ensures number { result ≡ register_number self }
        ensures small { result < 32 }
    {
        match self {
            Register::Zero => 0,
            Register::Ra => 1,
            Register::T0 => 5,
            Register::T1 => 6,
            Register::S0 => 8,
            Register::S1 => 9,
            Register::A0 => 10,
            Register::A1 => 11,
            Register::A2 => 12,
            Register::A3 => 13,
            Register::A7 => 17,
            Register::S2 => 18,
            Register::S3 => 19,
            Register::S4 => 20,
        }
    }
}
