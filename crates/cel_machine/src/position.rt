ghost use Rattle.std.specs.Prelude.{◌≡◌, ◌+◌, ◌<◌, ◌^◌};
ghost use Rattle.cel_machine.specs.declared.step.Move.TheVariants.{GoesOn};

use crate::step::Move;

/// Where a run is. A step changes it in its place: a `Move` that held it would be written and read back through memory.
#[derive(Clone, Copy)]
pub struct Position {
    /// The number of the next instruction.
    pub at: usize,
    /// What the instruction before it charged.
    pub charge: u64,
}

impl Position {
    /// On to the next instruction, for a charge.
    pub fn go_on(&mut self, charge: u64) -> Move
        requires { self.old.at + 1 < 2 ^ 64 }
        ensures goes { result ≡ GoesOn }
        ensures at { self.new.at ≡ self.old.at + 1 }
        ensures charge { self.new.charge ≡ charge }
    {
        self.at += 1;
        self.charge = charge;
        Move::GoesOn
    }

    /// To an instruction, for a charge.
    pub fn go_to(&mut self, to: usize, charge: u64) -> Move
        ensures goes { result ≡ GoesOn }
        ensures at { self.new.at ≡ to }
        ensures charge { self.new.charge ≡ charge }
    {
        self.at = to;
        self.charge = charge;
        Move::GoesOn
    }
}
