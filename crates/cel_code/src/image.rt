//! Images: code, with all that a run of it and its verifier need.

ghost use Rattle.std.specs.Prelude.{◌≡◌};
ghost use Rattle.cel_code.specs.Declaring.{declaring};

use crate::instr::Instr;
use base_containers::Items;
use cel_value::{CelType, Value};

/// The types of the operand stack where jumps arrive, the bottom first.
#[derive(Drop)]
pub struct Target {
    /// The number of the instruction.
    pub at: usize,
    pub types: Items<CelType>,
}

/// Code for the machine.
pub struct Image {
    /// The types of the slots, which the caller fills.
    pub slots: Items<CelType>,
    pub constants: Items<Value>,
    /// One entry for each instruction that a jump goes to, by number.
    pub targets: Items<Target>,
    /// The type of the outcome.
    pub result: CelType,
    /// What a run may charge at most, if the maker of the image says so: the verifier refuses what may charge more.
    pub declared: Option<u64>,
    pub code: Items<Instr>,
}

impl Drop for Image {
    fn drop(self) {
        let Image {
            slots: _slots,
            constants: _constants,
            targets: _targets,
            result: _result,
            declared: _declared,
            code: _code,
        } = self;
    }
}

impl Image {
    /// The image that declares this number, in place of what it declared, and is the same in all else.
    pub fn declare(mut self, most: u64) -> Image
        ensures { result ≡ declaring most self }
    {
        self.declared = Some(most);
        self
    }
}
