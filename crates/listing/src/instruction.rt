// The text of an instruction.
ghost use Rattle.std.specs.Prelude.{◌≡◌, Some};
ghost use Rattle.listing.specs.Instructions.{sum_text, type_text, instruction_text};

use instructions::instruction::{AccessType, Instruction};
use std::fmt;

/// A register and a number that are added; what is absent or 0 is left out.
#[derive(Clone, Copy)]
struct Sum(Option<u8>, u16);

impl fmt::Display for Sum {
    ghost output = { λ s. Some (sum_text s.0 s.1) };

    fn fmt<W: fmt::Write>(&self, f: &mut fmt::Formatter<W>) -> fmt::Result {
        let Sum(register, number) = *self;
        match register {
            None => write!(f, "{number}"),
            Some(r) if number == 0 => write!(f, "r{r}"),
            Some(r) => write!(f, "r{r} + {number}"),
        }
    }
}

/// The letter of an access type: L for loads, S for stores.
#[derive(Clone, Copy)]
struct Letter(AccessType);

impl fmt::Display for Letter {
    ghost output = { λ t. Some (type_text t.0) };

    fn fmt<W: fmt::Write>(&self, f: &mut fmt::Formatter<W>) -> fmt::Result {
        match self.0 {
            AccessType::Load => f.write_str("L"),
            AccessType::Store => f.write_str("S"),
        }
    }
}

/// An instruction in assembler style.
#[derive(Clone, Copy)]
pub struct InstructionText(pub Instruction);

impl fmt::Display for InstructionText {
    ghost output = { λ i. Some (instruction_text i.0) };

    fn fmt<W: fmt::Write>(&self, f: &mut fmt::Formatter<W>) -> fmt::Result {
        match self.0 {
            Instruction::Add { d, s1, s2: None, k } => write!(f, "add r{d} = {}", Sum(s1, k)),
            Instruction::Add { d, s1: None, s2, k } => write!(f, "add r{d} = {}", Sum(s2, k)),
            Instruction::Add {
                d,
                s1: Some(r),
                s2,
                k,
            } => write!(f, "add r{d} = r{r} + {}", Sum(s2, k)),
            Instruction::Subtract { d, s1, s2: None, k } => write!(
                f,
                "subtract r{d} = {}",
                Sum(s1, k)
            ),
            Instruction::Subtract { d, s1: None, s2, k } => write!(
                f,
                "subtract r{d} = 0 - {}",
                Sum(s2, k)
            ),
            Instruction::Subtract {
                d,
                s1: Some(r),
                s2,
                k,
            } => write!(f, "subtract r{d} = r{r} - {}", Sum(s2, k)),
            Instruction::Load { d, s1, k } => write!(f, "load r{d} = [{}]", Sum(s1, k)),
            Instruction::Store { s1, s2, k, j } => write!(
                f,
                "store [{}] = {}",
                Sum(s1, k),
                Sum(s2, j)
            ),
            Instruction::Branch { s1, k, j } => write!(f, "branch to {j} if {} = {k}", Sum(s1, 0)),
            Instruction::Fence { before, after } => write!(
                f,
                "fence {}{}",
                Letter(before),
                Letter(after)
            ),
        }
    }
}
