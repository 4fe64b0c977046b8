// One instruction from its eight bytes.
ghost use Rattle.std.specs.Prelude.{◌≡◌, Bool, cond};
ghost use Rattle.instructions.specs.declared.instruction.AccessType.TheVariants as access;
ghost use Rattle.question.specs.Instructions.{checked, raw_of, register_fits, registers_fit, numbers_fit, operand, instruction_from};
ghost use Rattle.question.specs.Kinds.{kind_number};
ghost use Rattle.question.specs.Stated.{stated};
ghost use Rattle.question.specs.Table.{row_of};

use super::table::Kind;
use fields::refusal::Refusal;
use instructions::instruction::{AccessType, Instruction};

/// The six fields of an instruction, as its eight bytes state them.
#[derive(Clone, Copy)]
struct Raw {
    kind: Kind,
    d: u8,
    s1: u8,
    s2: u8,
    k: u16,
    j: u16,
}

/// A register where it is used, or FF where it may be absent; FF where it is not used.
fn register_fits(used: bool, optional: bool, byte: u8) -> bool
    ensures { result ≡ register_fits used optional byte }
{
    if used {
        byte < 8 || (optional && byte == 0xff)
    } else {
        byte == 0xff
    }
}

/// The operand that a byte states: FF is none.
fn operand(byte: u8) -> Option<u8>
    ensures { result ≡ operand byte }
{
    (byte != 0xff).then_some(byte)
}

/// The type of access that a fence's number states.
fn access_type(stores: bool) -> AccessType
    ensures { result ≡ cond stores access.Store access.Load }
{
    if stores {
        AccessType::Store
    } else {
        AccessType::Load
    }
}

impl Raw {
    /// Whether the register bytes are as the kind's row has them.
    fn registers_fit(&self) -> bool
        ensures { result ≡ registers_fit (row_of (kind_number self.now.kind)) (stated self.now) }
    {
        let row = self.kind.row();
        register_fits(row.d, false, self.d)
            && register_fits(row.s1, true, self.s1)
            && register_fits(row.s2, true, self.s2)
    }

    /// Whether the numbers suit the kind, at a processor with this many places.
    fn numbers_fit(&self, places: usize) -> bool
        ensures { result ≡ numbers_fit places (row_of (kind_number self.now.kind)) (stated self.now) }
    {
        let row = self.kind.row();
        let suits = match self.kind {
            Kind::Branch => usize::from(self.j) <= places,
            Kind::Fence => self.k < 4,
            _ => true,
        };
        (row.k || self.k == 0) && (row.j || self.j == 0) && suits
    }
}

impl From<Raw> for Instruction {
    // The instruction of six fields.
    ghost from_gives = { λ raw i. i ≡ instruction_from (stated raw) };

    fn from(raw: Raw) -> Instruction {
        let Raw {
            kind,
            d,
            s1,
            s2,
            k,
            j,
        } = raw;
        let s1 = operand(s1);
        let s2 = operand(s2);
        match kind {
            Kind::Add => Instruction::Add { d, s1, s2, k },
            Kind::Subtract => Instruction::Subtract { d, s1, s2, k },
            Kind::Load => Instruction::Load { d, s1, k },
            Kind::Store => Instruction::Store { s1, s2, k, j },
            Kind::Branch => Instruction::Branch { s1, k, j },
            Kind::Fence => Instruction::Fence {
                before: access_type(k >= 2),
                after: access_type(k % 2 != 0),
            },
        }
    }
}

/// One instruction of a processor with this many places.
pub fn read_instruction(bytes: &[u8; 8], places: usize) -> Result<Instruction, Refusal>
    ensures { result ≡ checked places (raw_of bytes.now) }
{
    let [kind, d, s1, s2, k_high, k_low, j_high, j_low] = *bytes;
    let raw = Raw {
        kind: Kind::try_from(kind)?,
        d,
        s1,
        s2,
        k: u16::from_be_bytes([k_high, k_low]),
        j: u16::from_be_bytes([j_high, j_low]),
    };
    if !raw.registers_fit() {
        return Err(Refusal::KindOrRegisterNotAllowed);
    }
    if !raw.numbers_fit(places) {
        return Err(Refusal::NumberNotAllowed);
    }
    Ok(Instruction::from(raw))
}
