// The kinds of instructions, and which of its five fields each uses.
ghost use Rattle.std.specs.Prelude.{◌≡◌, ok_or};
ghost use Rattle.fields.specs.declared.refusal.Refusal.TheVariants.{KindOrRegisterNotAllowed};
ghost use Rattle.question.specs.Kinds.{kind_number, kind_of};
ghost use Rattle.question.specs.Table.{row_of};

use fields::refusal::Refusal;

/// The six kinds.
#[derive(Clone, Copy, PartialEq, Eq, Debug)]
pub enum Kind {
    Add = 1,
    Subtract = 2,
    Load = 3,
    Store = 4,
    Branch = 5,
    Fence = 6,
}

impl TryFrom<u8> for Kind {
    type Error = Refusal;

    // The kind with this number; refused where it is not 1 to 6.
    ghost try_from_gives = { λ n r. r ≡ ok_or (kind_of n) KindOrRegisterNotAllowed };

    fn try_from(number: u8) -> Result<Kind, Refusal> {
        match number {
            1 => Ok(Kind::Add),
            2 => Ok(Kind::Subtract),
            3 => Ok(Kind::Load),
            4 => Ok(Kind::Store),
            5 => Ok(Kind::Branch),
            6 => Ok(Kind::Fence),
            _ => Err(Refusal::KindOrRegisterNotAllowed),
        }
    }
}

impl Kind {
    /// The fields that this kind uses.
    pub fn row(self) -> Row
        ensures { result ≡ row_of (kind_number self) }
    {
        ROWS[self as usize - 1]
    }
}

/// The fields that a kind uses.
#[derive(Clone, Copy)]
pub struct Row {
    pub d: bool,
    pub s1: bool,
    pub s2: bool,
    pub k: bool,
    pub j: bool,
}

/// A row for each kind.
pub const ROWS: [Row; 6] = [
    Row {
        d: true,
        s1: true,
        s2: true,
        k: true,
        j: false,
    },
    Row {
        d: true,
        s1: true,
        s2: true,
        k: true,
        j: false,
    },
    Row {
        d: true,
        s1: true,
        s2: false,
        k: true,
        j: false,
    },
    Row {
        d: false,
        s1: true,
        s2: true,
        k: true,
        j: true,
    },
    Row {
        d: false,
        s1: true,
        s2: false,
        k: true,
        j: true,
    },
    Row {
        d: false,
        s1: false,
        s2: false,
        k: true,
        j: false,
    },
];
