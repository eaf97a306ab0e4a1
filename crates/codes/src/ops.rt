// The operators.
ghost use Rattle.std.specs.Prelude.{◌≡◌};
ghost use Rattle.terms.specs.Codes.{from_code};
ghost use Rattle.codes.specs.Codes.{IsCodeOf, unary_code, all_unary, binary_code, all_binary};

use terms::refusal::Refusal;

/// Operators on one expression.
#[derive(Clone, Copy, Debug, PartialEq, Eq, Hash)]
pub enum UnaryOp {
    Not = 0,
    Neg = 1,
    IsEmpty = 2,
}

/// Operators on two expressions.
#[derive(Clone, Copy, Debug, PartialEq, Eq, Hash)]
pub enum BinaryOp {
    Eq = 0,
    Less = 1,
    LessEq = 2,
    Add = 3,
    Sub = 4,
    Mul = 5,
    In = 6,
    Contains = 7,
    ContainsAll = 8,
    ContainsAny = 9,
    GetTag = 10,
    HasTag = 11,
}

/// The operator's number.
impl From<UnaryOp> for u8 {
    ghost from_gives = { IsCodeOf unary_code all_unary };

    fn from(op: UnaryOp) -> u8 {
        op as u8
    }
}

/// The operator of a number, or refusal 2.
impl TryFrom<u8> for UnaryOp {
    type Error = Refusal;

    ghost try_from_gives = { λ n r. r ≡ from_code unary_code all_unary n };

    fn try_from(code: u8) -> Result<UnaryOp, Refusal> {
        match code {
            0 => Ok(UnaryOp::Not),
            1 => Ok(UnaryOp::Neg),
            2 => Ok(UnaryOp::IsEmpty),
            _ => Err(Refusal::Leaf),
        }
    }
}

/// The operator's number.
impl From<BinaryOp> for u8 {
    ghost from_gives = { IsCodeOf binary_code all_binary };

    fn from(op: BinaryOp) -> u8 {
        op as u8
    }
}

/// The operator of a number, or refusal 2.
impl TryFrom<u8> for BinaryOp {
    type Error = Refusal;

    ghost try_from_gives = { λ n r. r ≡ from_code binary_code all_binary n };

    fn try_from(code: u8) -> Result<BinaryOp, Refusal> {
        match code {
            0 => Ok(BinaryOp::Eq),
            1 => Ok(BinaryOp::Less),
            2 => Ok(BinaryOp::LessEq),
            3 => Ok(BinaryOp::Add),
            4 => Ok(BinaryOp::Sub),
            5 => Ok(BinaryOp::Mul),
            6 => Ok(BinaryOp::In),
            7 => Ok(BinaryOp::Contains),
            8 => Ok(BinaryOp::ContainsAll),
            9 => Ok(BinaryOp::ContainsAny),
            10 => Ok(BinaryOp::GetTag),
            11 => Ok(BinaryOp::HasTag),
            _ => Err(Refusal::Leaf),
        }
    }
}
