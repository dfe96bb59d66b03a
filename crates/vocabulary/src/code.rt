ghost use Rattle.std.specs.Prelude.{◌≡◌, Some};
ghost use Rattle.vocabulary.specs.Codes.{OperatorIn, name_of, opcode_of, operand_of, operation_name, operator_of};

use std::error::Error;
use std::fmt;

// The operations on two numbers, in the order of their operator numbers 1 to 6.
#[derive(Clone, Copy, PartialEq, Eq, Debug)]
pub enum Operation {
    Sum = 1,
    Difference,
    Product,
    Quotient,
    Equal,
    Less,
}

// The machine's instructions, in the order of their opcodes 1 to 19, each with its operand.
#[derive(Clone, Copy, PartialEq, Eq, Debug)]
pub enum Instruction {
    Num(i32),
    Truth(bool),
    Read,
    Look(u16),
    Deref,
    Op(Operation),
    JumpFalse(u16),
    Jump(u16),
    Call(u16),
    Ret,
    IsLoc,
    Store,
    Put,
    Enter,
    Leave,
    Bind,
    New,
    Clos(u16),
    Halt,
}

// A word of code: an instruction, and the node that it comes from.
#[derive(Clone, Copy, PartialEq, Eq, Debug)]
pub struct Word {
    pub instruction: Instruction,
    pub node: u16,
}

impl Operation {
    // Its operator number in a table and in code.
    pub fn number(self) -> u8
        ensures { result ≡ operator_of self }
    {
        self as u8
    }
}

// A number that is no operator's.
#[derive(Clone, Copy, PartialEq, Eq, Debug)]
pub struct UnknownOperator;

impl fmt::Display for UnknownOperator {
    fn fmt<W: fmt::Write>(&self, f: &mut fmt::Formatter<W>) -> fmt::Result {
        f.write_str("operators are 1 to 6")
    }
}

impl Error for UnknownOperator {}

impl TryFrom<u8> for Operation {
    type Error = UnknownOperator;

    ghost try_from_gives = { OperatorIn };

    fn try_from(operator: u8) -> Result<Operation, UnknownOperator> {
        match operator {
            1 => Ok(Operation::Sum),
            2 => Ok(Operation::Difference),
            3 => Ok(Operation::Product),
            4 => Ok(Operation::Quotient),
            5 => Ok(Operation::Equal),
            6 => Ok(Operation::Less),
            _ => Err(UnknownOperator),
        }
    }
}

impl Instruction {
    // By cases: an instruction carries its operand, and only a plain enum's variants have numbers of their own.
    pub fn opcode(self) -> u8
        ensures { result ≡ opcode_of self }
    {
        match self {
            Instruction::Num(_) => 1,
            Instruction::Truth(_) => 2,
            Instruction::Read => 3,
            Instruction::Look(_) => 4,
            Instruction::Deref => 5,
            Instruction::Op(_) => 6,
            Instruction::JumpFalse(_) => 7,
            Instruction::Jump(_) => 8,
            Instruction::Call(_) => 9,
            Instruction::Ret => 10,
            Instruction::IsLoc => 11,
            Instruction::Store => 12,
            Instruction::Put => 13,
            Instruction::Enter => 14,
            Instruction::Leave => 15,
            Instruction::Bind => 16,
            Instruction::New => 17,
            Instruction::Clos(_) => 18,
            Instruction::Halt => 19,
        }
    }

    // What a code word holds beside the opcode; 0 for an instruction without operand.
    pub fn operand(self) -> i32
        ensures { result ≡ operand_of self }
    {
        match self {
            Instruction::Num(number) => number,
            Instruction::Truth(truth) => i32::from(truth),
            Instruction::Op(operation) => i32::from(operation.number()),
            Instruction::Look(operand)
            | Instruction::JumpFalse(operand)
            | Instruction::Jump(operand)
            | Instruction::Call(operand)
            | Instruction::Clos(operand) => i32::from(operand),
            Instruction::Read
            | Instruction::Deref
            | Instruction::Ret
            | Instruction::IsLoc
            | Instruction::Store
            | Instruction::Put
            | Instruction::Enter
            | Instruction::Leave
            | Instruction::Bind
            | Instruction::New
            | Instruction::Halt => 0,
        }
    }
}

impl fmt::Display for Operation {
    ghost output = { λ o. Some (operation_name o) };

    fn fmt<W: fmt::Write>(&self, f: &mut fmt::Formatter<W>) -> fmt::Result {
        f.write_str(match self {
            Operation::Sum => "sum",
            Operation::Difference => "difference",
            Operation::Product => "product",
            Operation::Quotient => "quotient",
            Operation::Equal => "equal",
            Operation::Less => "less",
        })
    }
}

impl Instruction {
    // Its name in listings.
    pub fn name(self) -> &'static str
        ensures { result.now ≡ name_of self }
    {
        match self {
            Instruction::Num(_) => "NUM",
            Instruction::Truth(_) => "TRUTH",
            Instruction::Read => "READ",
            Instruction::Look(_) => "LOOK",
            Instruction::Deref => "DEREF",
            Instruction::Op(_) => "OP",
            Instruction::JumpFalse(_) => "JF",
            Instruction::Jump(_) => "JMP",
            Instruction::Call(_) => "CALL",
            Instruction::Ret => "RET",
            Instruction::IsLoc => "ISLOC",
            Instruction::Store => "STORE",
            Instruction::Put => "PUT",
            Instruction::Enter => "ENTER",
            Instruction::Leave => "LEAVE",
            Instruction::Bind => "BIND",
            Instruction::New => "NEW",
            Instruction::Clos(_) => "CLOS",
            Instruction::Halt => "HALT",
        }
    }
}
