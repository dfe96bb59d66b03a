// Kinds of nodes: their numbers, sorts and words, and the rules of their fields.
ghost use Rattle.std.specs.Prelude.{◌≡◌, true, Some};
ghost use Rattle.language.specs.Fields.{fields_of, is_of};
ghost use Rattle.language.specs.Kinds.{kind_number, kind_words, sort_words, Decodes};

use std::error::Error;
use std::fmt;

// The three sorts of nodes.
#[derive(Clone, Copy, PartialEq, Eq, Debug)]
pub enum Sort {
    Command,
    Declaration,
    Expression,
}

// The kinds of nodes, with their numbers.
#[derive(Clone, Copy, PartialEq, Eq, Debug)]
pub enum Kind {
    Assign = 1,
    Output,
    If,
    While,
    Block,
    Sequence,
    ProcedureCall,
    Constant = 10,
    Variable,
    Procedure,
    Function,
    Pair,
    Number = 20,
    Truth,
    Read,
    Name,
    Operation,
    FunctionCall,
    Choice,
}

// A number that is no kind's.
#[derive(Clone, Copy, PartialEq, Eq, Debug)]
pub struct UnknownKind;

// What a field of a node may hold.
#[derive(Clone, Copy, PartialEq, Eq, Debug)]
pub enum Rule {
    // no use: 0
    Unused,
    // 0 to 255
    Name,
    // 0 or 1
    Truth,
    // 1 to 6
    Operator,
    // half of a number: any 16 bits
    Half,
    // the number of a lower node of that sort
    Child(Sort),
}

// The rules of a kind's four fields.
#[derive(Clone, Copy, PartialEq, Eq, Debug)]
pub struct Fields {
    pub tag: Rule,
    pub a: Rule,
    pub b: Rule,
    pub c: Rule,
}

// A field of a node: its rule, and what it holds.
#[derive(Clone, Copy, PartialEq, Eq, Debug)]
pub struct Field {
    pub rule: Rule,
    pub value: u16,
}

// A child: the sort that is wanted, and the number of the node.
#[derive(Clone, Copy, PartialEq, Eq, Debug)]
pub struct ChildField {
    pub wanted: Sort,
    pub number: u16,
}

impl TryFrom<u8> for Kind {
    type Error = UnknownKind;

    ghost try_from_gives = { Decodes };

    fn try_from(number: u8) -> Result<Kind, UnknownKind> {
        match number {
            1 => Ok(Kind::Assign),
            2 => Ok(Kind::Output),
            3 => Ok(Kind::If),
            4 => Ok(Kind::While),
            5 => Ok(Kind::Block),
            6 => Ok(Kind::Sequence),
            7 => Ok(Kind::ProcedureCall),
            10 => Ok(Kind::Constant),
            11 => Ok(Kind::Variable),
            12 => Ok(Kind::Procedure),
            13 => Ok(Kind::Function),
            14 => Ok(Kind::Pair),
            20 => Ok(Kind::Number),
            21 => Ok(Kind::Truth),
            22 => Ok(Kind::Read),
            23 => Ok(Kind::Name),
            24 => Ok(Kind::Operation),
            25 => Ok(Kind::FunctionCall),
            26 => Ok(Kind::Choice),
            _ => Err(UnknownKind),
        }
    }
}

impl Kind {
    // Its number in a table.
    pub fn number(self) -> u8
        ensures { result ≡ kind_number self }
    {
        self as u8
    }

    pub fn sort(self) -> Sort
        ensures { is_of result (kind_number self) ≡ true }
    {
        match self {
            Kind::Assign
            | Kind::Output
            | Kind::If
            | Kind::While
            | Kind::Block
            | Kind::Sequence
            | Kind::ProcedureCall => Sort::Command,
            Kind::Constant | Kind::Variable | Kind::Procedure | Kind::Function | Kind::Pair =>
                Sort::Declaration,
            Kind::Number
            | Kind::Truth
            | Kind::Read
            | Kind::Name
            | Kind::Operation
            | Kind::FunctionCall
            | Kind::Choice => Sort::Expression,
        }
    }

    // The rules of its fields.
    #[tactic(auto, unfolding(crate::specs::Fields::fields_of))]
    pub fn fields(self) -> Fields
        ensures { fields_of (kind_number self) ≡ Some result }
    {
        let none = Rule::Unused;
        let name = Rule::Name;
        let half = Rule::Half;
        let command = Rule::Child(Sort::Command);
        let declaration = Rule::Child(Sort::Declaration);
        let expression = Rule::Child(Sort::Expression);
        let [tag, a, b, c] = match self {
            Kind::Assign => [none, expression, expression, none],
            Kind::Output => [none, expression, none, none],
            Kind::If => [none, expression, command, command],
            Kind::While => [none, expression, command, none],
            Kind::Block => [none, declaration, command, none],
            Kind::Sequence => [none, command, command, none],
            Kind::ProcedureCall => [name, expression, none, none],
            Kind::Constant | Kind::Variable => [name, expression, none, none],
            Kind::Procedure => [name, command, none, name],
            Kind::Function => [name, expression, none, name],
            Kind::Pair => [none, declaration, declaration, none],
            Kind::Number => [none, none, half, half],
            Kind::Truth => [Rule::Truth, none, none, none],
            Kind::Read => [none, none, none, none],
            Kind::Name => [name, none, none, none],
            Kind::Operation => [Rule::Operator, expression, expression, none],
            Kind::FunctionCall => [name, expression, none, none],
            Kind::Choice => [none, expression, expression, expression],
        };
        Fields { tag, a, b, c }
    }
}

impl fmt::Display for Kind {
    ghost output = { λ kind. Some (kind_words kind) };

    fn fmt<W: fmt::Write>(&self, f: &mut fmt::Formatter<W>) -> fmt::Result {
        f.write_str(match self {
            Kind::Assign => "assign",
            Kind::Output => "output",
            Kind::If => "if",
            Kind::While => "while",
            Kind::Block => "block",
            Kind::Sequence => "sequence",
            Kind::ProcedureCall => "procedure call",
            Kind::Constant => "constant",
            Kind::Variable => "variable",
            Kind::Procedure => "procedure",
            Kind::Function => "function",
            Kind::Pair => "pair",
            Kind::Number => "number",
            Kind::Truth => "truth",
            Kind::Read => "read",
            Kind::Name => "name",
            Kind::Operation => "operation",
            Kind::FunctionCall => "function call",
            Kind::Choice => "choice",
        })
    }
}

impl fmt::Display for UnknownKind {
    fn fmt<W: fmt::Write>(&self, f: &mut fmt::Formatter<W>) -> fmt::Result {
        f.write_str("no kind of node has this number")
    }
}

impl Error for UnknownKind {}

impl fmt::Display for Sort {
    ghost output = { λ sort. Some (sort_words sort) };

    fn fmt<W: fmt::Write>(&self, f: &mut fmt::Formatter<W>) -> fmt::Result {
        f.write_str(match self {
            Sort::Command => "a command",
            Sort::Declaration => "a declaration",
            Sort::Expression => "an expression",
        })
    }
}
