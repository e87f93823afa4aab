//! The tree of a monitored text as it is read, with its places.

ghost use Rattle.std.specs.Prelude.{◌≡◌, MatchOption, IfOk};
ghost use Rattle.mon_parser.specs.ParsedTrees.{plain_literal, past_i128, plain_expr, plain_expr_kind, plain_stmt, plain_stmt_kind};

use c_syntax::{Name, Place};
use mon_syntax::{MonOp, MonType};
use std::alloc::{AllocError, Global};

/// A name where it stands.
#[derive(Clone, Copy, PartialEq, Eq, Debug)]
pub struct NameUse {
    pub place: Place,
    /// Its number among the names of the text.
    pub number: u32,
}

/// A number with its sign. Its value is `i128::MAX + 1` where the least number has the sign `-`.
#[derive(Clone, Copy, PartialEq, Eq, Debug)]
pub struct Literal {
    pub negative: bool,
    pub number: i128,
}

impl Literal {
    /// Its value, where an `i128` has it.
    pub fn value(self) -> Option<i128>
        ensures { MatchOption result (plain_literal self ≡ past_i128) (λ z. z ≡ plain_literal self) }
    {
        if self.negative {
            self.number.checked_neg()
        } else {
            Some(self.number)
        }
    }
}

/// An expression.
#[derive(Drop)]
#[cycle(expression)]
pub struct ParsedExpr {
    pub kind: Box<ParsedExprKind>,
}

/// What an expression is, and its place: its operator's token for a binary one, the token after its first parenthesis
/// for a unary operator, a cast and a load, and else its first token.
#[derive(Drop)]
#[cycle(expression)]
pub enum ParsedExprKind {
    Name(NameUse),
    Constant(Place, MonType, Literal),
    Binary(Place, MonOp, ParsedExpr, ParsedExpr),
    Minus(Place, ParsedExpr),
    Flip(Place, ParsedExpr),
    Cast(Place, MonType, ParsedExpr),
    Load(Place, MonType, ParsedExpr),
}

impl ParsedExpr {
    pub fn new(alloc: Global, kind: ParsedExprKind) -> Result<ParsedExpr, AllocError>
        ensures { IfOk result (λ e. plain_expr e ≡ plain_expr_kind kind) }
    {
        let kind = Box::new(alloc, kind)?;
        Ok(ParsedExpr { kind })
    }
}

/// An argument of a call.
#[derive(Drop)]
pub enum ParsedArg {
    Value(ParsedExpr),
    /// A number that is no constant.
    Number(Place, i128),
    /// A string by its bytes.
    Text(Place, Name),
}

/// A call, by the place of its `(`.
#[derive(Drop)]
pub struct ParsedCall {
    pub callee: NameUse,
    pub place: Place,
    pub arguments: Vec<ParsedArg>,
}

/// A statement.
#[derive(Drop)]
#[cycle(statement)]
pub struct ParsedStmt {
    pub kind: Box<ParsedStmtKind>,
}

#[derive(Drop)]
#[cycle(statement)]
pub enum ParsedStmtKind {
    /// `R = e;` with the place of its `=`.
    Set(NameUse, Place, ParsedExpr),
    /// `*(t *)R = e;` with its mark, and the place of its `=`.
    Store(MonType, NameUse, Place, ParsedExpr),
    /// `R = f(..);` with the place of its `=`.
    Take(NameUse, Place, ParsedCall),
    Call(ParsedCall),
    If(ParsedExpr, Vec<ParsedStmt>, Vec<ParsedStmt>),
    /// What stands before the loop's step, and what after it.
    Loop(Vec<ParsedStmt>, Vec<ParsedStmt>),
    Labelled(Vec<ParsedStmt>, NameUse),
    Goto(NameUse),
    /// The place of `return`, and its expression where there is one.
    Return(Place, Option<ParsedExpr>),
}

impl ParsedStmt {
    pub fn new(alloc: Global, kind: ParsedStmtKind) -> Result<ParsedStmt, AllocError>
        ensures { IfOk result (λ s. plain_stmt s ≡ plain_stmt_kind kind) }
    {
        let kind = Box::new(alloc, kind)?;
        Ok(ParsedStmt { kind })
    }
}

/// A parameter or another register: its type and its name.
#[derive(Clone, Copy, PartialEq, Eq, Debug)]
pub struct ParsedRegister {
    pub kind: MonType,
    pub name: NameUse,
}

/// A function.
#[derive(Drop)]
pub struct ParsedFunc {
    /// None for `void`.
    pub result: Option<MonType>,
    pub name: NameUse,
    pub parameters: Vec<ParsedRegister>,
    pub registers: Vec<ParsedRegister>,
    pub body: Vec<ParsedStmt>,
}

/// A global, or a literal where it has bytes.
#[derive(Drop)]
pub struct ParsedGlobal {
    pub name: NameUse,
    /// The place of the number.
    pub place: Place,
    pub size: i128,
    pub literal: Option<Name>,
}

/// A text: its globals and its functions, in order.
#[derive(Drop)]
pub struct ParsedProgram {
    pub globals: Vec<ParsedGlobal>,
    pub functions: Vec<ParsedFunc>,
}
