//! Expressions (C99 6.5).

use crate::place::Place;
use crate::types::{CInt, CType};

/// A name where it is used.
#[derive(Clone, Copy, PartialEq, Eq, Debug)]
pub struct Use {
    /// The name's number in `Program::names`.
    pub name: u32,
    /// The number of the declaration that it denotes, by typing; `Use::LIBRARY` for a library name.
    pub decl: u32,
}

impl Use {
    /// The number that stands for the declaration of each library name.
    pub const LIBRARY: u32 = 4_294_967_295;
}

/// An operator of one operand (C99 6.5.3.3).
#[derive(Clone, Copy, PartialEq, Eq, Debug)]
pub enum UnOp {
    /// `+`
    Plus,
    /// `-`
    Minus,
    /// `!`
    Not,
    /// `~`
    Flip,
    /// `*` (C99 6.5.3.2)
    Deref,
    /// `&` (C99 6.5.3.2)
    Address,
}

/// An operator of two operands that are both evaluated (C99 6.5.5 to 6.5.12).
#[derive(Clone, Copy, PartialEq, Eq, Debug)]
pub enum BinOp {
    Add,
    Sub,
    Mul,
    Div,
    Rem,
    Shl,
    Shr,
    BitAnd,
    BitOr,
    BitXor,
    Eq,
    Ne,
    Lt,
    Le,
    Gt,
    Ge,
}

/// `++` and `--` before their operand (C99 6.5.3.1) and after it (C99 6.5.2.4).
#[derive(Clone, Copy, PartialEq, Eq, Debug)]
pub enum BumpOp {
    PreUp,
    PreDown,
    PostUp,
    PostDown,
}

/// An expression. Its place is its operator's token for a binary one and for `?:`, the first token of a prefix operator or a
/// cast, the operator of a postfix one, its `(` for a call, and else its token.
#[derive(Drop)]
#[cycle(expr)]
pub struct Expr {
    pub place: Place,
    pub kind: Box<ExprKind>,
    /// The type of its value, by typing.
    pub ctype: CType,
}

#[derive(Drop)]
#[cycle(expr)]
pub enum ExprKind {
    /// An integer literal, with the type that C99 6.4.4.1 gives it where there is one.
    Number(i128, Option<CInt>),
    /// A character literal (C99 6.4.4.4), by its value as a `char`.
    Letter(i8),
    /// A string literal (C99 6.4.5), by the bytes of the text before it, and after typing by its number in `Program::texts`.
    Text(u32),
    Variable(Use),
    Unary(UnOp, Expr),
    Binary(BinOp, Expr, Expr),
    /// `left && right` (C99 6.5.13).
    Both(Expr, Expr),
    /// `left || right` (C99 6.5.14).
    Either(Expr, Expr),
    /// `condition ? first : second` (C99 6.5.15).
    Choice(Expr, Expr, Expr),
    /// `left = right`, or `left op= right` where there is an operator (C99 6.5.16).
    Assign(Option<BinOp>, Expr, Expr),
    Bump(BumpOp, Expr),
    Call(Use, Vec<Expr>),
    /// `(type) operand` (C99 6.5.4). Typing puts one around each operand that is converted (C99 6.3.1.8).
    Cast(CType, Expr),
    /// `sizeof (type)` (C99 6.5.3.4).
    SizeOfType(CType),
    /// `sizeof operand` (C99 6.5.3.4).
    SizeOfExpr(Expr),
    /// `left[right]` (C99 6.5.2.1).
    Index(Expr, Expr),
    /// `left.name`, by the number of the member's name (C99 6.5.2.3).
    Dot(Expr, u32),
    /// `left->name`, by the number of the member's name.
    Arrow(Expr, u32),
    /// `left, right` (C99 6.5.17).
    Comma(Expr, Expr),
}
