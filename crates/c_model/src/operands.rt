//! What is read of an expression's operands, and of a declarator (C99 6.5, 6.7.5).

use c_syntax::BinOp;

/// What form an operand has, by which it can go on.
#[derive(Clone, Copy, PartialEq, Eq, Debug)]
pub enum Form {
    /// A postfix expression, which `=` may follow.
    Postfix,
    /// A unary expression, which `=` may follow.
    Unary,
    Cast,
    /// A type in parentheses, which `sizeof` takes.
    TypeName,
}

/// What a type in parentheses begins.
#[derive(Clone, Copy, PartialEq, Eq, Debug)]
pub enum TypeUse {
    /// A cast.
    Casts,
    /// What `sizeof` takes.
    Sizes,
    Nothing,
}

/// What an expression without commas may be (C99 6.5.15, 6.5.16).
#[derive(Clone, Copy, PartialEq, Eq, Debug)]
pub enum Level {
    /// An assignment too, as in an argument.
    Assignment,
    /// None, as after `:`.
    Conditional,
}

/// The stars of a declarator.
#[derive(Clone, Copy, PartialEq, Eq, Debug)]
pub struct Stars {
    pub count: usize,
    /// Whether `const` stands after one of them.
    pub constant: bool,
}

/// What joins two operands.
#[derive(Clone, Copy, PartialEq, Eq, Debug)]
pub enum Connective {
    Operator(BinOp),
    /// `&&`
    And,
    /// `||`
    Or,
}
