//! Declarations and statements (C99 6.7, 6.8).

use crate::expression::Expr;
use crate::logic::Annot;
use crate::place::Place;
use crate::types::CType;

/// An initialiser (C99 6.7.8).
#[derive(Drop)]
pub enum Init {
    One(Expr),
    /// A list in braces, at its `{`.
    Many(Place, Vec<Init>),
}

/// The declaration of one object. Its number is the offset of its place.
#[derive(Drop)]
pub struct Decl {
    /// The place of its name, or of its first token where it has no name.
    pub place: Place,
    pub name: u32,
    /// Whether it has a name.
    pub named: bool,
    pub ctype: CType,
    /// The place of its `=`, and what stands after it.
    pub init: Option<(Place, Init)>,
}

/// An item of a block.
#[derive(Drop)]
#[cycle(stmt)]
pub enum Item {
    Declare(Vec<Decl>),
    /// A declaration without declarators, at its `;`, of this type (C99 6.7 p2).
    Specify(Place, CType),
    Run(Stmt),
    Asserts(Vec<Annot>),
}

/// A case of a `switch`, at its word, with its value, or none for `default`, and its items (C99 6.8.1).
#[derive(Drop)]
#[cycle(stmt)]
pub struct Case {
    pub place: Place,
    pub value: Option<Expr>,
    pub items: Vec<Item>,
}

/// A statement, at its first token.
#[derive(Drop)]
#[cycle(stmt)]
pub struct Stmt {
    pub place: Place,
    pub kind: Box<StmtKind>,
}

#[derive(Drop)]
#[cycle(stmt)]
pub enum StmtKind {
    /// `;`
    Empty,
    /// `e;`
    Eval(Expr),
    Block(Vec<Item>),
    If(Expr, Stmt, Option<Stmt>),
    /// `while`, with its annotations, its condition and its body (C99 6.8.5.1).
    While(Vec<Annot>, Expr, Stmt),
    /// `do`, with its body and its condition (C99 6.8.5.2).
    Do(Stmt, Expr),
    /// `for`, with its annotations, its declaration or first expression, its condition, its step and its body (C99 6.8.5.3).
    For(Vec<Annot>, Option<Item>, Option<Expr>, Option<Expr>, Stmt),
    Break,
    Continue,
    Return(Option<Expr>),
    /// `switch`, with its cases (C99 6.8.4.2).
    Switch(Expr, Vec<Case>),
    /// `label:`, by the number of the label's name, and the statement behind it (C99 6.8.1).
    Labelled(u32, Stmt),
}
