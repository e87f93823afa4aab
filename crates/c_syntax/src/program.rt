//! Functions and whole files (C99 6.9).

use crate::expression::Expr;
use crate::logic::Annot;
use crate::name::Name;
use crate::place::Place;
use crate::statement::{Decl, Stmt};
use crate::types::CType;

/// A member of a struct, with its offset in bytes by layout.
#[derive(Drop)]
pub struct Member {
    pub place: Place,
    pub name: u32,
    pub ctype: CType,
    pub offset: u32,
}

/// A struct type. One whose members stand nowhere in the file has size 0.
#[derive(Drop)]
pub struct Layout {
    pub place: Place,
    pub tag: Option<u32>,
    pub members: Vec<Member>,
    pub size: u32,
    pub align: u32,
}

#[derive(Drop)]
pub struct Enumerator {
    pub place: Place,
    pub name: u32,
    pub value: Option<Expr>,
}

#[derive(Drop)]
pub struct EnumDef {
    pub place: Place,
    pub tag: Option<u32>,
    pub items: Vec<Enumerator>,
}

/// A named behavior of a contract (ACSL).
#[derive(Drop)]
pub struct Behavior {
    /// The place of its name.
    pub place: Place,
    pub name: u32,
    pub clauses: Vec<Annot>,
}

/// A function contract (ACSL).
#[derive(Drop)]
pub struct Contract {
    pub place: Place,
    pub clauses: Vec<Annot>,
    pub behaviors: Vec<Behavior>,
    /// The clauses `complete` and `disjoint`.
    pub covers: Vec<Annot>,
}

/// A function: a prototype, or a definition where it has a body.
#[derive(Drop)]
pub struct Func {
    /// The place of its name.
    pub place: Place,
    pub name: u32,
    pub result: CType,
    pub params: Vec<Decl>,
    pub contract: Option<Contract>,
    pub body: Option<Stmt>,
    /// The place of its closing brace.
    pub close: Place,
}

/// A string literal (C99 6.4.5).
#[derive(Drop)]
pub struct Text {
    pub place: Place,
    /// Its bytes, without the zero at the end.
    pub bytes: Name,
}

/// A file.
#[derive(Drop)]
pub struct Program {
    /// The names of the text, by number.
    pub names: Vec<Name>,
    /// Its string literals, in order.
    pub texts: Vec<Text>,
    pub structs: Vec<Layout>,
    pub enums: Vec<EnumDef>,
    /// What `typedef` declares, and declarations without declarators, each at its `;`, which have no name.
    pub typedefs: Vec<Decl>,
    pub globals: Vec<Decl>,
    pub funcs: Vec<Func>,
    /// Annotations that stand where none may.
    pub strays: Vec<Annot>,
}
