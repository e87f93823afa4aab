//! The syntax of annotated C (ISO/IEC 9899:1999 6.4 to 6.9, and ACSL): places, types and trees.
//!
//! A tree of a text has the text's places. Parts that a later phase fills in are said at their field.
#![tactic(auto)]

pub mod annotation;
pub mod code;
pub mod copy;
pub mod expression;
pub mod fault;
pub mod layout;
pub mod logic;
pub mod name;
pub mod place;
pub mod program;
pub mod refusal;
pub mod statement;
pub mod token;
pub mod types;

pub use annotation::{Kind, Range, Relation};
pub use expression::{BinOp, BumpOp, Expr, ExprKind, UnOp, Use};
pub use fault::{Limit, ReadFault};
pub use logic::{
    Annot, Binder, BlockFact, Body, Connective, Formula, FormulaKind, FormulaLinks, FormulaZone,
    FormulaZones, Guard, Guards, Label, Links, LogicType, MemoryQuestion, PointerOp, Pred,
    PredKind, Quantifier, Term, TermKind, Zone, ZoneKind, Zones,
};
pub use name::Name;
pub use place::Place;
pub use program::{Behavior, Contract, EnumDef, Enumerator, Func, Layout, Member, Program, Text};
pub use refusal::{FrontFault, Refusal};
pub use statement::{Case, Decl, Init, Item, Stmt, StmtKind};
pub use token::{Token, TokenKind, Tokens};
pub use types::{BlockKind, CInt, CType, How, Length, Segment, Width};
