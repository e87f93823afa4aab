//! Annotations (ACSL 2.2, 2.3, 2.4.3, 2.7): forms as they are read, terms of unbounded integers and of pointers, predicates, and the
//! clauses that they stand in.
//!
//! The place of a form is that of an expression of the same form: an operator's token for a binary one and for `?:`, the first
//! token of a prefix operator or a cast, the operator of a postfix one, the first relation of a chain, and else its token.

use crate::annotation::{Kind, Range, Relation};
use crate::expression::{BinOp, UnOp, Use};
use crate::place::Place;
use crate::types::CType;

/// The type that a cast of annotations names (ACSL 2.2.3).
#[derive(Drop)]
pub enum LogicType {
    /// The unbounded integers.
    Integer,
    /// A type of C.
    Of(CType),
}

/// A connective of predicates (ACSL 2.2, table 2.1).
#[derive(Clone, Copy, PartialEq, Eq, Debug)]
pub enum Connective {
    /// `&&`
    And,
    /// `^^`
    Xor,
    /// `||`
    Or,
    /// `==>`
    Implies,
    /// `<==>`
    Iff,
}

/// How a pointer moves by so many elements (C99 6.5.6 p8).
#[derive(Clone, Copy, PartialEq, Eq, Debug)]
pub enum PointerOp {
    /// `p + i`
    Plus,
    /// `p - i`
    Minus,
}

/// What is told of the block that a pointer is inside (ACSL 2.7).
#[derive(Clone, Copy, PartialEq, Eq, Debug)]
pub enum BlockFact {
    /// `\base_addr`
    BaseAddr,
    /// `\block_length`
    BlockLength,
    /// `\offset`
    Offset,
}

/// What is asked about the bytes of a zone (ACSL 2.7).
#[derive(Clone, Copy, PartialEq, Eq, Debug)]
pub enum MemoryQuestion {
    /// `\valid`
    Valid,
    /// `\valid_read`
    ValidRead,
    /// `\initialized`
    Initialized,
}

/// Where a term is evaluated (ACSL 2.4.3).
#[derive(Clone, Copy, PartialEq, Eq, Debug)]
pub enum Label {
    /// Where its annotation stands; `Post` is this one.
    Here,
    /// At the beginning of the call; `Old` is this one.
    Pre,
    /// At the last passage of a label of C, by the number of its name.
    Marked(u32),
}

/// A quantifier (ACSL 2.2).
#[derive(Clone, Copy, PartialEq, Eq, Debug)]
pub enum Quantifier {
    /// `\forall`
    ForAll,
    /// `\exists`
    Exists,
}

/// A form of annotations as it is read. Typing tells terms from predicates.
#[derive(Drop)]
#[cycle(formula)]
pub struct Formula {
    pub place: Place,
    pub kind: Box<FormulaKind>,
}

#[derive(Drop)]
#[cycle(formula)]
pub enum FormulaKind {
    Number(i128),
    /// A character literal, by its value as a `char`.
    Letter(i8),
    /// `\true` or `\false`.
    Truth(bool),
    Name(Use),
    Unary(UnOp, Formula),
    Binary(BinOp, Formula, Formula),
    Cast(LogicType, Formula),
    /// `sizeof (type)`
    SizeOf(CType),
    /// `f0 r1 f1 .. rn fn`, with at least one relation.
    Chain(Formula, FormulaLinks),
    Connected(Connective, Formula, Formula),
    /// `condition ? first : second`
    Choice(Formula, Formula, Formula),
    /// `\null`
    Null,
    /// `left[right]`
    Index(Formula, Formula),
    /// `left.name`, by the number of the member's name.
    Dot(Formula, u32),
    /// `left->name`, by the number of the member's name.
    Arrow(Formula, u32),
    /// `\base_addr`, `\block_length` or `\offset`.
    Told(BlockFact, Formula),
    /// `\valid`, `\valid_read` or `\initialized`.
    Asks(MemoryQuestion, FormulaZone),
    /// `\separated`
    Separated(FormulaZones),
    /// `\result`
    Result,
    /// `\old (form)`
    Old(Formula),
    /// `\at (form, label)`, with the place and the number of the label's name.
    At(Formula, Place, u32),
    /// A quantifier, with the type and the names of its binders, each with its place and its name's number.
    Quantified(Quantifier, LogicType, Vec<(Place, u32)>, Formula),
}

/// Bytes that a predicate is about, as they are read.
#[derive(Drop)]
#[cycle(formula)]
pub enum FormulaZone {
    /// What a pointer points to.
    Object(Formula),
    /// `p + (lo .. hi)`: the elements from one to another, both included. The place is that of the `+`.
    Elements(Place, Formula, Formula, Formula),
}

/// Zones in their order.
#[derive(Drop)]
#[cycle(formula)]
pub enum FormulaZones {
    End,
    More(FormulaZone, Box<FormulaZones>),
}

/// The relations of a chain, each with its token's place and the form after it.
#[derive(Drop)]
#[cycle(formula)]
pub enum FormulaLinks {
    End,
    Link(Place, Relation, Formula, Box<FormulaLinks>),
}

/// A term.
#[derive(Drop)]
#[cycle(logic)]
pub struct Term {
    pub place: Place,
    pub kind: Box<TermKind>,
    /// The C type of a term that reads a place; none for a mathematical integer.
    pub ctype: Option<CType>,
    /// The range of its values, by the inference of ranges; both bounds are 0 until then.
    pub range: Range,
}

#[derive(Drop)]
#[cycle(logic)]
pub enum TermKind {
    Number(i128),
    /// A character literal, by its value as a `char`.
    Letter(i8),
    Variable(Use),
    /// `+`, `-` or `~`.
    Unary(UnOp, Term),
    Binary(BinOp, Term, Term),
    /// `(type) term`
    Cast(LogicType, Term),
    /// `condition ? first : second`
    Choice(Pred, Term, Term),
    /// `\null`, or `NULL`.
    Null,
    /// The place that a pointer points to, `*p`. `p[i]` is `*(p + i)`, and `p->m` is `(*p).m`.
    Deref(Term),
    /// The member at an offset in bytes of a struct's place.
    Member(u32, Term),
    /// The address of a place, `&x`.
    Address(Term),
    /// `p + i` or `p - i`, of elements of this size.
    Moved(PointerOp, u32, Term, Term),
    /// `p - q`, of elements of this size.
    Difference(u32, Term, Term),
    /// `\base_addr`, `\block_length` or `\offset`.
    Told(BlockFact, Term),
    /// A name that annotations give a meaning of their own, as `\result`.
    Named(Use),
    /// The value of a term at a label: `\at(term, label)` and `\old(term)`.
    At(Label, Term),
}

/// The relations of a chain, each with its token's place and the term after it.
#[derive(Drop)]
#[cycle(logic)]
pub enum Links {
    End,
    Link(Place, Relation, Term, Box<Links>),
}

/// A predicate.
#[derive(Drop)]
#[cycle(logic)]
pub struct Pred {
    pub place: Place,
    pub kind: Box<PredKind>,
}

#[derive(Drop)]
#[cycle(logic)]
pub enum PredKind {
    /// `\true` or `\false`.
    Truth(bool),
    /// A term where a predicate is wanted: it isn't 0.
    NonZero(Term),
    /// `t0 r1 t1 .. rn tn`: the conjunction of its neighbours.
    Chain(Term, Links),
    Not(Pred),
    Connected(Connective, Pred, Pred),
    /// `condition ? first : second`
    Choice(Pred, Pred, Pred),
    /// A quantifier, with the chains of its guard and what stands within them.
    Quantified(Quantifier, Guards, Pred),
    /// `\valid`, `\valid_read` or `\initialized`.
    Asks(MemoryQuestion, Zone),
    /// `\separated`, of zones of which no two share a byte.
    Separated(Zones),
}

/// A binder of a quantifier, at its name. Its number is the offset of its place.
#[derive(Drop)]
pub struct Binder {
    pub place: Place,
    /// The type whose values it tries.
    pub kind: LogicType,
    /// Whether it stands after a `<`, and not after a `<=`.
    pub above: bool,
}

/// A chain of a guard: `lower <= first <= other <= upper`, with one binder or more between its bounds.
#[derive(Drop)]
#[cycle(logic)]
pub struct Guard {
    pub lower: Term,
    pub first: Binder,
    pub others: Vec<Binder>,
    /// Whether `<` stands before its upper bound, and not `<=`.
    pub below: bool,
    pub upper: Term,
}

/// The chains of a guard in their order.
#[derive(Drop)]
#[cycle(logic)]
pub enum Guards {
    End,
    More(Guard, Box<Guards>),
}

/// Bytes that a predicate is about. Its place is that of its pointer, or of the `+` before a range.
#[derive(Drop)]
#[cycle(logic)]
pub struct Zone {
    pub place: Place,
    /// Of what the pointer points to, in bytes.
    pub size: u32,
    pub align: u32,
    pub kind: Box<ZoneKind>,
}

#[derive(Drop)]
#[cycle(logic)]
pub enum ZoneKind {
    /// What the pointer points to.
    Object(Term),
    /// `p + (lo .. hi)`: the elements from one to another, both included.
    Elements(Term, Term, Term),
}

/// Zones in their order.
#[derive(Drop)]
#[cycle(logic)]
pub enum Zones {
    End,
    More(Zone, Box<Zones>),
}

/// What a clause says.
#[derive(Drop)]
pub enum Body {
    /// As it is read.
    Raw(Formula),
    /// A predicate, by typing.
    Truth(Pred),
    /// The value of a variant, by typing.
    Value(Term),
    /// The behaviors that `complete` and `disjoint` name, each at its place; none are all of them.
    Names(Vec<(Place, u32)>),
}

/// A clause of an annotation.
#[derive(Drop)]
pub struct Annot {
    /// Its number in text order over the whole file, from 1.
    pub number: u32,
    pub kind: Kind,
    /// The place of its first word.
    pub place: Place,
    pub body: Body,
}
