//! Declarators (C99 6.7.5, 6.7.6).

ghost use Rattle.std.specs.Prelude.{◌≡◌, ◌≤◌, ◌<◌, length, IfOk, IfErr, option_map};
ghost use Rattle.c_syntax.specs.Ctypes.{plain_type};
ghost use Rattle.c_syntax.specs.Statements.{plain_decl, plain_init};
ghost use Rattle.c_syntax.specs.Programs.{plain_member};
ghost use Rattle.c_model.specs.ExpressionGrammar.{pointers};
ghost use Rattle.c_model.specs.DeclarationGrammar.{names_function, is_nothing, declared_by, nameless, parameter_of, member_of};
ghost use Rattle.c_model.specs.DeclarationGrammar.{declared_name, dtor, full_dtor, maybe_name, abstract_dtor, full_abstract_dtor};
ghost use Rattle.c_expr_parser.specs.Reading.{plain_base};
ghost use Rattle.token_reader.specs.Reading.{Gives, TakesNoMemory, plain_list};
ghost use Rattle.c_declaration_parser.specs.Reading.{plain_declarator, plain_abstract};

use c_expr_parser::declarator::{Bracket, declared_type};
use c_expr_parser::full::{MOST, behind, passed, resumed, window};
use c_expr_parser::kinds::NAME;
use c_expr_parser::lengths::brackets;
use c_expr_parser::terminals::{any_name, name, next_is};
use c_expr_parser::types::{BaseType, ctype_of, star_words};
use c_model::declarations::Named;
use c_model::operands::Stars;
use c_model::vocabulary::Word;
use c_syntax::fault::ReadFault;
use c_syntax::{CType, Decl, Init, Member, Place, Token};
use smallvec::SmallVec;
use std::alloc::{AllocError, Global};

/// A declarator: its stars, its name with the place, and its brackets.
#[derive(Drop)]
pub struct Declarator {
    pub stars: Stars,
    pub name: u32,
    pub place: Place,
    pub brackets: SmallVec<Bracket, 4>,
}

/// The same where the name may be left out.
#[derive(Drop)]
pub struct AbstractDeclarator {
    pub stars: Stars,
    pub name: Option<(u32, Place)>,
    pub brackets: SmallVec<Bracket, 4>,
}

/// Whether it may name a function.
pub fn names_function(d: &Declarator) -> bool
    ensures { result ≡ names_function (plain_declarator d.now) }
{
    if d.stars.constant {
        return false;
    }
    match d.brackets.as_slice() {
        [] => true,
        [_, ..] => false,
    }
}

/// Whether nothing is read.
pub(crate) fn is_nothing(d: &AbstractDeclarator) -> bool
    ensures { result ≡ is_nothing (plain_abstract d.now) }
{
    if d.name.is_some() || d.stars.count > 0 {
        return false;
    }
    match d.brackets.as_slice() {
        [] => true,
        [_, ..] => false,
    }
}

/// What is declared by a declarator after words for the type.
pub fn declared_by(
    alloc: Global,
    base: BaseType,
    d: Declarator,
    init: Option<(Place, Init)>,
) -> Result<Decl, AllocError>
    ensures { IfOk result (λ x. plain_decl x ≡ declared_by (plain_base base) (plain_declarator d) (option_map (λ i. (i.0, plain_init i.1)) init)) }
{
    let ctype = declared_type(alloc, base, d.stars, d.brackets)?;
    Ok(Decl {
        place: d.place,
        name: d.name,
        named: true,
        ctype,
        init,
    })
}

/// The type of a function's result, from words for the type and the stars of its declarator.
pub fn pointers(alloc: Global, base: BaseType, stars: Stars) -> Result<CType, AllocError>
    ensures { IfOk result (λ t. plain_type t ≡ pointers stars.count (plain_base base)) }
{
    declared_type(alloc, base, stars, SmallVec::new(alloc))
}

/// A declaration without declarators, at its `;`.
pub fn nameless(base: BaseType, place: Place) -> Decl
    ensures { plain_decl result ≡ nameless (plain_base base) place }
{
    Decl {
        place,
        name: 0,
        named: false,
        ctype: ctype_of(base),
        init: None,
    }
}

/// A parameter, which has the number and the place of its first word where it has no name.
pub(crate) fn parameter_of(
    alloc: Global,
    base: BaseType,
    number: u32,
    place: Place,
    d: AbstractDeclarator,
) -> Result<Decl, AllocError>
    ensures { IfOk result (λ x. plain_decl x ≡ parameter_of (plain_base base) (number, place) (plain_abstract d)) }
{
    let ctype = declared_type(alloc, base, d.stars, d.brackets)?;
    match d.name {
        Some((name, place)) => Ok(Decl {
            place,
            name,
            named: true,
            ctype,
            init: None,
        }),
        None => Ok(Decl {
            place,
            name: number,
            named: false,
            ctype,
            init: None,
        }),
    }
}

/// A member of a struct.
pub(crate) fn member_of(alloc: Global, base: BaseType, d: Declarator) -> Result<Member, AllocError>
    ensures { IfOk result (λ m. plain_member m ≡ member_of (plain_base base) (plain_declarator d)) }
{
    let ctype = declared_type(alloc, base, d.stars, d.brackets)?;
    Ok(Member {
        place: d.place,
        name: d.name,
        ctype,
        offset: 0,
    })
}

fn declared_name<'a>(
    words: &[Word],
    named: Named,
    tokens: &'a [Token],
) -> Result<(u32, Place, &'a [Token]), ReadFault>
    ensures read { Gives (λ x. ((x.0, x.1), plain_list x.2.now)) result ((declared_name words.now named).parse (plain_list tokens.now)) }
    ensures shorter { IfOk result (λ x. length x.2.now < length tokens.now) }
    ensures sure { IfErr result TakesNoMemory }
{
    match named {
        Named::Ordinary => name(words, tokens),
        Named::Member => any_name(words, tokens),
    }
}

/// `{ "*" { "const" } } NAME { "[" [ comma ] "]" }`
#[tactic(auto, unfolding(c_model::specs::DeclarationGrammar::dtor, c_model::specs::DeclarationGrammar::lengths))]
fn dtor<'a>(
    alloc: Global,
    words: &[Word],
    named: Named,
    tokens: &'a [Token],
) -> Result<(Declarator, &'a [Token]), ReadFault>
    ensures read { Gives (λ x. (plain_declarator x.0, plain_list x.1.now)) result ((dtor words.now named).parse (plain_list tokens.now)) }
    ensures shorter { IfOk result (λ x. length x.1.now ≤ length tokens.now) }
{
    let (stars, rest) = star_words(words, tokens)?;
    let (name, place, rest) = declared_name(words, named, rest)?;
    let (brackets, rest) = brackets(alloc, words, rest)?;
    let read = Declarator {
        stars,
        name,
        place,
        brackets,
    };
    Ok((read, rest))
}

/// The same, within the limit of its tokens.
#[tactic(auto, using(crate::proofs::DeclaratorWindows::declarator_rules))]
pub fn full_dtor<'a>(
    alloc: Global,
    words: &[Word],
    named: Named,
    tokens: &'a [Token],
) -> Result<(Declarator, &'a [Token]), ReadFault>
    ensures read { Gives (λ x. (plain_declarator x.0, plain_list x.1.now)) result ((full_dtor words.now named).parse (plain_list tokens.now)) }
    ensures shorter { IfOk result (λ x. length x.1.now ≤ length tokens.now) }
{
    if tokens.len() <= MOST {
        return dtor(alloc, words, named, tokens);
    }
    match dtor(alloc, words, named, window(tokens, MOST)) {
        Ok((d, rest)) => match rest.len() {
            0 => Err(passed(tokens.len(), MOST)),
            left => Ok((d, behind(tokens, MOST, left))),
        },
        Err(fault) => Err(resumed(fault, tokens.len(), MOST)),
    }
}

/// `[ NAME ]`
#[tactic(auto, unfolding(c_model::specs::DeclarationGrammar::maybe_name))]
fn maybe_name<'a>(
    words: &[Word],
    tokens: &'a [Token],
) -> Result<(Option<(u32, Place)>, &'a [Token]), ReadFault>
    ensures read { Gives (λ x. (x.0, plain_list x.1.now)) result ((maybe_name words.now).parse (plain_list tokens.now)) }
    ensures shorter { IfOk result (λ x. length x.1.now ≤ length tokens.now) }
    ensures sure { IfErr result TakesNoMemory }
{
    if next_is(words, NAME, tokens) {
        let (number, place, rest) = name(words, tokens)?;
        Ok((Some((number, place)), rest))
    } else {
        Ok((None, tokens))
    }
}

/// `{ "*" { "const" } } [ NAME ] { "[" [ comma ] "]" }`
#[tactic(auto, unfolding(c_model::specs::DeclarationGrammar::abstract_dtor, c_model::specs::DeclarationGrammar::lengths))]
fn abstract_dtor<'a>(
    alloc: Global,
    words: &[Word],
    tokens: &'a [Token],
) -> Result<(AbstractDeclarator, &'a [Token]), ReadFault>
    ensures read { Gives (λ x. (plain_abstract x.0, plain_list x.1.now)) result ((abstract_dtor words.now).parse (plain_list tokens.now)) }
    ensures shorter { IfOk result (λ x. length x.1.now ≤ length tokens.now) }
{
    let (stars, rest) = star_words(words, tokens)?;
    let (name, rest) = maybe_name(words, rest)?;
    let (brackets, rest) = brackets(alloc, words, rest)?;
    let read = AbstractDeclarator {
        stars,
        name,
        brackets,
    };
    Ok((read, rest))
}

/// The same, within the limit of its tokens.
#[tactic(auto, using(crate::proofs::DeclaratorWindows::abstract_rules))]
pub(crate) fn full_abstract_dtor<'a>(
    alloc: Global,
    words: &[Word],
    tokens: &'a [Token],
) -> Result<(AbstractDeclarator, &'a [Token]), ReadFault>
    ensures read { Gives (λ x. (plain_abstract x.0, plain_list x.1.now)) result ((full_abstract_dtor words.now).parse (plain_list tokens.now)) }
    ensures shorter { IfOk result (λ x. length x.1.now ≤ length tokens.now) }
{
    if tokens.len() <= MOST {
        return abstract_dtor(alloc, words, tokens);
    }
    match abstract_dtor(alloc, words, window(tokens, MOST)) {
        Ok((d, rest)) => match rest.len() {
            0 => Err(passed(tokens.len(), MOST)),
            left => Ok((d, behind(tokens, MOST, left))),
        },
        Err(fault) => Err(resumed(fault, tokens.len(), MOST)),
    }
}
