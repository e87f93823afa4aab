//! Structs and enums (C99 6.7.2.1, 6.7.2.2).

ghost use Rattle.std.specs.Prelude.{◌≡◌, map, option_map, cond, IfOk, IfErr, [], ◌∷◌, ◌++◌};
ghost use Rattle.c_syntax.specs.declared.fault.ReadFault.TheVariants.{Memory};
ghost use Rattle.grammar.specs.Syntax.{sees};
ghost use Rattle.c_syntax.specs.Expressions.{plain_expr};
ghost use Rattle.c_syntax.specs.Programs.{plain_member, plain_enumerator};
ghost use Rattle.c_model.specs.ExpressionGrammar.{name_kind, first_any_name, keyword_kind, kind};
ghost use Rattle.c_model.specs.DeclarationGrammar.{tag_word, tag_type, member_of, with_struct, with_enum, maybe_comma};
ghost use Rattle.c_model.specs.DeclarationGrammar.{next_item, item_once, more_items, listed};
ghost use Rattle.c_model.specs.DeclarationGrammar.{next_member, members_of, behind_tag, behind_word, tagged_type, braced, member, more_members};
ghost use Rattle.c_model.specs.DeclarationGrammar.{struct_braces, constant_value, constant, enum_braces, braces_in};
ghost use Rattle.c_expr_parser.specs.Reading.{plain_base};
ghost use Rattle.token_reader.specs.Reading.{Gives, plain_list};
ghost use Rattle.c_declaration_parser.specs.Reading.{plain_declarator, plain_head, plain_definitions, other_members};

use crate::declarator::{Declarator, full_dtor, member_of};
use c_expr_parser::full::full_expression_at;
use c_expr_parser::kinds::{
    ASSIGN, COMMA, ENUM, LEFT_BRACE, NAME, RIGHT_BRACE, SEMICOLON, STRUCT, TYPE_NAME, kind,
};
use c_expr_parser::terminals::{any_name, kept, name, next_begins_type, next_is, skip};
use c_expr_parser::types::{BaseType, consts, untagged_base};
use c_model::declarations::{Named, Tagged};
use c_model::operands::Level;
use c_model::vocabulary::Word;
use c_syntax::fault::{Limit, ReadFault};
use c_syntax::{CInt, EnumDef, Enumerator, Expr, Layout, Member, Place, Token};
use std::alloc::Global;
use token_reader::terminals::left;

/// What stands before the braces of a struct or an enum, at its tag, or at the word where it has no tag.
#[derive(Clone, Copy)]
pub struct TagHead {
    pub defines: Tagged,
    pub place: Place,
    pub tag: Option<u32>,
}

/// The structs and enums that are defined so far.
#[derive(Drop)]
pub struct Definitions {
    pub structs: Vec<Layout>,
    pub enums: Vec<EnumDef>,
}

/// Whether a tag or the name of a member comes next.
fn next_is_any_name(words: &[Word], tokens: &[Token]) -> bool
    ensures { result ≡ sees (kind words.now) first_any_name (plain_list tokens.now) }
{
    match tokens {
        [] => false,
        [token, ..] => {
            let k = kind(words, token);
            k == NAME || k == TYPE_NAME
        }
    }
}

/// The kind of the word for a definition.
fn tag_kind(defines: Tagged) -> u32
    ensures { result ≡ keyword_kind (tag_word defines) }
{
    match defines {
        Tagged::Struct => STRUCT,
        Tagged::Enum => ENUM,
    }
}

/// The type with this tag.
fn tag_type(defines: Tagged, name: u32, place: Place) -> BaseType
    ensures { plain_base result ≡ tag_type defines (name, place) }
{
    match defines {
        Tagged::Struct => BaseType::StructTag(name, place),
        Tagged::Enum => BaseType::EnumTag(name, place),
    }
}

/// A struct, whose size and offsets are set by typing. Of more than 2^32 - 1 there is no number: then memory runs out.
fn with_struct(
    head: TagHead,
    members: Vec<Member>,
    definitions: Definitions,
) -> Result<(BaseType, Definitions), ReadFault>
    ensures made { IfOk result (λ x. (plain_base x.0, plain_definitions x.1)
        ≡ with_struct (plain_head head) (map plain_member members.items) (plain_definitions definitions)) }
    ensures memory { IfErr result (λ e. e ≡ Memory) }
{
    let mut definitions = definitions;
    let number = definitions.structs.len();
    if number > u32::MAX as usize {
        return Err(ReadFault::Memory);
    }
    definitions.structs.push(Layout {
        place: head.place,
        tag: head.tag,
        members,
        size: 0,
        align: 0,
    })?;
    Ok((BaseType::Struct(number as u32), definitions))
}

/// An enum, whose type is `int`.
fn with_enum(
    head: TagHead,
    items: Vec<Enumerator>,
    definitions: Definitions,
) -> Result<(BaseType, Definitions), ReadFault>
    ensures made { IfOk result (λ x. (plain_base x.0, plain_definitions x.1)
        ≡ with_enum (plain_head head) (map plain_enumerator items.items) (plain_definitions definitions)) }
    ensures memory { IfErr result (λ e. e ≡ Memory) }
{
    let mut definitions = definitions;
    definitions.enums.push(EnumDef {
        place: head.place,
        tag: head.tag,
        items,
    })?;
    Ok((BaseType::Int(CInt::I32), definitions))
}

// ---- enums

/// `[ "=" cond ]`
#[tactic(auto, unfolding(c_model::specs::DeclarationGrammar::constant_value))]
fn constant_value<'a>(
    alloc: Global,
    words: &[Word],
    tokens: &'a [Token],
) -> Result<(Option<Expr>, &'a [Token]), ReadFault>
    ensures { Gives (λ x. (option_map plain_expr x.0, plain_list x.1.now)) result ((constant_value words.now).parse (plain_list tokens.now)) }
{
    if next_is(words, ASSIGN, tokens) {
        let (_, rest) = skip(words, ASSIGN, tokens)?;
        let (e, rest) = full_expression_at(alloc, words, Level::Conditional, rest)?;
        Ok((Some(e), rest))
    } else {
        Ok((None, tokens))
    }
}

/// `NAME [ "=" cond ]`
#[tactic(auto, unfolding(c_model::specs::DeclarationGrammar::constant))]
fn constant<'a>(
    alloc: Global,
    words: &[Word],
    tokens: &'a [Token],
) -> Result<(Enumerator, &'a [Token]), ReadFault>
    ensures { Gives (λ x. (plain_enumerator x.0, plain_list x.1.now)) result ((constant words.now).parse (plain_list tokens.now)) }
{
    let (name, place, rest) = name(words, tokens)?;
    let (value, rest) = constant_value(alloc, words, rest)?;
    Ok((Enumerator { place, name, value }, rest))
}

/// `[ "," ]`, behind these constants.
#[tactic(auto, unfolding(c_model::specs::DeclarationGrammar::maybe_comma))]
fn maybe_comma<'a>(
    words: &[Word],
    all: Vec<Enumerator>,
    tokens: &'a [Token],
) -> Result<(Vec<Enumerator>, bool, &'a [Token]), ReadFault>
    ensures { Gives (λ x. ((map plain_enumerator x.0.items, x.1), plain_list x.2.now)) result
        ((maybe_comma words.now (map plain_enumerator all.items)).parse (plain_list tokens.now)) }
{
    if next_is(words, COMMA, tokens) {
        let (_, rest) = skip(words, COMMA, tokens)?;
        Ok((all, true, rest))
    } else {
        Ok((all, false, tokens))
    }
}

/// A constant, and the comma behind it if there is one.
#[tactic(auto, unfolding(c_model::specs::DeclarationGrammar::next_item))]
fn next_constant<'a>(
    alloc: Global,
    words: &[Word],
    all: Vec<Enumerator>,
    tokens: &'a [Token],
) -> Result<(Vec<Enumerator>, bool, &'a [Token]), ReadFault>
    ensures { Gives (λ x. ((map plain_enumerator x.0.items, x.1), plain_list x.2.now)) result
        ((next_item words.now (constant words.now) (map plain_enumerator all.items)).parse (plain_list tokens.now)) }
{
    let mut all = all;
    let (one, rest) = constant(alloc, words, tokens)?;
    all.push(one)?;
    maybe_comma(words, all, rest)
}

/// The same, where a comma stands before it.
#[tactic(auto, unfolding(c_model::specs::DeclarationGrammar::item_once))]
fn constant_once<'a>(
    alloc: Global,
    words: &[Word],
    all: Vec<Enumerator>,
    comma: bool,
    tokens: &'a [Token],
) -> Result<(Vec<Enumerator>, bool, &'a [Token]), ReadFault>
    ensures { Gives (λ x. ((map plain_enumerator x.0.items, x.1), plain_list x.2.now)) result
        ((item_once words.now (constant words.now) (map plain_enumerator all.items, comma)).parse (plain_list tokens.now)) }
{
    if comma {
        next_constant(alloc, words, all, tokens)
    } else {
        Err(ReadFault::At(left(tokens)))
    }
}

/// Whether the constants go on, after a comma or without one.
fn next_is_constant(words: &[Word], comma: bool, tokens: &[Token]) -> bool
    ensures { result ≡ sees (kind words.now) (cond comma (name_kind ∷ []) []) (plain_list tokens.now) }
{
    if !comma {
        return false;
    }
    match tokens {
        [] => false,
        [token, ..] => kind(words, token) == NAME,
    }
}

/// The constants after those that are read.
#[tactic(auto, using(crate::proofs::DeclarationSteps::constants_rules))]
fn more_constants<'a>(
    alloc: Global,
    words: &[Word],
    all: Vec<Enumerator>,
    comma: bool,
    tokens: &'a [Token],
) -> Result<(Vec<Enumerator>, bool, &'a [Token]), ReadFault>
    ensures { Gives (λ x. ((map plain_enumerator x.0.items, x.1), plain_list x.2.now)) result
        ((more_items words.now (name_kind ∷ []) (constant words.now) (map plain_enumerator all.items, comma)).parse (plain_list tokens.now)) }
{
    let mut all = all;
    let mut comma = comma;
    let mut rest = tokens;
    'turn: while next_is_constant(words, comma, rest) {
        let (more, next, after) = constant_once(alloc, words, all, comma, rest)?;
        all = more;
        comma = next;
        rest = after;
    }
    Ok((all, comma, rest))
}

/// `one { "," one } [ "," ] "}"`
#[tactic(auto, unfolding(c_model::specs::DeclarationGrammar::listed))]
fn constants<'a>(
    alloc: Global,
    words: &[Word],
    tokens: &'a [Token],
) -> Result<(Vec<Enumerator>, &'a [Token]), ReadFault>
    ensures { Gives (λ x. (map plain_enumerator x.0.items, plain_list x.1.now)) result
        ((listed words.now (name_kind ∷ []) (constant words.now)).parse (plain_list tokens.now)) }
{
    let (all, comma, rest) = next_constant(alloc, words, Vec::new(alloc), tokens)?;
    let (all, _, rest) = more_constants(alloc, words, all, comma, rest)?;
    let (_, rest) = skip(words, RIGHT_BRACE, rest)?;
    Ok((all, rest))
}

/// `"{" one { "," one } [ "," ] "}"`
#[tactic(auto, unfolding(c_model::specs::DeclarationGrammar::enum_braces))]
fn enum_braces<'a>(
    alloc: Global,
    words: &[Word],
    head: TagHead,
    definitions: Definitions,
    tokens: &'a [Token],
) -> Result<(BaseType, Definitions, &'a [Token]), ReadFault>
    ensures { Gives (λ x. ((plain_base x.0, plain_definitions x.1), plain_list x.2.now)) result
        ((enum_braces words.now (plain_head head) (plain_definitions definitions)).parse (plain_list tokens.now)) }
{
    let (_, rest) = skip(words, LEFT_BRACE, tokens)?;
    let (items, rest) = constants(alloc, words, rest)?;
    let (base, definitions) = with_enum(head, items, definitions)?;
    Ok((base, definitions, rest))
}

// ---- structs

/// The members and this one.
fn with_member(
    alloc: Global,
    base: BaseType,
    all: Vec<Member>,
    d: Declarator,
) -> Result<Vec<Member>, ReadFault>
    ensures made { IfOk result (λ v. map plain_member v.items ≡ map plain_member all.items ++ member_of (plain_base base) (plain_declarator d) ∷ []) }
    ensures memory { IfErr result (λ e. e ≡ Memory) }
{
    let mut all = all;
    let one = member_of(alloc, base, d)?;
    all.push(one)?;
    Ok(all)
}

/// `"," dtor`, after these members.
#[tactic(auto, unfolding(c_model::specs::DeclarationGrammar::next_member))]
fn next_member<'a>(
    alloc: Global,
    words: &[Word],
    base: BaseType,
    all: Vec<Member>,
    tokens: &'a [Token],
) -> Result<(Vec<Member>, &'a [Token]), ReadFault>
    ensures { Gives (λ x. (map plain_member x.0.items, plain_list x.1.now)) result
        ((next_member words.now (plain_base base) (map plain_member all.items)).parse (plain_list tokens.now)) }
{
    let (_, rest) = skip(words, COMMA, tokens)?;
    let (d, rest) = full_dtor(alloc, words, Named::Member, rest)?;
    Ok((with_member(alloc, base, all, d)?, rest))
}

/// The members of the same words after those that are read.
#[tactic(auto, using(crate::proofs::DeclarationSteps::member_rules))]
fn other_members<'a>(
    alloc: Global,
    words: &[Word],
    base: BaseType,
    all: Vec<Member>,
    tokens: &'a [Token],
) -> Result<(Vec<Member>, &'a [Token]), ReadFault>
    ensures { Gives (λ x. (map plain_member x.0.items, plain_list x.1.now)) result
        ((other_members words.now (plain_base base) (map plain_member all.items)).parse (plain_list tokens.now)) }
{
    let mut all = all;
    let mut rest = tokens;
    'turn: while next_is(words, COMMA, rest) {
        let (more, after) = next_member(alloc, words, base, all, rest)?;
        all = more;
        rest = after;
    }
    Ok((all, rest))
}

/// `dtor { "," dtor } ";"`, after these members.
#[tactic(auto, unfolding(c_model::specs::DeclarationGrammar::members_of, c_model::specs::DeclarationGrammar::ended, crate::specs::Reading::other_members))]
fn members_of<'a>(
    alloc: Global,
    words: &[Word],
    base: BaseType,
    all: Vec<Member>,
    tokens: &'a [Token],
) -> Result<(Vec<Member>, &'a [Token]), ReadFault>
    ensures { Gives (λ x. (map plain_member x.0.items, plain_list x.1.now)) result
        ((members_of words.now (plain_base base) (map plain_member all.items)).parse (plain_list tokens.now)) }
{
    let (d, rest) = full_dtor(alloc, words, Named::Member, tokens)?;
    let all = with_member(alloc, base, all, d)?;
    let (all, rest) = other_members(alloc, words, base, all, rest)?;
    let (_, rest) = skip(words, SEMICOLON, rest)?;
    Ok((all, rest))
}

/// `[ braces ]`, after a tag.
#[tactic(auto, unfolding(c_model::specs::DeclarationGrammar::behind_tag))]
#[cycle(braces)]
fn behind_tag<'a>(
    alloc: Global,
    words: &[Word],
    levels: u32,
    defines: Tagged,
    name: u32,
    place: Place,
    definitions: Definitions,
    tokens: &'a [Token],
) -> Result<(BaseType, Definitions, &'a [Token]), ReadFault>
    ensures { Gives (λ x. ((plain_base x.0, plain_definitions x.1), plain_list x.2.now)) result
        ((behind_tag words.now (braces_in words.now levels) defines (name, place) (plain_definitions definitions)).parse (plain_list tokens.now)) }
{
    if next_is(words, LEFT_BRACE, tokens) {
        let head = TagHead {
            defines,
            place,
            tag: Some(name),
        };
        braces(alloc, words, levels, head, definitions, tokens)
    } else {
        Ok((tag_type(defines, name, place), definitions, tokens))
    }
}

/// `ANYNAME [ braces ] | braces`, after `struct` or `enum`.
#[tactic(auto, unfolding(c_model::specs::DeclarationGrammar::behind_word))]
#[cycle(braces)]
fn behind_word<'a>(
    alloc: Global,
    words: &[Word],
    levels: u32,
    defines: Tagged,
    place: Place,
    definitions: Definitions,
    tokens: &'a [Token],
) -> Result<(BaseType, Definitions, &'a [Token]), ReadFault>
    ensures { Gives (λ x. ((plain_base x.0, plain_definitions x.1), plain_list x.2.now)) result
        ((behind_word words.now (braces_in words.now levels) defines place (plain_definitions definitions)).parse (plain_list tokens.now)) }
{
    if next_is_any_name(words, tokens) {
        let (definitions, (name, place, rest)) = kept(definitions, any_name(words, tokens))?;
        behind_tag(
            alloc,
            words,
            levels,
            defines,
            name,
            place,
            definitions,
            rest,
        )
    } else {
        let head = TagHead {
            defines,
            place,
            tag: None,
        };
        braces(alloc, words, levels, head, definitions, tokens)
    }
}

#[tactic(auto, unfolding(c_model::specs::DeclarationGrammar::tagged_type))]
#[cycle(braces)]
fn tagged_type<'a>(
    alloc: Global,
    words: &[Word],
    levels: u32,
    defines: Tagged,
    definitions: Definitions,
    tokens: &'a [Token],
) -> Result<(BaseType, Definitions, &'a [Token]), ReadFault>
    ensures { Gives (λ x. ((plain_base x.0, plain_definitions x.1), plain_list x.2.now)) result
        ((tagged_type words.now (braces_in words.now levels) defines (plain_definitions definitions)).parse (plain_list tokens.now)) }
{
    let (definitions, (place, rest)) = kept(definitions, skip(words, tag_kind(defines), tokens))?;
    behind_word(alloc, words, levels, defines, place, definitions, rest)
}

/// A type, which may be defined there.
#[tactic(auto, unfolding(c_model::specs::DeclarationGrammar::braced))]
#[cycle(braces)]
pub(crate) fn braced<'a>(
    alloc: Global,
    words: &[Word],
    levels: u32,
    definitions: Definitions,
    tokens: &'a [Token],
) -> Result<(BaseType, Definitions, &'a [Token]), ReadFault>
    ensures { Gives (λ x. ((plain_base x.0, plain_definitions x.1), plain_list x.2.now)) result
        ((braced words.now (braces_in words.now levels) (plain_definitions definitions)).parse (plain_list tokens.now)) }
{
    if next_is(words, STRUCT, tokens) {
        tagged_type(alloc, words, levels, Tagged::Struct, definitions, tokens)
    } else if next_is(words, ENUM, tokens) {
        tagged_type(alloc, words, levels, Tagged::Enum, definitions, tokens)
    } else {
        let (definitions, (base, rest)) = kept(definitions, untagged_base(words, tokens))?;
        Ok((base, definitions, rest))
    }
}

/// Members of the same words, after these.
#[tactic(auto, unfolding(c_model::specs::DeclarationGrammar::member))]
#[cycle(braces)]
fn member<'a>(
    alloc: Global,
    words: &[Word],
    levels: u32,
    all: Vec<Member>,
    definitions: Definitions,
    tokens: &'a [Token],
) -> Result<(Vec<Member>, Definitions, &'a [Token]), ReadFault>
    ensures { Gives (λ x. ((map plain_member x.0.items, plain_definitions x.1), plain_list x.2.now)) result
        ((member words.now (braces_in words.now levels) (map plain_member all.items, plain_definitions definitions)).parse (plain_list tokens.now)) }
{
    let ((all, definitions), rest) = kept((all, definitions), consts(words, tokens))?;
    let (all, (base, definitions, rest)) = kept(
        all,
        braced(alloc, words, levels, definitions, rest),
    )?;
    let ((all, definitions), rest) = kept((all, definitions), consts(words, rest))?;
    let (definitions, (all, rest)) = kept(definitions, members_of(alloc, words, base, all, rest))?;
    Ok((all, definitions, rest))
}

/// The members after those that are read.
#[tactic(auto, using(crate::proofs::DeclarationSteps::members_rules))]
#[cycle(braces)]
fn more_members<'a>(
    alloc: Global,
    words: &[Word],
    levels: u32,
    all: Vec<Member>,
    definitions: Definitions,
    tokens: &'a [Token],
) -> Result<(Vec<Member>, Definitions, &'a [Token]), ReadFault>
    ensures { Gives (λ x. ((map plain_member x.0.items, plain_definitions x.1), plain_list x.2.now)) result
        ((more_members words.now (braces_in words.now levels) (map plain_member all.items, plain_definitions definitions)).parse
        (plain_list tokens.now)) }
{
    let mut all = all;
    let mut definitions = definitions;
    let mut rest = tokens;
    'turn: while next_begins_type(words, rest) {
        let (more, next, after) = member(alloc, words, levels, all, definitions, rest)?;
        all = more;
        definitions = next;
        rest = after;
    }
    Ok((all, definitions, rest))
}

/// `"{" member { member } "}"`
#[tactic(auto, unfolding(c_model::specs::DeclarationGrammar::struct_braces))]
#[cycle(braces)]
fn struct_braces<'a>(
    alloc: Global,
    words: &[Word],
    levels: u32,
    head: TagHead,
    definitions: Definitions,
    tokens: &'a [Token],
) -> Result<(BaseType, Definitions, &'a [Token]), ReadFault>
    ensures { Gives (λ x. ((plain_base x.0, plain_definitions x.1), plain_list x.2.now)) result
        ((struct_braces words.now (braces_in words.now levels) (plain_head head) (plain_definitions definitions)).parse (plain_list tokens.now)) }
{
    let (definitions, (_, rest)) = kept(definitions, skip(words, LEFT_BRACE, tokens))?;
    let first = member(alloc, words, levels, Vec::new(alloc), definitions, rest);
    let (all, definitions, rest) = first?;
    let (all, definitions, rest) = more_members(alloc, words, levels, all, definitions, rest)?;
    let (parts, (_, rest)) = kept((all, definitions), skip(words, RIGHT_BRACE, rest))?;
    let (base, definitions) = with_struct(head, parts.0, parts.1)?;
    Ok((base, definitions, rest))
}

/// Braces of which at most so many levels are open at once, these included.
#[tactic(auto, using(crate::proofs::DeclarationSteps::braces_rules), unfolding(c_model::specs::DeclarationGrammar::braces_of))]
#[cycle(braces)]
fn braces<'a>(
    alloc: Global,
    words: &[Word],
    levels: u32,
    head: TagHead,
    definitions: Definitions,
    tokens: &'a [Token],
) -> Result<(BaseType, Definitions, &'a [Token]), ReadFault>
    ensures { Gives (λ x. ((plain_base x.0, plain_definitions x.1), plain_list x.2.now)) result
        ((braces_in words.now levels (plain_head head) (plain_definitions definitions)).parse (plain_list tokens.now)) }
{
    if levels == 0 {
        return if next_is(words, LEFT_BRACE, tokens) {
            Err(ReadFault::Over(Limit::Nesting, left(tokens)))
        } else {
            Err(ReadFault::At(left(tokens)))
        };
    }
    match head.defines {
        Tagged::Struct => struct_braces(alloc, words, levels - 1, head, definitions, tokens),
        Tagged::Enum => enum_braces(alloc, words, head, definitions, tokens),
    }
}
