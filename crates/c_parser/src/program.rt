//! Whole texts (C99 6.9).

ghost use Rattle.std.specs.Prelude.{◌≡◌, map, IfErr, OnOk, []};
ghost use Rattle.c_syntax.specs.declared.fault.ReadFault.TheVariants.{Memory};
ghost use Rattle.c_syntax.specs.Programs.{plain_program, plain_text};
ghost use Rattle.c_model.specs.ProgramGrammar.{with_typedef, function, globals, behind_declarator, declared_at_file, next_typedef, more_typedefs};
ghost use Rattle.c_model.specs.ProgramGrammar.{typedefs, behind_spec, declared_external, external, awaiting_nothing, more_external, no_parts, unit_with};
ghost use Rattle.c_expr_parser.specs.Reading.{plain_base};
ghost use Rattle.token_reader.specs.Reading.{Gives, plain_list};
ghost use Rattle.c_declaration_parser.specs.Reading.{plain_declarator};
ghost use Rattle.c_parser.specs.Reading.{plain_parts, other_typedefs, function_behind};

use crate::annotation::{contract_place, left_place, more_strays, taken, with_misplaced};
use crate::function::function_behind;
use crate::functions::Functions;
use c_declaration_parser::declaration::{initialised, more_declared};
use c_declaration_parser::declarator::{
    Declarator, declared_by, full_dtor, nameless, names_function,
};
use c_declaration_parser::specifier::file_spec;
use c_declaration_parser::tagged::Definitions;
use c_expr_parser::kinds::{COMMA, LEFT_PAREN, SEMICOLON};
use c_expr_parser::terminals::{next_is, skip};
use c_expr_parser::types::BaseType;
use c_expr_parser::vocabulary::name_type;
use c_model::declarations::{AnnotationState, Named, Storage};
use c_model::vocabulary::Word;
use c_syntax::fault::ReadFault;
use c_syntax::{Contract, Decl, Name, Program, Text, Token};
use std::alloc::Global;
use std::mem::replace;

/// What is read of a text so far: what its words are by now, what it defines and declares, and its annotations.
#[derive(Drop)]
pub struct FileParts {
    pub words: Vec<Word>,
    pub definitions: Definitions,
    pub typedefs: Vec<Decl>,
    pub globals: Vec<Decl>,
    pub functions: Functions,
    pub annotations: AnnotationState,
    /// The contract that stands directly before what is read next.
    pub awaiting: Option<Contract>,
}

/// Parts that were read, and what stands behind them.
type PartsRead<'a> = Result<(FileParts, &'a [Token]), ReadFault>;

fn no_definitions(alloc: Global) -> Definitions
    ensures structs { result.structs.items ≡ [] }
    ensures enums { result.enums.items ≡ [] }
{
    Definitions {
        structs: Vec::new(alloc),
        enums: Vec::new(alloc),
    }
}

/// What is read of a text before its first token.
pub fn no_parts(alloc: Global, words: Vec<Word>) -> FileParts
    ensures { plain_parts result ≡ no_parts words.items }
{
    FileParts {
        words,
        definitions: no_definitions(alloc),
        typedefs: Vec::new(alloc),
        globals: Vec::new(alloc),
        functions: Functions::new(alloc),
        annotations: AnnotationState {
            number: 1,
            misplaced: None,
        },
        awaiting: None,
    }
}

// ---- functions and objects

/// A function or a prototype, after its declarator.
#[tactic(auto, unfolding(c_model::specs::ProgramGrammar::function, crate::specs::Reading::function_behind))]
fn function<'a>(
    alloc: Global,
    base: BaseType,
    parts: FileParts,
    d: Declarator,
    tokens: &'a [Token],
) -> PartsRead<'a>
    ensures { Gives (λ x. (plain_parts x.0, plain_list x.1.now)) result
        ((function (plain_parts parts).words (plain_base base) (plain_parts parts) (plain_declarator d)).parse (plain_list tokens.now)) }
{
    let mut parts = parts;
    let again = parts.functions.have_contract(d.name);
    let awaiting = replace(&mut parts.awaiting, None);
    let state = with_misplaced(parts.annotations, left_place(&awaiting, again));
    let contract = taken(awaiting, again);
    let words = parts.words.as_slice();
    let (f, state, rest) = function_behind(alloc, words, base, &d, contract, state, tokens)?;
    parts.functions.push(f)?;
    parts.annotations = state;
    Ok((parts, rest))
}

/// `[ "=" init ] { "," declared } ";"`, after the first declarator.
#[tactic(auto, unfolding(c_model::specs::ProgramGrammar::globals))]
fn globals<'a>(
    alloc: Global,
    base: BaseType,
    parts: FileParts,
    d: Declarator,
    tokens: &'a [Token],
) -> PartsRead<'a>
    ensures { Gives (λ x. (plain_parts x.0, plain_list x.1.now)) result
        ((globals (plain_parts parts).words (plain_base base) (plain_parts parts) (plain_declarator d)).parse (plain_list tokens.now)) }
{
    let mut parts = parts;
    let (first, rest) = initialised(alloc, parts.words.as_slice(), base, d, tokens)?;
    let mut all = replace(&mut parts.globals, Vec::new(alloc));
    all.push(first)?;
    let (all, rest) = more_declared(alloc, parts.words.as_slice(), base, all, rest)?;
    parts.globals = all;
    Ok((parts, rest))
}

/// What stands after the first declarator.
#[tactic(auto, unfolding(c_model::specs::ProgramGrammar::behind_declarator))]
fn behind_declarator<'a>(
    alloc: Global,
    base: BaseType,
    parts: FileParts,
    d: Declarator,
    tokens: &'a [Token],
) -> PartsRead<'a>
    ensures { Gives (λ x. (plain_parts x.0, plain_list x.1.now)) result
        ((behind_declarator (plain_parts parts).words (plain_base base) (plain_parts parts) (plain_declarator d)).parse (plain_list tokens.now)) }
{
    if names_function(&d) {
        if next_is(parts.words.as_slice(), LEFT_PAREN, tokens) {
            function(alloc, base, parts, d, tokens)
        } else {
            globals(alloc, base, parts, d, tokens)
        }
    } else {
        globals(alloc, base, parts, d, tokens)
    }
}

/// What stands after the words for a type.
#[tactic(auto, unfolding(c_model::specs::ProgramGrammar::declared_at_file))]
fn declared_at_file<'a>(
    alloc: Global,
    base: BaseType,
    parts: FileParts,
    tokens: &'a [Token],
) -> PartsRead<'a>
    ensures { Gives (λ x. (plain_parts x.0, plain_list x.1.now)) result
        ((declared_at_file (plain_parts parts).words (plain_base base) (plain_parts parts)).parse (plain_list tokens.now)) }
{
    let mut parts = parts;
    if next_is(parts.words.as_slice(), SEMICOLON, tokens) {
        let (place, rest) = skip(parts.words.as_slice(), SEMICOLON, tokens)?;
        parts.typedefs.push(nameless(base, place))?;
        Ok((parts, rest))
    } else {
        let (d, rest) = full_dtor(alloc, parts.words.as_slice(), Named::Ordinary, tokens)?;
        behind_declarator(alloc, base, parts, d, rest)
    }
}

// ---- types that a typedef declares

/// The type that a `typedef` declares by this declarator.
fn with_typedef(
    alloc: Global,
    base: BaseType,
    parts: &mut FileParts,
    d: Declarator,
) -> Result<(), ReadFault>
    ensures made { OnOk result (plain_parts parts.new ≡ with_typedef (plain_base base) (plain_parts parts.old) (plain_declarator d)) }
    ensures memory { IfErr result (λ e. e ≡ Memory) }
{
    let number = d.name;
    let declared = declared_by(alloc, base, d, None)?;
    parts.typedefs.push(declared)?;
    name_type(&mut parts.words, number);
    Ok(())
}

/// `"," dtor`
#[tactic(auto, unfolding(c_model::specs::ProgramGrammar::next_typedef))]
fn next_typedef<'a>(
    alloc: Global,
    base: BaseType,
    parts: FileParts,
    tokens: &'a [Token],
) -> PartsRead<'a>
    ensures { Gives (λ x. (plain_parts x.0, plain_list x.1.now)) result
        ((next_typedef (plain_base base) (plain_parts parts)).parse (plain_list tokens.now)) }
{
    let mut parts = parts;
    let (_, rest) = skip(parts.words.as_slice(), COMMA, tokens)?;
    let (d, rest) = full_dtor(alloc, parts.words.as_slice(), Named::Ordinary, rest)?;
    with_typedef(alloc, base, &mut parts, d)?;
    Ok((parts, rest))
}

/// What the same `typedef` declares after what is read.
#[tactic(auto, using(crate::proofs::FileSteps::typedefs_rules))]
fn other_typedefs<'a>(
    alloc: Global,
    base: BaseType,
    parts: FileParts,
    tokens: &'a [Token],
) -> PartsRead<'a>
    ensures { Gives (λ x. (plain_parts x.0, plain_list x.1.now)) result
        ((other_typedefs (plain_base base) (plain_parts parts)).parse (plain_list tokens.now)) }
{
    let mut parts = parts;
    let mut rest = tokens;
    'turn: while next_is(&[], COMMA, rest) {
        let (more, after) = next_typedef(alloc, base, parts, rest)?;
        parts = more;
        rest = after;
    }
    Ok((parts, rest))
}

/// `{ "," dtor } ";"`
#[tactic(auto, unfolding(c_model::specs::ProgramGrammar::more_typedefs, c_model::specs::DeclarationGrammar::ended, crate::specs::Reading::other_typedefs))]
fn more_typedefs<'a>(
    alloc: Global,
    base: BaseType,
    parts: FileParts,
    tokens: &'a [Token],
) -> PartsRead<'a>
    ensures { Gives (λ x. (plain_parts x.0, plain_list x.1.now)) result
        ((more_typedefs (plain_base base) (plain_parts parts)).parse (plain_list tokens.now)) }
{
    let (parts, rest) = other_typedefs(alloc, base, parts, tokens)?;
    let (_, rest) = skip(parts.words.as_slice(), SEMICOLON, rest)?;
    Ok((parts, rest))
}

/// `dtor { "," dtor } ";"`
#[tactic(auto, unfolding(c_model::specs::ProgramGrammar::typedefs))]
fn typedefs<'a>(
    alloc: Global,
    base: BaseType,
    parts: FileParts,
    tokens: &'a [Token],
) -> PartsRead<'a>
    ensures { Gives (λ x. (plain_parts x.0, plain_list x.1.now)) result
        ((typedefs (plain_base base) (plain_parts parts)).parse (plain_list tokens.now)) }
{
    let mut parts = parts;
    let (d, rest) = full_dtor(alloc, parts.words.as_slice(), Named::Ordinary, tokens)?;
    with_typedef(alloc, base, &mut parts, d)?;
    more_typedefs(alloc, base, parts, rest)
}

// ---- whole texts

/// What stands after the words before the declarators.
fn behind_spec<'a>(
    alloc: Global,
    storage: Storage,
    base: BaseType,
    parts: FileParts,
    tokens: &'a [Token],
) -> PartsRead<'a>
    ensures { Gives (λ x. (plain_parts x.0, plain_list x.1.now)) result
        ((behind_spec storage (plain_base base) (plain_parts parts)).parse (plain_list tokens.now)) }
{
    match storage {
        Storage::Typedef => typedefs(alloc, base, parts, tokens),
        Storage::Static | Storage::Nothing => declared_at_file(alloc, base, parts, tokens),
    }
}

/// One more declaration, function or prototype.
#[tactic(auto, unfolding(c_model::specs::ProgramGrammar::declared_external))]
fn declared_external<'a>(alloc: Global, parts: FileParts, tokens: &'a [Token]) -> PartsRead<'a>
    ensures { Gives (λ x. (plain_parts x.0, plain_list x.1.now)) result ((declared_external (plain_parts parts)).parse (plain_list tokens.now)) }
{
    let mut parts = parts;
    let definitions = replace(&mut parts.definitions, no_definitions(alloc));
    let (spec, rest) = file_spec(alloc, parts.words.as_slice(), definitions, tokens)?;
    parts.definitions = spec.definitions;
    behind_spec(alloc, spec.storage, spec.base, parts, rest)
}

/// A contract that nothing took is misplaced.
fn awaiting_nothing(parts: FileParts) -> FileParts
    ensures { plain_parts result ≡ awaiting_nothing (plain_parts parts) }
{
    let mut parts = parts;
    parts.annotations = with_misplaced(parts.annotations, contract_place(&parts.awaiting));
    parts.awaiting = None;
    parts
}

/// One more declaration, function or prototype, after annotations.
#[tactic(auto, unfolding(c_model::specs::ProgramGrammar::external, c_model::specs::ProgramGrammar::strays, crate::specs::Reading::more_strays))]
fn external<'a>(alloc: Global, parts: FileParts, tokens: &'a [Token]) -> PartsRead<'a>
    ensures { Gives (λ x. (plain_parts x.0, plain_list x.1.now)) result ((external (plain_parts parts)).parse (plain_list tokens.now)) }
{
    let mut parts = parts;
    let words = parts.words.as_slice();
    let (state, awaiting, rest) = more_strays(alloc, words, parts.annotations, None, tokens)?;
    parts.annotations = state;
    parts.awaiting = awaiting;
    let (parts, rest) = declared_external(alloc, parts, rest)?;
    Ok((awaiting_nothing(parts), rest))
}

/// What a text declares, after these parts, as far as there are tokens.
#[tactic(auto, using(crate::proofs::FileSteps::externals_rules))]
pub fn more_external<'a>(alloc: Global, parts: FileParts, tokens: &'a [Token]) -> PartsRead<'a>
    ensures { Gives (λ x. (plain_parts x.0, plain_list x.1.now)) result ((more_external (plain_parts parts)).parse (plain_list tokens.now)) }
{
    let mut parts = parts;
    let mut rest = tokens;
    'turn: while !rest.is_empty() {
        let (more, after) = external(alloc, parts, rest)?;
        parts = more;
        rest = after;
    }
    Ok((parts, rest))
}

/// The program of these parts, with the names and the string literals of its text.
pub fn make_unit(alloc: Global, names: Vec<Name>, texts: Vec<Text>, parts: FileParts) -> Program
    ensures { plain_program result ≡ unit_with names.items (map plain_text texts.items) (plain_parts parts) }
{
    let FileParts {
        definitions,
        typedefs,
        globals,
        functions,
        ..
    } = parts;
    Program {
        names,
        texts,
        structs: definitions.structs,
        enums: definitions.enums,
        typedefs,
        globals,
        funcs: functions.all,
        strays: Vec::new(alloc),
    }
}
