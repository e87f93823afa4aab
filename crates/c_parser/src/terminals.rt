//! Tests of the next token.

ghost use Rattle.std.specs.Prelude.{◌≡◌, ◌++◌, [], ◌∷◌};
ghost use Rattle.grammar.specs.Syntax.{among, sees};
ghost use Rattle.c_model.specs.declared.vocabulary.Keyword.TheVariants as keyword;
ghost use Rattle.c_model.specs.ExpressionGrammar.{kind, keyword_kind, first_type};
ghost use Rattle.c_model.specs.ProgramGrammar.{first_loop, first_statement, first_branch, first_item, first_case};
ghost use Rattle.token_reader.specs.Reading.{plain_list};

use c_expr_parser::kinds::{
    ANNOT_OPEN, BREAK, CASE, CONTINUE, DEFAULT, DO, FOR, IF, LEFT_BRACE, RETURN, SEMICOLON, SWITCH,
    WHILE, kind,
};
use c_expr_parser::terminals::{begins_expression, begins_type};
use c_model::vocabulary::Word;
use c_syntax::Token;

fn begins_statement(kind: u32) -> bool
    ensures { result ≡ among kind first_statement }
{
    kind == LEFT_BRACE
        || kind == SEMICOLON
        || kind == IF
        || kind == WHILE
        || kind == DO
        || kind == FOR
        || kind == SWITCH
        || kind == BREAK
        || kind == CONTINUE
        || kind == RETURN
        || begins_expression(kind)
}

fn begins_branch(kind: u32) -> bool
    ensures { result ≡ among kind first_branch }
{
    kind == ANNOT_OPEN || begins_statement(kind)
}

/// Whether a loop comes next to which annotations may belong.
pub fn next_is_loop(words: &[Word], tokens: &[Token]) -> bool
    ensures { result ≡ sees (kind words.now) first_loop (plain_list tokens.now) }
{
    match tokens {
        [] => false,
        [token, ..] => {
            let kind = kind(words, token);
            kind == WHILE || kind == FOR
        }
    }
}

pub fn next_begins_statement(words: &[Word], tokens: &[Token]) -> bool
    ensures { result ≡ sees (kind words.now) first_statement (plain_list tokens.now) }
{
    match tokens {
        [] => false,
        [token, ..] => begins_statement(kind(words, token)),
    }
}

/// Whether a statement inside another comes next.
pub fn next_begins_branch(words: &[Word], tokens: &[Token]) -> bool
    ensures { result ≡ sees (kind words.now) first_branch (plain_list tokens.now) }
{
    match tokens {
        [] => false,
        [token, ..] => begins_branch(kind(words, token)),
    }
}

/// Whether a token of this kind begins a declaration or a statement.
#[tactic(auto, using(crate::proofs::FirstItems::type_first, crate::proofs::FirstItems::behind_type))]
fn declares_or_runs(kind: u32) -> bool
    ensures { result ≡ among kind (first_type ++ first_statement) }
{
    begins_type(kind) || begins_statement(kind)
}

fn begins_item(kind: u32) -> bool
    ensures { result ≡ among kind first_item }
{
    kind == ANNOT_OPEN || declares_or_runs(kind)
}

pub fn next_begins_item(words: &[Word], tokens: &[Token]) -> bool
    ensures { result ≡ sees (kind words.now) first_item (plain_list tokens.now) }
{
    match tokens {
        [] => false,
        [token, ..] => begins_item(kind(words, token)),
    }
}

/// Whether a case comes next.
pub fn next_begins_case(words: &[Word], tokens: &[Token]) -> bool
    ensures { result ≡ sees (kind words.now) first_case (plain_list tokens.now) }
{
    match tokens {
        [] => false,
        [token, ..] => {
            let k = kind(words, token);
            k == CASE || k == DEFAULT
        }
    }
}

/// Whether `break` or `continue` comes next.
pub fn next_is_jump(words: &[Word], tokens: &[Token]) -> bool
    ensures { result ≡ sees (kind words.now) (keyword_kind keyword.Break ∷ keyword_kind keyword.Continue ∷ []) (plain_list tokens.now) }
{
    match tokens {
        [] => false,
        [token, ..] => {
            let k = kind(words, token);
            k == BREAK || k == CONTINUE
        }
    }
}
