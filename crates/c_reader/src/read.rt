//! From a C text to its typed program.

ghost use Rattle.std.specs.Prelude.{ℕ, List, ◌≡◌, ◌<◌, length, IfOk, IfErr, MatchResult};
ghost use Rattle.c_syntax.specs.Programs.{TranslationUnit, PlainRefusal, plain_program};
ghost use Rattle.c_syntax.specs.Tokens.{plain_tokens};
ghost use Rattle.c_model.specs.AcceptedPrograms.{IsProgram};
ghost use Rattle.c_model.specs.Laws.{NeverStuck};
ghost use Rattle.c_model.specs.ReadTree.{AreBytes};
ghost use Rattle.c_model.specs.Phases.{AcceptedText, RefusedText};
ghost use Rattle.c_model.specs.UnrangedPrograms.{FunctionsRanged};
ghost use Rattle.c_reader.specs.Answers.{Refuses, HasTree, IsRangedAs, HasFault};
ghost use Rattle.c_reader.specs.Programs.{JudgementsAreInSight, JudgementsAreSound, LettersAreCharacters, ResultsFit, RunsJudgeSoundly};
ghost use Rattle.c_reader.specs.Programs.{TreesAreRead, TypedTreesKeepAsserts};

use c_lexer::tokens;
use c_parser::read_program;
use c_phases::{Parsed, Ranged};
use c_syntax::{FrontFault, Program, Tokens};
use c_typing::{type_annots, type_program};
use interval_infer::ranges;
use std::alloc::Global;

/// The tree of a text of bytes with its tokens.
fn parsed(text: &[u8], program: Program, tokens: Tokens) -> Parsed
    requires few { length text.now < 4294967295 }
    requires bytes { AreBytes text.now }
    requires read { HasTree text.now (plain_tokens tokens) (plain_program program) }
    ensures program { result.program ≡ program }
    ensures tokens { result.tokens ≡ tokens }
{
    let _text = text;
    Parsed { program, tokens }
}

/// The tree of a text with its tokens, or its refusal.
fn tree_of(alloc: Global, text: &[u8]) -> Result<Parsed, FrontFault>
    requires { length text.now < 4294967295 }
    ensures read { MatchResult result (λ t. HasTree text.now (plain_tokens t.tokens) (plain_program t.program)) (λ e. Refuses e text.now) }
    ensures bytes { AreBytes text.now }
{
    let tokens = match tokens(alloc, text) {
        Ok(tokens) => tokens,
        Err(fault) => return Err(fault),
    };
    match read_program(alloc, &tokens) {
        Ok(program) => Ok(parsed(text, program, tokens)),
        Err(fault) => Err(fault),
    }
}

/// The typed program of the tree of a text, if its names and types have no fault, its globals and literals have room, it has `main`, and
/// the names, types and ranges of its annotations have no fault.
fn ranged(alloc: Global, tree: Parsed) -> Result<Ranged, FrontFault>
    ensures { MatchResult result (λ r. IsRangedAs (plain_program tree.program) (plain_program r.program))
        (λ e. HasFault e (plain_tokens tree.tokens) (plain_program tree.program)) }
{
    let typed = match type_program(alloc, tree) {
        Ok(typed) => typed,
        Err(fault) => return Err(fault),
    };
    let noted = match type_annots(alloc, typed) {
        Ok(noted) => noted,
        Err(fault) => return Err(fault),
    };
    ranges(alloc, noted)
}

/// Reads a C text with annotations: its typed program, or its refusal, with code 1, 2, 3 or 11 for its tokens, 4 or 11 for its
/// grammar, 7 for an annotation that stands where none of its kind may and for a second variant of a loop, 8 for a quantifier without a
/// guard, 5 for a name, 6 or 11 for a type, 12 for want of room for globals and literals, 13 for want of `int main(void)`, 9 for a label of
/// an annotation, and 10 for a term of an annotation that has no range.
pub fn read_text(alloc: Global, text: &[u8]) -> Result<Program, FrontFault>
    requires { length text.now < 4294967295 }
    ensures accepted { IfOk result (λ p. AcceptedText text.now (plain_program p)) }
    ensures refused { IfErr result (λ e. Refuses e text.now) }
    ensures program { IfOk result (λ p. IsProgram (plain_program p)) }
    ensures ranged { IfOk result (λ p. FunctionsRanged (plain_program p).funcs) }
{
    let tree = match tree_of(alloc, text) {
        Ok(tree) => tree,
        Err(fault) => return Err(fault),
    };
    match ranged(alloc, tree) {
        Ok(ranged) => Ok(ranged.program),
        Err(fault) => Err(fault),
    }
}

/// A text has one program at most, and then it has no refusal, and it has one refusal at most. An accepted program is one that can be
/// translated, whose annotations have their ranges, and no run of it gets stuck at what typing rules out.
pub fn about_texts()
    ensures one { (text : List ℕ) (p q : TranslationUnit) → AcceptedText text p → AcceptedText text q → p ≡ q }
    ensures apart { (text : List ℕ) (p : TranslationUnit) (r : PlainRefusal) → AcceptedText text p → RefusedText text r → ⊥ }
    ensures single { (text : List ℕ) (r s : PlainRefusal) → RefusedText text r → RefusedText text s → r ≡ s }
    ensures program { (text : List ℕ) (p : TranslationUnit) → AcceptedText text p → IsProgram p }
    ensures ranged { (text : List ℕ) (p : TranslationUnit) → AcceptedText text p → FunctionsRanged p.funcs }
    ensures never_stuck { (text : List ℕ) (p : TranslationUnit) → AcceptedText text p → NeverStuck p }
{}

/// The tree of a text and its asserts are what typing asks for, and the letters in an accepted program are values of `char`. So what its functions give are
/// values of their types; and wherever a run of it judges an annotation, from its start or from any sound state on, the state is sound and `\result` is a value
/// of its type. What the annotation may name has blocks there.
pub fn about_programs()
    ensures trees { TreesAreRead }
    ensures asserts { TypedTreesKeepAsserts }
    ensures letters { LettersAreCharacters }
    ensures results { ResultsFit }
    ensures judged { RunsJudgeSoundly }
    ensures judgements { JudgementsAreSound }
    ensures seen { JudgementsAreInSight }
{}
