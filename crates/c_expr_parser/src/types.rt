//! The words of types (C99 6.7.2), and stars (C99 6.7.5.1).

ghost use Rattle.std.specs.Prelude.{◌≡◌, ◌≤◌, ◌<◌, length, IfOk, IfErr, option_map};
ghost use Rattle.grammar.specs.Syntax.{among, sees, one};
ghost use Rattle.c_syntax.specs.Ctypes.{PlainType, plain_type};
ghost use Rattle.c_syntax.specs.Tokens.{plain_token_kind};
ghost use Rattle.c_model.specs.Vocabulary.{sign_with, size_with, words_with, signed_or_not, integer_type};
ghost use Rattle.c_model.specs.ExpressionGrammar.{kind, signs_behind, sizes_behind, words_behind, next_words, integer_word, integer_words};
ghost use Rattle.c_model.specs.Terminals.{placed};
ghost use Rattle.c_model.specs.ExpressionGrammar.{named_type, typedef_name_of, typedef_name, struct_tag, enum_tag, untagged_base, base, consts, type_words};
ghost use Rattle.c_model.specs.ExpressionGrammar.{more_consts, star, star_words};
ghost use Rattle.c_expr_parser.specs.Reading.{plain_base, more_words};
ghost use Rattle.token_reader.specs.Reading.{Gives, TakesNoMemory, plain_list};

use crate::kinds::{
    CHAR, CONST, ENUM, INT, LONG, SHORT, SIGNED, STRUCT, TIMES, TYPE_NAME, UNSIGNED, VOID, kind,
    word_at,
};
use crate::terminals::{any_name, next_is, skip};
use c_model::operands::Stars;
use c_model::vocabulary::{IntegerWords, Keyword, SignWords, SizeWords, TypeName, Word};
use c_syntax::fault::ReadFault;
use c_syntax::{CInt, CType, Place, Token, TokenKind};
use token_reader::terminals::left;

/// The type that words name, without stars and brackets.
#[derive(Clone, Copy)]
pub enum BaseType {
    Void,
    Int(CInt),
    /// The struct type with this number among those of the text.
    Struct(u32),
    /// The type that a `typedef` of this name declares.
    Named(u32),
    /// `struct` with a tag, at its place.
    StructTag(u32, Place),
    /// `enum` with a tag, at its place.
    EnumTag(u32, Place),
}

/// The type as a tree.
pub fn ctype_of(base: BaseType) -> CType
    ensures { plain_type result ≡ plain_base base }
{
    match base {
        BaseType::Void => CType::Void,
        BaseType::Int(kind) => CType::Int(kind),
        BaseType::Struct(number) => CType::Struct(number),
        BaseType::Named(name) => CType::Named(name),
        BaseType::StructTag(tag, place) => CType::StructTag(tag, place),
        BaseType::EnumTag(tag, place) => CType::EnumTag(tag, place),
    }
}

/// No word of an integer type.
pub const NO_WORDS: IntegerWords = IntegerWords {
    sign: SignWords::Nothing,
    size: SizeWords::Nothing,
};

fn sign_with(sign: SignWords, keyword: Keyword) -> Option<SignWords>
    ensures { result ≡ sign_with sign keyword }
{
    match (sign, keyword) {
        (SignWords::Nothing, Keyword::Signed) => Some(SignWords::Signed),
        (SignWords::Nothing, Keyword::Unsigned) => Some(SignWords::Unsigned),
        _ => None,
    }
}

fn size_with(size: SizeWords, keyword: Keyword) -> Option<SizeWords>
    ensures { result ≡ size_with size keyword }
{
    match (size, keyword) {
        (SizeWords::Nothing, Keyword::Char) => Some(SizeWords::Char),
        (SizeWords::Nothing, Keyword::Short) => Some(SizeWords::Short),
        (SizeWords::Nothing, Keyword::Int) => Some(SizeWords::Int),
        (SizeWords::Nothing, Keyword::Long) => Some(SizeWords::Long),
        (SizeWords::Short, Keyword::Int) => Some(SizeWords::ShortInt),
        (SizeWords::Int, Keyword::Short) => Some(SizeWords::ShortInt),
        (SizeWords::Int, Keyword::Long) => Some(SizeWords::LongInt),
        (SizeWords::Long, Keyword::Int) => Some(SizeWords::LongInt),
        (SizeWords::Long, Keyword::Long) => Some(SizeWords::LongLong),
        (SizeWords::LongInt, Keyword::Long) => Some(SizeWords::LongLongInt),
        (SizeWords::LongLong, Keyword::Int) => Some(SizeWords::LongLongInt),
        _ => None,
    }
}

/// The words with one more, where it can stand with them.
pub fn words_with(x: IntegerWords, keyword: Keyword) -> Option<IntegerWords>
    ensures { result ≡ words_with x keyword }
{
    match sign_with(x.sign, keyword) {
        Some(sign) => Some(IntegerWords { sign, size: x.size }),
        None => match size_with(x.size, keyword) {
            Some(size) => Some(IntegerWords { sign: x.sign, size }),
            None => None,
        },
    }
}

fn next_words(words: &[Word], x: IntegerWords, kind: &TokenKind) -> Option<IntegerWords>
    ensures { result ≡ next_words words.now x (plain_token_kind kind.now) }
{
    match kind {
        TokenKind::Word(number) => match word_at(words, *number) {
            Word::Keyword(keyword) => words_with(x, keyword),
            _ => None,
        },
        _ => None,
    }
}

/// One more of an integer type's words.
#[tactic(auto, unfolding(c_model::specs::ExpressionGrammar::integer_word))]
fn integer_word<'a>(
    words: &[Word],
    x: IntegerWords,
    tokens: &'a [Token],
) -> Result<(IntegerWords, &'a [Token]), ReadFault>
    ensures read { Gives (λ y. (y.0, plain_list y.1.now)) result ((integer_word words.now x).parse (plain_list tokens.now)) }
    ensures shorter { IfOk result (λ y. length y.1.now < length tokens.now) }
    ensures sure { IfErr result TakesNoMemory }
{
    match tokens {
        [] => Err(ReadFault::At(0)),
        [token, rest @ ..] => match next_words(words, x, &token.kind) {
            Some(y) => Ok((y, rest)),
            None => Err(ReadFault::At(left(tokens))),
        },
    }
}

fn sign_goes_on(sign: SignWords, kind: u32) -> bool
    ensures { result ≡ among kind (signs_behind sign) }
{
    match sign {
        SignWords::Nothing => kind == SIGNED || kind == UNSIGNED,
        SignWords::Signed | SignWords::Unsigned => false,
    }
}

fn size_goes_on(size: SizeWords, kind: u32) -> bool
    ensures { result ≡ among kind (sizes_behind size) }
{
    match size {
        SizeWords::Nothing => CHAR <= kind && kind <= LONG,
        SizeWords::Short => kind == INT,
        SizeWords::Int => kind == SHORT || kind == LONG,
        SizeWords::Long => kind == INT || kind == LONG,
        SizeWords::LongInt => kind == LONG,
        SizeWords::LongLong => kind == INT,
        SizeWords::Char | SizeWords::ShortInt | SizeWords::LongLongInt => false,
    }
}

/// Whether one more word can stand with these.
#[tactic(auto, using(crate::proofs::Words::among_joined))]
fn goes_on(x: IntegerWords, kind: u32) -> bool
    ensures { result ≡ among kind (words_behind x) }
{
    sign_goes_on(x.sign, kind) || size_goes_on(x.size, kind)
}

fn next_goes_on(words: &[Word], x: IntegerWords, tokens: &[Token]) -> bool
    ensures { result ≡ sees (kind words.now) (words_behind x) (plain_list tokens.now) }
{
    match tokens {
        [] => false,
        [token, ..] => goes_on(x, kind(words, token)),
    }
}

/// The words of an integer type after those that are read.
#[tactic(auto, using(crate::proofs::Steps::words_turn, crate::proofs::Steps::words_fails, crate::proofs::Steps::words_ends))]
pub fn more_words<'a>(
    words: &[Word],
    x: IntegerWords,
    tokens: &'a [Token],
) -> Result<(IntegerWords, &'a [Token]), ReadFault>
    ensures read { Gives (λ y. (y.0, plain_list y.1.now)) result ((more_words words.now x).parse (plain_list tokens.now)) }
    ensures shorter { IfOk result (λ y. length y.1.now ≤ length tokens.now) }
    ensures sure { IfErr result TakesNoMemory }
{
    let mut x = x;
    let mut rest = tokens;
    'turn: while next_goes_on(words, x, rest) {
        let (more, after) = integer_word(words, x, rest)?;
        x = more;
        rest = after;
    }
    Ok((x, rest))
}

fn signed_or_not(sign: SignWords, signed: CInt, unsigned: CInt) -> CInt
    ensures { result ≡ signed_or_not sign signed unsigned }
{
    match sign {
        SignWords::Unsigned => unsigned,
        SignWords::Nothing | SignWords::Signed => signed,
    }
}

/// The type that the words name.
pub fn integer_type(x: IntegerWords) -> CInt
    ensures { result ≡ integer_type x }
{
    match x.size {
        SizeWords::Char => signed_or_not(x.sign, CInt::I8, CInt::U8),
        SizeWords::Short | SizeWords::ShortInt => signed_or_not(x.sign, CInt::I16, CInt::U16),
        SizeWords::Nothing | SizeWords::Int => signed_or_not(x.sign, CInt::I32, CInt::U32),
        SizeWords::Long | SizeWords::LongInt | SizeWords::LongLong | SizeWords::LongLongInt => {
            signed_or_not(x.sign, CInt::I64, CInt::U64)
        }
    }
}

/// The words of an integer type, in any order.
#[tactic(auto, unfolding(c_model::specs::ExpressionGrammar::integer_words, crate::specs::Reading::more_words))]
pub fn integer_words<'a>(
    words: &[Word],
    tokens: &'a [Token],
) -> Result<(BaseType, &'a [Token]), ReadFault>
    ensures read { Gives (λ t. (plain_base t.0, plain_list t.1.now)) result ((integer_words words.now).parse (plain_list tokens.now)) }
    ensures shorter { IfOk result (λ t. length t.1.now < length tokens.now) }
    ensures sure { IfErr result TakesNoMemory }
{
    let (first, rest) = integer_word(words, NO_WORDS, tokens)?;
    let (all, rest) = more_words(words, first, rest)?;
    Ok((BaseType::Int(integer_type(all)), rest))
}

/// The type that the word with this number names.
pub fn named_type(number: u32, name: TypeName) -> BaseType
    ensures { plain_base result ≡ named_type number name }
{
    match name {
        TypeName::Library(kind) => BaseType::Int(kind),
        TypeName::Declared | TypeName::DeclaredClause(_) => BaseType::Named(number),
    }
}

fn typedef_name_of(words: &[Word], kind: &TokenKind) -> Option<BaseType>
    ensures { option_map plain_base result ≡ typedef_name_of words.now (plain_token_kind kind.now) }
{
    match kind {
        TokenKind::Word(number) => match word_at(words, *number) {
            Word::TypeName(name) => Some(named_type(*number, name)),
            _ => None,
        },
        _ => None,
    }
}

/// The name of a type.
#[tactic(auto, unfolding(c_model::specs::ExpressionGrammar::typedef_name))]
pub fn typedef_name<'a>(
    words: &[Word],
    tokens: &'a [Token],
) -> Result<(BaseType, &'a [Token]), ReadFault>
    ensures read { Gives (λ t. (plain_base t.0, plain_list t.1.now)) result ((typedef_name words.now).parse (plain_list tokens.now)) }
    ensures shorter { IfOk result (λ t. length t.1.now < length tokens.now) }
    ensures sure { IfErr result TakesNoMemory }
{
    match tokens {
        [] => Err(ReadFault::At(0)),
        [token, rest @ ..] => match typedef_name_of(words, &token.kind) {
            Some(t) => Ok((t, rest)),
            None => Err(ReadFault::At(left(tokens))),
        },
    }
}

/// `struct` with a tag.
#[tactic(auto, unfolding(c_model::specs::ExpressionGrammar::struct_tag))]
fn struct_tag<'a>(words: &[Word], tokens: &'a [Token]) -> Result<(BaseType, &'a [Token]), ReadFault>
    ensures read { Gives (λ t. (plain_base t.0, plain_list t.1.now)) result ((struct_tag words.now).parse (plain_list tokens.now)) }
    ensures shorter { IfOk result (λ t. length t.1.now < length tokens.now) }
    ensures sure { IfErr result TakesNoMemory }
{
    let (_, rest) = skip(words, STRUCT, tokens)?;
    let (tag, place, rest) = any_name(words, rest)?;
    Ok((BaseType::StructTag(tag, place), rest))
}

/// `enum` with a tag.
#[tactic(auto, unfolding(c_model::specs::ExpressionGrammar::enum_tag))]
pub fn enum_tag<'a>(
    words: &[Word],
    tokens: &'a [Token],
) -> Result<(BaseType, &'a [Token]), ReadFault>
    ensures read { Gives (λ t. (plain_base t.0, plain_list t.1.now)) result ((enum_tag words.now).parse (plain_list tokens.now)) }
    ensures shorter { IfOk result (λ t. length t.1.now < length tokens.now) }
    ensures sure { IfErr result TakesNoMemory }
{
    let (_, rest) = skip(words, ENUM, tokens)?;
    let (tag, place, rest) = any_name(words, rest)?;
    Ok((BaseType::EnumTag(tag, place), rest))
}

/// An integer type, `void`, or the name of a type.
#[tactic(auto, unfolding(c_model::specs::ExpressionGrammar::untagged_base))]
pub fn untagged_base<'a>(
    words: &[Word],
    tokens: &'a [Token],
) -> Result<(BaseType, &'a [Token]), ReadFault>
    ensures read { Gives (λ t. (plain_base t.0, plain_list t.1.now)) result ((untagged_base words.now).parse (plain_list tokens.now)) }
    ensures shorter { IfOk result (λ t. length t.1.now < length tokens.now) }
    ensures sure { IfErr result TakesNoMemory }
{
    if next_is(words, VOID, tokens) {
        let (_, rest) = skip(words, VOID, tokens)?;
        Ok((BaseType::Void, rest))
    } else if next_is(words, TYPE_NAME, tokens) {
        typedef_name(words, tokens)
    } else {
        integer_words(words, tokens)
    }
}

/// The same, or `struct` or `enum` with a tag.
#[tactic(auto, unfolding(c_model::specs::ExpressionGrammar::base))]
pub fn base<'a>(words: &[Word], tokens: &'a [Token]) -> Result<(BaseType, &'a [Token]), ReadFault>
    ensures read { Gives (λ t. (plain_base t.0, plain_list t.1.now)) result ((base words.now).parse (plain_list tokens.now)) }
    ensures shorter { IfOk result (λ t. length t.1.now < length tokens.now) }
    ensures sure { IfErr result TakesNoMemory }
{
    if next_is(words, STRUCT, tokens) {
        struct_tag(words, tokens)
    } else if next_is(words, ENUM, tokens) {
        enum_tag(words, tokens)
    } else {
        untagged_base(words, tokens)
    }
}

/// `{ "const" }`, which leaves what is read as it is.
#[tactic(auto, using(crate::proofs::Steps::consts_turn, crate::proofs::Steps::consts_ends))]
pub fn consts<'a>(words: &[Word], tokens: &'a [Token]) -> Result<&'a [Token], ReadFault>
    ensures none { Gives (λ r. (tt {0}, plain_list r.now)) result ((consts words.now (tt {0})).parse (plain_list tokens.now)) }
    ensures some { (t : PlainType) → Gives (λ r. (t, plain_list r.now)) result ((consts words.now t).parse (plain_list tokens.now)) }
    ensures shorter { IfOk result (λ r. length r.now ≤ length tokens.now) }
    ensures sure { IfErr result TakesNoMemory }
{
    let mut rest = tokens;
    'turn: while next_is(words, CONST, rest) {
        let (_, after) = skip(words, CONST, rest)?;
        rest = after;
    }
    Ok(rest)
}

/// `{ "const" }`, after this type.
pub fn constant<'a>(
    words: &[Word],
    t: BaseType,
    tokens: &'a [Token],
) -> Result<(BaseType, &'a [Token]), ReadFault>
    ensures read { Gives (λ t. (plain_base t.0, plain_list t.1.now)) result ((consts words.now (plain_base t)).parse (plain_list tokens.now)) }
    ensures shorter { IfOk result (λ t. length t.1.now ≤ length tokens.now) }
    ensures sure { IfErr result TakesNoMemory }
{
    let rest = consts(words, tokens)?;
    Ok((t, rest))
}

/// The words of a type.
#[tactic(auto, unfolding(c_model::specs::ExpressionGrammar::type_words))]
pub fn type_words<'a>(
    words: &[Word],
    tokens: &'a [Token],
) -> Result<(BaseType, &'a [Token]), ReadFault>
    ensures read { Gives (λ t. (plain_base t.0, plain_list t.1.now)) result ((type_words words.now).parse (plain_list tokens.now)) }
    ensures shorter { IfOk result (λ t. length t.1.now < length tokens.now) }
    ensures sure { IfErr result TakesNoMemory }
{
    let rest = consts(words, tokens)?;
    let (t, rest) = base(words, rest)?;
    constant(words, t, rest)
}

/// `{ "const" }`, and whether one stands there or stood before.
#[tactic(auto, using(crate::proofs::Steps::more_consts_turn, crate::proofs::Steps::more_consts_ends))]
pub fn more_consts<'a>(
    words: &[Word],
    constant: bool,
    tokens: &'a [Token],
) -> Result<(bool, &'a [Token]), ReadFault>
    ensures read { Gives (λ x. (x.0, plain_list x.1.now)) result ((more_consts words.now constant).parse (plain_list tokens.now)) }
    ensures shorter { IfOk result (λ x. length x.1.now ≤ length tokens.now) }
    ensures sure { IfErr result TakesNoMemory }
{
    let mut constant = constant;
    let mut rest = tokens;
    'turn: while next_is(words, CONST, rest) {
        let (_, after) = skip(words, CONST, rest)?;
        constant = true;
        rest = after;
    }
    Ok((constant, rest))
}

/// `"*" { "const" }`, and whether a `const` stands there or stood before.
#[tactic(auto, unfolding(c_model::specs::ExpressionGrammar::star))]
fn star<'a>(
    words: &[Word],
    constant: bool,
    tokens: &'a [Token],
) -> Result<(bool, &'a [Token]), ReadFault>
    ensures read { Gives (λ x. (x.0, plain_list x.1.now)) result ((star words.now constant).parse (plain_list tokens.now)) }
    ensures shorter { IfOk result (λ x. length x.1.now < length tokens.now) }
    ensures sure { IfErr result TakesNoMemory }
{
    let (_, rest) = skip(words, TIMES, tokens)?;
    more_consts(words, constant, rest)
}

/// `{ "*" { "const" } }`
#[tactic(auto, using(crate::proofs::Steps::stars_rules))]
pub fn star_words<'a>(
    words: &[Word],
    tokens: &'a [Token],
) -> Result<(Stars, &'a [Token]), ReadFault>
    ensures read { Gives (λ x. (x.0, plain_list x.1.now)) result ((star_words words.now).parse (plain_list tokens.now)) }
    ensures shorter { IfOk result (λ x. length x.1.now ≤ length tokens.now) }
    ensures sure { IfErr result TakesNoMemory }
{
    let mut stars = Stars {
        count: 0,
        constant: false,
    };
    let mut rest = tokens;
    'turn: while next_is(words, TIMES, rest) {
        let (constant, after) = star(words, stars.constant, rest)?;
        stars = Stars {
            count: stars.count + 1,
            constant,
        };
        rest = after;
    }
    Ok((stars, rest))
}
