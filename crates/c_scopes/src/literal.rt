//! The string literals of a text (C99 6.4.5). Each is found by its place without a look at all of them.

ghost use Rattle.std.specs.Prelude.{◌≡◌, [], IfOk, length, map, option_map};
ghost use Rattle.c_syntax.specs.Programs.{plain_text};
ghost use Rattle.c_syntax.specs.Expressions.{plain_expr};
ghost use Rattle.c_model.specs.ExpressionTyping.{literal_at};
ghost use Rattle.c_model.specs.Meaning.{string_in};
ghost use Rattle.c_scopes.specs.Firsts.{AreFirst};
ghost use Rattle.c_scopes.specs.Literals.{offset_of_literal};

use crate::first::note;
use c_syntax::{Expr, ExprKind, Text};
use indexmap::IndexMap;
use std::alloc::{AllocError, Global};

/// String literals in the order of the text.
#[derive(Drop)]
pub struct Literals {
    pub list: Vec<Text>,
    /// The number of the first at each offset.
    pub firsts: IndexMap<u32, usize>,
    ghost first: { AreFirst (map offset_of_literal list.items) firsts.entries },
}

impl Literals {
    /// None.
    pub fn new(alloc: Global) -> Self
        ensures { result.list.items ≡ [] }
    {
        Literals {
            list: Vec::new(alloc),
            firsts: IndexMap::new(alloc),
        }
    }
}

/// The number of the first literal at each offset.
pub fn firsts_of(alloc: Global, texts: &[Text]) -> Result<IndexMap<u32, usize>, AllocError>
    ensures { IfOk result (λ firsts. AreFirst (map offset_of_literal texts.now) firsts.entries) }
{
    let mut firsts = IndexMap::new(alloc);
    for k in 0..texts.len() {
        note(&mut firsts, texts[k].place.offset, k)?;
    }
    Ok(firsts)
}

/// The number of the string literal at an offset, and the count of its bytes.
pub fn literal_at(texts: &Literals, offset: u32) -> Option<(usize, usize)>
    ensures { result ≡ option_map (λ l. (l.0, length l.1)) (literal_at offset 0 (map plain_text texts.now.list.items)) }
{
    match texts.firsts.get(&offset) {
        Some(number) => Some((*number, texts.list[*number].bytes.bytes().len())),
        None => None,
    }
}

/// The bytes of the string literal at an offset.
pub fn bytes_at(texts: &Literals, offset: u32) -> Option<&[u8]>
    ensures { option_map (λ bytes. bytes.now) result ≡ option_map (λ l. l.1) (literal_at offset 0 (map plain_text texts.now.list.items)) }
{
    match texts.firsts.get(&offset) {
        Some(number) => Some(texts.list[*number].bytes.bytes()),
        None => None,
    }
}

/// The number of the string literal that a typed expression is, where it is one.
pub fn string_in(e: &Expr) -> Option<u32>
    ensures { result ≡ string_in (plain_expr e.now) }
{
    match &*e.kind {
        ExprKind::Text(n) => Some(*n),
        _ => None,
    }
}
