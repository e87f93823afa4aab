//! What the names of a text are.

ghost use Rattle.std.specs.Prelude.{◌≡◌, map, IfOk};
ghost use Rattle.c_model.specs.Terminals.{found_in};
ghost use Rattle.mon_syntax.specs.Words.{type_words, constant_words, keywords, runtime_words, word_of};

use c_syntax::Name;
use mon_syntax::MonType::{I8, I16, I32, I64, I128, Ptr, U8, U16, U32, U64};
use mon_syntax::{Runtime, Word};
use std::alloc::{AllocError, Global};
use token_reader::words::found_in;

fn type_word(bytes: &[u8], other: Word) -> Word
    ensures { result ≡ found_in type_words bytes.now other }
{
    found_in(
        &[
            (b"i8", Word::TypeName(I8)),
            (b"u8", Word::TypeName(U8)),
            (b"i16", Word::TypeName(I16)),
            (b"u16", Word::TypeName(U16)),
            (b"i32", Word::TypeName(I32)),
            (b"u32", Word::TypeName(U32)),
            (b"i64", Word::TypeName(I64)),
            (b"u64", Word::TypeName(U64)),
            (b"i128", Word::TypeName(I128)),
            (b"ptr", Word::TypeName(Ptr)),
        ],
        bytes,
        other,
    )
}

fn constant_word(bytes: &[u8], other: Word) -> Word
    ensures { result ≡ found_in constant_words bytes.now other }
{
    found_in(
        &[
            (b"I8", Word::Constant(I8)),
            (b"U8", Word::Constant(U8)),
            (b"I16", Word::Constant(I16)),
            (b"U16", Word::Constant(U16)),
            (b"I32", Word::Constant(I32)),
            (b"U32", Word::Constant(U32)),
            (b"I64", Word::Constant(I64)),
            (b"U64", Word::Constant(U64)),
            (b"I128", Word::Constant(I128)),
            (b"PTR", Word::Constant(Ptr)),
        ],
        bytes,
        other,
    )
}

fn keyword(bytes: &[u8], other: Word) -> Word
    ensures { result ≡ found_in keywords bytes.now other }
{
    found_in(
        &[
            (b"void", Word::Void),
            (b"if", Word::If),
            (b"else", Word::Else),
            (b"while", Word::While),
            (b"goto", Word::Goto),
            (b"return", Word::Return),
            (b"static", Word::Static),
            (b"const", Word::Const),
            (b"char", Word::Char),
            (b"__e_acsl_initialize", Word::Initialize),
            (b"__e_acsl_initialize_ptr", Word::InitializePointer),
        ],
        bytes,
        other,
    )
}

fn runtime_word(bytes: &[u8], other: Word) -> Word
    ensures { result ≡ found_in runtime_words bytes.now other }
{
    found_in(
        &[
            (b"__e_acsl_step", Word::Runtime(Runtime::Step)),
            (b"__e_acsl_assert", Word::Runtime(Runtime::Assert)),
            (b"putchar", Word::Runtime(Runtime::PutChar)),
            (b"exit", Word::Runtime(Runtime::Exit)),
            (b"__e_acsl_print_text", Word::Runtime(Runtime::PrintText)),
            (b"__e_acsl_print_i64", Word::Runtime(Runtime::PrintSigned)),
            (b"__e_acsl_print_u64", Word::Runtime(Runtime::PrintUnsigned)),
            (b"__e_acsl_store_block", Word::Runtime(Runtime::StoreBlock)),
            (
                b"__e_acsl_delete_block",
                Word::Runtime(Runtime::DeleteBlock),
            ),
            (b"__e_acsl_copy", Word::Runtime(Runtime::Copy)),
            (b"__e_acsl_valid", Word::Runtime(Runtime::Valid)),
            (b"__e_acsl_valid_read", Word::Runtime(Runtime::ValidRead)),
            (b"__e_acsl_initialized", Word::Runtime(Runtime::Initialized)),
            (b"__e_acsl_number", Word::Runtime(Runtime::Number)),
            (b"__e_acsl_pointer", Word::Runtime(Runtime::Pointer)),
            (b"__e_acsl_inside", Word::Runtime(Runtime::Inside)),
            (b"__e_acsl_base_addr", Word::Runtime(Runtime::BaseAddr)),
            (
                b"__e_acsl_block_length",
                Word::Runtime(Runtime::BlockLength),
            ),
            (b"__e_acsl_offset", Word::Runtime(Runtime::Offset)),
            (b"__e_acsl_separated", Word::Runtime(Runtime::Separated)),
            (b"__e_acsl_malloc", Word::Runtime(Runtime::Malloc)),
            (b"__e_acsl_calloc", Word::Runtime(Runtime::Calloc)),
            (b"__e_acsl_free", Word::Runtime(Runtime::Free)),
            (b"__e_acsl_print_str", Word::Runtime(Runtime::PrintString)),
            (b"getchar", Word::Runtime(Runtime::GetChar)),
        ],
        bytes,
        other,
    )
}

#[tactic(auto, unfolding(mon_syntax::specs::Words::word_of))]
fn word_of(bytes: &[u8]) -> Word
    ensures { result ≡ word_of bytes.now }
{
    let other = runtime_word(bytes, Word::Name);
    let other = keyword(bytes, other);
    let other = constant_word(bytes, other);
    type_word(bytes, other)
}

/// What names are, by their numbers.
pub fn vocabulary(alloc: Global, names: &[Name]) -> Result<Vec<Word>, AllocError>
    ensures { IfOk result (λ words. words.items ≡ map word_of names.now) }
{
    let mut words = Vec::new(alloc);
    for name in names {
        words.push(word_of(name.bytes()))?;
    }
    Ok(words)
}
