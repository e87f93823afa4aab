//! The names of the library (C99 7.17, 5.2.4.2.1, 7.19, 7.20).

ghost use Rattle.std.specs.Prelude.{◌≡◌, ℕ, option_map};
ghost use Rattle.c_model.specs.Library.{constant_in, is_library_name, is_one_of, library_constant};
ghost use Rattle.c_model.specs.ExpressionTyping.{library_function};
ghost use Rattle.c_scopes.specs.Library.{plain_bytes, plain_constants, signature_of};

use c_syntax::CInt;

/// The constant of these bytes, where the table has one.
fn constant_in(table: &[(&[u8], (CInt, i128))], bytes: &[u8]) -> Option<(CInt, i128)>
    ensures { result ≡ constant_in (plain_constants table.now) bytes.now }
{
    let mut rest = table;
    'turn: while let [entry, after @ ..] = rest {
        if entry.0 == bytes {
            return Some(entry.1);
        }
        rest = after;
    }
    None
}

/// The type and the value of a constant of the library.
#[tactic(auto, unfolding(c_model::specs::Library::library_constant))]
pub fn library_constant(bytes: &[u8]) -> Option<(CInt, i128)>
    ensures { result ≡ library_constant bytes.now }
{
    constant_in(
        &[
            (b"EOF", (CInt::I32, -1)),
            (b"EXIT_SUCCESS", (CInt::I32, 0)),
            (b"EXIT_FAILURE", (CInt::I32, 1)),
            (b"CHAR_BIT", (CInt::I32, 8)),
            (b"CHAR_MIN", (CInt::I32, -128)),
            (b"CHAR_MAX", (CInt::I32, 127)),
            (b"SCHAR_MIN", (CInt::I32, -128)),
            (b"SCHAR_MAX", (CInt::I32, 127)),
            (b"UCHAR_MAX", (CInt::I32, 255)),
            (b"SHRT_MIN", (CInt::I32, -32_768)),
            (b"SHRT_MAX", (CInt::I32, 32_767)),
            (b"USHRT_MAX", (CInt::I32, 65_535)),
            (b"INT_MIN", (CInt::I32, -2_147_483_648)),
            (b"INT_MAX", (CInt::I32, 2_147_483_647)),
            (b"UINT_MAX", (CInt::U32, 4_294_967_295)),
            (b"LONG_MIN", (CInt::I64, -9_223_372_036_854_775_808)),
            (b"LONG_MAX", (CInt::I64, 9_223_372_036_854_775_807)),
            (b"ULONG_MAX", (CInt::U64, 18_446_744_073_709_551_615)),
            (b"LLONG_MIN", (CInt::I64, -9_223_372_036_854_775_808)),
            (b"LLONG_MAX", (CInt::I64, 9_223_372_036_854_775_807)),
            (b"ULLONG_MAX", (CInt::U64, 18_446_744_073_709_551_615)),
        ],
        bytes,
    )
}

/// Whether the bytes stand in the list.
fn is_one_of(list: &[&[u8]], bytes: &[u8]) -> bool
    ensures { result ≡ is_one_of (plain_bytes list.now) bytes.now }
{
    let mut rest = list;
    'turn: while let [entry, after @ ..] = rest {
        if *entry == bytes {
            return true;
        }
        rest = after;
    }
    false
}

/// Whether a name is the library's, which no declaration may have.
#[tactic(auto, unfolding(c_model::specs::Library::is_library_name))]
pub fn is_library_name(bytes: &[u8]) -> bool
    ensures { result ≡ is_library_name bytes.now }
{
    match library_constant(bytes) {
        Some(_) => true,
        None => is_one_of(
            &[
                b"NULL",
                b"size_t",
                b"ptrdiff_t",
                b"putchar",
                b"getchar",
                b"printf",
                b"malloc",
                b"calloc",
                b"free",
                b"exit",
            ],
            bytes,
        ),
    }
}

/// A function of the library that is built.
#[derive(Clone, Copy, PartialEq, Eq, Debug)]
pub enum LibraryFunction {
    Putchar,
    Getchar,
    Exit,
    Malloc,
    Calloc,
    Free,
    Printf,
}

/// The built function of a name, where it is one (C99 7.19.7.9, 7.19.7.6, 7.20.4.3, 7.20.3, 7.19.6.3).
pub fn library_function(bytes: &[u8]) -> Option<LibraryFunction>
    ensures { (x : ℕ) → library_function x bytes.now ≡ option_map (signature_of x) result }
{
    if bytes == b"putchar".as_slice() {
        Some(LibraryFunction::Putchar)
    } else if bytes == b"getchar".as_slice() {
        Some(LibraryFunction::Getchar)
    } else if bytes == b"exit".as_slice() {
        Some(LibraryFunction::Exit)
    } else if bytes == b"malloc".as_slice() {
        Some(LibraryFunction::Malloc)
    } else if bytes == b"calloc".as_slice() {
        Some(LibraryFunction::Calloc)
    } else if bytes == b"free".as_slice() {
        Some(LibraryFunction::Free)
    } else if bytes == b"printf".as_slice() {
        Some(LibraryFunction::Printf)
    } else {
        None
    }
}
