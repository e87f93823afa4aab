//! Classes of bytes, and parts of a text.

ghost use Rattle.std.specs.Prelude.{◌≡◌, ◌≤◌, length, take, drop, IsTrue};
ghost use Rattle.std.specs.List.{prefix_len};
ghost use Rattle.c_model.specs.Characters.{is_blank, is_digit, is_nondigit, is_part, in_literal, begins_with};
ghost use Rattle.c_model.specs.Comments.{in_line};
ghost use Rattle.c_model.specs.MonitoredTokens.{is_plain, is_octal, in_string, ends_line};

pub fn is_blank(b: u8) -> bool
    ensures { result ≡ is_blank b }
{
    b == 32 || (9 <= b && b <= 13)
}

pub fn is_digit(b: u8) -> bool
    ensures { result ≡ is_digit b }
{
    48 <= b && b <= 57
}

pub fn is_octal(b: u8) -> bool
    ensures { result ≡ is_octal b }
{
    48 <= b && b <= 55
}

pub fn is_nondigit(b: u8) -> bool
    ensures { result ≡ is_nondigit b }
{
    (65 <= b && b <= 90) || (97 <= b && b <= 122) || b == 95
}

fn is_part(b: u8) -> bool
    ensures { result ≡ is_part b }
{
    is_nondigit(b) || is_digit(b)
}

fn in_literal(b: u8) -> bool
    ensures { result ≡ in_literal b }
{
    is_part(b) || b == 46
}

pub fn is_plain(b: u8) -> bool
    ensures { result ≡ is_plain b }
{
    32 <= b && b <= 126 && b != 34 && b != 92
}

fn in_string(b: u8) -> bool
    ensures { result ≡ in_string b }
{
    b != 34
}

pub fn in_line(b: u8) -> bool
    ensures { result ≡ in_line b }
{
    b != 10
}

/// How many bytes of a name stand at the front.
pub fn word_len(bytes: &[u8]) -> usize
    ensures run { result ≡ prefix_len is_part bytes.now }
    ensures within { result ≤ length bytes.now }
{
    bytes.iter().take_while(|b| is_part(**b)).count()
}

/// How many bytes of a number stand at the front.
pub fn literal_len(bytes: &[u8]) -> usize
    ensures run { result ≡ prefix_len in_literal bytes.now }
    ensures within { result ≤ length bytes.now }
{
    bytes.iter().take_while(|b| in_literal(**b)).count()
}

/// How many bytes stand up to the line's end.
pub fn line_len(bytes: &[u8]) -> usize
    ensures run { result ≡ prefix_len in_line bytes.now }
    ensures within { result ≤ length bytes.now }
{
    bytes.iter().take_while(|b| in_line(**b)).count()
}

/// How many bytes stand before a quote.
pub fn string_len(bytes: &[u8]) -> usize
    ensures run { result ≡ prefix_len in_string bytes.now }
    ensures within { result ≤ length bytes.now }
{
    bytes.iter().take_while(|b| in_string(**b)).count()
}

pub fn begins_with(text: &[u8], bytes: &[u8]) -> bool
    ensures bound { IsTrue result → length text.now ≤ length bytes.now }
    ensures value { result ≡ begins_with text.now bytes.now }
{
    bytes.starts_with(text)
}

/// Whether only blanks stand up to the line's end.
pub fn ends_line(bytes: &[u8]) -> bool
    ensures { result ≡ ends_line bytes.now }
{
    let mut rest = bytes;
    'turn: while let [b, after @ ..] = rest {
        if *b == 10 {
            return true;
        }
        if !is_blank(*b) {
            return false;
        }
        rest = after;
    }
    true
}

/// What stands after the first n bytes.
pub fn behind(bytes: &[u8], n: usize) -> &[u8]
    requires { n ≤ length bytes.now }
    ensures { result.now ≡ drop n bytes.now }
{
    &bytes[n..]
}

/// The first n bytes.
pub fn front(bytes: &[u8], n: usize) -> &[u8]
    requires { n ≤ length bytes.now }
    ensures { result.now ≡ take n bytes.now }
{
    &bytes[..n]
}
