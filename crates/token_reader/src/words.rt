//! Tables of words.

ghost use Rattle.std.specs.Prelude.{◌≡◌};
ghost use Rattle.c_model.specs.Terminals.{found_in};
ghost use Rattle.token_reader.specs.Reading.{plain_words};

/// What the table says of these bytes, and another where it has none.
pub fn found_in<W: Copy>(table: &[(&[u8], W)], bytes: &[u8], other: W) -> W
    ensures { result ≡ found_in (plain_words table.now) bytes.now other }
{
    let mut rest = table;
    'turn: while let [entry, after @ ..] = rest {
        if entry.0 == bytes {
            return entry.1;
        }
        rest = after;
    }
    other
}
