//! Strings and numbers.

ghost use Rattle.std.specs.Prelude.{◌≡◌};
ghost use Rattle.std.specs.Fmt.{decimal};
ghost use Rattle.c_model.specs.MonitoredTokens.{is_plain};
ghost use Rattle.mon_syntax.specs.Text.{escaped, number_pieces, Quoted, spelled, spelled_piece};
ghost use Rattle.c_printer.specs.Printing.{Printed, pipe_of};

use crate::writer::Writer;
use ea_ports::Sink;

// Whether a byte stands for itself in a string.
fn is_plain(byte: u8) -> bool
    ensures { result ≡ is_plain byte }
{
    b' ' <= byte && byte <= b'~' && byte != b'"' && byte != b'\\'
}

// A byte of a string: itself, or its three octal digits.
fn string_byte<O: Sink>(byte: u8, to: &mut Writer, out: &mut O)
    ensures { Printed (pipe_of (O.told out.old) to.old (O.faults out.old)) (pipe_of (O.told out.new) to.new (O.faults out.new)) (escaped byte) }
{
    if is_plain(byte) {
        to.write(out, &[byte]);
    } else {
        let digits = [b'0' + byte / 64, b'0' + byte / 8 % 8, b'0' + byte % 8];
        to.write(out, b"\\");
        to.write(out, &digits);
    }
}

/// A string with these bytes, in its quotes.
pub fn string<O: Sink>(bytes: &[u8], to: &mut Writer, out: &mut O)
    ensures { Printed (pipe_of (O.told out.old) to.old (O.faults out.old)) (pipe_of (O.told out.new) to.new (O.faults out.new))
        (spelled_piece (Quoted bytes.now)) }
{
    to.write(out, b"\"");
    'bytes: for byte in bytes {
        string_byte(*byte, to, out);
    }
    to.write(out, b"\"");
}

/// A number in decimal.
pub fn number<O: Sink>(n: usize, to: &mut Writer, out: &mut O)
    ensures { Printed (pipe_of (O.told out.old) to.old (O.faults out.old)) (pipe_of (O.told out.new) to.new (O.faults out.new)) (decimal n) }
{
    to.write(out, itoa::Buffer::new().format(n).as_bytes());
}

/// A number in decimal, after a `-` where it is below 0.
pub fn signed_number<O: Sink>(z: i128, to: &mut Writer, out: &mut O)
    ensures { Printed (pipe_of (O.told out.old) to.old (O.faults out.old)) (pipe_of (O.told out.new) to.new (O.faults out.new)) (spelled (number_pieces z)) }
{
    to.write(out, itoa::Buffer::new().format(z).as_bytes());
}
