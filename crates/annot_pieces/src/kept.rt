//! Terms that are kept where labels are passed, and values that have names in annotations.

ghost use Rattle.std.specs.Prelude.{◌≡◌, option_map};
ghost use Rattle.annot_simulation.specs.Held.{held_by};
ghost use Rattle.annot_pieces.specs.Tables.{plain_held, plain_helds};

use c_syntax::logic::Term;
use mon_syntax::MonType;

/// A term that is kept where a label is passed, by the number of the label's name; none is the beginning of the call. Its flag stands in
/// the register, and behind that its number, or the base and the offset of its pointer.
#[derive(Clone, Copy)]
pub struct Kept<'a> {
    pub label: Option<u32>,
    pub term: &'a Term,
    pub register: u32,
}

/// A name of annotations whose value stands in a register of this type.
#[derive(Clone, Copy)]
pub struct Held {
    pub number: u32,
    pub register: u32,
    pub kind: MonType,
}

/// The register of a name: that of the innermost one with this number.
pub fn held_by(held: &[Held], number: u32) -> Option<Held>
    ensures { option_map plain_held result ≡ held_by number (plain_helds held.now) }
{
    match held {
        [] => None,
        [first, rest @ ..] => {
            if first.number == number {
                Some(*first)
            } else {
                held_by(rest, number)
            }
        }
    }
}
