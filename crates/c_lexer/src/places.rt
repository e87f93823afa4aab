//! The places of pieces.

ghost use Rattle.std.specs.Prelude.{◌≡◌, ◌≤◌, ◌<◌, ◌^◌, ◌+◌, ◌-◌, length};
ghost use Rattle.c_model.specs.Places.{next, walk};
ghost use Rattle.c_model.specs.MonitoredTokens.{fresh_behind, fresh_after};

use crate::bytes::is_blank;
use c_syntax::Place;

/// The place after a byte.
fn next(place: Place, b: u8) -> Place
    requires line { place.line < 2 ^ 32 - 1 }
    requires column { place.column < 2 ^ 32 - 1 }
    requires offset { place.offset < 2 ^ 32 - 1 }
    ensures { result ≡ next place b }
{
    if b == 10 {
        Place {
            line: place.line + 1,
            column: 1,
            offset: place.offset + 1,
        }
    } else {
        Place {
            line: place.line,
            column: place.column + 1,
            offset: place.offset + 1,
        }
    }
}

/// The place after bytes.
pub fn walk(place: Place, bytes: &[u8]) -> Place
    requires line { place.line + length bytes.now < 2 ^ 32 }
    requires column { place.column + length bytes.now < 2 ^ 32 }
    requires offset { place.offset + length bytes.now < 2 ^ 32 }
    ensures value { result ≡ walk place bytes.now }
    ensures line { result.line ≤ place.line + length bytes.now }
    ensures column { result.column ≤ place.column + length bytes.now }
    ensures offset { result.offset ≡ place.offset + length bytes.now }
{
    let mut place = place;
    for b in bytes {
        place = next(place, *b);
    }
    place
}

fn fresh_behind(fresh: bool, b: u8) -> bool
    ensures { result ≡ fresh_behind fresh b }
{
    b == 10 || (fresh && is_blank(b))
}

/// Whether only blanks stand in the line after bytes.
pub fn fresh_after(fresh: bool, bytes: &[u8]) -> bool
    ensures { result ≡ fresh_after fresh bytes.now }
{
    let mut fresh = fresh;
    for b in bytes {
        fresh = fresh_behind(fresh, *b);
    }
    fresh
}
