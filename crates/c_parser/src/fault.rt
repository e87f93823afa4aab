//! Faults of the places of annotations, and of the guards of quantifiers.

use c_syntax::Place;

/// The code of a refusal, and its place.
#[derive(Clone, Copy)]
pub struct PlaceFault {
    pub code: u8,
    pub place: Place,
}
