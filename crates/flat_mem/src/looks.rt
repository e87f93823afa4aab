// Looks into a shadow. Their steps are counted in the shadow's clauses; here nobody reads them.

ghost use Rattle.std.specs.Prelude.{◌≡◌, ◌+◌, ◌-◌, ◌*◌, ◌/◌, ◌<◌, ◌≤◌, length, get_or, None, IfSome};
ghost use Rattle.shadow_segments.specs.Shadow.{IsWhole, all_in, is_written, test_of};

use raw_seg::steps::Steps;
use shadow_segments::{Asked, BlockNote, Shadow};
use std::marker::Brand;
use std::sync::ledger::{Blank, Ledger};

/// The record of the live block whose units hold this place.
#[inline(always)]
pub fn note_at(shadow: &Shadow, at: u32) -> Option<BlockNote>
    ensures value { result ≡ get_or shadow.now.notes (at / 16) None }
    ensures whole { IfSome result (λ note. IsWhole shadow.now.notes (at / 16) note) }
{
    note_for::<Brand>(shadow, at, Blank::new(1))
}

#[inline(always)]
fn note_for<L: Ledger>(shadow: &Shadow, at: u32, blank: Blank) -> Option<BlockNote>
    requires name { blank.name ≡ L.name }
    requires parts { blank.parts ≡ L.parts }
    requires some { 0 < blank.parts }
    ensures value { result ≡ get_or shadow.now.notes (at / 16) None }
    ensures whole { IfSome result (λ note. IsWhole shadow.now.notes (at / 16) note) }
{
    let mut steps = Steps::<L>::new(blank);
    shadow.lookup(at, &mut steps)
}

/// The same where the words of the place's unit are written.
#[inline(always)]
pub fn note_written(shadow: &Shadow, at: u32) -> Option<Option<BlockNote>>
    ensures value { IfSome result (λ found. found ≡ get_or shadow.now.notes (at / 16) None) }
    ensures whole { IfSome result (λ found. IfSome found (λ note. IsWhole shadow.now.notes (at / 16) note)) }
{
    written_note_for::<Brand>(shadow, at, Blank::new(1))
}

#[inline(always)]
fn written_note_for<L: Ledger>(shadow: &Shadow, at: u32, blank: Blank) -> Option<Option<BlockNote>>
    requires name { blank.name ≡ L.name }
    requires parts { blank.parts ≡ L.parts }
    requires some { 0 < blank.parts }
    ensures value { IfSome result (λ found. found ≡ get_or shadow.now.notes (at / 16) None) }
    ensures whole { IfSome result (λ found. IfSome found (λ note. IsWhole shadow.now.notes (at / 16) note)) }
{
    let mut steps = Steps::<L>::new(blank);
    shadow.lookup_written(at, &mut steps)
}

/// Whether each byte from `from` up to `to` of a unit is so.
#[inline(always)]
pub fn all_in_unit(shadow: &Shadow, asked: Asked, unit: usize, from: u32, to: u32) -> bool
    requires inside { unit < length shadow.now.notes }
    requires order { from ≤ to }
    requires small { to ≤ 16 }
    ensures { result ≡ all_in (test_of asked) shadow.now.marks (16 * unit + from) (to - from) }
{
    unit_for::<Brand>(shadow, asked, unit, from, to, Blank::new(1))
}

#[inline(always)]
fn unit_for<L: Ledger>(
    shadow: &Shadow,
    asked: Asked,
    unit: usize,
    from: u32,
    to: u32,
    blank: Blank,
) -> bool
    requires inside { unit < length shadow.now.notes }
    requires order { from ≤ to }
    requires small { to ≤ 16 }
    requires name { blank.name ≡ L.name }
    requires parts { blank.parts ≡ L.parts }
    requires some { 0 < blank.parts }
    ensures { result ≡ all_in (test_of asked) shadow.now.marks (16 * unit + from) (to - from) }
{
    let mut steps = Steps::<L>::new(blank);
    shadow.all_in_unit(asked, unit, from, to, &mut steps)
}

/// The same where the word that tells it is written.
#[inline(always)]
pub fn all_in_unit_written(
    shadow: &Shadow,
    asked: Asked,
    unit: usize,
    from: u32,
    to: u32,
) -> Option<bool>
    requires inside { unit < length shadow.now.notes }
    requires order { from ≤ to }
    requires small { to ≤ 16 }
    ensures { IfSome result (λ holds. holds ≡ all_in (test_of asked) shadow.now.marks (16 * unit + from) (to - from)) }
{
    written_unit_for::<Brand>(shadow, asked, unit, from, to, Blank::new(1))
}

#[inline(always)]
fn written_unit_for<L: Ledger>(
    shadow: &Shadow,
    asked: Asked,
    unit: usize,
    from: u32,
    to: u32,
    blank: Blank,
) -> Option<bool>
    requires inside { unit < length shadow.now.notes }
    requires order { from ≤ to }
    requires small { to ≤ 16 }
    requires name { blank.name ≡ L.name }
    requires parts { blank.parts ≡ L.parts }
    requires some { 0 < blank.parts }
    ensures { IfSome result (λ holds. holds ≡ all_in (test_of asked) shadow.now.marks (16 * unit + from) (to - from)) }
{
    let mut steps = Steps::<L>::new(blank);
    shadow.all_in_unit_written(asked, unit, from, to, &mut steps)
}

/// Whether each byte from `from` up to `to` is written.
pub fn all_written(shadow: &Shadow, from: u32, to: u32) -> bool
    requires order { from ≤ to }
    requires inside { to ≤ 16 * length shadow.now.notes }
    ensures { result ≡ all_in is_written shadow.now.marks from (to - from) }
{
    written_for::<Brand>(shadow, from, to, Blank::new(1))
}

fn written_for<L: Ledger>(shadow: &Shadow, from: u32, to: u32, blank: Blank) -> bool
    requires order { from ≤ to }
    requires inside { to ≤ 16 * length shadow.now.notes }
    requires name { blank.name ≡ L.name }
    requires parts { blank.parts ≡ L.parts }
    requires some { 0 < blank.parts }
    ensures { result ≡ all_in is_written shadow.now.marks from (to - from) }
{
    let mut steps = Steps::<L>::new(blank);
    shadow.all_written(from, to, &mut steps)
}
