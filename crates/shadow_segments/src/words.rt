// Two words of 64 bits for each unit of 16 bytes. The words of a long run of units are written only as far as something is stored there.

ghost use Rattle.std.specs.Prelude.{◌≡◌, ℕ, ◌+◌, ◌*◌, ◌%◌, ◌^◌, ◌<◌, ◌≤◌, ◌⊎◌, max, length, replicate, get_or, set, IfOk, IfSome};
ghost use Rattle.std.specs.Bool.{OnTrue};
ghost use Rattle.std.specs.Vec.{vec_capacity, vec_len};
ghost use Rattle.shadow_segments.specs.Shadow.{longest_segment, changed, filled};
ghost use Rattle.shadow_segments.specs.Words.{pair_at, nothing, low_pair};

use crate::UPPER;
use raw_seg::steps::Steps;
use std::alloc::{AllocError, Global};
use std::marker::Model;
use std::sync::ledger::Ledger;

// The words of a run of so many units aren't written at once.
const LONG: usize = 64;

// They are written for so many units, where one of them is asked for.
const PAGE: usize = 256;

/// The two words of a unit.
#[derive(Clone, Copy)]
pub struct Pair {
    pub state: u64,
    pub place: u64,
}

const NOTHING: Pair = Pair { state: 0, place: 0 };

/// The words of a shadow, seen as two lists of numbers, by unit.
#[derive(Drop)]
pub struct Words {
    // The words of the first units. Those behind them are zeros, for which there is room.
    units: Vec<Pair>,
    len: usize,
    // The units from `from` up to `to` are a run: each has these words, whatever is written for it.
    from: usize,
    to: usize,
    run: Pair,
}

impl Model for Words {
    ghost use Rattle.std.specs.Prelude.{length};
    ghost use Rattle.std.specs.Vec.{vec_capacity};
    ghost use Rattle.shadow_segments.specs.Words.{UnitWords, HasRoom, words_by, pair_at};

    ghost Value = { UnitWords };

    ghost view = { λ w. words_by w.len (pair_at w.units.items w.from w.to w.run) };

    ghost invariant = { λ w. HasRoom w.from w.to (length w.units.items) w.len (vec_capacity w.units) };
}

impl Words {
    /// So many units of zeros.
    pub fn new(alloc: Global, units: u32) -> Result<Words, AllocError>
        requires { 16 * units ≤ longest_segment }
        ensures { IfOk result (λ words. words ≡ record { states = replicate units 0; places = replicate units 0 }) }
    {
        let len = units as usize;
        Ok(Words {
            units: Vec::with_capacity(alloc, len)?,
            len,
            from: 0,
            to: 0,
            run: NOTHING,
        })
    }

    pub fn len(&self) -> usize
        ensures states { result ≡ length self.now.states }
        ensures places { result ≡ length self.now.places }
        ensures small { 16 * result ≤ longest_segment }
    {
        self.len
    }

    /// Whether the words of this unit are written. If not, it may be past the end.
    #[inline(always)]
    pub fn has(&self, unit: usize) -> bool
        ensures { OnTrue result (unit < length self.now.states) }
    {
        unit < self.from
    }

    /// The first word of a unit, 0 past the end.
    #[inline(always)]
    pub fn state<L: Ledger>(&self, unit: usize, steps: &mut Steps<L>) -> u64
        ensures value { result ≡ get_or self.now.states unit 0 }
        ensures step { steps.new ≡ steps.old + 1 }
    {
        steps.tick();
        self.at(unit).state
    }

    /// Both words of a unit, zeros past the end.
    #[inline(always)]
    pub fn both<L: Ledger>(&self, unit: usize, steps: &mut Steps<L>) -> Pair
        ensures state { result.state ≡ get_or self.now.states unit 0 }
        ensures place { result.place ≡ get_or self.now.places unit 0 }
        ensures steps { steps.new ≡ steps.old + 2 }
    {
        steps.tick();
        steps.tick();
        self.at(unit)
    }

    /// Both words of a unit where they are written, and `None` where they aren't.
    #[inline(always)]
    pub fn written<L: Ledger>(&self, unit: usize, steps: &mut Steps<L>) -> Option<Pair>
        ensures state { IfSome result (λ pair. pair.state ≡ get_or self.now.states unit 0) }
        ensures place { IfSome result (λ pair. pair.place ≡ get_or self.now.places unit 0) }
        ensures steps { steps.new ≡ steps.old + 2 }
    {
        steps.tick();
        steps.tick();
        if unit < self.from {
            Some(self.units[unit])
        } else {
            None
        }
    }

    /// The first one likewise.
    #[inline(always)]
    pub fn written_state<L: Ledger>(&self, unit: usize, steps: &mut Steps<L>) -> Option<u64>
        ensures value { IfSome result (λ state. state ≡ get_or self.now.states unit 0) }
        ensures step { steps.new ≡ steps.old + 1 }
    {
        steps.tick();
        if unit < self.from {
            Some(self.units[unit].state)
        } else {
            None
        }
    }

    #[inline(always)]
    pub fn set_state(&mut self, unit: usize, value: u64)
        requires { unit < length self.old.states }
        ensures { self.new ≡ record self.old { states = set self.old.states unit value } }
    {
        if unit < self.from {
            self.units[unit].state = value;
        } else {
            self.set_state_behind(unit, value);
        }
    }

    /// Both words of a unit.
    #[inline(always)]
    pub fn set_both(&mut self, unit: usize, state: u64, place: u64)
        requires { unit < length self.old.states }
        ensures { self.new ≡ record { states = set self.old.states unit state; places = set self.old.places unit place } }
    {
        if unit < self.from {
            self.units[unit] = Pair { state, place };
        } else {
            self.set_both_behind(unit, Pair { state, place });
        }
    }

    /// The first word of a unit, for a change of it.
    #[inline(always)]
    pub fn peek(&self, unit: usize) -> u64
        ensures { result ≡ get_or self.now.states unit 0 }
    {
        self.at(unit).state
    }

    /// The second word of a unit, for a change of it.
    #[inline(always)]
    pub fn peek_place(&self, unit: usize) -> u64
        ensures { result ≡ get_or self.now.places unit 0 }
    {
        self.at(unit).place
    }

    /// Writes the same two words on so many units.
    #[inline(always)]
    pub fn fill(&mut self, first: usize, count: usize, state: u64, place: u64)
        requires { first + count ≤ length self.old.states }
        ensures { self.new ≡ record { states = filled self.old.states first count state; places = filled self.old.places first count place } }
    {
        // Most blocks have one unit, that was written before.
        if count == 1 && self.has(first) {
            self.set_both(first, state, place);
        } else {
            self.fill_run(first, count, Pair { state, place });
        }
    }

    /// Takes the high half of the first word away from so many units.
    #[inline(always)]
    pub fn release(&mut self, first: usize, count: usize)
        requires { first + count ≤ length self.old.states }
        ensures { self.new ≡ record self.old { states = changed 0 (λ s. s % 2 ^ 32) self.old.states first count } }
    {
        // Most blocks have one unit, whose words are written.
        if count == 1 && self.has(first) {
            let state = self.peek(first);
            self.set_state(first, state % UPPER);
        } else {
            self.release_run(first, count);
        }
    }

    // The words of a unit, zeros past the end.
    #[inline(always)]
    fn at(&self, unit: usize) -> Pair
        ensures state { result.state ≡ get_or self.now.states unit 0 }
        ensures place { result.place ≡ get_or self.now.places unit 0 }
    {
        if unit < self.from {
            self.units[unit]
        } else {
            behind(&self.units, self.from, self.to, self.run, unit)
        }
    }

    // The same, also where they aren't written.
    #[cold]
    #[inline(never)]
    fn set_state_behind(&mut self, unit: usize, value: u64)
        requires { unit < length self.old.states }
        ensures { self.new ≡ record self.old { states = set self.old.states unit value } }
    {
        self.from = written_to(
            &mut self.units,
            self.from,
            self.to,
            self.run,
            unit + 1,
            self.len,
        );
        self.units[unit].state = value;
    }

    #[cold]
    #[inline(never)]
    fn set_both_behind(&mut self, unit: usize, pair: Pair)
        requires { unit < length self.old.states }
        ensures { self.new ≡ record { states = set self.old.states unit pair.state; places = set self.old.places unit pair.place } }
    {
        self.from = written_to(
            &mut self.units,
            self.from,
            self.to,
            self.run,
            unit + 1,
            self.len,
        );
        self.units[unit] = pair;
    }

    // A few units are written, and of many it is only said what their words are.
    #[inline(never)]
    fn fill_run(&mut self, first: usize, count: usize, pair: Pair)
        requires { first + count ≤ length self.old.states }
        ensures { self.new ≡ record { states = filled self.old.states first count pair.state; places = filled self.old.places first count pair.place } }
    {
        if count < LONG {
            self.fill_each(first, count, pair);
        } else {
            self.begin_run(first, count, pair);
        }
    }

    fn fill_each(&mut self, first: usize, count: usize, pair: Pair)
        requires { first + count ≤ length self.old.states }
        ensures { self.new ≡ record { states = filled self.old.states first count pair.state; places = filled self.old.places first count pair.place } }
    {
        let _ = self.len();
        let end = first + count;
        self.from = written_to(&mut self.units, self.from, self.to, self.run, end, self.len);
        fill_pairs(&mut self.units, first, end, pair);
    }

    fn begin_run(&mut self, first: usize, count: usize, pair: Pair)
        requires { first + count ≤ length self.old.states }
        ensures { self.new ≡ record { states = filled self.old.states first count pair.state; places = filled self.old.places first count pair.place } }
    {
        let _ = self.len();
        let end = first + count;
        // What an older run has besides is written.
        let besides = end_besides(self.from, self.to, first, end);
        let _from = written_to(
            &mut self.units,
            self.from,
            self.to,
            self.run,
            besides,
            self.len,
        );
        self.from = first;
        self.to = end;
        self.run = pair;
    }

    // Takes the high half of the first word away from so many units.
    #[inline(never)]
    fn release_run(&mut self, first: usize, count: usize)
        requires { first + count ≤ length self.old.states }
        ensures { self.new ≡ record self.old { states = changed 0 (λ s. s % 2 ^ 32) self.old.states first count } }
    {
        let _ = self.len();
        let end = first + count;
        if ends_run(self.from, self.to, first, end) {
            // The run is the rest of these units.
            keep_marks(&mut self.units, first, self.from);
            self.run.state %= UPPER;
        } else {
            self.from = written_to(&mut self.units, self.from, self.to, self.run, end, self.len);
            keep_marks(&mut self.units, first, end);
        }
    }
}

// The words of a unit from which on a run may stand that isn't written.
#[cold]
#[inline(never)]
fn behind(units: &Vec<Pair>, from: usize, to: usize, run: Pair, unit: usize) -> Pair
    requires { from ≤ unit }
    ensures { result ≡ pair_at units.now.items from to run unit }
{
    if unit < to {
        return run;
    }
    match units.get(unit) {
        Some(pair) => *pair,
        None => NOTHING,
    }
}

// Whether what isn't written of a run is the end of these units.
fn ends_run(from: usize, to: usize, first: usize, end: usize) -> bool
    ensures { OnTrue result ((end ≡ to) × (first ≤ from) × (from ≤ end)) }
{
    if end != to || from < first {
        return false;
    }
    from <= end
}

// How far a run is to be written before another one takes its place, that has these units.
fn end_besides(from: usize, to: usize, first: usize, end: usize) -> usize
    ensures least { (first ≤ result) ⊎ (first ≤ from) }
    ensures besides { (to ≤ end) ⊎ (to ≤ result) }
    ensures inside { (result ≤ first) ⊎ (result ≤ to) }
{
    if from < first || end < to {
        first.max(to)
    } else {
        0
    }
}

// The words of a run are written up to a unit at least: the unit from which on they aren't.
#[inline]
fn written_to(
    units: &mut Vec<Pair>,
    from: usize,
    to: usize,
    run: Pair,
    end: usize,
    len: usize,
) -> usize
    requires inside { (from ≤ vec_len units.old) × (vec_len units.old ≤ len) × (to ≤ len) × (end ≤ len) }
    requires room { len ≤ vec_capacity units.old }
    requires small { 16 * len ≤ longest_segment }
    ensures same { (u : ℕ) → pair_at units.new.items result to run u ≡ pair_at units.old.items from to run u }
    ensures to { (from ≤ result) × (end ≤ result) × (result ≤ vec_len units.new) }
    ensures inside { vec_len units.new ≤ len }
    ensures room { len ≤ vec_capacity units.new }
{
    if from < end {
        write_run(units, from, to, run, end, len)
    } else {
        from
    }
}

#[inline(never)]
fn write_run(
    units: &mut Vec<Pair>,
    from: usize,
    to: usize,
    run: Pair,
    end: usize,
    len: usize,
) -> usize
    requires some { from < end }
    requires inside { (from ≤ vec_len units.old) × (vec_len units.old ≤ len) × (to ≤ len) × (end ≤ len) }
    requires room { len ≤ vec_capacity units.old }
    requires small { 16 * len ≤ longest_segment }
    ensures same { (u : ℕ) → pair_at units.new.items result to run u ≡ pair_at units.old.items from to run u }
    ensures to { (from ≤ result) × (end ≤ result) × (result ≤ vec_len units.new) }
    ensures inside { vec_len units.new ≤ len }
    ensures room { len ≤ vec_capacity units.new }
{
    let last = (end + PAGE).min(len);
    grow(units, last);
    fill_pairs(units, from, to.min(last), run);
    if last < to { last } else { units.len() }
}

// Zeros are written for so many units at least. There is room for them.
#[inline]
fn grow(units: &mut Vec<Pair>, count: usize)
    requires { count ≤ vec_capacity units.old }
    ensures units { (u : ℕ) → get_or units.new.items u nothing ≡ get_or units.old.items u nothing }
    ensures len { vec_len units.new ≡ max (vec_len units.old) count }
    ensures room { vec_capacity units.old ≤ vec_capacity units.new }
{
    if units.len() < count {
        // There is room, so no memory is taken.
        let _ = units.resize(count, NOTHING);
    }
}

// Each of some units has these words.
fn fill_pairs(units: &mut Vec<Pair>, from: usize, to: usize, pair: Pair)
    requires { to ≤ vec_len units.old }
    ensures inside { (u : ℕ) → from ≤ u → u < to → get_or units.new.items u nothing ≡ pair }
    ensures others { (u : ℕ) → (u < from) ⊎ (to ≤ u) → get_or units.new.items u nothing ≡ get_or units.old.items u nothing }
    ensures len { vec_len units.new ≡ vec_len units.old }
    ensures room { vec_capacity units.new ≡ vec_capacity units.old }
{
    if from < to {
        units[from..to].fill(pair);
    }
}

// Of the first words of some units the lower half is kept.
fn keep_marks(units: &mut Vec<Pair>, from: usize, to: usize)
    requires { (from ≤ to) × (to ≤ vec_len units.old) }
    ensures inside { (u : ℕ) → from ≤ u → u < to → get_or units.new.items u nothing ≡ low_pair (get_or units.old.items u nothing) }
    ensures others { (u : ℕ) → (u < from) ⊎ (to ≤ u) → get_or units.new.items u nothing ≡ get_or units.old.items u nothing }
    ensures len { vec_len units.new ≡ vec_len units.old }
    ensures room { vec_capacity units.new ≡ vec_capacity units.old }
{
    for unit in from..to {
        units[unit].state %= UPPER;
    }
}
