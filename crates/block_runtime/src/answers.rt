// The questions of the runtime, by the region that an address is in. Their answers are numbers; none of them faults.

ghost use Rattle.std.specs.Prelude.{◌≡◌, ◌≤◌, Ok, pos, IfSome};
ghost use Rattle.c_model.specs.Integers.{truth};
ghost use Rattle.raw_seg.specs.Bytes.{IsWidth};
ghost use Rattle.shadow_segments.specs.Shadow.{longest_segment};
ghost use Rattle.mon_syntax.specs.Flat.{flat_valid, flat_valid_read, flat_initialized, flat_number, flat_pointer, flat_inside};
ghost use Rattle.mon_syntax.specs.Flat.{flat_base_addr, flat_block_length, flat_offset, flat_separated};
ghost use Rattle.mon_syntax.specs.Questions.{is_some};

use crate::address::{address_of, number_of, spot_of};
use crate::{RunFault, Runtime};
use flat_mem::address::pointer_to;
use flat_mem::questions::{minus, plus};
use mon_syntax::Spot;
use shadow_segments::BlockNote;

/// The number that a question answers.
fn truth(holds: bool) -> i32
    ensures { result ≡ truth holds }
{
    if holds { 1 } else { 0 }
}

/// Whether two ranges don't meet, or have different numbers, or one of them has no byte.
fn are_separated(p: u64, o: i128, n: i128, q: u64, u: i128, m: i128) -> bool
    ensures { result ≡ flat_separated p o n q u m }
{
    if n <= 0 || m <= 0 || number_of(p) != number_of(q) {
        return true;
    }
    // Parts of the beginnings that are negative stand on the other side; a sum that passes 128 bits is farther away than a range is long.
    let address = u128::from(address_of(p));
    let other = u128::from(address_of(q));
    let first = match (address + plus(o)).checked_add(minus(u)) {
        Some(first) => first,
        None => return true,
    };
    let second = match (other + plus(u)).checked_add(minus(o)) {
        Some(second) => second,
        None => return true,
    };
    if first <= second {
        second - first >= plus(n)
    } else {
        first - second >= plus(m)
    }
}

impl Runtime {
    /// `__e_acsl_valid(P, O, N, A)`
    #[inline(always)]
    pub fn valid(&self, p: u64, o: i128, n: i128, a: u64) -> Result<i32, RunFault>
        requires { IsWidth a }
        ensures { result ≡ Ok (truth (flat_valid self.now p o n a)) }
    {
        Ok(truth(self.is_valid(p, o, n, a as u32)))
    }

    /// `__e_acsl_valid_read(P, O, N, A)`
    pub fn valid_read(&self, p: u64, o: i128, n: i128, a: u64) -> Result<i32, RunFault>
        requires { IsWidth a }
        ensures { result ≡ Ok (truth (flat_valid_read self.now p o n a)) }
    {
        Ok(truth(self.is_valid_read(p, o, n, a as u32)))
    }

    /// `__e_acsl_initialized(P, O, N, A)`
    pub fn initialized(&self, p: u64, o: i128, n: i128, a: u64) -> Result<i32, RunFault>
        requires { IsWidth a }
        ensures { result ≡ Ok (truth (flat_initialized self.now p o n a)) }
    {
        Ok(truth(self.is_initialized(p, o, n, a as u32)))
    }

    /// `__e_acsl_number(P, O, A)`
    #[inline(always)]
    pub fn number(&self, p: u64, o: i128, a: u64) -> Result<i32, RunFault>
        requires { IsWidth a }
        ensures { result ≡ Ok (truth (flat_number self.now p o a)) }
    {
        Ok(truth(self.is_number(p, o, a as u32)))
    }

    /// `__e_acsl_pointer(P, O)`
    #[inline(always)]
    pub fn pointer(&self, p: u64, o: i128) -> Result<i32, RunFault>
        ensures { result ≡ Ok (truth (flat_pointer self.now p o)) }
    {
        Ok(truth(self.is_pointer(p, o)))
    }

    /// `__e_acsl_inside(P, O)`
    pub fn inside(&self, p: u64, o: i128) -> Result<i32, RunFault>
        ensures { result ≡ Ok (truth (is_some (flat_inside self.now p o))) }
    {
        Ok(truth(self.note_inside(p, o).is_some()))
    }

    /// `__e_acsl_base_addr(P, O)`
    pub fn base_addr(&self, p: u64, o: i128) -> Result<u64, RunFault>
        ensures { result ≡ Ok (flat_base_addr self.now p o) }
    {
        let note = match self.note_inside(p, o) {
            Some(note) => note,
            None => return Ok(0),
        };
        Ok(match spot_of(p) {
            Spot::Nowhere => 0,
            Spot::In(name, _) => pointer_to(number_of(p), name, note.base),
        })
    }

    /// `__e_acsl_block_length(P, O)`
    pub fn block_length(&self, p: u64, o: i128) -> Result<i64, RunFault>
        ensures { result ≡ Ok (pos (flat_block_length self.now p o)) }
    {
        match self.note_inside(p, o) {
            Some(note) => Ok(i64::from(note.length)),
            None => Ok(0),
        }
    }

    /// `__e_acsl_offset(P, O)`
    pub fn offset(&self, p: u64, o: i128) -> Result<i64, RunFault>
        ensures { result ≡ Ok (pos (flat_offset self.now p o)) }
    {
        Ok(i64::from(self.offset_of(p, o)))
    }

    /// `__e_acsl_separated(P, O, N, Q, U, M)`
    pub fn separated(
        &self,
        p: u64,
        o: i128,
        n: i128,
        q: u64,
        u: i128,
        m: i128,
    ) -> Result<i32, RunFault>
        ensures { result ≡ Ok (truth (flat_separated p o n q u m)) }
    {
        Ok(truth(are_separated(p, o, n, q, u, m)))
    }

    #[inline(always)]
    fn is_valid(&self, p: u64, o: i128, n: i128, a: u32) -> bool
        requires { IsWidth a }
        ensures { result ≡ flat_valid self.now p o n a }
    {
        let size = plus(n);
        if size == 0 {
            return true;
        }
        match spot_of(p) {
            Spot::Nowhere => false,
            Spot::In(name, at) => self.memory.region(name).valid(at, number_of(p), o, size, a),
        }
    }

    #[inline(always)]
    fn is_valid_read(&self, p: u64, o: i128, n: i128, a: u32) -> bool
        requires { IsWidth a }
        ensures { result ≡ flat_valid_read self.now p o n a }
    {
        let size = plus(n);
        if size == 0 {
            return true;
        }
        match spot_of(p) {
            Spot::Nowhere => false,
            Spot::In(name, at) => self
                .memory
                .region(name)
                .valid_read(at, number_of(p), o, size, a),
        }
    }

    fn is_initialized(&self, p: u64, o: i128, n: i128, a: u32) -> bool
        requires { IsWidth a }
        ensures { result ≡ flat_initialized self.now p o n a }
    {
        let size = plus(n);
        if size == 0 {
            return true;
        }
        match spot_of(p) {
            Spot::Nowhere => false,
            Spot::In(name, at) => self
                .memory
                .region(name)
                .initialized(at, number_of(p), o, size, a),
        }
    }

    #[inline(always)]
    fn is_number(&self, p: u64, o: i128, a: u32) -> bool
        requires { IsWidth a }
        ensures { result ≡ flat_number self.now p o a }
    {
        match spot_of(p) {
            Spot::Nowhere => false,
            Spot::In(name, at) => self.memory.region(name).number(at, number_of(p), o, a),
        }
    }

    #[inline(always)]
    fn is_pointer(&self, p: u64, o: i128) -> bool
        ensures { result ≡ flat_pointer self.now p o }
    {
        match spot_of(p) {
            Spot::Nowhere => false,
            Spot::In(name, at) => self.memory.region(name).pointer(at, number_of(p), o),
        }
    }

    fn note_inside(&self, p: u64, o: i128) -> Option<BlockNote>
        ensures value { result ≡ flat_inside self.now p o }
        ensures small { IfSome result (λ note. note.base ≤ longest_segment) }
    {
        match spot_of(p) {
            Spot::Nowhere => None,
            Spot::In(name, at) => self.memory.region(name).inside(at, number_of(p), o),
        }
    }

    fn offset_of(&self, p: u64, o: i128) -> u32
        ensures { result ≡ flat_offset self.now p o }
    {
        match spot_of(p) {
            Spot::Nowhere => 0,
            Spot::In(name, at) => self.memory.region(name).offset(at, number_of(p), o),
        }
    }
}
