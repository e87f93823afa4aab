//! The registers of a function.

ghost use Rattle.std.specs.Prelude.{◌≡◌, ◌<◌, ◌≤◌, length, IfOk, IfErr};
ghost use Rattle.mon_syntax.specs.Checking.{find_register};

use indexmap::IndexMap;
use mon_syntax::MonType;
use std::alloc::AllocError;

/// The types of a function's registers by their names' numbers, in order. There are no more of them than a register's number
/// tells apart.
#[derive(Drop)]
pub struct Registers {
    pub kinds: IndexMap<u32, MonType>,
    ghost few: { length kinds.entries ≤ 4294967295 },
}

impl Registers {
    pub fn new(kinds: IndexMap<u32, MonType>) -> Result<Self, AllocError>
        ensures kinds { IfOk result (λ registers. registers.kinds.entries ≡ kinds.entries) }
        ensures sure { IfErr result (λ e. 4294967295 < length kinds.entries) }
    {
        if kinds.len() <= 4_294_967_295 {
            Ok(Registers { kinds })
        } else {
            Err(AllocError)
        }
    }

    /// A register by its number in the function, with its type.
    pub fn find(&self, name: u32) -> Option<(u32, MonType)>
        ensures { result ≡ find_register 0 self.now.kinds.entries name }
    {
        match self.kinds.get_full(&name) {
            Some((index, _, kind)) => Some((index as u32, *kind)),
            None => None,
        }
    }
}
