//! Stack code.

ghost use Rattle.std.specs.Prelude.{◌≡◌, ◌≤◌, map};
ghost use Rattle.c_model.specs.Limits.{globals_bytes};
ghost use Rattle.mon_syntax.specs.Globals.{globals_taken};
ghost use Rattle.mon_syntax.specs.Trees.{plain_global};
ghost use Rattle.c_lower.specs.Sound.{IsSound, operands_of};

use c_syntax::Kind;
use mon_syntax::{MemoryCall, MonGlobal, MonOp, MonType};

/// One instruction of the stack machine. A jump says how many instructions it passes.
#[derive(Clone, Copy)]
pub enum Instr {
    /// A number onto the stack.
    Push(i64),
    /// 64 more bits after those of the topmost number.
    Extend(u64),
    /// The pointer to the start of the global or literal with this number onto the stack.
    Global(u32),
    /// A register's value onto the stack.
    Get(u32),
    /// The topmost value into a register, where there is one of the number.
    Put(u32),
    /// The topmost value off the stack.
    Drop,
    Binary(MonOp, MonType),
    /// An operator of which the first operand is a pointer.
    Pointed(MonOp),
    Minus(MonType),
    Flip(MonType),
    Cast(MonType),
    /// The value of the type that is read at the topmost value, a pointer.
    Load(MonType),
    /// The topmost value is stored with its mark, as one of the type, at the pointer below it; both are taken off the stack.
    Store(MonType),
    /// An assertion, with its number, its line and its kind: whether it is true lies above whether it is defined.
    Assert(u32, u32, Kind),
    /// The topmost number's byte is written, and stays in the number's place.
    PutChar,
    /// The next byte of the input onto the stack, -1 at its end.
    GetChar,
    /// The byte is written.
    PutByte(u8),
    /// The topmost number is written in decimal, and taken off the stack.
    PutNumber,
    /// The bytes from the topmost value on, a pointer, are written up to the first 0, and it is taken off the stack.
    PutString,
    /// The run ends with the topmost number.
    Exit,
    /// Passes so many instructions where the topmost number is 0; it is taken off the stack.
    SkipIfZero(usize),
    /// Passes so many instructions.
    GoOn(usize),
    /// Goes so many instructions back, to a `Step`.
    GoBack(usize),
    /// Takes a step.
    Step,
    /// A call of the runtime on the memory with so many arguments, the last one topmost. Its value comes onto the stack.
    Act(MemoryCall, usize),
    /// A call of the function with this number and so many arguments, the last one topmost. It takes a step.
    Call(u32, usize),
    /// Ends a call, with the topmost value.
    Return,
    /// The machine faults.
    Fail,
}

// A machine goes through many of them: each takes at most 16 bytes.
const _: () = prove!(std::mem::size_of::<Instr>() <= 16);

/// What an instruction does to the operands on the stack.
#[derive(Clone, Copy)]
pub struct Operands {
    /// How many it takes.
    pub taken: usize,
    /// How many it then puts there.
    pub given: usize,
}

fn counts(taken: usize, given: usize) -> Operands
    ensures { result ≡ record { taken = taken; given = given } }
{
    Operands { taken, given }
}

/// The operands of an instruction.
pub fn operands_of(instr: &Instr) -> Operands
    ensures is { result ≡ operands_of instr.now }
    ensures most { result.given ≤ 1 }
{
    match instr {
        Instr::Push(_) | Instr::Global(_) | Instr::Get(_) | Instr::GetChar => counts(0, 1),
        Instr::Extend(_) | Instr::Minus(_) | Instr::Flip(_) | Instr::Cast(_) => counts(1, 1),
        Instr::Load(_) | Instr::PutChar => counts(1, 1),
        Instr::Put(_) | Instr::Drop | Instr::PutNumber | Instr::PutString => counts(1, 0),
        Instr::Exit | Instr::SkipIfZero(_) | Instr::Return => counts(1, 0),
        Instr::Binary(_, _) | Instr::Pointed(_) => counts(2, 1),
        Instr::Store(_) | Instr::Assert(_, _, _) => counts(2, 0),
        Instr::PutByte(_) | Instr::GoOn(_) | Instr::GoBack(_) => counts(0, 0),
        Instr::Step | Instr::Fail => counts(0, 0),
        Instr::Act(_, count) | Instr::Call(_, count) => counts(*count, 1),
    }
}

/// Where a function begins in the code, and how many registers its calls have.
#[derive(Clone, Copy)]
pub struct Entry {
    pub start: usize,
    pub registers: usize,
}

/// The code of a program. Each instruction finds its operands, a call takes all that there are, each jump stays inside, and a
/// jump back leads to a `Step`. The globals have room in their segment.
#[derive(Drop)]
pub struct Code {
    pub instrs: Vec<Instr>,
    /// A function's entry, by its number.
    pub entries: Vec<Entry>,
    /// The entry of `main`.
    pub main: Option<Entry>,
    /// The globals and literals, by their numbers.
    pub globals: Vec<MonGlobal>,
    pub ghost sound: { ∥ IsSound instrs.items entries.items main ∥₁ },
    pub ghost room: { globals_taken (map plain_global globals.items) ≤ globals_bytes },
}
