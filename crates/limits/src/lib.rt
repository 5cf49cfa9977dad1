// The limits, each once: the code's here, the definitions' beside them in specs/Limits.antt. A crate that has one of these numbers takes it from here;
// the contracts, which name the definitions, hold the two together, and proved_cases/proofs/Limits.antt holds each against document 01's number.
#![tactic(auto)]

ghost use Rattle.std.specs.Prelude.{◌≡◌};
ghost use Rattle.limits.specs.Limits.{up_to};

// The tasks by document 01's numbers, and how many there are.
pub const BIAS: u8 = 0;

pub const PLC: u8 = 1;

pub const MATHEMATICS: u8 = 2;

pub const TASK_COUNT: u32 = 3;

pub const TASKS: usize = TASK_COUNT as usize;

// The most blocks of an image, and the bytes of a block.
pub const MOST_BLOCKS: u16 = 1500;

pub const BLOCK_LENGTH: usize = 8;

// The most landing blocks that a program may name (change request 1).
pub const MOST_LANDINGS: usize = 64;

// The most calls that a task may be inside of (depth), and the most blocks that its call stack (document 01: return path) holds.
pub const MOST_DEPTH: u8 = 5;

pub const STACK_LENGTH: usize = MOST_DEPTH as usize;

// The depths that a task may have.
pub const DEPTHS: usize = MOST_DEPTH as usize + 1;

// Variables, flags, outputs: as many of each.
pub const CELLS: usize = 256;

// Levels of flags, pins and the start input.
pub const MOST_LEVEL: u8 = 1;

// Flags that 86 may read.
pub const MOST_RUN: u16 = 32;

// A speed, in rpm.
pub const MOST_SPEED: u16 = 12000;

// An acceleration or deceleration, in 5 rpm/s.
pub const MOST_RAMP: u16 = 64000;

// The most that an operand of 59 says, in 2 ms, and a variable of 5A, in ms; the longest wait, in ms.
pub const MOST_TIME: u32 = 65535;

pub const LONGEST_WAIT: u32 = 2 * MOST_TIME;

// The lengths of what C lends: a mark for each block, task and depth; the state; a level for each input pin.
pub const MARKS_LENGTH: usize = MOST_BLOCKS as usize * TASKS * DEPTHS;

pub const STATE_LENGTH: usize = 2048;

pub const INPUTS_LENGTH: usize = CELLS;

// Whether a number is from 1 up to the most.
pub fn up_to(most: u16, v: u16) -> bool
    ensures { result ≡ up_to most v }
{
    0 < v && v <= most
}
