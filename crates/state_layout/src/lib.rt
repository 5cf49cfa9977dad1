// The layout of the state buffer that firmware keeps between steps (docs/STATE.md): the place of each section, behind the one before it. The definitions say
// which state a buffer holds, which bytes a state has, and which buffers are no state (16); crates state_decode, state_encode and state_judge do it.
#![tactic(auto)]

// Raised by each release that moves a byte or gives one another meaning, an unused one included: 16 refuses a state with another.
pub const LAYOUT_NUMBER: u8 = 5;

pub const VARIABLES_AT: usize = 0;

pub const FLAGS_AT: usize = VARIABLES_AT + 4 * limits::CELLS;

pub const OUTPUTS_AT: usize = FLAGS_AT + limits::CELLS;

pub const LAYOUT_AT: usize = OUTPUTS_AT + limits::CELLS;

// Format, type, slot B, slot C, a byte each; start, count, two each; the landing count, a byte.
pub const HEADER_AT: usize = LAYOUT_AT + 1;

// The program start, in the header.
pub const START_AT: usize = HEADER_AT + 4;

// The landing list.
pub const LANDINGS_AT: usize = HEADER_AT + 9;

// Position, speed, acceleration, deceleration, start mark.
pub const MOTION_AT: usize = LANDINGS_AT + 2 * limits::MOST_LANDINGS;

// The notes of BIAS: the preceding start level, the note of a move.
pub const NOTES_AT: usize = MOTION_AT + 11;

// The start blocks of the PLC and of mathematics.
pub const STARTS_AT: usize = NOTES_AT + 2;

pub const TASKS_AT: usize = STARTS_AT + 4;

// In a task's record: its call stack, its wait, its length.
pub const STACK_AT: usize = 4;

pub const TIME_AT: usize = STACK_AT + 2 * limits::STACK_LENGTH;

pub const TURNS_AT: usize = TIME_AT + 4;

pub const TASK_LENGTH: usize = TURNS_AT + 4;

pub const UNUSED_AT: usize = TASKS_AT + limits::TASKS * TASK_LENGTH;
