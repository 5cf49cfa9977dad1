// A buffer read as a state, section by section.
#![tactic(auto)]

ghost use Rattle.std.specs.Prelude.{◌≡◌, ℕ, ◌+◌, ◌*◌, ◌<◌, ◌≤◌, length, get_or};
ghost use Rattle.limits.specs.Limits.{task_count, most_depth, most_landings, state_length};
ghost use Rattle.state.specs.State.{task_at};
ghost use Rattle.state_layout.specs.Codecs.{levels_length, levels_in, header_in, landings_in, motion_in, notes_in, stack_in, task_length, task_in};
ghost use Rattle.state_layout.specs.Layout.{header_at, landings_at, motion_at, notes_at, cells_in, bias_in, plc_in, mathematics_in, tasks_in, decoded};

use drive::Drive;
use image_header::Header;
use limits::{CELLS, MOST_LANDINGS, STACK_LENGTH, TASKS};
use state::{Axis, Motion, Notes, Task};

// The three tasks.
pub fn tasks_in(b: &[u8]) -> [Task; TASKS]
    requires { length b.now ≡ state_length }
    ensures { result ≡ tasks_in b.now }
{
    [task_at(b, 0), task_at(b, 1), task_at(b, 2)]
}

// One of them.
pub fn task_at(b: &[u8], t: u8) -> Task
    requires b_len { length b.now ≡ state_length }
    requires task_in_range { t < task_count }
    ensures { result ≡ task_at (decoded b.now) t }
{
    let at = state_layout::TASKS_AT + usize::from(t) * state_layout::TASK_LENGTH;
    task_in(b, at, start_of(b, t))
}

// The block that a task starts at: BIAS starts at the program start, which the header has.
fn start_of(b: &[u8], t: u8) -> u16
    requires b_len { length b.now ≡ state_length }
    requires task_in_range { t < task_count }
    ensures { result ≡ (task_at (decoded b.now) t).start }
{
    if t == limits::BIAS {
        return state_bytes::word(b, state_layout::START_AT);
    }
    state_bytes::word(b, state_layout::STARTS_AT + 2 * usize::from(t - 1))
}

// The variables.
pub fn variables_in(b: &[u8]) -> [i32; CELLS]
    requires { length b.now ≡ state_length }
    ensures { result ≡ (cells_in b.now).variables }
{
    let mut r = [0; CELLS];
    for k in 0..CELLS {
        r[k] = state_bytes::signed(b, state_layout::VARIABLES_AT + 4 * k);
    }
    r
}

// The flags.
pub fn flags_in(b: &[u8]) -> [u8; CELLS]
    requires { length b.now ≡ state_length }
    ensures { result ≡ (cells_in b.now).flags }
{
    levels_in(b, state_layout::FLAGS_AT)
}

// The outputs.
pub fn outputs_in(b: &[u8]) -> [u8; CELLS]
    requires { length b.now ≡ state_length }
    ensures { result ≡ (cells_in b.now).outputs }
{
    levels_in(b, state_layout::OUTPUTS_AT)
}

// The notes of BIAS.
pub fn notes_in(b: &[u8]) -> Notes
    requires { length b.now ≡ state_length }
    ensures { result ≡ notes_in b.now notes_at }
{
    Notes {
        level: state_bytes::byte(b, state_layout::NOTES_AT),
        moved: state_bytes::byte(b, state_layout::NOTES_AT + 1),
    }
}

// Flags, or outputs.
fn levels_in(b: &[u8], at: usize) -> [u8; CELLS]
    requires { at + levels_length ≤ length b.now }
    ensures { result ≡ levels_in b.now at }
{
    let mut r = [0; CELLS];
    r.copy_from_slice(&b[at..at + CELLS]);
    r
}

pub fn header_in(b: &[u8]) -> Header
    requires { length b.now ≡ state_length }
    ensures { result ≡ header_in b.now header_at }
{
    let drive = Drive {
        model: state_bytes::byte(b, state_layout::HEADER_AT + 1),
        b: state_bytes::byte(b, state_layout::HEADER_AT + 2),
        c: state_bytes::byte(b, state_layout::HEADER_AT + 3),
    };
    Header {
        format: state_bytes::byte(b, state_layout::HEADER_AT),
        drive,
        start: state_bytes::word(b, state_layout::START_AT),
        count: state_bytes::word(b, state_layout::HEADER_AT + 6),
        landings: state_bytes::byte(b, state_layout::HEADER_AT + 8),
    }
}

// The landing list, of which the first `count` are landing blocks: no others are read, as 16 has found them 0.
pub fn landings_in(b: &[u8], count: u8) -> [u16; MOST_LANDINGS]
    requires b_len { length b.now ≡ state_length }
    requires count_in_range { count ≤ most_landings }
    requires zeros_behind { (k : ℕ) → count ≤ k → get_or (landings_in b.now landings_at) k 0 ≡ 0 }
    ensures { result ≡ landings_in b.now landings_at }
{
    let mut r = [0; MOST_LANDINGS];
    for k in 0..usize::from(count) {
        r[k] = state_bytes::word(b, state_layout::LANDINGS_AT + 2 * k);
    }
    r
}

// The axis and the start mark.
pub fn motion_in(b: &[u8]) -> Motion
    requires { length b.now ≡ state_length }
    ensures { result ≡ motion_in b.now motion_at }
{
    let axis = Axis {
        position: state_bytes::signed(b, state_layout::MOTION_AT),
        speed: state_bytes::word(b, state_layout::MOTION_AT + 4),
        acceleration: state_bytes::word(b, state_layout::MOTION_AT + 6),
        deceleration: state_bytes::word(b, state_layout::MOTION_AT + 8),
    };
    Motion {
        axis,
        mark: state_bytes::byte(b, state_layout::MOTION_AT + 10),
    }
}

// The task whose record stands at a place.
fn task_in(b: &[u8], at: usize, start: u16) -> Task
    requires { at + task_length ≤ length b.now }
    ensures { result ≡ task_in b.now at start }
{
    Task {
        status: state_bytes::byte(b, at),
        block: state_bytes::word(b, at + 2),
        start,
        depth: state_bytes::byte(b, at + 1),
        stack: stack_in(b, at + state_layout::STACK_AT),
        time: state_bytes::long(b, at + state_layout::TIME_AT),
        turns: state_bytes::long(b, at + state_layout::TURNS_AT),
    }
}

fn stack_in(b: &[u8], at: usize) -> [u16; STACK_LENGTH]
    requires { at + 2 * most_depth ≤ length b.now }
    ensures { result ≡ stack_in b.now at }
{
    let mut r = [0; STACK_LENGTH];
    for i in 0..STACK_LENGTH {
        r[i] = state_bytes::word(b, at + 2 * i);
    }
    r
}
