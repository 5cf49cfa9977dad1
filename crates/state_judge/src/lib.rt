// 16: which buffers are a state.
#![tactic(auto)]

ghost use Rattle.std.specs.Prelude.{◌≡◌, ◌+◌, ◌≤◌, length};
ghost use Rattle.std.specs.List.{list_all};
ghost use Rattle.limits.specs.Limits.{most_depth, cells};
ghost use Rattle.image_header.specs.Rows.{accepts_landings};
ghost use Rattle.state_layout.specs.Codecs.{levels_length, levels_in, landings_in};
ghost use Rattle.state_layout.specs.Layout.{landings_at, unused_length, values_in, decoded};
ghost use Rattle.state_layout.specs.IsState.{all_of, level_is, entry_is, wait_is, task_is, motion_is, notes_are, values_are, state_is};
ghost use Rattle.state_layout.specs.IsState.{unused_bytes_zero, frame_is, is_state};
ghost use Rattle.state_judge.specs.Together.{together};

use drive::Drive;
use image_header::{Header, reader};
use limits::{CELLS, MOST_LANDINGS, STACK_LENGTH, STATE_LENGTH, TASKS};
use state::{Motion, Notes, Task};

// Whether a buffer is a state. It is judged where it is lent: nothing is decoded but the header, the axis, the notes and the tasks, and of the landing list
// what stands below its count.
pub fn is_state(b: &[u8]) -> bool
    ensures { result ≡ is_state b.now }
{
    match b.as_array() {
        Some(b) => frame_is(b) & state_is(b),
        None => false,
    }
}

// What is the buffer's own: this release's layout number, and unused bytes 0.
fn frame_is(b: &[u8; STATE_LENGTH]) -> bool
    ensures { result ≡ frame_is b.now }
{
    (state_bytes::byte(b, state_layout::LAYOUT_AT) == state_layout::LAYOUT_NUMBER) & unused_zero(b)
}

// Whether the unused bytes are 0.
fn unused_zero(b: &[u8; STATE_LENGTH]) -> bool
    ensures { result ≡ unused_bytes_zero b.now unused_length }
{
    together(&b[state_layout::UNUSED_AT..]) == 0
}

// Bytes with each binary digit that one of them has.
fn together(bytes: &[u8]) -> u8
    ensures { result ≡ together bytes.now 0 (length bytes.now) }
{
    let mut all = 0;
    for x in bytes {
        all |= *x;
    }
    all
}

// Whether what a buffer is read as is a state.
fn state_is(b: &[u8; STATE_LENGTH]) -> bool
    ensures { result ≡ state_is (decoded b.now) }
{
    let header = state_decode::header_in(b);
    reader::accepts(header)
        & (landings_are(b, header)
            & (values_are(b) & tasks_are(header, &state_decode::tasks_in(b))))
}

// Whether the landing list is one that load accepts with this header: as many blocks as it says, each judged beside the one before it, and zeros.
fn landings_are(b: &[u8; STATE_LENGTH], header: Header) -> bool
    ensures { result ≡ accepts_landings header (landings_in b.now landings_at) }
{
    let n = usize::from(header.landings).min(MOST_LANDINGS);
    let mut pass = true;
    let mut before = 0;
    for i in 0..n {
        let block = state_bytes::word(b, state_layout::LANDINGS_AT + 2 * i);
        pass &= reader::landing_fits(u32::from(header.count), i, before, block);
        before = block;
    }
    let rest = &b[state_layout::LANDINGS_AT + 2 * n..state_layout::MOTION_AT];
    pass & (together(rest) == 0)
}

// Cells, motion and notes: flags and outputs 0 or 1, and so both notes.
fn values_are(b: &[u8; STATE_LENGTH]) -> bool
    ensures { result ≡ values_are (values_in b.now) }
{
    (levels_are(b, state_layout::FLAGS_AT) & levels_are(b, state_layout::OUTPUTS_AT))
        & (motion_is(state_decode::motion_in(b)) & notes_are(state_decode::notes_in(b)))
}

// Parameters in their ranges, start mark 0 or 1.
fn motion_is(m: Motion) -> bool
    ensures { result ≡ motion_is m }
{
    limits::up_to(limits::MOST_SPEED, m.axis.speed)
        & (limits::up_to(limits::MOST_RAMP, m.axis.acceleration)
            & (limits::up_to(limits::MOST_RAMP, m.axis.deceleration)
                & (m.mark <= limits::MOST_LEVEL)))
}

// The preceding start level and the note of a move 0 or 1.
fn notes_are(n: Notes) -> bool
    ensures { result ≡ notes_are n }
{
    (n.level <= limits::MOST_LEVEL) & (n.moved <= limits::MOST_LEVEL)
}

// Whether the flags, or the outputs, from a place on are levels.
fn levels_are(b: &[u8], at: usize) -> bool
    requires { at + levels_length ≤ length b.now }
    ensures { result ≡ all_of level_is (levels_in b.now at) cells }
{
    together(&b[at..at + CELLS]) <= limits::MOST_LEVEL
}

// Whether each task is one that a state has.
fn tasks_are(h: Header, tasks: &[Task; TASKS]) -> bool
    ensures { result ≡ list_all (task_is h) tasks.now }
{
    tasks.iter().all(|task| task_is(h, *task))
}

// Status, block and start, depth, call stack and wait of a task.
fn task_is(h: Header, task: Task) -> bool
    ensures { result ≡ task_is h task }
{
    (task.status <= state::HALTED)
        & ((task.block < h.count)
            & ((task.start < h.count)
                & ((task.depth <= limits::MOST_DEPTH)
                    & (stack_is(h.count, usize::from(task.depth), &task.stack)
                        & wait_is(h.drive, task.time, task.turns)))))
}

fn stack_is(count: u16, depth: usize, stack: &[u16; STACK_LENGTH]) -> bool
    ensures { result ≡ all_of (entry_is count depth) stack.now most_depth }
{
    let mut pass = true;
    for (i, block) in stack.iter().enumerate() {
        pass &= entry_is(count, depth, i, *block);
    }
    pass
}

// An entry of a call stack: under the depth a block, above it 0.
fn entry_is(count: u16, depth: usize, i: usize, block: u16) -> bool
    ensures { result ≡ entry_is count depth i block }
{
    ((i < depth) & (block < count)) | ((depth <= i) & (block == 0))
}

// No wait, or one from 1 ms up to the longest that is not over.
fn wait_is(drive: Drive, time: u32, turns: u32) -> bool
    ensures { result ≡ wait_is drive.model time turns }
{
    ((time == 0) & (turns == 0))
        | ((0 < time) & ((time <= limits::LONGEST_WAIT) & !state::is_due(drive, time, turns)))
}
