// A state written as a buffer, section by section.
#![tactic(auto)]

ghost use Rattle.std.specs.Prelude.{◌≡◌, [], ◌∷◌, ℕ, ◌+◌, ◌*◌, ◌<◌, ◌≤◌, length, get_or, replicate};
ghost use Rattle.limits.specs.Limits.{state_length};
ghost use Rattle.state_bytes.specs.Bytes.{puts};
ghost use Rattle.state_sections.specs.Records.{record_bytes};
ghost use Rattle.state_layout.specs.Codecs.{variables_length, variable_bytes, layout_bytes, header_bytes, landings_in, motion_bytes, notes_bytes, start_widths, word_bytes};
ghost use Rattle.state_layout.specs.Codecs.{task_length, task_bytes};
ghost use Rattle.state_layout.specs.Layout.{layout_at, header_at, landings_at, motion_at, notes_at, starts_at, unused_at, unused_length, state_of, encoded};

use image_header::Header;
use limits::{CELLS, STATE_LENGTH, TASKS};
use state::{Motion, Notes, State, Task};

// The bytes of a state into the buffer.
pub fn encode(b: &mut [u8], s: State)
    requires { length b.old ≡ state_length }
    ensures { b.new ≡ encoded s }
{
    let State {
        values,
        header,
        landings,
        tasks,
    } = s;
    put_words(b, state_layout::LANDINGS_AT, &landings);
    encode_parts(
        b,
        &values.cells.variables,
        &values.cells.flags,
        &values.cells.outputs,
        header,
        values.motion,
        values.notes,
        tasks,
    );
}

// The same of a state whose parts these are; the cells are lent, so that they are copied once. The landing list that stands in the buffer stays: no step
// changes it.
#[inline]
pub fn encode_parts<'a>(
    b: &mut [u8],
    variables: &'a [i32; CELLS],
    flags: &'a [u8; CELLS],
    outputs: &'a [u8; CELLS],
    header: Header,
    motion: Motion,
    notes: Notes,
    tasks: [Task; TASKS],
)
    requires { length b.old ≡ state_length }
    ensures { b.new
        ≡ encoded (state_of variables.now flags.now outputs.now header (landings_in b.old landings_at) motion
        notes tasks) }
{
    put_variables(b, state_layout::VARIABLES_AT, variables);
    put_levels(b, state_layout::FLAGS_AT, flags);
    put_levels(b, state_layout::OUTPUTS_AT, outputs);
    put_layout(b);
    put_header(b, header);
    put_motion(b, motion);
    put_notes(b, notes);
    put_starts(b, tasks[1].start, tasks[2].start);
    for (t, task) in tasks.iter().enumerate() {
        put_task(
            b,
            state_layout::TASKS_AT + t * state_layout::TASK_LENGTH,
            *task,
        );
    }
    put_unused(b);
}

fn put_variables(b: &mut [u8], at: usize, variables: &[i32; CELLS])
    requires { at + variables_length ≤ length b.old }
    ensures { b.new ≡ puts b.old at (variable_bytes variables.now) }
{
    for (k, z) in variables.iter().enumerate() {
        state_bytes::put_signed(b, at + 4 * k, *z);
    }
}

// Flags, or outputs.
fn put_levels(b: &mut [u8], at: usize, levels: &[u8])
    requires { at + length levels.now ≤ length b.old }
    ensures { b.new ≡ puts b.old at levels.now }
{
    b[at..at + levels.len()].copy_from_slice(levels);
}

// The number of this release's layout.
fn put_layout(b: &mut [u8])
    requires { length b.old ≡ state_length }
    ensures { b.new ≡ puts b.old layout_at layout_bytes }
{
    state_bytes::put_byte(b, state_layout::LAYOUT_AT, state_layout::LAYOUT_NUMBER);
}

fn put_header(b: &mut [u8], h: Header)
    requires { length b.old ≡ state_length }
    ensures { b.new ≡ puts b.old header_at (header_bytes h) }
{
    state_bytes::put_byte(b, state_layout::HEADER_AT, h.format);
    state_bytes::put_byte(b, state_layout::HEADER_AT + 1, h.drive.model);
    state_bytes::put_byte(b, state_layout::HEADER_AT + 2, h.drive.b);
    state_bytes::put_byte(b, state_layout::HEADER_AT + 3, h.drive.c);
    state_bytes::put_word(b, state_layout::HEADER_AT + 4, h.start);
    state_bytes::put_word(b, state_layout::HEADER_AT + 6, h.count);
    state_bytes::put_byte(b, state_layout::HEADER_AT + 8, h.landings);
}

// The axis and the start mark.
fn put_motion(b: &mut [u8], motion: Motion)
    requires { length b.old ≡ state_length }
    ensures { b.new ≡ puts b.old motion_at (motion_bytes motion) }
{
    state_bytes::put_signed(b, state_layout::MOTION_AT, motion.axis.position);
    state_bytes::put_word(b, state_layout::MOTION_AT + 4, motion.axis.speed);
    state_bytes::put_word(b, state_layout::MOTION_AT + 6, motion.axis.acceleration);
    state_bytes::put_word(b, state_layout::MOTION_AT + 8, motion.axis.deceleration);
    state_bytes::put_byte(b, state_layout::MOTION_AT + 10, motion.mark);
}

fn put_notes(b: &mut [u8], notes: Notes)
    requires { length b.old ≡ state_length }
    ensures { b.new ≡ puts b.old notes_at (notes_bytes notes) }
{
    state_bytes::put_byte(b, state_layout::NOTES_AT, notes.level);
    state_bytes::put_byte(b, state_layout::NOTES_AT + 1, notes.moved);
}

// The start blocks of the PLC and of mathematics.
fn put_starts(b: &mut [u8], plc: u16, mathematics: u16)
    requires { length b.old ≡ state_length }
    ensures { b.new ≡ puts b.old starts_at (record_bytes start_widths (plc ∷ mathematics ∷ [])) }
{
    state_bytes::put_word(b, state_layout::STARTS_AT, plc);
    state_bytes::put_word(b, state_layout::STARTS_AT + 2, mathematics);
}

// A task's record, from a place on.
fn put_task(b: &mut [u8], at: usize, task: Task)
    requires { at + task_length ≤ length b.old }
    ensures { b.new ≡ puts b.old at (task_bytes task) }
{
    state_bytes::put_byte(b, at, task.status);
    state_bytes::put_byte(b, at + 1, task.depth);
    state_bytes::put_word(b, at + 2, task.block);
    put_words(b, at + state_layout::STACK_AT, &task.stack);
    state_bytes::put_long(b, at + state_layout::TIME_AT, task.time);
    state_bytes::put_long(b, at + state_layout::TURNS_AT, task.turns);
}

// Blocks: a call stack, or the landing list.
fn put_words(b: &mut [u8], at: usize, words: &[u16])
    requires { at + 2 * length words.now ≤ length b.old }
    ensures b_after { b.new ≡ puts b.old at (word_bytes (length words.now) words.now) }
    ensures words_fit { (k : ℕ) → get_or words.now k 0 < 65536 }
{
    for (i, word) in words.iter().enumerate() {
        state_bytes::put_word(b, at + 2 * i, *word);
    }
}

// The unused bytes, which are 0.
fn put_unused(b: &mut [u8])
    requires { length b.old ≡ state_length }
    ensures { b.new ≡ puts b.old unused_at (replicate unused_length 0) }
{
    b[state_layout::UNUSED_AT..STATE_LENGTH].fill(0);
}
