// A step as a line of text: task, block and command; what it changed in the state buffer; the motion request; the answer. The texts themselves are held
// to the stored output of the program manual; the contracts say which things are shown as changed. An error is the printing's.
#![tactic(auto)]

ghost use Rattle.std.specs.Prelude.{◌≡◌, ◌&&◌, ◌+◌, ◌*◌, ◌<◌, ◌≤◌, eqb, ltb, length, IfOk};
ghost use Rattle.std.specs.Int.{w32, cast_unsigned};
ghost use Rattle.limits.specs.Limits.{task_count, cells, state_length};
ghost use Rattle.image_header.specs.Scan.{blocks_of};
ghost use Rattle.walk.specs.Blocks.{block_at};
ghost use Rattle.state.specs.State.{runs};
ghost use Rattle.state_bytes.specs.Bytes.{le_number_at};
ghost use Rattle.state_layout.specs.Codecs.{task_length};
ghost use Rattle.state_layout.specs.Layout.{task_place};
ghost use Rattle.text_step.specs.Changes.{same, same_cells, same_axis, same_starts, unchanged, shown_at};

use bias_results::{BiasAnswer, BiasVerdict};
use image_header::reader;
use limits::{BLOCK_LENGTH, CELLS, STATE_LENGTH, TASK_COUNT};
use state_layout::{
    FLAGS_AT, MOTION_AT, NOTES_AT, OUTPUTS_AT, STARTS_AT, TASK_LENGTH, TASKS_AT, TIME_AT, TURNS_AT,
    VARIABLES_AT,
};
use std::io;

// The line of a step; a is the state buffer before it, b the one behind it. Gives whether nothing changed.
pub fn show_step<P: Print>(
    rt: &P,
    image: &[u8],
    a: &[u8; STATE_LENGTH],
    b: &[u8; STATE_LENGTH],
    task: u32,
    r: BiasAnswer,
) -> io::Result<bool>
    ensures { IfOk result (λ given. given ≡ unchanged a.now b.now) }
{
    text_print::show(rt, b"task ", u64::from(task))?;
    show_place(rt, image, a, task)?;
    rt.write_all(b" : ")?;
    let buffers = Buffers {
        before: a,
        after: b,
    };
    let nothing = buffers.show_changes(rt)?;
    if nothing {
        rt.write_all(b"nothing")?;
    }
    rt.write_all(b" : ")?;
    show_motion(rt, r)?;
    rt.write_all(b" : ")?;
    show_answer(rt, r)?;
    rt.write_all(b"\n")?;
    Ok(nothing)
}

// The line of a load; gives its number.
pub fn show_load<P: Print>(rt: &P, v: BiasVerdict) -> io::Result<u32>
    ensures { IfOk result (λ given. given ≡ v.number) }
{
    let number = v.number;
    text_print::show(rt, b"load ", u64::from(number))?;
    if number != 0 {
        text_print::show(rt, b" place ", v.place)?;
        text_print::show(rt, b" task ", u64::from(v.task))?;
        text_print::show(rt, b" depth ", u64::from(v.depth))?;
    }
    rt.write_all(b"\n")?;
    Ok(number)
}

// The block and the command that a running task is at; gives whether it runs.
fn show_place<P: Print>(rt: &P, image: &[u8], a: &[u8; STATE_LENGTH], task: u32) -> io::Result<bool>
    ensures { IfOk result (λ given. given ≡ ltb task task_count && eqb (le_number_at 1 a.now (task_place task)) runs) }
{
    if task >= TASK_COUNT {
        return Ok(false);
    }
    let at = task_at(task as u8);
    if state_bytes::byte(a, at) != state::RUNNING {
        return Ok(false);
    }
    show_block(rt, image, state_bytes::word(a, at + 2))?;
    Ok(true)
}

// Where a task's record stands.
fn task_at(t: u8) -> usize
    ensures { result ≡ task_place t }
{
    TASKS_AT + TASK_LENGTH * usize::from(t)
}

// A block's number and bytes; gives the bytes.
fn show_block<P: Print>(rt: &P, image: &[u8], block: u16) -> io::Result<[u8; BLOCK_LENGTH]>
    ensures { IfOk result (λ given. given ≡ block_at (blocks_of image.now) block) }
{
    let bytes = walk_blocks::block_at(reader::block_part(image), block);
    text_print::show(rt, b" block ", u64::from(block))?;
    rt.write_all(b" code")?;
    show_bytes(rt, &bytes)?;
    Ok(bytes)
}

// Bytes in hexadecimal digits; gives how many it showed.
fn show_bytes<P: Print>(rt: &P, bytes: &[u8]) -> io::Result<usize>
    ensures { IfOk result (λ given. given ≡ length bytes.now) }
{
    let mut n = 0;
    for byte in bytes {
        text_print::show_hex(rt, b" ", *byte)?;
        n += 1;
    }
    Ok(n)
}

// The state buffer before a step and the one behind it.
#[derive(Clone, Copy)]
struct Buffers<'a> {
    before: &'a [u8; STATE_LENGTH],
    after: &'a [u8; STATE_LENGTH],
}

impl Buffers<'_> {
    // What changed; gives whether nothing is shown.
    fn show_changes<P: Print>(&self, rt: &P) -> io::Result<bool>
        ensures { IfOk result (λ given. given ≡ unchanged self.now.before.now self.now.after.now) }
    {
        let variables = self.show_cells(rt, VARIABLES_AT, 4, b"variable ", true)?;
        let flags = self.show_cells(rt, FLAGS_AT, 1, b"flag ", variables)?;
        let outputs = self.show_cells(rt, OUTPUTS_AT, 1, b"output ", flags)?;
        let axis = self.show_axis(rt, outputs)?;
        let starts = self.show_starts(rt, axis)?;
        let bias = self.show_task(rt, limits::BIAS, starts)?;
        let plc = self.show_task(rt, limits::PLC, bias)?;
        self.show_task(rt, limits::MATHEMATICS, plc)
    }

    // The cells from a place on that changed, each of so many bytes; `nothing` says whether nothing was shown before. Gives whether nothing is shown yet.
    fn show_cells<P: Print>(
        &self,
        rt: &P,
        at: usize,
        width: usize,
        name: &[u8],
        nothing: bool,
    ) -> io::Result<bool>
        requires width_nonzero { 0 < width }
        requires cells_bound { at + width * cells ≤ state_length }
        ensures { IfOk result (λ given. given ≡ nothing && same_cells self.now.before.now self.now.after.now at width cells) }
    {
        let mut left = nothing;
        for k in 0..CELLS {
            left = self.show_cell(rt, at + width * k, width, name, k, left)?;
        }
        Ok(left)
    }

    // A number, its name and its index, if it changed.
    fn show_cell<P: Print>(
        &self,
        rt: &P,
        at: usize,
        width: usize,
        name: &[u8],
        index: usize,
        nothing: bool,
    ) -> io::Result<bool>
        requires width_nonzero { 0 < width }
        requires width_bound { at + width ≤ state_length }
        ensures { IfOk result (λ given. given ≡ nothing && same self.now.before.now self.now.after.now at width) }
    {
        if self.same(at, width) {
            return Ok(nothing);
        }
        show_comma(rt, nothing)?;
        text_print::show(rt, name, index as u64)?;
        show_value(rt, self.after, at, width)?;
        Ok(false)
    }

    // The parameters of the axis, the start mark and the notes of BIAS, as far as they changed.
    fn show_axis<P: Print>(&self, rt: &P, nothing: bool) -> io::Result<bool>
        ensures { IfOk result (λ given. given ≡ nothing && same_axis self.now.before.now self.now.after.now) }
    {
        let position = self.show_number(rt, MOTION_AT, 4, b"position", nothing)?;
        let speed = self.show_number(rt, MOTION_AT + 4, 2, b"speed", position)?;
        let acceleration = self.show_number(rt, MOTION_AT + 6, 2, b"acceleration", speed)?;
        let deceleration = self.show_number(rt, MOTION_AT + 8, 2, b"deceleration", acceleration)?;
        let mark = self.show_number(rt, MOTION_AT + 10, 1, b"mark", deceleration)?;
        let level = self.show_number(rt, NOTES_AT, 1, b"level", mark)?;
        self.show_number(rt, NOTES_AT + 1, 1, b"moved", level)
    }

    // The start blocks of the PLC and of mathematics, as far as they changed.
    fn show_starts<P: Print>(&self, rt: &P, nothing: bool) -> io::Result<bool>
        ensures { IfOk result (λ given. given ≡ nothing && same_starts self.now.before.now self.now.after.now) }
    {
        let plc = self.show_cell(
            rt,
            STARTS_AT,
            2,
            b"start of task ",
            usize::from(limits::PLC),
            nothing,
        )?;
        self.show_cell(
            rt,
            STARTS_AT + 2,
            2,
            b"start of task ",
            usize::from(limits::MATHEMATICS),
            plc,
        )
    }

    // A number and its name, if it changed.
    fn show_number<P: Print>(
        &self,
        rt: &P,
        at: usize,
        width: usize,
        name: &[u8],
        nothing: bool,
    ) -> io::Result<bool>
        requires width_nonzero { 0 < width }
        requires width_bound { at + width ≤ state_length }
        ensures { IfOk result (λ given. given ≡ nothing && same self.now.before.now self.now.after.now at width) }
    {
        if self.same(at, width) {
            return Ok(nothing);
        }
        show_comma(rt, nothing)?;
        rt.write_all(name)?;
        show_value(rt, self.after, at, width)?;
        Ok(false)
    }

    // A task's record, if it changed.
    fn show_task<P: Print>(&self, rt: &P, t: u8, nothing: bool) -> io::Result<bool>
        requires { t < task_count }
        ensures { IfOk result (λ given. given ≡ nothing && same self.now.before.now self.now.after.now (task_place t) task_length) }
    {
        let at = task_at(t);
        if self.same(at, TASK_LENGTH) {
            return Ok(nothing);
        }
        let after = self.after;
        show_comma(rt, nothing)?;
        text_print::show(rt, b"task ", u64::from(t))?;
        text_print::show(rt, b" at ", u64::from(state_bytes::word(after, at + 2)))?;
        text_print::show(rt, b" depth ", u64::from(state_bytes::byte(after, at + 1)))?;
        text_print::show(rt, b" status ", u64::from(state_bytes::byte(after, at)))?;
        text_print::show(
            rt,
            b" wait ",
            u64::from(state_bytes::long(after, at + TIME_AT)),
        )?;
        text_print::show(rt, b" ", u64::from(state_bytes::long(after, at + TURNS_AT)))?;
        Ok(false)
    }

    // Whether the bytes from a place on are the same in both buffers.
    fn same(&self, at: usize, width: usize) -> bool
        requires { at + width ≤ state_length }
        ensures { result ≡ same self.now.before.now self.now.after.now at width }
    {
        let before = self.before;
        let after = self.after;
        before[at..at + width] == after[at..at + width]
    }
}

// Between two changes.
fn show_comma<P: Print>(rt: &P, nothing: bool) -> io::Result<bool>
    ensures { IfOk result (λ given. given ≡ nothing) }
{
    if !nothing {
        rt.write_all(b", ")?;
    }
    Ok(nothing)
}

// The number of so many bytes, shown. Gives the bytes as a number.
fn show_value<P: Print>(rt: &P, b: &[u8; STATE_LENGTH], at: usize, width: usize) -> io::Result<u32>
    requires width_nonzero { 0 < width }
    requires width_bound { at + width ≤ state_length }
    ensures { IfOk result (λ given. given ≡ shown_at b.now at width) }
{
    let shown = text_print::show_signed(rt, b" = ", value_at(b, at, width))?;
    Ok(shown.cast_unsigned())
}

// The number of so many bytes: of four bytes a signed one.
fn value_at(b: &[u8; STATE_LENGTH], at: usize, width: usize) -> i32
    requires width_nonzero { 0 < width }
    requires width_bound { at + width ≤ state_length }
    ensures { cast_unsigned w32 result ≡ shown_at b.now at width }
{
    match width {
        4 => state_bytes::signed(b, at),
        2 => i32::from(state_bytes::word(b, at)),
        _ => i32::from(state_bytes::byte(b, at)),
    }
}

// The motion request; gives its number.
fn show_motion<P: Print>(rt: &P, r: BiasAnswer) -> io::Result<u32>
    ensures { IfOk result (λ given. given ≡ r.motion) }
{
    let motion = r.motion;
    match motion {
        1 => show_move(rt, b"move to ", r),
        2 => show_move(rt, b"move by ", r),
        3 => show_move(rt, b"forward ", r),
        4 => show_move(rt, b"backward ", r),
        5 => {
            text_print::show(rt, b"stop mode ", u64::from(r.mode))?;
            text_print::show(rt, b" ramp ", u64::from(r.deceleration))?;
            Ok(motion)
        }
        _ => {
            rt.write_all(b"none")?;
            Ok(motion)
        }
    }
}

// A move and its parameters; gives the request's number.
fn show_move<P: Print>(rt: &P, name: &[u8], r: BiasAnswer) -> io::Result<u32>
    ensures { IfOk result (λ given. given ≡ r.motion) }
{
    text_print::show_signed(rt, name, r.position)?;
    text_print::show(rt, b" ", u64::from(r.speed))?;
    text_print::show(rt, b" ", u64::from(r.acceleration))?;
    text_print::show(rt, b" ", u64::from(r.deceleration))?;
    Ok(r.motion)
}

// The answer's number, and its place where it has one; gives the number.
fn show_answer<P: Print>(rt: &P, r: BiasAnswer) -> io::Result<u32>
    ensures { IfOk result (λ given. given ≡ r.number) }
{
    let number = r.number;
    text_print::show(rt, b"", u64::from(number))?;
    match number {
        0 | 16 | 18 => {}
        15 => {
            text_print::show(rt, b" place ", r.place)?;
        }
        _ => {
            text_print::show(rt, b" block ", r.place)?;
            text_print::show(rt, b" task ", u64::from(r.task))?;
            text_print::show(rt, b" depth ", u64::from(r.depth))?;
        }
    }
    Ok(number)
}
