// One step of one task: the tests in document 01's order (18, 17; 15 and 16 are the border's), then the command's action, and what it makes of notes and
// answer.
#![tactic(auto)]

ghost use Rattle.std.specs.Prelude.{◌≡◌, ◌&&◌, ◌||◌, not, ◌<◌};
ghost use Rattle.image_header.specs.Rows.{same_header, same_landings};
ghost use Rattle.walk_flow.specs.Terms.{under};
ghost use Rattle.walk_blocks.specs.Instructions.{instruction_of};
ghost use Rattle.state.specs.Change.{cells_of, values_of};
ghost use Rattle.exec_action.specs.Action.{acted};
ghost use Rattle.machine.specs.Effect.{bit, is_set, effect_of};
ghost use Rattle.machine.specs.Engine.{is_wait, is_move, moved_after, notes_after, answer_to, point_of};
ghost use Rattle.exec_step.specs.Readiness.{context_with, passes, ready_for};

use command_operands::Command;
use drive::Drive;
use exec_action::Action;
use image_header::reader::HeaderRead;
use image_header::{Header, reader};
use limits::{BLOCK_LENGTH, CELLS, MOST_LANDINGS};
use machine::{Answer, Context, NotDone, Outcome, Request};
use state::{Motion, Notes, Task};
use walk_blocks::Instruction;
use walk_point::Point;

// Where a task is.
pub fn point_of(t: u8, task: Task) -> Point
    ensures { result ≡ point_of t task }
{
    Point {
        task: t,
        block: task.block,
        depth: task.depth,
    }
}

// Whether a code is a wait for a time.
fn is_wait(code: u8) -> bool
    ensures { result ≡ is_wait code }
{
    matches!(code, 0x59 | 0x5A)
}

// The answer to a command that was carried out, or halted its task.
pub fn answer_to(outcome: Outcome, p: Point) -> Answer
    ensures { result ≡ answer_to outcome p }
{
    match outcome {
        Outcome::Halt(cause) => Err(NotDone::Halted(cause, p)),
        _ => Ok(()),
    }
}

// Whether a request moves the axis, 1 or 0; a stop does not.
fn move_of(request: Option<Request>) -> u8
    ensures { result ≡ bit (is_move request) }
{
    u8::from(!matches!(request, None | Some(Request::Stop(_, _))))
}

// The note of a move after a command; a halt leaves the one before.
fn moved_after(outcome: Outcome, request: Option<Request>, before: u8) -> u8
    ensures { result ≡ moved_after outcome request before }
{
    match outcome {
        Outcome::Halt(_) => before,
        _ => move_of(request),
    }
}

// The notes after a step: a BIAS step takes the start input's level and whether it carried out a move.
pub fn notes_after(
    t: u8,
    start: u8,
    outcome: Outcome,
    request: Option<Request>,
    before: Notes,
) -> Notes
    ensures { result ≡ notes_after t start outcome request before }
{
    if t != limits::BIAS {
        return before;
    }
    Notes {
        level: exec_action::level(start),
        moved: moved_after(outcome, request, before.moved),
    }
}

// The command that a step of the task t with this record carries out, or what stands against it: 18, then 17, in a program that was loaded with this header
// and landing list. Header, landing list, block and row are read once.
pub fn ready_for(
    image: &[u8],
    header: Header,
    landings: &[u16; MOST_LANDINGS],
    t: u8,
    task: Task,
) -> Result<Command, NotDone>
    ensures { result ≡ ready_for image.now (under header landings.now) t task }
{
    if task.status != state::RUNNING {
        return Err(NotDone::NotRunning);
    }
    let p = point_of(t, task);
    let mut lent = [0; MOST_LANDINGS];
    let read = match reader::read(image, &mut lent) {
        Ok(read) => read,
        Err(_) => return Err(NotDone::Differs(p)),
    };
    let block = walk_blocks::block_at(reader::part_of(image, Ok(read)), task.block);
    let i = walk_blocks::decode(block);
    let c = i.command;
    if !(is_loaded(read, &lent, header, landings)
        & (block_fits(header, block, i, p) & wait_fits(c.code, task.time)))
    {
        return Err(NotDone::Differs(p));
    }
    Ok(c)
}

// Whether what was read of the lent image is this header and this landing list.
fn is_loaded<'a>(
    read: HeaderRead,
    lent: &'a [u16; MOST_LANDINGS],
    header: Header,
    landings: &'a [u16; MOST_LANDINGS],
) -> bool
    ensures { result
        ≡ (same_header read.header header && same_landings header.landings lent.now (under header landings.now).landings) }
{
    reader::same(read.header, header) & reader::same_landings(header.landings, lent, landings)
}

// Whether a block, whose instruction this is, passes 5 to 8 and 23 by itself, and 9 to 12 at a point.
fn block_fits(header: Header, block: [u8; BLOCK_LENGTH], i: Instruction, p: Point) -> bool
    requires { i ≡ instruction_of block }
    ensures { result ≡ passes header block i.command p }
{
    let row = i.row;
    let c = i.command;
    let by_itself = command_judge::judge_read(row, header, block, c);
    let there = p.fault(header, row, c);
    by_itself.is_ok() & there.is_ok()
}

// Whether a pending wait stands at a wait.
fn wait_fits(code: u8, time: u32) -> bool
    ensures { result ≡ (not (is_set time) || is_wait code) }
{
    (time == 0) | is_wait(code)
}

// The action of a command, in a program for this drive and with these landing blocks, with the task's pending wait.
pub fn action_of<'a>(
    drive: Drive,
    c: Command,
    inputs: &[u8],
    landings: &'a [u16],
    start: u8,
    ramp_ended: u8,
    in_window: u8,
    time: u32,
    turns: u32,
    variables: &'a [i32; CELLS],
    flags: &'a [u8; CELLS],
    outputs: &'a [u8; CELLS],
    motion: Motion,
    notes: Notes,
) -> Action
    requires { turns < 4294967295 }
    ensures { acted result (values_of (cells_of variables.now flags.now outputs.now) motion notes)
        ≡ effect_of inputs.now landings.now (context_with drive start ramp_ended in_window time turns) c
        (values_of (cells_of variables.now flags.now outputs.now) motion notes) }
{
    let context = Context {
        drive,
        start: exec_action::level(start),
        ramp_ended: exec_action::level(ramp_ended),
        in_window: exec_action::level(in_window),
        time,
        turns,
    };
    exec_dispatch::perform(
        context, inputs, landings, c, variables, flags, outputs, motion, notes,
    )
}
