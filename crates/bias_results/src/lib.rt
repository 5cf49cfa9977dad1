// What C is handed (include/bias.h): the two structs of results, and document 01's numbers and places in them. Parts that an answer does not name are 0.
#![tactic(auto)]

ghost use Rattle.std.specs.Prelude.{◌≡◌};
ghost use Rattle.machine.specs.Numbers.{cause_number, answer_number, answer_place, answer_task, answer_depth, request_number, stop_axis, request_axis, request_mode};
ghost use Rattle.bias_results.specs.Results.{numbered, verdict_for, written_for, no_state_answer, answer_for};

use image_writer::Written;
use machine::{Answer, Cause, NotDone, Request};
use state::Axis;
use walk::Verdict;

// 16: the lent buffer is no state.
pub const NO_STATE: u32 = 16;

// The result of a load or a write.
#[repr(C)]
#[derive(Clone, Copy, PartialEq, Eq)]
pub struct BiasVerdict {
    pub place: u64,
    pub number: u32,
    pub task: u32,
    pub depth: u32,
}

// The result of a step: an answer and a motion request.
#[repr(C)]
#[derive(Clone, Copy, PartialEq, Eq, Default)]
pub struct BiasAnswer {
    pub place: u64,
    pub number: u32,
    pub task: u32,
    pub depth: u32,
    pub motion: u32,
    pub position: i32,
    pub speed: u32,
    pub acceleration: u32,
    pub deceleration: u32,
    pub mode: u32,
}

// A result with a number and a place alone.
pub fn numbered(number: u32, place: usize) -> BiasVerdict
    ensures { result ≡ numbered number place }
{
    BiasVerdict {
        place: place as u64,
        number,
        task: 0,
        depth: 0,
    }
}

// The result of a load.
pub fn verdict(v: Verdict) -> BiasVerdict
    ensures { result ≡ verdict_for v }
{
    BiasVerdict {
        place: walk_verdict::place(v) as u64,
        number: walk_verdict::number(v),
        task: u32::from(walk_verdict::task(v)),
        depth: u32::from(walk_verdict::depth(v)),
    }
}

// The result of a write: the length written stands in the place.
pub fn written(w: Written) -> BiasVerdict
    ensures { result ≡ written_for w }
{
    match w.result {
        Ok(()) => numbered(0, w.length),
        Err(fault) => numbered(fault.number(), fault.place()),
    }
}

// The result of a step with a buffer that is no state: no motion.
pub fn no_state() -> BiasAnswer
    ensures { result ≡ no_state_answer }
{
    BiasAnswer {
        number: NO_STATE,
        ..BiasAnswer::default()
    }
}

// The result of any other step.
pub fn answer(motion: Option<Request>, a: Answer) -> BiasAnswer
    ensures { result ≡ answer_for motion a }
{
    let axis = request_axis(motion);
    BiasAnswer {
        place: place_of(a) as u64,
        number: number_of(a),
        task: u32::from(task_of(a)),
        depth: u32::from(depth_of(a)),
        motion: request_number(motion),
        position: axis.position,
        speed: u32::from(axis.speed),
        acceleration: u32::from(axis.acceleration),
        deceleration: u32::from(axis.deceleration),
        mode: u32::from(request_mode(motion)),
    }
}

// Document 01's number of an answer.
fn number_of(a: Answer) -> u32
    ensures { result ≡ answer_number a }
{
    match a {
        Ok(()) => 0,
        Err(NotDone::NoTask(_) | NotDone::Inputs(_)) => 15,
        Err(NotDone::NotRunning) => 18,
        Err(NotDone::Differs(_)) => 17,
        Err(NotDone::Halted(cause, _)) => cause_number(cause),
    }
}

// Document 01's number of a halt.
fn cause_number(cause: Cause) -> u32
    ensures { result ≡ cause_number cause }
{
    match cause {
        Cause::ZeroDivisor => 19,
        Cause::BadContent => 20,
        Cause::NoLanding => 22,
    }
}

// The task number or the length of the inputs, or the block before the step.
fn place_of(a: Answer) -> usize
    ensures { result ≡ answer_place a }
{
    match a {
        Err(NotDone::NoTask(task)) => task as usize,
        Err(NotDone::Inputs(length)) => length,
        Err(NotDone::Differs(point) | NotDone::Halted(_, point)) => usize::from(point.block),
        _ => 0,
    }
}

fn task_of(a: Answer) -> u8
    ensures { result ≡ answer_task a }
{
    match a {
        Err(NotDone::Differs(point) | NotDone::Halted(_, point)) => point.task,
        _ => 0,
    }
}

fn depth_of(a: Answer) -> u8
    ensures { result ≡ answer_depth a }
{
    match a {
        Err(NotDone::Differs(point) | NotDone::Halted(_, point)) => point.depth,
        _ => 0,
    }
}

// The number of a motion request.
fn request_number(m: Option<Request>) -> u32
    ensures { result ≡ request_number m }
{
    match m {
        None => 0,
        Some(Request::MoveTo(_)) => 1,
        Some(Request::MoveBy(_)) => 2,
        Some(Request::Forward(_)) => 3,
        Some(Request::Backward(_)) => 4,
        Some(Request::Stop(_, _)) => 5,
    }
}

// A deceleration and no other parameter.
fn stop_axis(deceleration: u16) -> Axis
    ensures { result ≡ stop_axis deceleration }
{
    Axis {
        position: 0,
        speed: 0,
        acceleration: 0,
        deceleration,
    }
}

// The parameters that a request carries.
fn request_axis(m: Option<Request>) -> Axis
    ensures { result ≡ request_axis m }
{
    match m {
        None => stop_axis(0),
        Some(
            Request::MoveTo(axis)
            | Request::MoveBy(axis)
            | Request::Forward(axis)
            | Request::Backward(axis),
        ) => axis,
        Some(Request::Stop(_, deceleration)) => stop_axis(deceleration),
    }
}

// A stop's mode.
fn request_mode(m: Option<Request>) -> u8
    ensures { result ≡ request_mode m }
{
    if let Some(Request::Stop(mode, _)) = m {
        mode
    } else {
        0
    }
}
