// What a step hands out, and what a command comes to. No code here: specs/ says what commands do, what the engine's step and the reference machine
// (document 01: plain machine) are, and proofs/ that they agree.
#![tactic(auto)]

use drive::Drive;
use state::{Axis, State, Values};
use walk_point::Point;

// The motion request of a step. A move carries the stored position, speed, acceleration and deceleration; a stop its mode and a deceleration.
#[derive(Clone, Copy)]
pub enum Request {
    MoveTo(Axis),
    MoveBy(Axis),
    Forward(Axis),
    Backward(Axis),
    Stop(u8, u16),
}

// Why a command halts its task.
#[derive(Clone, Copy)]
pub enum Cause {
    // 19: the divisor is zero
    ZeroDivisor,
    // 20: the variable's content is outside the manual's range
    BadContent,
    // 22: the variable holds no landing block
    NoLanding,
}

// How the task that executes a command goes on.
#[derive(Clone, Copy)]
pub enum Outcome {
    // with the next block
    GoOn,
    // at the same block, with a wait of T ms and k turns; both 0 where it waits for no time
    Stay(u32, u32),
    // at the named block
    Jump(u16),
    // at the named block, one call deeper
    Call(u16),
    // behind its latest call
    Return,
    // with the next block; the task of this number starts anew at the named block
    Start(u8, u16),
    // at its start
    Restart,
    // not: it has ended itself
    End,
    // not: 19, 20 or 22 halts it
    Halt(Cause),
}

// What a command does: to the values, to the axis by a request, and to its task.
#[derive(Clone, Copy)]
pub struct Effect {
    pub values: Values,
    pub request: Option<Request>,
    pub outcome: Outcome,
}

// What a step answers: done, or why not.
pub type Answer = Result<(), NotDone>;

// Why a step was not done: it is refused by 15, 18 or 17 and changes nothing, or 19, 20 or 22 halts its task.
#[derive(Clone, Copy)]
pub enum NotDone {
    // 15: no such task
    NoTask(u32),
    // 15: input levels of this length
    Inputs(usize),
    // 18
    NotRunning,
    // 17 at this point
    Differs(Point),
    // 19, 20 or 22 at this point
    Halted(Cause, Point),
}

// What a command may read besides the values and the input levels: the drive; the start input, "ramp ended" and "in window" as levels (0 or 1); and its
// task's pending wait.
#[derive(Clone, Copy)]
pub struct Context {
    pub drive: Drive,
    pub start: u8,
    pub ramp_ended: u8,
    pub in_window: u8,
    pub time: u32,
    pub turns: u32,
}

// What a step hands out.
#[derive(Clone, Copy)]
pub struct StepOut {
    pub state: State,
    pub request: Option<Request>,
    pub answer: Answer,
}
