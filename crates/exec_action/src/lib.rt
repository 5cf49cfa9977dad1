// Actions in their forms, and what several commands read alike.
#![tactic(auto)]

ghost use Rattle.std.specs.Prelude.{◌≡◌, pos};
ghost use Rattle.num_arith.specs.Ops.{eq_z};
ghost use Rattle.machine.specs.Inputs.{level};
ghost use Rattle.machine.specs.Effect.{compares};
ghost use Rattle.exec_action.specs.Action.{asking, setting, assigning, flowing, jumping_if, halting, content, level_of, landing_of};

use command_operands::Command;
use limits::CELLS;
use machine::{Cause, Outcome, Request};
use state::Change;

// What a command does, as it is handed on: what it changes of the values, and not the values after it, which would be copied from function to function; its
// request to the axis; and what becomes of its task.
#[derive(Clone, Copy)]
pub struct Action {
    pub change: Option<Change>,
    pub request: Option<Request>,
    pub outcome: Outcome,
}

// At most one change, at most one motion is asked for, and the task goes on.
pub fn asks(change: Option<Change>, request: Option<Request>) -> Action
    ensures { result ≡ asking change request }
{
    Action {
        change,
        request,
        outcome: Outcome::GoOn,
    }
}

// At most one change, and the task goes on.
pub fn sets(change: Option<Change>) -> Action
    ensures { result ≡ setting change }
{
    asks(change, None)
}

// Variable x of a command is set, and the task goes on.
pub fn assigns(c: Command, value: i32) -> Action
    ensures { result ≡ assigning c value }
{
    sets(Some(Change::Variable(c.x, value)))
}

// Nothing changes but the task.
pub fn flows(outcome: Outcome) -> Action
    ensures { result ≡ flowing outcome }
{
    Action {
        change: None,
        request: None,
        outcome,
    }
}

// A jump where a condition holds.
pub fn jump_if(condition: bool, block: u16) -> Action
    ensures { result ≡ jumping_if condition block }
{
    flows(if condition {
        Outcome::Jump(block)
    } else {
        Outcome::GoOn
    })
}

// A halt changes nothing.
pub fn halts(cause: Cause) -> Action
    ensures { result ≡ halting cause }
{
    flows(Outcome::Halt(cause))
}

// A variable's content.
pub fn content(variables: &[i32; CELLS], x: u8) -> i32
    ensures { result ≡ content variables.now x }
{
    variables[usize::from(x)]
}

// A flag, or an output's level.
pub fn level_of(levels: &[u8; CELLS], x: u8) -> u8
    ensures { result ≡ level_of levels.now x }
{
    levels[usize::from(x)]
}

// The conditions of 61, 6E, 70 and 71: 0 equal, any other unequal.
pub fn compares(condition: u8, a: u8, b: u8) -> bool
    ensures { result ≡ compares condition a b }
{
    if condition == 0 { a == b } else { a != b }
}

// A byte as a level: anything but 0 is high.
pub fn level(byte: u8) -> u8
    ensures { result ≡ level byte }
{
    u8::from(byte != 0)
}

// The landing block that a content names, if it names one.
pub fn find_landing(content: i32, landings: &[u16]) -> Option<u16>
    ensures { result ≡ landing_of landings.now content }
{
    landings
        .iter()
        .copied()
        .find(|block| content == i32::from(*block))
}
