// Commands of motion (00, 01, 03, 04, 0E, 0F, 1F) and of the stored parameters (20 to 23, 30 to 33, 40 to 43): one function for each;
// the moves stand on one function that is given the request. They take what they read.
#![tactic(auto)]

ghost use Rattle.std.specs.Prelude.{◌≡◌, cond, pos, Some, None, MatchOption};
ghost use Rattle.limits.specs.Limits.{most_speed, most_ramp};
ghost use Rattle.state.specs.State.{first_axis, with_position, with_speed, with_acceleration, with_deceleration};
ghost use Rattle.state.specs.declared.Change.TheVariants.{Parameters, Mark};
ghost use Rattle.machine.specs.Effect.{within, natural, started};
ghost use Rattle.machine.specs.declared.Cause.TheVariants.{BadContent};
ghost use Rattle.exec_action.specs.Action.{asking, setting, assigning, halting, starting, loading, content};
ghost use Rattle.machine.specs.declared.Request.TheVariants as request;

use command_operands::Command;
use exec_action::Action;
use limits::{CELLS, MOST_RAMP, MOST_SPEED};
use machine::{Cause, Context, Outcome, Request};
use state::{Axis, Change, FIRST_AXIS, Motion, Notes};

// Whether a move starts: the start mark stands, or the start input is high and was low at the preceding BIAS step.
fn started(context: Context, motion: Motion, notes: Notes) -> bool
    ensures { result ≡ started context motion notes }
{
    (motion.mark != 0) | ((context.start != 0) & (notes.level == 0))
}

// 00, 01, 03 and 04: the move that is asked for starts, and clears the start mark, or its task stays.
pub fn moves(context: Context, motion: Motion, notes: Notes, request: Request) -> Action
    ensures { result ≡ starting context motion notes request }
{
    if started(context, motion, notes) {
        return exec_action::asks(Some(Change::Mark(0)), Some(request));
    }
    exec_action::flows(Outcome::Stay(0, 0))
}

// 00: a move to the stored position.
pub fn move_to(context: Context, motion: Motion, notes: Notes) -> Action
    ensures { result ≡ starting context motion notes (request.MoveTo motion.axis) }
{
    moves(context, motion, notes, Request::MoveTo(motion.axis))
}

// 01: a move by the stored position.
pub fn move_by(context: Context, motion: Motion, notes: Notes) -> Action
    ensures { result ≡ starting context motion notes (request.MoveBy motion.axis) }
{
    moves(context, motion, notes, Request::MoveBy(motion.axis))
}

// 03: endless, forward.
pub fn forward(context: Context, motion: Motion, notes: Notes) -> Action
    ensures { result ≡ starting context motion notes (request.Forward motion.axis) }
{
    moves(context, motion, notes, Request::Forward(motion.axis))
}

// 04: endless, backward.
pub fn backward(context: Context, motion: Motion, notes: Notes) -> Action
    ensures { result ≡ starting context motion notes (request.Backward motion.axis) }
{
    moves(context, motion, notes, Request::Backward(motion.axis))
}

// 0E: the start mark is set.
pub fn set_mark() -> Action
    ensures { result ≡ setting (Some (Mark 1)) }
{
    exec_action::sets(Some(Change::Mark(1)))
}

// 0F: a stop of mode x, with the stored deceleration.
pub fn stop(c: Command, axis: Axis) -> Action
    ensures { result ≡ asking None (Some (request.Stop c.x axis.deceleration)) }
{
    exec_action::asks(None, Some(Request::Stop(c.x, axis.deceleration)))
}

// 1F: a stop of mode x, with the deceleration in word.
pub fn stop_by(c: Command) -> Action
    ensures { result ≡ asking None (Some (request.Stop c.x c.word)) }
{
    exec_action::asks(None, Some(Request::Stop(c.x, c.word)))
}

// The stored parameters are set.
fn sets(axis: Axis) -> Action
    ensures { result ≡ setting (Some (Parameters first_axis axis)) }
{
    exec_action::sets(Some(Change::Parameters(FIRST_AXIS, axis)))
}

// 20: position = value.
pub fn set_position(c: Command, axis: Axis) -> Action
    ensures { result ≡ setting (Some (Parameters first_axis (with_position c.value axis))) }
{
    sets(axis.with_position(c.value))
}

// 21: speed = word.
pub fn set_speed(c: Command, axis: Axis) -> Action
    ensures { result ≡ setting (Some (Parameters first_axis (with_speed c.word axis))) }
{
    sets(axis.with_speed(c.word))
}

// 22: acceleration = word.
pub fn set_acceleration(c: Command, axis: Axis) -> Action
    ensures { result ≡ setting (Some (Parameters first_axis (with_acceleration c.word axis))) }
{
    sets(axis.with_acceleration(c.word))
}

// 23: deceleration = word.
pub fn set_deceleration(c: Command, axis: Axis) -> Action
    ensures { result ≡ setting (Some (Parameters first_axis (with_deceleration c.word axis))) }
{
    sets(axis.with_deceleration(c.word))
}

// 30: position = variable x.
pub fn load_position(c: Command, variables: &[i32; CELLS], axis: Axis) -> Action
    ensures { result ≡ setting (Some (Parameters first_axis (with_position (content variables.now c.x) axis))) }
{
    sets(axis.with_position(exec_action::content(variables, c.x)))
}

// A content as a parameter, if it is from 1 up to the most.
fn in_range(most: u16, content: i32) -> Option<u16>
    ensures { result ≡ cond (within 1 most content) (Some (natural content)) None }
{
    u16::try_from(content)
        .ok()
        .filter(|value| 1 <= *value && *value <= most)
}

// Parameters with a content, which are set; 20 where the content is out of range.
fn loads(axis: Option<Axis>) -> Action
    ensures { MatchOption axis (result ≡ halting BadContent) (λ loaded. result ≡ setting (Some (Parameters first_axis loaded))) }
{
    match axis {
        Some(loaded) => sets(loaded),
        None => exec_action::halts(Cause::BadContent),
    }
}

// 31: speed = variable x.
pub fn load_speed(c: Command, variables: &[i32; CELLS], axis: Axis) -> Action
    ensures { result ≡ loading most_speed with_speed (content variables.now c.x) axis }
{
    let content = in_range(MOST_SPEED, exec_action::content(variables, c.x));
    loads(content.map(|speed| axis.with_speed(speed)))
}

// 32: acceleration = variable x.
pub fn load_acceleration(c: Command, variables: &[i32; CELLS], axis: Axis) -> Action
    ensures { result ≡ loading most_ramp with_acceleration (content variables.now c.x) axis }
{
    let content = in_range(MOST_RAMP, exec_action::content(variables, c.x));
    loads(content.map(|acceleration| axis.with_acceleration(acceleration)))
}

// 33: deceleration = variable x.
pub fn load_deceleration(c: Command, variables: &[i32; CELLS], axis: Axis) -> Action
    ensures { result ≡ loading most_ramp with_deceleration (content variables.now c.x) axis }
{
    let content = in_range(MOST_RAMP, exec_action::content(variables, c.x));
    loads(content.map(|deceleration| axis.with_deceleration(deceleration)))
}

// 40: variable x = position.
pub fn store_position(c: Command, axis: Axis) -> Action
    ensures { result ≡ assigning c axis.position }
{
    exec_action::assigns(c, axis.position)
}

// 41: variable x = speed.
pub fn store_speed(c: Command, axis: Axis) -> Action
    ensures { result ≡ assigning c (pos axis.speed) }
{
    exec_action::assigns(c, i32::from(axis.speed))
}

// 42: variable x = acceleration.
pub fn store_acceleration(c: Command, axis: Axis) -> Action
    ensures { result ≡ assigning c (pos axis.acceleration) }
{
    exec_action::assigns(c, i32::from(axis.acceleration))
}

// 43: variable x = deceleration.
pub fn store_deceleration(c: Command, axis: Axis) -> Action
    ensures { result ≡ assigning c (pos axis.deceleration) }
{
    exec_action::assigns(c, i32::from(axis.deceleration))
}
