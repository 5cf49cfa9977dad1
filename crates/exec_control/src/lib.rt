// Commands of control (51 to 5B; 50 does nothing) and of mathematics (90): one function for each; the starts of a task stand on one
// function that is given it. They take what they read, and change nothing but tasks.
#![tactic(auto)]

ghost use Rattle.std.specs.Prelude.{◌≡◌, cond, ◌*◌, ◌<◌, eqb};
ghost use Rattle.limits.specs.Limits.{bias, plc, mathematics, most_time};
ghost use Rattle.state.specs.Wait.{due};
ghost use Rattle.machine.specs.Effect.{within, natural, arrived, waits, time_of};
ghost use Rattle.exec_action.specs.Action.{flowing, waiting, content, landing};
ghost use Rattle.machine.specs.declared.Outcome.TheVariants.{GoOn, Stay, Jump, Call, Return, Start, Restart, End};

use command_operands::Command;
use drive::Drive;
use exec_action::Action;
use limits::CELLS;
use machine::{Cause, Context, Outcome};
use state::Notes;

// 51: back to the start of its task in mode 0, else its end.
pub fn end(c: Command) -> Action
    ensures { result ≡ flowing (cond (eqb c.x 0) Restart End) }
{
    exec_action::flows(if c.x == 0 {
        Outcome::Restart
    } else {
        Outcome::End
    })
}

// 52: a call.
pub fn call(c: Command) -> Action
    ensures { result ≡ flowing (Call c.word) }
{
    exec_action::flows(Outcome::Call(c.word))
}

// 53: a return.
pub fn come_back() -> Action
    ensures { result ≡ flowing Return }
{
    exec_action::flows(Outcome::Return)
}

// 54, 57 and 90: a task is started.
pub fn start(task: u8, c: Command) -> Action
    ensures { result ≡ flowing (Start task c.word) }
{
    exec_action::flows(Outcome::Start(task, c.word))
}

// 54: the PLC is started.
pub fn start_plc(c: Command) -> Action
    ensures { result ≡ flowing (Start plc c.word) }
{
    start(limits::PLC, c)
}

// 55: a jump.
pub fn jump(c: Command) -> Action
    ensures { result ≡ flowing (Jump c.word) }
{
    exec_action::flows(Outcome::Jump(c.word))
}

// 56: a jump to the landing block that variable x holds.
pub fn jump_to_landing<'a>(c: Command, variables: &'a [i32; CELLS], landings: &'a [u16]) -> Action
    ensures { result ≡ landing landings.now Jump (content variables.now c.x) }
{
    let found = exec_action::find_landing(exec_action::content(variables, c.x), landings);
    exec_action::flows(found.map_or(
        Outcome::Halt(Cause::NoLanding),
        |block| Outcome::Jump(block),
    ))
}

// 57: BIAS is started.
pub fn start_bias(c: Command) -> Action
    ensures { result ≡ flowing (Start bias c.word) }
{
    start(limits::BIAS, c)
}

// 58: on when the ramp has ended, the position is in the window and the preceding BIAS step, refused and halted ones apart, was no move.
pub fn wait_for_position(context: Context, notes: Notes) -> Action
    ensures { result ≡ flowing (cond (arrived context notes) GoOn (Stay 0 0)) }
{
    if (context.ramp_ended != 0) & ((context.in_window != 0) & (notes.moved == 0)) {
        return exec_action::flows(Outcome::GoOn);
    }
    exec_action::flows(Outcome::Stay(0, 0))
}

// 59: a wait of word x 2 ms.
pub fn wait(context: Context, c: Command) -> Action
    requires { context.turns < 4294967295 }
    ensures { result ≡ flowing (waits (2 * c.word) context) }
{
    exec_action::flows(waits(context, 2 * u32::from(c.word)))
}

// 5A: a wait of so many ms as variable x holds, read at the first step.
pub fn wait_by_variable(context: Context, c: Command, variables: &[i32; CELLS]) -> Action
    requires { context.turns < 4294967295 }
    ensures { result ≡ waiting context (content variables.now c.x) }
{
    let content = exec_action::content(variables, c.x);
    if (context.time != 0) | is_time(content) {
        return exec_action::flows(waits(context, time_of(context.drive, natural(content))));
    }
    exec_action::halts(Cause::BadContent)
}

// 5B: BIAS is started at the landing block that variable x holds.
pub fn start_bias_at_landing<'a>(
    c: Command,
    variables: &'a [i32; CELLS],
    landings: &'a [u16],
) -> Action
    ensures { result ≡ landing landings.now (Start bias) (content variables.now c.x) }
{
    let found = exec_action::find_landing(exec_action::content(variables, c.x), landings);
    exec_action::flows(found.map_or(
        Outcome::Halt(Cause::NoLanding),
        |block| Outcome::Start(limits::BIAS, block),
    ))
}

// A wait: a time is pending from the first step on, and each later step counts a turn.
fn waits(context: Context, time: u32) -> Outcome
    requires { context.turns < 4294967295 }
    ensures { result ≡ waits time context }
{
    if context.time == 0 {
        return wait_or_pass(context.drive, time, 0);
    }
    wait_or_pass(context.drive, context.time, context.turns + 1)
}

// On when the time is over, else waiting.
fn wait_or_pass(drive: Drive, time: u32, turns: u32) -> Outcome
    ensures { result ≡ cond (due drive.model time turns) GoOn (Stay time turns) }
{
    if state::is_due(drive, time, turns) {
        return Outcome::GoOn;
    }
    Outcome::Stay(time, turns)
}

// Whether a content is a time of 5A.
fn is_time(content: i32) -> bool
    ensures { result ≡ within 0 most_time content }
{
    (0 <= content) & (content <= limits::MOST_TIME as i32)
}

// A content as a natural number; a negative one, which is no time, as 0.
fn natural(content: i32) -> u32
    ensures { result ≡ natural content }
{
    u32::try_from(content).unwrap_or(0)
}

// The time of a content: types before the 637+ leave an odd millisecond out.
fn time_of(drive: Drive, content: u32) -> u32
    ensures { result ≡ time_of drive.model content }
{
    if drive.model < Drive::TYPE_637_PLUS {
        return content - content % 2;
    }
    content
}

// 90: mathematics is started.
pub fn start_mathematics(c: Command) -> Action
    ensures { result ≡ flowing (Start mathematics c.word) }
{
    start(limits::MATHEMATICS, c)
}
