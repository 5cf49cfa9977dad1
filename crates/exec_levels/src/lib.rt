// Commands of flags and pins (60 to 68, 6E, 70 to 73): one function for each; two that differ in reading flags or outputs alone stand on
// one function that is given the levels. They take what they read.
#![tactic(auto)]

ghost use Rattle.std.specs.Prelude.{◌≡◌, ◌&&◌, ◌||◌, not, eqb, Some};
ghost use Rattle.std.specs.Int.{w32};
ghost use Rattle.num_arith.specs.Ops.{bit_at};
ghost use Rattle.state.specs.declared.Change.TheVariants.{Flag, Output};
ghost use Rattle.machine.specs.Inputs.{input_at};
ghost use Rattle.machine.specs.Effect.{bit, is_set, compares};
ghost use Rattle.exec_action.specs.Action.{setting, jumping_if, content, level_of};

use command_operands::Command;
use exec_action::Action;
use limits::CELLS;
use state::Change;

// 60: flag x = y.
pub fn set_flag(c: Command) -> Action
    ensures { result ≡ setting (Some (Flag c.x c.y)) }
{
    exec_action::sets(Some(Change::Flag(c.x, c.y)))
}

// 61 and 71: a jump if flag or output x compares by y with z.
pub fn jump_by_level(c: Command, levels: &[u8; CELLS]) -> Action
    ensures { result ≡ jumping_if (compares c.y (level_of levels.now c.x) c.z) c.word }
{
    exec_action::jump_if(
        exec_action::compares(c.y, exec_action::level_of(levels, c.x), c.z),
        c.word,
    )
}

// 61: a jump if flag x compares by y with z.
pub fn jump_by_flag(c: Command, flags: &[u8; CELLS]) -> Action
    ensures { result ≡ jumping_if (compares c.y (level_of flags.now c.x) c.z) c.word }
{
    jump_by_level(c, flags)
}

// 62 and 64: flag x = flag or output y.
pub fn flag_from_level(c: Command, levels: &[u8; CELLS]) -> Action
    ensures { result ≡ setting (Some (Flag c.x (level_of levels.now c.y))) }
{
    exec_action::sets(Some(Change::Flag(c.x, exec_action::level_of(levels, c.y))))
}

// 62: flag x = flag y.
pub fn copy_flag(c: Command, flags: &[u8; CELLS]) -> Action
    ensures { result ≡ setting (Some (Flag c.x (level_of flags.now c.y))) }
{
    flag_from_level(c, flags)
}

// The level of an input pin.
fn input(inputs: &[u8], pin: u8) -> u8
    ensures { result ≡ input_at inputs.now pin }
{
    exec_action::level(inputs.get(usize::from(pin)).copied().unwrap_or(0))
}

// 63: flag x = input y.
pub fn flag_from_input(inputs: &[u8], c: Command) -> Action
    ensures { result ≡ setting (Some (Flag c.x (input_at inputs.now c.y))) }
{
    exec_action::sets(Some(Change::Flag(c.x, input(inputs, c.y))))
}

// 64: flag x = output y.
pub fn flag_from_output(c: Command, outputs: &[u8; CELLS]) -> Action
    ensures { result ≡ setting (Some (Flag c.x (level_of outputs.now c.y))) }
{
    flag_from_level(c, outputs)
}

// Whether flag x is set.
fn is_set(flags: &[u8; CELLS], x: u8) -> bool
    ensures { result ≡ is_set (level_of flags.now x) }
{
    exec_action::level_of(flags, x) != 0
}

// Flag x = a truth.
fn set_flag_to(c: Command, t: bool) -> Action
    ensures { result ≡ setting (Some (Flag c.x (bit t))) }
{
    exec_action::sets(Some(Change::Flag(c.x, u8::from(t))))
}

// 65: flag x = flag y and flag z.
pub fn and_flags(c: Command, flags: &[u8; CELLS]) -> Action
    ensures { result ≡ setting (Some (Flag c.x (bit (is_set (level_of flags.now c.y) && is_set (level_of flags.now c.z))))) }
{
    set_flag_to(c, is_set(flags, c.y) & is_set(flags, c.z))
}

// 66: flag x = flag y or flag z.
pub fn or_flags(c: Command, flags: &[u8; CELLS]) -> Action
    ensures { result ≡ setting (Some (Flag c.x (bit (is_set (level_of flags.now c.y) || is_set (level_of flags.now c.z))))) }
{
    set_flag_to(c, is_set(flags, c.y) | is_set(flags, c.z))
}

// 67: flag x = flag y exclusive or flag z.
pub fn xor_flags(c: Command, flags: &[u8; CELLS]) -> Action
    ensures { result ≡ setting (Some (Flag c.x (bit (not (eqb (level_of flags.now c.y) (level_of flags.now c.z)))))) }
{
    set_flag_to(
        c,
        exec_action::level_of(flags, c.y) != exec_action::level_of(flags, c.z),
    )
}

// 68: flag x = not flag y.
pub fn not_flag(c: Command, flags: &[u8; CELLS]) -> Action
    ensures { result ≡ setting (Some (Flag c.x (bit (not (is_set (level_of flags.now c.y)))))) }
{
    set_flag_to(c, !is_set(flags, c.y))
}

// 6E: a jump if bit y of variable x compares by z with 0.
pub fn jump_by_bit(c: Command, variables: &[i32; CELLS]) -> Action
    ensures { result ≡ jumping_if (compares c.z (bit (bit_at w32 c.y (content variables.now c.x))) 0) c.word }
{
    let bit = u8::from(num_arith::bit(exec_action::content(variables, c.x), c.y));
    exec_action::jump_if(exec_action::compares(c.z, bit, 0), c.word)
}

// 70: a jump if input x compares by y with z.
pub fn jump_by_input(inputs: &[u8], c: Command) -> Action
    ensures { result ≡ jumping_if (compares c.y (input_at inputs.now c.x) c.z) c.word }
{
    exec_action::jump_if(exec_action::compares(c.y, input(inputs, c.x), c.z), c.word)
}

// 71: a jump if output x compares by y with z.
pub fn jump_by_output(c: Command, outputs: &[u8; CELLS]) -> Action
    ensures { result ≡ jumping_if (compares c.y (level_of outputs.now c.x) c.z) c.word }
{
    jump_by_level(c, outputs)
}

// 72: output x = y.
pub fn set_output(c: Command) -> Action
    ensures { result ≡ setting (Some (Output c.x c.y)) }
{
    exec_action::sets(Some(Change::Output(c.x, c.y)))
}

// 73: output x = flag y.
pub fn output_from_flag(c: Command, flags: &[u8; CELLS]) -> Action
    ensures { result ≡ setting (Some (Output c.x (level_of flags.now c.y))) }
{
    exec_action::sets(Some(Change::Output(c.x, exec_action::level_of(flags, c.y))))
}
