// What a command does: its row is found by its code.
#![tactic(auto)]

ghost use Rattle.std.specs.Prelude.{◌≡◌, ◌<◌};
ghost use Rattle.state.specs.Change.{cells_of, values_of};
ghost use Rattle.machine.specs.Effect.{effect_of};
ghost use Rattle.exec_action.specs.Action.{acted};

use command_operands::Command;
use exec_action::Action;
use limits::CELLS;
use machine::{Context, Outcome};
use state::{Motion, Notes};

// The action of a command, each given what it reads; a code that is not carried leaves its task where it is. The turns of a pending wait can be counted on.
pub fn perform<'a>(
    context: Context,
    inputs: &[u8],
    landings: &'a [u16],
    c: Command,
    variables: &'a [i32; CELLS],
    flags: &'a [u8; CELLS],
    outputs: &'a [u8; CELLS],
    motion: Motion,
    notes: Notes,
) -> Action
    requires { context.turns < 4294967295 }
    ensures { acted result (values_of (cells_of variables.now flags.now outputs.now) motion notes)
        ≡ effect_of inputs.now landings.now context c (values_of (cells_of variables.now flags.now outputs.now) motion notes) }
{
    let axis = motion.axis;
    match c.code {
        0x00 => exec_motion::move_to(context, motion, notes),
        0x01 => exec_motion::move_by(context, motion, notes),
        0x03 => exec_motion::forward(context, motion, notes),
        0x04 => exec_motion::backward(context, motion, notes),
        0x0E => exec_motion::set_mark(),
        0x0F => exec_motion::stop(c, axis),
        0x1F => exec_motion::stop_by(c),
        0x20 => exec_motion::set_position(c, axis),
        0x21 => exec_motion::set_speed(c, axis),
        0x22 => exec_motion::set_acceleration(c, axis),
        0x23 => exec_motion::set_deceleration(c, axis),
        0x30 => exec_motion::load_position(c, variables, axis),
        0x31 => exec_motion::load_speed(c, variables, axis),
        0x32 => exec_motion::load_acceleration(c, variables, axis),
        0x33 => exec_motion::load_deceleration(c, variables, axis),
        0x40 => exec_motion::store_position(c, axis),
        0x41 => exec_motion::store_speed(c, axis),
        0x42 => exec_motion::store_acceleration(c, axis),
        0x43 => exec_motion::store_deceleration(c, axis),
        0x50 => exec_action::flows(Outcome::GoOn),
        0x51 => exec_control::end(c),
        0x52 => exec_control::call(c),
        0x53 => exec_control::come_back(),
        0x54 => exec_control::start_plc(c),
        0x55 => exec_control::jump(c),
        0x56 => exec_control::jump_to_landing(c, variables, landings),
        0x57 => exec_control::start_bias(c),
        0x58 => exec_control::wait_for_position(context, notes),
        0x59 => exec_control::wait(context, c),
        0x5A => exec_control::wait_by_variable(context, c, variables),
        0x5B => exec_control::start_bias_at_landing(c, variables, landings),
        0x60 => exec_levels::set_flag(c),
        0x61 => exec_levels::jump_by_flag(c, flags),
        0x62 => exec_levels::copy_flag(c, flags),
        0x63 => exec_levels::flag_from_input(inputs, c),
        0x64 => exec_levels::flag_from_output(c, outputs),
        0x65 => exec_levels::and_flags(c, flags),
        0x66 => exec_levels::or_flags(c, flags),
        0x67 => exec_levels::xor_flags(c, flags),
        0x68 => exec_levels::not_flag(c, flags),
        0x6E => exec_levels::jump_by_bit(c, variables),
        0x70 => exec_levels::jump_by_input(inputs, c),
        0x71 => exec_levels::jump_by_output(c, outputs),
        0x72 => exec_levels::set_output(c),
        0x73 => exec_levels::output_from_flag(c, flags),
        0x80 => exec_variables::set_variable(c),
        0x81 => exec_variables::jump_by_value(c, variables),
        0x82 => exec_variables::add_value(c, variables),
        0x83 => exec_variables::sub_value(c, variables),
        0x84 => exec_variables::mul_value(c, variables),
        0x85 => exec_variables::div_value(c, variables),
        0x86 => exec_variables::flags_as_number(c, flags),
        0x88 => exec_variables::copy_variable(c, variables),
        0x89 => exec_variables::jump_by_variable(c, variables),
        0x8A => exec_variables::add_variable(c, variables),
        0x8B => exec_variables::sub_variable(c, variables),
        0x8C => exec_variables::mul_variable(c, variables),
        0x8D => exec_variables::div_variable(c, variables),
        0x90 => exec_control::start_mathematics(c),
        _ => exec_action::flows(Outcome::Stay(0, 0)),
    }
}
