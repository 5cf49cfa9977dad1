// Commands of variables (80 to 86, 88 to 8D): one function for each; those that differ in the operation alone stand on one function
// that is given it. They take what they read.
#![tactic(auto)]

ghost use Rattle.std.specs.Prelude.{◌≡◌, ◌+◌, ◌*◌, ℤ, pos, ◌+ℤ◌, ◌-ℤ◌, ◌*ℤ◌};
ghost use Rattle.std.specs.Int.{w32};
ghost use Rattle.num_arith.specs.Wrap.{word, wrap};
ghost use Rattle.num_arith.specs.Ops.{quotient, holds};
ghost use Rattle.machine.specs.Effect.{flag_number};
ghost use Rattle.exec_action.specs.Action.{assigning, dividing, jumping_if, content, level_of};

use command_operands::Command;
use exec_action::Action;
use limits::CELLS;
use machine::Cause;

// 80: variable x = value.
pub fn set_variable(c: Command) -> Action
    ensures { result ≡ assigning c c.value }
{
    exec_action::assigns(c, c.value)
}

// 81: a jump if variable x compares by y with value.
pub fn jump_by_value(c: Command, variables: &[i32; CELLS]) -> Action
    ensures { result ≡ jumping_if (holds c.y (content variables.now c.x) c.value) c.word }
{
    exec_action::jump_if(
        num_arith::compare(c.y, exec_action::content(variables, c.x), c.value),
        c.word,
    )
}

// 82, 83 and 84: variable x = variable y, and an operation with value.
pub fn with_value<F: Fn(i32, i32) -> i32>(
    c: Command,
    variables: &[i32; CELLS],
    operation: F,
) -> Action
    requires { F.IsAlwaysCallable operation }
    ensures { (z : ℤ) × F.post operation (content variables.now c.y) c.value z × (result ≡ assigning c z) }
{
    exec_action::assigns(c, operation(exec_action::content(variables, c.y), c.value))
}

// 82: variable x = variable y + value.
pub fn add_value(c: Command, variables: &[i32; CELLS]) -> Action
    ensures { result ≡ assigning c (wrap w32 (content variables.now c.y +ℤ c.value)) }
{
    with_value(c, variables, num_arith::add)
}

// 83: variable x = variable y - value.
pub fn sub_value(c: Command, variables: &[i32; CELLS]) -> Action
    ensures { result ≡ assigning c (wrap w32 (content variables.now c.y -ℤ c.value)) }
{
    with_value(c, variables, num_arith::sub)
}

// 84: variable x = variable y * value.
pub fn mul_value(c: Command, variables: &[i32; CELLS]) -> Action
    ensures { result ≡ assigning c (wrap w32 (content variables.now c.y *ℤ c.value)) }
{
    with_value(c, variables, num_arith::mul)
}

// A quotient is stored; a zero divisor halts.
fn divide(c: Command, q: Option<i32>) -> Action
    ensures { result ≡ dividing c q }
{
    match q {
        Some(z) => exec_action::assigns(c, z),
        None => exec_action::halts(Cause::ZeroDivisor),
    }
}

// 85: variable x = variable y / value.
pub fn div_value(c: Command, variables: &[i32; CELLS]) -> Action
    ensures { result ≡ dividing c (quotient (content variables.now c.y) c.value) }
{
    divide(
        c,
        num_arith::div(exec_action::content(variables, c.y), c.value),
    )
}

// 88: variable x = variable y.
pub fn copy_variable(c: Command, variables: &[i32; CELLS]) -> Action
    ensures { result ≡ assigning c (content variables.now c.y) }
{
    exec_action::assigns(c, exec_action::content(variables, c.y))
}

// 89: a jump if variable x compares by y with variable z.
pub fn jump_by_variable(c: Command, variables: &[i32; CELLS]) -> Action
    ensures { result ≡ jumping_if (holds c.y (content variables.now c.x) (content variables.now c.z)) c.word }
{
    exec_action::jump_if(
        num_arith::compare(
            c.y,
            exec_action::content(variables, c.x),
            exec_action::content(variables, c.z),
        ),
        c.word,
    )
}

// 8A, 8B and 8C: variable x = variable y, and an operation with variable z.
pub fn with_variable<F: Fn(i32, i32) -> i32>(
    c: Command,
    variables: &[i32; CELLS],
    operation: F,
) -> Action
    requires { F.IsAlwaysCallable operation }
    ensures { (z : ℤ) × F.post operation (content variables.now c.y) (content variables.now c.z) z × (result ≡ assigning c z) }
{
    let y = exec_action::content(variables, c.y);
    let z = exec_action::content(variables, c.z);
    exec_action::assigns(c, operation(y, z))
}

// 8A: variable x = variable y + variable z.
pub fn add_variable(c: Command, variables: &[i32; CELLS]) -> Action
    ensures { result ≡ assigning c (wrap w32 (content variables.now c.y +ℤ content variables.now c.z)) }
{
    with_variable(c, variables, num_arith::add)
}

// 8B: variable x = variable y - variable z.
pub fn sub_variable(c: Command, variables: &[i32; CELLS]) -> Action
    ensures { result ≡ assigning c (wrap w32 (content variables.now c.y -ℤ content variables.now c.z)) }
{
    with_variable(c, variables, num_arith::sub)
}

// 8C: variable x = variable y * variable z.
pub fn mul_variable(c: Command, variables: &[i32; CELLS]) -> Action
    ensures { result ≡ assigning c (wrap w32 (content variables.now c.y *ℤ content variables.now c.z)) }
{
    with_variable(c, variables, num_arith::mul)
}

// 8D: variable x = variable y / variable z.
pub fn div_variable(c: Command, variables: &[i32; CELLS]) -> Action
    ensures { result ≡ dividing c (quotient (content variables.now c.y) (content variables.now c.z)) }
{
    divide(
        c,
        num_arith::div(
            exec_action::content(variables, c.y),
            exec_action::content(variables, c.z),
        ),
    )
}

// 86: variable x = z flags from flag y on as a number, the first one lowest.
pub fn flags_as_number(c: Command, flags: &[u8; CELLS]) -> Action
    ensures { result ≡ assigning c (wrap w32 (pos (flag_number flags.now c.y c.z))) }
{
    exec_action::assigns(c, num_arith::value(flag_number(flags, c.y, c.z)))
}

// The low 32 bits of flags as a number, the first one lowest. 7 refuses more than 32 flags before.
fn flag_number(flags: &[u8; CELLS], first: u8, count: u8) -> u32
    ensures { result ≡ word w32 (pos (flag_number flags.now first count)) }
{
    let mut number: u32 = 0;
    for left in (0..usize::from(count)).rev() {
        number = with_flag(number, level_at(flags, usize::from(first) + left));
    }
    number
}

// A number with one more flag below it.
fn with_flag(number: u32, level: u8) -> u32
    ensures { result ≡ word w32 (pos (level + 2 * number)) }
{
    let twice = number.wrapping_add(number);
    twice.wrapping_add(u32::from(level))
}

// A flag by its number; past the last one there is 0.
fn level_at(flags: &[u8], at: usize) -> u8
    ensures { result ≡ level_of flags.now at }
{
    flags.get(at).copied().unwrap_or(0)
}
