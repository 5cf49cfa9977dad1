// Signed 32-bit arithmetic as document 01 has it for variables ("Running"): sums, differences, products and negations wrap, a quotient is cut towards zero.
#![tactic(auto)]

ghost use Rattle.std.specs.Prelude.{◌≡◌, neg_ℤ, ◌+ℤ◌, ◌-ℤ◌, ◌*ℤ◌};
ghost use Rattle.std.specs.Int.{w32};
ghost use Rattle.std.proofs.Common.{to_z};
ghost use Rattle.num_arith.specs.Wrap.{word, wrap};
ghost use Rattle.num_arith.specs.Ops.{quotient, holds, bit_at};

pub fn add(a: i32, b: i32) -> i32
    ensures { result ≡ wrap w32 (a +ℤ b) }
{
    a.wrapping_add(b)
}

pub fn sub(a: i32, b: i32) -> i32
    ensures { result ≡ wrap w32 (a -ℤ b) }
{
    a.wrapping_sub(b)
}

pub fn mul(a: i32, b: i32) -> i32
    ensures { result ≡ wrap w32 (a *ℤ b) }
{
    a.wrapping_mul(b)
}

pub fn neg(a: i32) -> i32
    ensures { result ≡ wrap w32 (neg_ℤ a) }
{
    a.wrapping_neg()
}

// Cut towards zero, and none by 0. The one quotient that does not fit, -2^31 by -1, wraps to -2^31.
pub fn div(a: i32, b: i32) -> Option<i32>
    ensures { result ≡ quotient a b }
{
    if b == 0 {
        return None;
    }
    Some(a.wrapping_div(b))
}

// Whether a condition of 81 and 89 holds of two numbers; a number above 7 is no condition and holds of none.
// Conditions 6 and 7 look at the sign of the wrapped difference.
#[tactic(auto, unfolding(crate::specs::Ops::holds))]
pub fn compare(condition: u8, a: i32, b: i32) -> bool
    ensures { result ≡ holds condition a b }
{
    match condition {
        0 => a > b,
        1 => a < b,
        2 => a == b,
        3 => a >= b,
        4 => a <= b,
        5 => a != b,
        6 => sub(a, b) >= 0,
        7 => sub(a, b) < 0,
        _ => false,
    }
}

// Bit n of the two's complement pattern of a: 0 is the lowest, 31 the sign, and there is none above.
#[tactic(auto, using(crate::proofs::Cut::no_bit), unfolding(crate::specs::Ops::bit_at))]
pub fn bit(a: i32, n: u8) -> bool
    ensures { result ≡ bit_at w32 n a }
{
    if n >= 32 {
        return false;
    }
    (pattern(a) >> n) % 2 == 1
}

// The two's complement pattern of a.
pub fn pattern(a: i32) -> u32
    ensures { result ≡ word w32 a }
{
    a.cast_unsigned()
}

// The number that a pattern of 32 bits stands for.
pub fn value(p: u32) -> i32
    ensures { result ≡ to_z w32 p }
{
    p.cast_signed()
}
