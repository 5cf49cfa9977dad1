// A state buffer as an array by value, for a program that compares two.
#![tactic(auto)]

ghost use Rattle.std.specs.Prelude.{◌≡◌, length};
ghost use Rattle.limits.specs.Limits.{state_length};
ghost use Rattle.num_le.specs.LittleEndian.{Bytes};

use limits::STATE_LENGTH;

// The slice's bytes as an array.
pub fn copy_in(s: &[u8]) -> [u8; STATE_LENGTH]
    requires { length s.now ≡ state_length }
    ensures value { result ≡ s.now }
    ensures bytes { Bytes result }
{
    let mut r = [0u8; STATE_LENGTH];
    r.copy_from_slice(s);
    r
}
