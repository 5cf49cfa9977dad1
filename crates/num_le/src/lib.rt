// Numbers in bytes, low byte first (document 01, "The commands carried"), of 1, 2 and 4 bytes. Each is read from, and put into,
// an array of exactly its width, so no function here needs an index or a precondition.
#![tactic(auto)]

ghost use Rattle.std.specs.Prelude.{◌≡◌};
ghost use Rattle.std.specs.Int.{w32};
ghost use Rattle.std.proofs.Common.{to_z};
ghost use Rattle.num_arith.specs.Wrap.{word};
ghost use Rattle.num_le.specs.LittleEndian.{le_number, le_bytes};

use num_arith::{pattern, value};

pub fn read_u8(bytes: [u8; 1]) -> u8
    ensures { result ≡ le_number bytes }
{
    bytes[0]
}

pub fn read_u16(bytes: [u8; 2]) -> u16
    ensures { result ≡ le_number bytes }
{
    u16::from_le_bytes(bytes)
}

pub fn read_u32(bytes: [u8; 4]) -> u32
    ensures { result ≡ le_number bytes }
{
    u32::from_le_bytes(bytes)
}

pub fn read_i32(bytes: [u8; 4]) -> i32
    ensures { result ≡ to_z w32 (le_number bytes) }
{
    value(read_u32(bytes))
}

pub fn put_u8(v: u8) -> [u8; 1]
    ensures { result ≡ le_bytes 1 v }
{
    [v]
}

pub fn put_u16(v: u16) -> [u8; 2]
    ensures { result ≡ le_bytes 2 v }
{
    v.to_le_bytes()
}

pub fn put_u32(v: u32) -> [u8; 4]
    ensures { result ≡ le_bytes 4 v }
{
    v.to_le_bytes()
}

pub fn put_i32(v: i32) -> [u8; 4]
    ensures { result ≡ le_bytes 4 (word w32 v) }
{
    put_u32(pattern(v))
}
