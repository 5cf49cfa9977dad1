// Numbers at places of a buffer, low byte first. A place has to be there, all of its bytes, so that no byte is tested by itself.
#![tactic(auto)]

ghost use Rattle.std.specs.Prelude.{◌≡◌, ◌+◌, ◌≤◌, length};
ghost use Rattle.num_le.specs.LittleEndian.{le_bytes};
ghost use Rattle.state_bytes.specs.Bytes.{le_number_at, signed_at, signed_bytes, puts};

pub fn byte(s: &[u8], at: usize) -> u8
    requires { at + 1 ≤ length s.now }
    ensures { result ≡ le_number_at 1 s.now at }
{
    s[at]
}

pub fn word(s: &[u8], at: usize) -> u16
    requires { at + 2 ≤ length s.now }
    ensures { result ≡ le_number_at 2 s.now at }
{
    num_le::read_u16([s[at], s[at + 1]])
}

pub fn long(s: &[u8], at: usize) -> u32
    requires { at + 4 ≤ length s.now }
    ensures { result ≡ le_number_at 4 s.now at }
{
    num_le::read_u32([s[at], s[at + 1], s[at + 1 + 1], s[at + 1 + 1 + 1]])
}

pub fn signed(s: &[u8], at: usize) -> i32
    requires { at + 4 ≤ length s.now }
    ensures { result ≡ signed_at s.now at }
{
    num_arith::value(long(s, at))
}

pub fn put_byte(s: &mut [u8], at: usize, v: u8)
    requires { at + 1 ≤ length s.old }
    ensures { s.new ≡ puts s.old at (le_bytes 1 v) }
{
    s[at] = v;
}

pub fn put_word(s: &mut [u8], at: usize, v: u16)
    requires { at + 2 ≤ length s.old }
    ensures { s.new ≡ puts s.old at (le_bytes 2 v) }
{
    let b = num_le::put_u16(v);
    s[at] = b[0];
    s[at + 1] = b[1];
}

pub fn put_long(s: &mut [u8], at: usize, v: u32)
    requires { at + 4 ≤ length s.old }
    ensures { s.new ≡ puts s.old at (le_bytes 4 v) }
{
    let b = num_le::put_u32(v);
    s[at] = b[0];
    s[at + 1] = b[1];
    s[at + 1 + 1] = b[2];
    s[at + 1 + 1 + 1] = b[3];
}

pub fn put_signed(s: &mut [u8], at: usize, v: i32)
    requires { at + 4 ≤ length s.old }
    ensures { s.new ≡ puts s.old at (signed_bytes v) }
{
    put_long(s, at, num_arith::pattern(v));
}
