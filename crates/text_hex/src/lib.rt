// Bytes as text: two capital hexadecimal digits for each.
#![tactic(auto)]

ghost use Rattle.std.specs.Prelude.{◌≡◌, ◌++◌, ◌/◌, min, length, drop};
ghost use Rattle.std.specs.Counts.{IsPrefixLen};
ghost use Rattle.text_hex.specs.Hex.{digit_of, hex_byte, hex_bytes};

// Puts the bytes of a line's digits to the front of out, as many as there are and as it has room for; gives how many.
pub fn decode(line: &[u8], out: &mut [u8]) -> usize
    ensures value { result ≡ min (length line.now / 2) (length out.old) }
    ensures prefix_len { IsPrefixLen result out.new }
    ensures out_after { out.new ≡ hex_bytes line.now result ++ drop result out.old }
{
    let n = (line.len() / 2).min(out.len());
    for i in 0..n {
        out[i] = byte(line[2 * i], line[2 * i + 1]);
    }
    n
}

// The byte of two digits.
fn byte(high: u8, low: u8) -> u8
    ensures { result ≡ hex_byte high low }
{
    16 * digit(high) + digit(low)
}

// The value of a hexadecimal digit.
fn digit(c: u8) -> u8
    ensures { result ≡ digit_of c }
{
    (c % 16 + 9 * (c / 64)) % 16
}
