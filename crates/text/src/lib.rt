// Text in bytes: words, decimal, signed and hexadecimal numbers, each put behind the text that stands in the first `at` bytes of a lent buffer.
// Each function gives where the text ends then; what there is no room for is cut off. A line is put word by word (proofs/Joined.antt).
#![tactic(auto)]

ghost use Rattle.std.specs.Prelude.{◌≡◌, ◌<◌, ◌≤◌, length, drop};
ghost use Rattle.text.specs.Text.{decimal_of, labelled, signed_of, hex_digit, hex_of, hex_all};
ghost use Rattle.text.specs.Put.{Put};

// Puts a word.
pub fn put(out: &mut [u8], at: usize, word: &[u8]) -> usize
    ensures { Put out.old at word.now result out.new }
{
    if out.len() <= at {
        return out.len();
    }
    let n = word.len().min(out.len() - at);
    let end = at + n;
    out[at..end].copy_from_slice(&word[..n]);
    end
}

// Puts a number in decimal digits.
pub fn put_decimal(out: &mut [u8], at: usize, v: u64) -> usize
    ensures { Put out.old at (decimal_of v) result out.new }
{
    let mut digits = [0u8; DIGITS];
    let first = put_digits(v, &mut digits);
    put(out, at, &digits[first..])
}

// The decimal digits of the greatest number of 64 bits.
const DIGITS: usize = 20;

// Puts the decimal digits of a number to the end of a buffer; gives where the first of them stands.
fn put_digits(v: u64, digits: &mut [u8; DIGITS]) -> usize
    ensures bound { result ≤ length digits.new }
    ensures digits_after { drop result digits.new ≡ decimal_of v }
{
    let mut rest = v;
    let mut at = DIGITS;
    while rest >= 10 {
        at -= 1;
        digits[at] = b'0' + (rest % 10) as u8;
        rest /= 10;
    }
    at -= 1;
    digits[at] = b'0' + rest as u8;
    at
}

// Puts a word and a number behind it.
pub fn put_labelled(out: &mut [u8], at: usize, word: &[u8], v: u64) -> usize
    ensures { Put out.old at (labelled word.now v) result out.new }
{
    let behind = put(out, at, word);
    put_decimal(out, behind, v)
}

// Puts a signed number in decimal digits, a minus before one below 0.
pub fn put_signed(out: &mut [u8], at: usize, v: i32) -> usize
    ensures { Put out.old at (signed_of v) result out.new }
{
    let size = u64::from(v.unsigned_abs());
    if v < 0 {
        let behind = put(out, at, b"-");
        return put_decimal(out, behind, size);
    }
    put_decimal(out, at, size)
}

// Puts a byte in two capital hexadecimal digits.
pub fn put_hex(out: &mut [u8], at: usize, v: u8) -> usize
    ensures { Put out.old at (hex_of v) result out.new }
{
    let digits = [hex_digit(v / 16), hex_digit(v % 16)];
    put(out, at, &digits)
}

// Puts bytes, each in two digits.
pub fn put_hex_bytes(out: &mut [u8], at: usize, bytes: &[u8]) -> usize
    ensures { Put out.old at (hex_all bytes.now) result out.new }
{
    let mut end = put(out, at, b"");
    for byte in bytes {
        end = put_hex(out, end, *byte);
    }
    end
}

fn hex_digit(d: u8) -> u8
    requires { d < 16 }
    ensures { result ≡ hex_digit d }
{
    if d < 10 {
        return b'0' + d;
    }
    b'A' - 10 + d
}
