// Numbers behind a word, printed: put together by `text`, then written once. Each function gives back what it shows. A word and its number are cut at ROOM
// bytes. An error is the writer's own.
#![tactic(auto)]

ghost use Rattle.std.specs.Prelude.{◌≡◌, IfOk};
ghost use Rattle.std.specs.Counts.{IsPrefixLen};

use std::io;

const ROOM: usize = 128;

// Prints a word before a number.
pub fn show<P: Print>(rt: &P, word: &[u8], v: u64) -> io::Result<u64>
    ensures { IfOk result (λ shown. shown ≡ v) }
{
    let _ = show_behind(rt, word, |line, at| text::put_decimal(line, at, v))?;
    Ok(v)
}

// Prints a word before a signed number.
pub fn show_signed<P: Print>(rt: &P, word: &[u8], v: i32) -> io::Result<i32>
    ensures { IfOk result (λ shown. shown ≡ v) }
{
    let _ = show_behind(rt, word, |line, at| text::put_signed(line, at, v))?;
    Ok(v)
}

// Prints a word before a byte in two hexadecimal digits.
pub fn show_hex<P: Print>(rt: &P, word: &[u8], v: u8) -> io::Result<u8>
    ensures { IfOk result (λ shown. shown ≡ v) }
{
    let _ = show_behind(rt, word, |line, at| text::put_hex(line, at, v))?;
    Ok(v)
}

// Prints a word, and behind it what `put` puts into the line; gives where the line ends, which `put` says.
fn show_behind<P: Print, F: FnOnce(&mut [u8], usize) -> usize>(
    rt: &P,
    word: &[u8],
    put: F,
) -> io::Result<usize>
    requires callable { F.IsAlwaysCallable put }
    requires counts { (line : _) (at : _) (end : _) (left : _) → F.post put line at end left → IsPrefixLen end left.now }
    ensures { IfOk result (λ end. (line : _) × (at : _) × (left : _) × F.post put line at end left) }
{
    let mut line = [0u8; ROOM];
    let at = text::put(&mut line, 0, word);
    let end = put(&mut line, at);
    rt.write_all(&line[..end])?;
    Ok(end)
}
