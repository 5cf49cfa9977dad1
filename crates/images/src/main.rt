// Judges test images: a line of standard input is an image in capital hexadecimal digits, and its verdict is a line of standard output; behind that
// of an accepted image stands a line of its blocks, how many bytes and a sum of them. What it prints is held to the file stdout, whose lines come
// from a second reading of the papers (host/reference/judge_images.rs prints them).
#![tactic(auto)]

ghost use Rattle.std.specs.Prelude.{◌≡◌, ◌+◌, ◌*◌, ◌%◌, ◌<◌, length, IfOk};
ghost use Rattle.limits.specs.Limits.{marks_length};
ghost use Rattle.walk.specs.Verdict.{verdict_of, accepted_blocks};
ghost use Rattle.text_hex.specs.Hex.{all_bytes};
ghost use Rattle.text_hex.specs.Lines.{lines_of};
ghost use Rattle.text_verdict.specs.Input.{zeros};
ghost use Rattle.images.specs.Part.{part_of};

use std::io;
use walk::Verdict;

// Room for the whole input.
const TEXT_LENGTH: usize = 524288;

const LINE_END: u8 = b'\n';

fn main(rt: HostRuntime) -> io::Result<()> {
    let mut space = text();
    let n = text_input::read_full(&mut rt.stdin(), &mut space)?;
    rows(&rt, &space[..n])?;
    Ok(())
}

fn text() -> [u8; TEXT_LENGTH]
    ensures len { 524288 ≡ length result }
    ensures value { result ≡ zeros 524288 }
{
    [0; TEXT_LENGTH]
}

// A row for each line; gives how many. An error is the printing's.
fn rows<P: Print>(rt: &P, text: &[u8]) -> io::Result<usize>
    ensures { IfOk result (λ count. count ≡ lines_of text.now (length text.now)) }
{
    let mut from = 0;
    let mut n = 0;
    for (i, byte) in text.iter().enumerate() {
        if *byte == LINE_END {
            row(rt, &text[from..i])?;
            from = i + 1;
            n += 1;
        }
    }
    Ok(n)
}

// What is shown of an image.
#[derive(Clone, Copy)]
pub struct Shown {
    pub verdict: Verdict,
    pub blocks: Blocks,
}

// The blocks that are handed back: how many bytes, and their sum.
#[derive(Clone, Copy)]
pub struct Blocks {
    pub length: usize,
    pub check: u64,
}

// Judges the image of a line, prints the line of its verdict and that of its blocks; gives what is shown.
fn row<P: Print>(rt: &P, line: &[u8]) -> io::Result<Shown>
    ensures verdict { IfOk result (λ shown. shown.verdict ≡ verdict_of (all_bytes line.now) marks_length) }
    ensures blocks { IfOk result (λ shown. shown.blocks ≡ part_of (accepted_blocks (all_bytes line.now) marks_length)) }
{
    let mut image = text_verdict::input();
    let n = text_hex::decode(line, &mut image);
    let judged = text_verdict::judge(rt, &image[..n])?;
    let verdict = judged.verdict;
    let blocks = show_blocks(rt, blocks_of(&image[..n]))?;
    Ok(Shown { verdict, blocks })
}

// The blocks of an image, none where it is refused.
fn blocks_of(image: &[u8]) -> Blocks
    ensures { result ≡ part_of (accepted_blocks image.now marks_length) }
{
    let mut marks = text_verdict::marks();
    summed(walk_search::blocks(image, &mut marks))
}

// How many bytes, and their sum.
fn summed(bytes: &[u8]) -> Blocks
    ensures { result ≡ part_of bytes.now }
{
    let mut check: u64 = 0;
    for byte in bytes {
        check = next(check, *byte);
    }
    Blocks {
        length: bytes.len(),
        check,
    }
}

// The sum with a byte more.
fn next(check: u64, byte: u8) -> u64
    requires { check < 65521 }
    ensures { result ≡ (257 * check + byte) % 65521 }
{
    (257 * check + u64::from(byte)) % 65521
}

// Prints the line of blocks, nothing where there are none; gives them back.
fn show_blocks<P: Print>(rt: &P, b: Blocks) -> io::Result<Blocks>
    ensures { IfOk result (λ shown. shown ≡ b) }
{
    if 0 < b.length {
        text_print::show(rt, b"blocks ", b.length as u64)?;
        text_print::show(rt, b" sum ", b.check)?;
        rt.write_all(b"\n")?;
    }
    Ok(b)
}
