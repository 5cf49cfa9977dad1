// The line of a verdict (document 01, on the verdict program), and an image judged with marks of its own.
#![tactic(auto)]

ghost use Rattle.std.specs.Prelude.{◌≡◌, ◌≤◌, length, IfOk};
ghost use Rattle.limits.specs.Limits.{marks_length};
ghost use Rattle.std.specs.Counts.{IsPrefixLen};
ghost use Rattle.walk.specs.Verdict.{verdict_of};
ghost use Rattle.text.specs.Put.{Put};
ghost use Rattle.text_verdict.specs.Input.{input_length, zeros};
ghost use Rattle.text_verdict.specs.Line.{line_of, line_room, Holds};

use image_header::reader;
use limits::{MARKS_LENGTH, MOST_LANDINGS};
use std::io;
use walk::Verdict;

// The most bytes that a header's numbers take, of which start and count alone may take two, and its landing blocks, two to each; and one byte more than the
// longest image has: of a longer input no other byte counts (proofs/Beginning.antt).
pub const HEADER_BYTES: usize = reader::HEADER_ROWS + 2 + 2 * MOST_LANDINGS;

pub const BLOCK_BYTES: usize = limits::BLOCK_LENGTH * limits::MOST_BLOCKS as usize;

pub const INPUT_LENGTH: usize = HEADER_BYTES + BLOCK_BYTES + 1;

// Room for an image, each byte 0: all that is needed of an input.
pub fn input() -> [u8; INPUT_LENGTH]
    ensures len { input_length ≡ length result }
    ensures value { result ≡ zeros input_length }
{
    [0; INPUT_LENGTH]
}

// An image judged: the verdict, and its line as it was written.
#[derive(Clone, Copy)]
pub struct Judged {
    pub verdict: Verdict,
    pub line: LineBytes,
}

// Judges an image and prints the line of its verdict; gives the verdict and the line. An error is the printing's.
pub fn judge<P: Print>(rt: &P, image: &[u8]) -> io::Result<Judged>
    ensures verdict { IfOk result (λ judged. judged.verdict ≡ verdict_of image.now marks_length) }
    ensures line { IfOk result (λ judged. Holds (line_of judged.verdict) judged.line) }
{
    let mut space = marks();
    let verdict = walk_search::judge(image, &mut space);
    let line = write_line(rt, verdict)?;
    Ok(Judged { verdict, line })
}

// The bytes that the search works in, each 0.
pub fn marks() -> [u8; MARKS_LENGTH]
    ensures len { marks_length ≡ length result }
    ensures value { result ≡ zeros marks_length }
{
    [0; MARKS_LENGTH]
}

// The bytes of a line, and how many of them are it.
#[derive(Clone, Copy)]
pub struct LineBytes {
    pub bytes: [u8; LINE_ROOM],
    pub length: usize,
}

// Room for the line of any verdict.
pub const LINE_ROOM: usize = 80;

// Prints the line of a verdict; gives the line.
pub fn write_line<P: Print>(rt: &P, v: Verdict) -> io::Result<LineBytes>
    ensures { IfOk result (λ line. Holds (line_of v) line) }
{
    written(rt, line_of(v))
}

// Prints a line; gives it back.
fn written<P: Print>(rt: &P, line: LineBytes) -> io::Result<LineBytes>
    requires { IsPrefixLen line.length line.bytes }
    ensures { IfOk result (λ printed. printed ≡ line) }
{
    let bytes = line.bytes;
    let n = line.length;
    rt.write_all(&bytes[..n])?;
    Ok(line)
}

// The line of a verdict.
pub fn line_of(v: Verdict) -> LineBytes
    ensures { Holds (line_of v) result }
{
    let mut bytes = [0u8; LINE_ROOM];
    let length = put_line(&mut bytes, 0, v);
    LineBytes { bytes, length }
}

// Puts the line of a verdict behind the text in a buffer, as the functions of `text` do. It is never longer than the room of a line.
pub fn put_line(out: &mut [u8], at: usize, v: Verdict) -> usize
    ensures put { Put out.old at (line_of v) result out.new }
    ensures fits { length (line_of v) ≤ line_room }
{
    let number = walk_verdict::number(v) as u64;
    let place = walk_verdict::place(v) as u64;
    let task = walk_verdict::task(v) as u64;
    let depth = walk_verdict::depth(v) as u64;
    let end = text::put_labelled(out, at, b"refusal ", number);
    let end = text::put_labelled(out, end, b" place ", place);
    let end = text::put_labelled(out, end, b" task ", task);
    let end = text::put_labelled(out, end, b" depth ", depth);
    text::put(out, end, b"\n")
}
