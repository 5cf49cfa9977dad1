// Runs vectors with known answers over the lower crates, from numbers to the loader, a line for each, and a table of the pins of every drive.
// What it prints is held to the file stdout, whose answers are document 01's. Each function shows what it does, and gives it back; an error is the
// printing's.
#![tactic(auto)]

ghost use Rattle.std.specs.Prelude.{◌≡◌, [], ◌∷◌, ◌+◌, ◌+ℤ◌, length, IfOk, Ok, Err};
ghost use Rattle.std.specs.Int.{w32};
ghost use Rattle.limits.specs.Limits.{marks_length};
ghost use Rattle.num_arith.specs.Wrap.{word, wrap};
ghost use Rattle.num_le.specs.LittleEndian.{le_bytes};
ghost use Rattle.image_number.specs.Number.{number_at, read_as};
ghost use Rattle.image_header.specs.Scan.{read_result, header_of};
ghost use Rattle.walk.specs.Verdict.{accepted_blocks};
ghost use Rattle.image_writer.specs.Writer.{with_landings, written, out_after};
ghost use Rattle.drive_pins.specs.declared.PinKind.TheVariants.{Input, OutputWritten, OutputRead};
ghost use Rattle.image_result.specs.declared.ImageFault.TheVariants.{EndsEarly, NotShortest, OutOfRange, LeftOver, NoRoom, BadLanding};
ghost use Rattle.image_number.specs.declared.NumberFault.TheVariants as fault;
ghost use Rattle.vectors.specs.Outcome.{outcome};
ghost use Rattle.vectors.specs.Pins.{present_pins, shown_pin};

use drive::{Absence, Drive, Slot};
use drive_pins::PinKind;
use image_header::reader::HeaderRead;
use image_header::{Header, reader};
use image_number::{Number, NumberFault};
use image_result::{ImageFault, ImageResult};
use image_writer::Written;
use limits::MOST_LANDINGS;
use std::io;

fn main(rt: HostRuntime) -> io::Result<()> {
    arith_rows(&rt)?;
    bytes_rows(&rt)?;
    let _ = number_rows(&rt)?;
    let _ = case_rows(&rt)?;
    let _ = range_rows(&rt)?;
    let _ = landing_rows(&rt)?;
    block_rows(&rt)?;
    let _ = write_rows(&rt)?;
    let _ = landing_write_rows(&rt)?;
    let _ = room_rows(&rt)?;
    pin_rows(&rt)?;
    Ok(())
}

// Pairs of numbers: the ends of the range, quotients of each sign, a zero divisor.
const PAIRS: [(i32, i32); 10] = [
    (2147483647, 1),
    (-2147483648, 1),
    (-2147483648, -2147483648),
    (-2147483648, -1),
    (-7, 2),
    (7, -2),
    (-7, -2),
    (5, 0),
    (0, 0),
    (100000, 100000),
];

// A row for each pair; gives how many.
fn arith_rows<P: Print>(rt: &P) -> io::Result<usize>
    ensures { IfOk result (λ given. given ≡ 10) }
{
    let mut n = 0;
    for (a, b) in PAIRS {
        arith_row(rt, a, b)?;
        n += 1;
    }
    Ok(n)
}

// Numbers of one to four bytes, and the ends of the range.
const WHOLE: [i32; 8] = [0, 1, 255, 256, 16909060, -1, 2147483647, -2147483648];

// A row for each of them; gives how many.
fn bytes_rows<P: Print>(rt: &P) -> io::Result<usize>
    ensures { IfOk result (λ given. given ≡ 8) }
{
    let mut n = 0;
    for v in WHOLE {
        bytes_row(rt, v)?;
        n += 1;
    }
    Ok(n)
}

// Document 01's case K; the least and the greatest number of one byte and of two; then bytes that are none: a second byte 0, a third byte
// asked for, and too few.
fn number_rows<P: Print>(rt: &P) -> io::Result<[Result<Number, NumberFault>; 10]>
    ensures { IfOk result (λ given. given ≡ read_as 1500 2 ∷ Err fault.NotShortest ∷ read_as 0 1 ∷ read_as 127 1 ∷ read_as 128 2
        ∷ read_as 16383 2 ∷ Err fault.NotShortest ∷ Err fault.NotShortest ∷ Err fault.EndsEarly ∷ Err fault.EndsEarly ∷ []) }
{
    Ok([
        number_row(rt, b"\xdc\x0b")?,
        number_row(rt, b"\x80\x00")?,
        number_row(rt, b"\x00")?,
        number_row(rt, b"\x7f")?,
        number_row(rt, b"\x80\x01")?,
        number_row(rt, b"\xff\x7f")?,
        number_row(rt, b"\xff\x00")?,
        number_row(rt, b"\x80\x80\x01")?,
        number_row(rt, b"\x80")?,
        number_row(rt, b"")?,
    ])
}

// Document 01's cases A and C and the accepted image of I; then A cut by a byte, A with a byte more, and no byte.
fn case_rows<P: Print>(rt: &P) -> io::Result<[ImageResult; 6]>
    ensures { IfOk result (λ given. given ≡ Ok tt ∷ Err (OutOfRange 4) ∷ Ok tt ∷ Err (EndsEarly 13) ∷ Err (LeftOver 14) ∷ Err (EndsEarly 0) ∷ []) }
{
    Ok([
        header_result(
            rt,
            b"\x01\x02\x00\x00\x00\x01\x55\x00\x00\x00\x00\x00\x00\x00",
        )?,
        header_result(
            rt,
            b"\x01\x02\x00\x00\x01\x01\x55\x00\x00\x00\x00\x00\x00\x00",
        )?,
        header_result(
            rt,
            b"\x01\x02\x00\x00\x00\x02\x72\x0c\x01\x00\x00\x00\x00\x00\x55\x00\x00\x00\x00\x00\x00\x00",
        )?,
        header_result(rt, b"\x01\x02\x00\x00\x00\x01\x55\x00\x00\x00\x00\x00\x00")?,
        header_result(
            rt,
            b"\x01\x02\x00\x00\x00\x01\x55\x00\x00\x00\x00\x00\x00\x00\x00",
        )?,
        header_result(rt, b"")?,
    ])
}

// Headers that are refused by 2 or 3, one that is accepted, and one that ends early. Behind all but the last stands A's block.
fn range_rows<P: Print>(rt: &P) -> io::Result<[ImageResult; 11]>
    ensures { IfOk result (λ given. given ≡ Err (NotShortest 1) ∷ Err (OutOfRange 0) ∷ Err (OutOfRange 1) ∷ Err (OutOfRange 2) ∷ Err (OutOfRange 2) ∷ Err (OutOfRange 3) ∷ Ok tt
        ∷ Err (OutOfRange 5) ∷ Err (OutOfRange 5) ∷ Err (OutOfRange 4) ∷ Err (EndsEarly 8) ∷ []) }
{
    Ok([
        // Type 2 in two bytes.
        header_result(
            rt,
            b"\x01\x82\x00\x00\x00\x00\x01\x55\x00\x00\x00\x00\x00\x00\x00",
        )?,
        // Format 3, type 5.
        header_result(
            rt,
            b"\x03\x02\x00\x00\x00\x01\x55\x00\x00\x00\x00\x00\x00\x00",
        )?,
        header_result(
            rt,
            b"\x01\x05\x00\x00\x00\x01\x55\x00\x00\x00\x00\x00\x00\x00",
        )?,
        // RP-2C8 on type 3, a board in each slot of a 631, RP-2C8 and RP-SBT on type 4.
        header_result(
            rt,
            b"\x01\x03\x02\x00\x00\x01\x55\x00\x00\x00\x00\x00\x00\x00",
        )?,
        header_result(
            rt,
            b"\x01\x00\x01\x00\x00\x01\x55\x00\x00\x00\x00\x00\x00\x00",
        )?,
        header_result(
            rt,
            b"\x01\x00\x00\x01\x00\x01\x55\x00\x00\x00\x00\x00\x00\x00",
        )?,
        header_result(
            rt,
            b"\x01\x04\x02\x02\x00\x01\x55\x00\x00\x00\x00\x00\x00\x00",
        )?,
        // Counts 0 and 1501; start 128 with counts 1 and 1500, the last without blocks.
        header_result(
            rt,
            b"\x01\x02\x00\x00\x00\x00\x55\x00\x00\x00\x00\x00\x00\x00",
        )?,
        header_result(
            rt,
            b"\x01\x02\x00\x00\x00\xdd\x0b\x55\x00\x00\x00\x00\x00\x00\x00",
        )?,
        header_result(
            rt,
            b"\x01\x02\x00\x00\x80\x01\x01\x55\x00\x00\x00\x00\x00\x00\x00",
        )?,
        header_result(rt, b"\x01\x02\x00\x00\x80\x01\xdc\x0b")?,
    ])
}

// Headers of format 2 (change request 1): one that is accepted, then landing counts and landing blocks that are refused. Behind the others stands no block.
fn landing_rows<P: Print>(rt: &P) -> io::Result<[ImageResult; 9]>
    ensures { IfOk result (λ given. given ≡ Ok tt ∷ Err (BadLanding 6) ∷ Err (NotShortest 6) ∷ Err (EndsEarly 6) ∷ Err (BadLanding 8) ∷ Err (BadLanding 8) ∷ Err (BadLanding 7) ∷ Err (OutOfRange 4) ∷ Err (BadLanding 9) ∷ []) }
{
    Ok([
        // A landing block, and two blocks.
        header_result(
            rt,
            b"\x02\x02\x00\x00\x00\x02\x01\x01\x56\x00\x00\x00\x00\x00\x00\x00\x55\x01\x00\x00\x00\x00\x00\x00",
        )?,
        // A landing count of 65, of 0 in two bytes, and none.
        header_result(rt, b"\x02\x02\x00\x00\x00\x01\x41")?,
        header_result(rt, b"\x02\x02\x00\x00\x00\x01\x80\x00")?,
        header_result(rt, b"\x02\x02\x00\x00\x00\x01")?,
        // Landing blocks 1 and 1, 1 and 0; 2 of two blocks, and behind a start that is refused before it.
        header_result(rt, b"\x02\x02\x00\x00\x00\x02\x02\x01\x01")?,
        header_result(rt, b"\x02\x02\x00\x00\x00\x02\x02\x01\x00")?,
        header_result(rt, b"\x02\x02\x00\x00\x00\x02\x01\x02")?,
        header_result(rt, b"\x02\x02\x00\x00\x05\x02\x01\x02")?,
        // Landing block 129 of as many blocks, with start and count of two bytes.
        header_result(rt, b"\x02\x02\x00\x00\x80\x01\x81\x01\x01\x81\x01")?,
    ])
}

// The blocks that the loader hands back: of case A and the accepted image of I, then of A cut by a byte (1), C (3), H (7) and B (12); gives how
// many bytes.
fn block_rows<P: Print>(rt: &P) -> io::Result<[usize; 6]>
    ensures { IfOk result (λ given. given ≡ 8 ∷ 16 ∷ 0 ∷ 0 ∷ 0 ∷ 0 ∷ []) }
{
    Ok([
        block_row(
            rt,
            b"\x01\x02\x00\x00\x00\x01\x55\x00\x00\x00\x00\x00\x00\x00",
        )?,
        block_row(
            rt,
            b"\x01\x02\x00\x00\x00\x02\x72\x0c\x01\x00\x00\x00\x00\x00\x55\x00\x00\x00\x00\x00\x00\x00",
        )?,
        block_row(rt, b"\x01\x02\x00\x00\x00\x01\x55\x00\x00\x00\x00\x00\x00")?,
        block_row(
            rt,
            b"\x01\x02\x00\x00\x01\x01\x55\x00\x00\x00\x00\x00\x00\x00",
        )?,
        block_row(
            rt,
            b"\x01\x02\x00\x00\x00\x02\x1f\x01\x01\xfa\x00\x00\x00\x00\x55\x00\x00\x00\x00\x00\x00\x00",
        )?,
        block_row(
            rt,
            b"\x01\x02\x00\x00\x00\x01\x50\x00\x00\x00\x00\x00\x00\x00",
        )?,
    ])
}

// Case A, then headers and lengths of blocks that the writer of format 1 refuses.
fn write_rows<P: Print>(rt: &P) -> io::Result<[ImageResult; 8]>
    ensures { IfOk result (λ given. given ≡ Ok tt ∷ Err (OutOfRange 0) ∷ Err (OutOfRange 2) ∷ Err (OutOfRange 6) ∷ Err (OutOfRange 5) ∷ Err (OutOfRange 4) ∷ Err (EndsEarly 7) ∷ Err (LeftOver 16) ∷ []) }
{
    let a = b"\x55\x00\x00\x00\x00\x00\x00\x00";
    Ok([
        write_result(rt, reader::FORMAT_1, [1, 2, 0, 0, 0, 1], b"", a)?,
        // Format 2; RP-2C8 on type 3.
        write_result(rt, reader::FORMAT_1, [2, 2, 0, 0, 0, 1], b"", a)?,
        write_result(rt, reader::FORMAT_1, [1, 3, 2, 0, 0, 1], b"", a)?,
        // Count 0 behind a start of two bytes and of one; a start that no number of two bytes is.
        write_result(rt, reader::FORMAT_1, [1, 2, 0, 0, 200, 0], b"", a)?,
        write_result(rt, reader::FORMAT_1, [1, 2, 0, 0, 5, 0], b"", a)?,
        write_result(rt, reader::FORMAT_1, [1, 2, 0, 0, 70000, 1], b"", a)?,
        // Blocks of 7 and of 16 bytes.
        write_result(
            rt,
            reader::FORMAT_1,
            [1, 2, 0, 0, 0, 1],
            b"",
            b"\x55\x00\x00\x00\x00\x00\x00",
        )?,
        write_result(
            rt,
            reader::FORMAT_1,
            [1, 2, 0, 0, 0, 1],
            b"",
            b"\x55\x00\x00\x00\x00\x00\x00\x00\x55\x00\x00\x00\x00\x00\x00\x00",
        )?,
    ])
}

// The writer of format 2 (change request 1): a landing block of case A's program; format 1; then, of 200 blocks, landing blocks 127, 128 and 128, 65 landing
// blocks, an odd length, and blocks that are a byte short.
fn landing_write_rows<P: Print>(rt: &P) -> io::Result<[ImageResult; 6]>
    ensures { IfOk result (λ given. given ≡ Ok tt ∷ Err (OutOfRange 0) ∷ Err (BadLanding 11) ∷ Err (BadLanding 7) ∷ Err (BadLanding 7) ∷ Err (EndsEarly 1599) ∷ []) }
{
    let a = b"\x55\x00\x00\x00\x00\x00\x00\x00";
    let most = [0u8; 2 * MOST_LANDINGS + 2];
    let short = [0u8; 1599];
    let two = reader::FORMAT_2;
    Ok([
        write_result(rt, two, [2, 2, 0, 0, 0, 1], b"\x00\x00", a)?,
        write_result(rt, two, [1, 2, 0, 0, 0, 1], b"\x00\x00", a)?,
        write_result(
            rt,
            two,
            [2, 2, 0, 0, 0, 200],
            b"\x7f\x00\x80\x00\x80\x00",
            a,
        )?,
        write_result(rt, two, [2, 2, 0, 0, 0, 200], &most, a)?,
        write_result(rt, two, [2, 2, 0, 0, 0, 200], b"\x01\x00\x02", a)?,
        write_result(rt, two, [2, 2, 0, 0, 0, 200], b"\xc7\x00", &short)?,
    ])
}

// Case A into 13 bytes and into 14.
fn room_rows<P: Print>(rt: &P) -> io::Result<[ImageResult; 2]>
    ensures { IfOk result (λ given. given ≡ Err (NoRoom 14) ∷ Ok tt ∷ []) }
{
    let mut short = [0xaau8; 13];
    let mut exact = [0xaau8; 14];
    let a = b"\x55\x00\x00\x00\x00\x00\x00\x00";
    let refused = write_row(rt, reader::FORMAT_1, [1, 2, 0, 0, 0, 1], b"", a, &mut short)?;
    let accepted = write_row(rt, reader::FORMAT_1, [1, 2, 0, 0, 0, 1], b"", a, &mut exact)?;
    let first = refused.result;
    let second = accepted.result;
    Ok([first, second])
}

// The pins of every drive: 5 types, 3 numbers in slot B and 3 in slot C, where the type takes the boards; gives how many that is.
fn pin_rows<P: Print>(rt: &P) -> io::Result<u8>
    ensures { IfOk result (λ given. given ≡ 45) }
{
    let mut n: u8 = 0;
    for model in 0..5u8 {
        for b in 0..3u8 {
            for c in 0..3u8 {
                if Drive::takes(Slot::B, u32::from(model), u32::from(b))
                    && Drive::takes(Slot::C, u32::from(model), u32::from(c))
                {
                    drive_rows(rt, Drive { model, b, c })?;
                }
                n += 1;
            }
        }
    }
    Ok(n)
}

// Sum, difference, product, negation, quotient, the conditions, and bits of the first number; gives the sum.
fn arith_row<P: Print>(rt: &P, a: i32, b: i32) -> io::Result<i32>
    ensures { IfOk result (λ given. given ≡ wrap w32 (a +ℤ b)) }
{
    let sum = num_arith::add(a, b);
    text_print::show_signed(rt, b"arith ", a)?;
    text_print::show_signed(rt, b" ", b)?;
    text_print::show_signed(rt, b": sum ", sum)?;
    text_print::show_signed(rt, b" difference ", num_arith::sub(a, b))?;
    text_print::show_signed(rt, b" product ", num_arith::mul(a, b))?;
    text_print::show_signed(rt, b" negation ", num_arith::neg(a))?;
    show_quotient(rt, num_arith::div(a, b))?;
    show_conditions(rt, a, b)?;
    show_bits(rt, a)?;
    rt.write_all(b"\n")?;
    Ok(sum)
}

fn show_quotient<P: Print>(rt: &P, q: Option<i32>) -> io::Result<Option<i32>>
    ensures { IfOk result (λ given. given ≡ q) }
{
    match q {
        Some(v) => {
            text_print::show_signed(rt, b" quotient ", v)?;
            Ok(q)
        }
        None => {
            rt.write_all(b" quotient by zero")?;
            Ok(q)
        }
    }
}

// Which of the conditions 0 to 8 hold, of which 8 is none; gives how many it showed.
fn show_conditions<P: Print>(rt: &P, a: i32, b: i32) -> io::Result<u8>
    ensures { IfOk result (λ given. given ≡ 9) }
{
    rt.write_all(b" conditions ")?;
    let mut n = 0;
    for condition in 0..9 {
        text_print::show(rt, b"", num_arith::compare(condition, a, b) as u64)?;
        n += 1;
    }
    Ok(n)
}

// Bits 0 and 31, and 32, which there is not.
fn show_bits<P: Print>(rt: &P, a: i32) -> io::Result<i32>
    ensures { IfOk result (λ given. given ≡ a) }
{
    text_print::show(rt, b" bits ", num_arith::bit(a, 0) as u64)?;
    text_print::show(rt, b"", num_arith::bit(a, 31) as u64)?;
    text_print::show(rt, b"", num_arith::bit(a, 32) as u64)?;
    Ok(a)
}

// A number's four bytes, and the numbers of one, two and four bytes read back from them; gives the bytes.
fn bytes_row<P: Print>(rt: &P, v: i32) -> io::Result<[u8; 4]>
    ensures { IfOk result (λ given. given ≡ le_bytes 4 (word w32 v)) }
{
    text_print::show_signed(rt, b"bytes ", v)?;
    show_bytes(rt, num_le::put_i32(v))
}

fn show_bytes<P: Print>(rt: &P, b: [u8; 4]) -> io::Result<[u8; 4]>
    ensures { IfOk result (λ given. given ≡ b) }
{
    rt.write_all(b":")?;
    show_buffer(rt, &b)?;
    text_print::show(rt, b" read ", u64::from(num_le::read_u8([b[0]])))?;
    text_print::show(rt, b" ", u64::from(num_le::read_u16([b[0], b[1]])))?;
    text_print::show(rt, b" ", u64::from(num_le::read_u32(b)))?;
    text_print::show_signed(rt, b" ", num_le::read_i32(b))?;
    rt.write_all(b"\n")?;
    Ok(b)
}

// What stands at the front of these bytes, read as a number.
fn number_row<P: Print>(rt: &P, bytes: &[u8]) -> io::Result<Result<Number, NumberFault>>
    ensures { IfOk result (λ given. given ≡ number_at bytes.now 0) }
{
    let n = image_number::read(bytes, 0);
    match n {
        Ok(number) => {
            text_print::show(rt, b"number ", u64::from(number.value))?;
            text_print::show(rt, b" next ", number.next as u64)?;
            rt.write_all(b"\n")?;
        }
        Err(NumberFault::EndsEarly) => rt.write_all(b"number ends early\n")?,
        Err(NumberFault::NotShortest) => rt.write_all(b"number not shortest\n")?,
    }
    Ok(n)
}

// What comes of an image's header.
fn header_result<P: Print>(rt: &P, image: &[u8]) -> io::Result<ImageResult>
    ensures { IfOk result (λ given. given ≡ (header_of image.now).result) }
{
    Ok(outcome(header_row(rt, image)?))
}

// What comes of a header that was read.
fn outcome(r: Result<HeaderRead, ImageFault>) -> ImageResult
    ensures { result ≡ outcome r }
{
    match r {
        Ok(_) => Ok(()),
        Err(fault) => Err(fault),
    }
}

// The header of an image, and how long its blocks are.
fn header_row<P: Print>(rt: &P, image: &[u8]) -> io::Result<Result<HeaderRead, ImageFault>>
    ensures { IfOk result (λ given. given ≡ read_result (header_of image.now)) }
{
    let mut landings = [0; MOST_LANDINGS];
    let r = reader::read(image, &mut landings);
    let _ = show_header(rt, r)?;
    text_print::show(rt, b" blocks ", reader::block_part(image).len() as u64)?;
    rt.write_all(b"\n")?;
    Ok(r)
}

// The verdict on an image, and its blocks in hexadecimal digits; gives how many bytes they are.
fn block_row<P: Print>(rt: &P, image: &[u8]) -> io::Result<usize>
    ensures { IfOk result (λ given. given ≡ length (accepted_blocks image.now marks_length)) }
{
    text_verdict::judge(rt, image)?;
    let mut marks = text_verdict::marks();
    show_blocks(rt, walk_search::blocks(image, &mut marks))
}

fn show_blocks<P: Print>(rt: &P, blocks: &[u8]) -> io::Result<usize>
    ensures { IfOk result (λ given. given ≡ length blocks.now) }
{
    let mut line = [0u8; 64];
    let end = text::put(&mut line, 0, b"blocks [");
    let end = text::put_hex_bytes(&mut line, end, blocks);
    let end = text::put(&mut line, end, b"]\n");
    rt.write_all(&line[..end])?;
    Ok(blocks.len())
}

// The header that was read; zeros where it is refused.
fn show_header<P: Print>(
    rt: &P,
    r: Result<HeaderRead, ImageFault>,
) -> io::Result<Result<HeaderRead, ImageFault>>
    ensures { IfOk result (λ given. given ≡ r) }
{
    let read = match r {
        Ok(read) => read,
        Err(_) => HeaderRead {
            header: Header::default(),
            at: 0,
        },
    };
    let header = read.header;
    rt.write_all(b"header ")?;
    let _ = show_result(rt, outcome(r))?;
    text_print::show(rt, b": format ", u64::from(header.format))?;
    rt.write_all(b" ")?;
    show_drive(rt, header.drive)?;
    text_print::show(rt, b" start ", u64::from(header.start))?;
    text_print::show(rt, b" count ", u64::from(header.count))?;
    text_print::show(rt, b" at ", read.at as u64)?;
    Ok(r)
}

// A refusal's number and place, zeros where there is none.
fn show_result<P: Print>(rt: &P, res: ImageResult) -> io::Result<ImageResult>
    ensures { IfOk result (λ given. given ≡ res) }
{
    text_print::show(rt, b"refusal ", u64::from(image_result::number(res)))?;
    text_print::show(rt, b" place ", image_result::place(res) as u64)?;
    Ok(res)
}

// A drive's type and boards.
fn show_drive<P: Print>(rt: &P, d: Drive) -> io::Result<Drive>
    ensures { IfOk result (λ given. given ≡ d) }
{
    text_print::show(rt, b"type ", u64::from(d.model))?;
    text_print::show(rt, b" B ", u64::from(d.b))?;
    text_print::show(rt, b" C ", u64::from(d.c))?;
    Ok(d)
}

// What comes of writing into a buffer of 16 bytes, each AA.
fn write_result<P: Print>(
    rt: &P,
    format: u32,
    numbers: [u32; 6],
    landings: &[u8],
    blocks: &[u8],
) -> io::Result<ImageResult>
    ensures { IfOk result (λ given. given ≡ (written format (with_landings numbers landings.now) (length blocks.now) 16).result) }
{
    let mut out = [0xaau8; 16];
    let w = write_row(rt, format, numbers, landings, blocks, &mut out)?;
    Ok(w.result)
}

// What the writer of a format answers, and the buffer's bytes after it.
fn write_row<P: Print>(
    rt: &P,
    format: u32,
    numbers: [u32; 6],
    landings: &[u8],
    blocks: &[u8],
    out: &mut [u8],
) -> io::Result<Written>
    ensures value { IfOk result (λ given. given ≡ written format (with_landings numbers landings.now) (length blocks.now) (length out.old)) }
    ensures out_after { out.new ≡ out_after format (with_landings numbers landings.now) blocks.now out.old }
{
    let w = image_writer::write(format, numbers, landings, blocks, out);
    show_written(rt, w)?;
    show_buffer(rt, out)?;
    rt.write_all(b"\n")?;
    Ok(w)
}

fn show_written<P: Print>(rt: &P, w: Written) -> io::Result<Written>
    ensures { IfOk result (λ given. given ≡ w) }
{
    let result = w.result;
    rt.write_all(b"write ")?;
    let _ = show_result(rt, result)?;
    text_print::show(rt, b" length ", w.length as u64)?;
    rt.write_all(b" out")?;
    Ok(w)
}

// The bytes of a buffer; gives how many.
fn show_buffer<P: Print>(rt: &P, out: &[u8]) -> io::Result<usize>
    ensures { IfOk result (λ given. given ≡ length out.now) }
{
    let mut n = 0;
    for byte in out {
        text_print::show(rt, b" ", u64::from(*byte))?;
        n += 1;
    }
    Ok(n)
}

// The three kinds of pins of a drive; gives how many it has of all kinds.
fn drive_rows<P: Print>(rt: &P, d: Drive) -> io::Result<u32>
    ensures { IfOk result (λ given. given ≡ present_pins d Input 256 + present_pins d OutputWritten 256 + present_pins d OutputRead 256) }
{
    let inputs = pin_row(rt, d, PinKind::Input)?;
    let written = pin_row(rt, d, PinKind::OutputWritten)?;
    let read = pin_row(rt, d, PinKind::OutputRead)?;
    Ok(inputs + written + read)
}

// The pins of a kind that a drive has, and with a question mark those that a board would bring; gives how many it has.
fn pin_row<P: Print>(rt: &P, d: Drive, kind: PinKind) -> io::Result<u32>
    ensures { IfOk result (λ given. given ≡ present_pins d kind 256) }
{
    show_drive(rt, d)?;
    show_kind(rt, kind)?;
    let n = show_pins(rt, d, kind)?;
    text_print::show(rt, b": ", u64::from(n))?;
    rt.write_all(b"\n")?;
    Ok(n)
}

fn show_kind<P: Print>(rt: &P, kind: PinKind) -> io::Result<PinKind>
    ensures { IfOk result (λ given. given ≡ kind) }
{
    let name = match kind {
        PinKind::Input => " inputs",
        PinKind::OutputWritten => " written",
        PinKind::OutputRead => " read",
    };
    rt.write_all(name.as_bytes())?;
    Ok(kind)
}

fn show_pins<P: Print>(rt: &P, d: Drive, kind: PinKind) -> io::Result<u32>
    ensures { IfOk result (λ given. given ≡ present_pins d kind 256) }
{
    let mut n: u32 = 0;
    for pin in 0..256u16 {
        n += show_pin(rt, d, kind, pin as u8)?;
    }
    Ok(n)
}

// One pin; gives 1 where the drive has it.
fn show_pin<P: Print>(rt: &P, d: Drive, kind: PinKind, pin: u8) -> io::Result<u32>
    ensures { IfOk result (λ given. given ≡ shown_pin d kind pin) }
{
    match d.pin(kind, pin) {
        Ok(()) => {
            text_print::show(rt, b" ", u64::from(pin))?;
            Ok(1)
        }
        Err(Absence::BoardMissing) => {
            text_print::show(rt, b" ", u64::from(pin))?;
            rt.write_all(b"?")?;
            Ok(0)
        }
        Err(Absence::Never) => Ok(0),
    }
}
