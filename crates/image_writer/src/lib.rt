// The image writers, one for each format: document 01, "Refused because of the input", its last paragraph; change request 1. They judge the numbers as the
// reader does, then the length of the blocks (1, 4), then the room (14); they do not judge blocks.
#![tactic(auto)]

ghost use Rattle.std.specs.Prelude.{◌≡◌, true, [], ◌∷◌, ◌++◌, ◌+◌, ◌<◌, ◌≤◌, length, get_or};
ghost use Rattle.std.proofs.lemmas.List.Edits.{sets};
ghost use Rattle.limits.specs.Limits.{most_landings};
ghost use Rattle.image_number.specs.Number.{number_limit, number_bytes};
ghost use Rattle.image_header.specs.Rows.{row_count, stands};
ghost use Rattle.image_header.specs.Scan.{more, scan, most_header_bytes, beside, alone, no_landings};
ghost use Rattle.image_writer.specs.Writer.{words_of, landings_given, with_landings, given_numbers, HaveForms, room_result, not_written, judged_write};
ghost use Rattle.image_writer.specs.Writer.{landings_stand, judged_for, written, bytes_at, first_numbers, image_of, overlaid, out_after};

use image_header::reader;
use image_header::reader::{BEFORE_LANDINGS, HEADER_ROWS, Scan};
use image_result::{ImageFault, ImageResult};
use limits::MOST_LANDINGS;

// The numbers that any format has before the blocks.
const ROWS: usize = HEADER_ROWS + MOST_LANDINGS;

// A landing count that 21 refuses.
const TOO_MANY: u32 = MOST_LANDINGS as u32 + 1;

// What writing came to: the result, and the length of the image, 0 when refused.
#[derive(Clone, Copy)]
pub struct Written {
    pub result: ImageResult,
    pub length: usize,
}

// The writer of one format: writes the image of these header numbers, in the order in which they stand, landing blocks (two bytes to each, low byte first) and
// blocks to the front of out, and leaves what stands behind it. A refusal leaves out as it is.
pub fn write(
    format: u32,
    numbers: [u32; BEFORE_LANDINGS],
    landings: &[u8],
    blocks: &[u8],
    out: &mut [u8],
) -> Written
    ensures value { result ≡ written format (with_landings numbers landings.now) (length blocks.now) (length out.old) }
    ensures out_after { out.new ≡ out_after format (with_landings numbers landings.now) blocks.now out.old }
{
    let given = with_count(numbers, landings.len());
    let mut list = [0; MOST_LANDINGS];
    let s = judge(format, given, landings, &mut list);
    let w = fit(s, blocks.len(), out.len());
    if !w.result.is_ok() {
        return w;
    }
    put_image(given, landings, blocks, out);
    w
}

// The header's numbers, of which the landing count is the last; the landing blocks are so many bytes.
#[tactic(auto, using(crate::proofs::Words::with_count))]
fn with_count(n: [u32; BEFORE_LANDINGS], bytes: usize) -> [u32; HEADER_ROWS]
    ensures { result ≡ n ++ (landings_given bytes ∷ []) }
{
    [
        n[reader::FORMAT],
        n[reader::TYPE],
        n[reader::SLOT_B],
        n[reader::SLOT_C],
        n[reader::START],
        n[reader::COUNT],
        count_given(bytes),
    ]
}

// How many landing blocks so many bytes name; one more than the most where their number is odd, or too great.
fn count_given(bytes: usize) -> u32
    ensures { result ≡ landings_given bytes }
{
    if bytes % 2 == 1 || 2 * MOST_LANDINGS < bytes {
        return TOO_MANY;
    }
    (bytes / 2) as u32
}

// The numbers judged by the writer of one format.
fn judge(
    format: u32,
    numbers: [u32; HEADER_ROWS],
    bytes: &[u8],
    landings: &mut [u16; MOST_LANDINGS],
) -> Scan
    requires { landings.old ≡ no_landings }
    ensures landings_after { beside result landings.new ≡ judged_for format (numbers ++ words_of bytes.now) }
    ensures landings_len { length landings.new ≡ most_landings }
{
    if numbers[reader::FORMAT] != format {
        return reader::stop(Err(ImageFault::OutOfRange(0)), reader::begin());
    }
    let s = judge_numbers(numbers, bytes, landings);
    landings_stand(numbers, s)
}

// The scan refused by 21 where landing blocks are given that have no place in the format.
#[tactic(auto, unfolding(crate::specs::Writer::landings_stand))]
fn landings_stand(n: [u32; HEADER_ROWS], s: Scan) -> Scan
    ensures { alone result ≡ landings_stand n (alone s) }
{
    if reader::stands(reader::LANDINGS, n) | (n[reader::LANDINGS] == 0) {
        return s;
    }
    reader::stop(
        reader::first_refusal(s.result, Err(ImageFault::BadLanding(s.at))),
        s,
    )
}

// The numbers judged, each at the place where it would stand.
fn judge_numbers(
    numbers: [u32; HEADER_ROWS],
    bytes: &[u8],
    landings: &mut [u16; MOST_LANDINGS],
) -> Scan
    requires { landings.old ≡ no_landings }
    ensures landings_after { beside result landings.new ≡ scan 0 (given_numbers (numbers ++ words_of bytes.now)) row_count }
    ensures landings_len { length landings.new ≡ most_landings }
{
    let mut s = reader::begin();
    for row in 0..ROWS {
        s = judge_number(s, row, numbers, bytes, landings);
    }
    s
}

// One number more, if it stands and none before it was refused.
fn judge_number(
    s: Scan,
    row: usize,
    numbers: [u32; HEADER_ROWS],
    bytes: &[u8],
    landings: &mut [u16; MOST_LANDINGS],
) -> Scan
    requires room { (s.at ≤ most_header_bytes) × (row < row_count) }
    requires landings_len { length landings.old ≡ most_landings }
    ensures landings_after { beside result landings.new ≡ more 0 (given_numbers (numbers ++ words_of bytes.now)) row (beside s landings.old) }
    ensures length_kept { length landings.new ≡ most_landings }
{
    if !reader::is_next(s, row) {
        return s;
    }
    if row < HEADER_ROWS {
        let v = numbers[row];
        return reader::judge(row, s, v, s.at + image_number::size(v));
    }
    let i = row - HEADER_ROWS;
    let block = word_at(bytes, i);
    reader::judge_landing(
        i,
        s,
        block,
        s.at + image_number::size(u32::from(block)),
        landings,
    )
}

// Landing block i of these bytes; 0 where they have none.
#[tactic(auto, using(crate::proofs::Words::word_at, crate::proofs::Words::word_past))]
fn word_at(bytes: &[u8], i: usize) -> u16
    requires { i < most_landings }
    ensures { result ≡ get_or (words_of bytes.now) i 0 }
{
    let at = 2 * i;
    if bytes.len() <= at + 1 {
        return 0;
    }
    num_le::read_u16([bytes[at], bytes[at + 1]])
}

// What the judged numbers, the length of the blocks and the room come to.
#[tactic(auto, unfolding(crate::specs::Writer::judged_write, crate::specs::Writer::written_with))]
fn fit(s: Scan, blocks: usize, room: usize) -> Written
    requires { s.at ≤ most_header_bytes }
    ensures { result ≡ judged_write (alone s) blocks room }
{
    let result = reader::first_refusal(
        s.result,
        judge_room(s.at, s.numbers[reader::COUNT], blocks, room),
    );
    if !result.is_ok() {
        return not_written(result);
    }
    Written {
        result,
        length: s.at + blocks,
    }
}

// Whether the blocks are as long as the count says, and there is room for them behind the numbers.
#[tactic(auto, unfolding(crate::specs::Writer::room_result))]
fn judge_room(at: usize, count: u32, blocks: usize, room: usize) -> ImageResult
    requires { at ≤ most_header_bytes }
    ensures { result ≡ room_result at count blocks room }
{
    let whole = limits::BLOCK_LENGTH * (count as usize);
    if blocks < whole {
        return Err(ImageFault::EndsEarly(blocks));
    }
    if whole < blocks {
        return Err(ImageFault::LeftOver(blocks));
    }
    if room < at + blocks {
        return Err(ImageFault::NoRoom(at + blocks));
    }
    Ok(())
}

fn not_written(res: ImageResult) -> Written
    ensures { result ≡ not_written res }
{
    Written {
        result: res,
        length: 0,
    }
}

// The image itself, where there is room for it.
fn put_image(numbers: [u32; HEADER_ROWS], landings: &[u8], blocks: &[u8], out: &mut [u8])
    requires have_forms { HaveForms (numbers ++ words_of landings.now) }
    requires blocks_in_bounds { length (image_of (numbers ++ words_of landings.now) blocks.now) ≤ length out.old }
    ensures { out.new ≡ overlaid (image_of (numbers ++ words_of landings.now) blocks.now) out.old }
{
    let at = put_numbers(numbers, landings, out);
    let end = at + blocks.len();
    out[at..end].copy_from_slice(blocks);
}

// The numbers' bytes, one after the other; gives the place behind them.
fn put_numbers(numbers: [u32; HEADER_ROWS], landings: &[u8], out: &mut [u8]) -> usize
    requires have_forms { HaveForms (numbers ++ words_of landings.now) }
    requires row_count_in_bounds { length (first_numbers (numbers ++ words_of landings.now) row_count) ≤ length out.old }
    ensures value { result ≡ length (first_numbers (numbers ++ words_of landings.now) row_count) }
    ensures out_after { out.new ≡ sets out.old 0 (first_numbers (numbers ++ words_of landings.now) row_count) }
{
    let mut at = 0;
    for row in 0..ROWS {
        at = put_number(numbers, landings, row, at, out);
    }
    at
}

// Writes a number, if it stands, at a place, and gives the place behind it.
fn put_number(
    numbers: [u32; HEADER_ROWS],
    landings: &[u8],
    row: usize,
    at: usize,
    out: &mut [u8],
) -> usize
    requires row_in_range { row < row_count }
    requires number_in_range { stands row (numbers ++ words_of landings.now) ≡ true → get_or (numbers ++ words_of landings.now) row 0 < number_limit }
    requires row_in_bounds { at + length (bytes_at (numbers ++ words_of landings.now) row) ≤ length out.old }
    ensures value { result ≡ at + length (bytes_at (numbers ++ words_of landings.now) row) }
    ensures out_after { out.new ≡ sets out.old at (bytes_at (numbers ++ words_of landings.now) row) }
{
    if !reader::stands(row, numbers) {
        return at;
    }
    put(out, at, number_given(row, numbers, landings))
}

// A number of those given.
fn number_given(row: usize, numbers: [u32; HEADER_ROWS], landings: &[u8]) -> u32
    requires { row < row_count }
    ensures { result ≡ get_or (numbers ++ words_of landings.now) row 0 }
{
    if row < HEADER_ROWS {
        return numbers[row];
    }
    u32::from(word_at(landings, row - HEADER_ROWS))
}

// Writes a number at a place, and gives the place behind it.
#[tactic(auto, unfolding(image_number::specs::Number::number_bytes))]
fn put(out: &mut [u8], at: usize, v: u32) -> usize
    requires { (v < number_limit) × (at + length (number_bytes v) ≤ length out.old) }
    ensures { (result ≡ at + length (number_bytes v)) × (out.new ≡ sets out.old at (number_bytes v)) }
{
    if v < 128 {
        out[at] = v as u8;
        return at + 1;
    }
    out[at] = (128 + v % 128) as u8;
    out[at + 1] = (v / 128) as u8;
    at + 2
}
