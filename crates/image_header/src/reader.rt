// Reads and judges the header of an image and its landing blocks, then its length, in document 01's order ("Refused because of the input"; change request 1).
// A number is judged when it has been read, a header's by its row of `check_row`, beside the numbers read before it.
ghost use Rattle.std.specs.Prelude.{◌≡◌, true, ◌&&◌, ◌||◌, cond, ◌++◌, ◌+◌, ◌-◌, ◌*◌, ◌<◌, ◌≤◌, length, get_or, eqb, ltb, is_ok, Result, Ok, Err};
ghost use Rattle.limits.specs.Limits.{most_blocks, most_landings, up_to};
ghost use Rattle.image_result.specs.ImageResult.{done};
ghost use Rattle.image_number.specs.Number.{number_bytes, number_at};
ghost use Rattle.image_header.specs.Numbers.{numbers_of, header_from, Narrow};
ghost use Rattle.image_header.specs.Rows.{header_count, most_of, stands, header_checked, accepts, first_same, same_header, same_landings};
ghost use Rattle.image_header.specs.Scan.{beside, alone, header_begun, no_landings, stopped_scan, stands_at, out_of_range, fault_result, judged, taken, more, from_image, scan, scan_of};
ghost use Rattle.image_header.specs.Scan.{most_header_bytes, first_refusal, length_result, read_result, closed, header_of, landings_of, blocks_of};

use crate::Header;
use drive::{Drive, Slot};
use image_number::{Number, NumberFault};
use image_result::{ImageFault, ImageResult};
use limits::MOST_LANDINGS;

// The numbers of a header, in the order in which they stand.
pub const FORMAT: usize = 0;

pub const TYPE: usize = 1;

pub const SLOT_B: usize = 2;

pub const SLOT_C: usize = 3;

pub const START: usize = 4;

pub const COUNT: usize = 5;

pub const LANDINGS: usize = 6;

pub const HEADER_ROWS: usize = 7;

// The numbers before the landing count, which every format has.
pub const BEFORE_LANDINGS: usize = LANDINGS;

// The formats: 2 has a landing count and landing blocks.
pub const FORMAT_1: u32 = 1;

pub const FORMAT_2: u32 = 2;

// As a header has them.
const MOST_BLOCKS: u32 = limits::MOST_BLOCKS as u32;

const MOST_LANDING_COUNT: u32 = limits::MOST_LANDINGS as u32;

// A header as read, and the place of the blocks.
#[derive(Clone, Copy)]
pub struct HeaderRead {
    pub header: Header,
    pub at: usize,
}

// The header's numbers so far, and the place of the next one; where a row refused, the numbers before that row's, and that row's place. The landing blocks are
// in an array that is lent beside it.
#[derive(Clone, Copy)]
pub struct Scan {
    pub result: ImageResult,
    pub numbers: [u32; HEADER_ROWS],
    pub at: usize,
}

// The header of an image and its landing blocks, judged by 1 to 4 and 21.
pub fn read(image: &[u8], landings: &mut [u16; MOST_LANDINGS]) -> Result<HeaderRead, ImageFault>
    ensures value { result ≡ read_result (header_of image.now) }
    ensures landings_after { landings.new ≡ landings_of image.now }
{
    clear(landings);
    let s = read_rows(image);
    let t = read_landings(image, s, landings);
    close(t, image.len())
}

// The part of the image that holds its blocks; the empty part where the image is refused by 1 to 4 or 21.
pub fn block_part(image: &[u8]) -> &[u8]
    ensures { result.now ≡ blocks_of image.now }
{
    let mut landings = [0; MOST_LANDINGS];
    part_of(image, read(image, &mut landings))
}

// The same, of what came of reading its header before.
#[tactic(auto, using(crate::proofs::Read::inside, crate::proofs::Read::all_blocks, crate::proofs::Read::no_blocks))]
pub fn part_of(image: &[u8], read: Result<HeaderRead, ImageFault>) -> &[u8]
    requires { read ≡ read_result (header_of image.now) }
    ensures { result.now ≡ blocks_of image.now }
{
    match read {
        Ok(h) => &image[h.at..],
        Err(_) => &image[..0],
    }
}

// Whether load accepts a header: every row lets it pass.
pub fn accepts(header: Header) -> bool
    ensures { result ≡ accepts header }
{
    let numbers = numbers_of(header);
    (0..HEADER_ROWS).all(|row| check_row(row, numbers).is_ok())
}

// Whether two headers are the same: each number is.
pub fn same(a: Header, b: Header) -> bool
    ensures { result ≡ same_header a b }
{
    a == b
}

// Whether the first n of two landing lists are the same: each block is.
pub fn same_landings<'a>(n: u8, a: &'a [u16; MOST_LANDINGS], b: &'a [u16; MOST_LANDINGS]) -> bool
    ensures { result ≡ same_landings n a.now b.now }
{
    let n = usize::from(n).min(MOST_LANDINGS);
    a[..n] == b[..n]
}

// The numbers of a header.
pub fn numbers_of(h: Header) -> [u32; HEADER_ROWS]
    ensures { result ≡ numbers_of h }
{
    let d = h.drive;
    [
        u32::from(h.format),
        u32::from(d.model),
        u32::from(d.b),
        u32::from(d.c),
        u32::from(h.start),
        u32::from(h.count),
        u32::from(h.landings),
    ]
}

// The header of these numbers.
fn header_from(n: [u32; HEADER_ROWS]) -> Header
    requires { Narrow n }
    ensures { result ≡ header_from n }
{
    let drive = Drive {
        model: n[TYPE] as u8,
        b: n[SLOT_B] as u8,
        c: n[SLOT_C] as u8,
    };
    Header {
        format: n[FORMAT] as u8,
        drive,
        start: n[START] as u16,
        count: n[COUNT] as u16,
        landings: n[LANDINGS] as u8,
    }
}

// No landing block yet.
fn clear(landings: &mut [u16; MOST_LANDINGS])
    ensures { landings.new ≡ no_landings }
{
    *landings = [0; MOST_LANDINGS];
}

// The numbers of an image's header.
fn read_rows(image: &[u8]) -> Scan
    ensures { beside result no_landings ≡ scan (length image.now) (from_image image.now) header_count }
{
    let mut s = begin();
    for row in 0..HEADER_ROWS {
        s = read_row(image, s, row);
    }
    s
}

// One number more of a header, if it stands and none before it was refused.
#[tactic(auto, using(crate::proofs::Scanning::stays, crate::proofs::Scanning::takes))]
fn read_row(image: &[u8], s: Scan, row: usize) -> Scan
    requires { row < header_count }
    ensures { alone result ≡ more (length image.now) (from_image image.now) row (alone s) }
{
    if !is_next(s, row) {
        return s;
    }
    take_row(image.len(), row, s, image_number::read(image, s.at))
}

// Whether a number comes next: it stands, and none before it was refused.
pub fn is_next(s: Scan, row: usize) -> bool
    ensures { result ≡ (done s.result && stands row s.numbers) }
{
    s.result.is_ok() & stands(row, s.numbers)
}

// Whether a number stands in an image: a landing count in format 2 alone, and as many landing blocks as it says.
#[tactic(auto, unfolding(crate::specs::Rows::stands))]
pub fn stands(row: usize, n: [u32; HEADER_ROWS]) -> bool
    ensures { result ≡ stands row n }
{
    if row < HEADER_ROWS {
        return !(row == LANDINGS) | (n[FORMAT] == FORMAT_2);
    }
    row - HEADER_ROWS < n[LANDINGS] as usize
}

// What stands at the scan's place in an image of this length, taken as one of the header's numbers.
#[tactic(auto, unfolding(crate::specs::Scan::taken))]
fn take_row(length: usize, row: usize, s: Scan, found: Result<Number, NumberFault>) -> Scan
    requires { row < header_count }
    ensures { alone result ≡ taken length row (alone s) found }
{
    match found {
        Ok(number) => judge(row, s, u32::from(number.value), number.next),
        Err(fault) => stop(fault_result(fault, length, s.at), s),
    }
}

// The refusal where no number stands at this place of an image of this length.
fn fault_result(fault: NumberFault, length: usize, at: usize) -> ImageResult
    ensures { result ≡ fault_result fault length at }
{
    match fault {
        NumberFault::EndsEarly => Err(ImageFault::EndsEarly(length)),
        NumberFault::NotShortest => Err(ImageFault::NotShortest(at)),
    }
}

// No number yet.
pub fn begin() -> Scan
    ensures { result ≡ header_begun }
{
    Scan {
        result: Ok(()),
        numbers: [0; HEADER_ROWS],
        at: 0,
    }
}

// A number v of the header, which stands at the scan's place, judged beside those read so far.
#[tactic(auto, using(crate::proofs::Rows::header_row, crate::proofs::Rows::blames), unfolding(crate::specs::Scan::judged))]
pub fn judge(row: usize, s: Scan, v: u32, next: usize) -> Scan
    requires { row < header_count }
    ensures { alone result ≡ judged row (alone s) v next }
{
    let mut numbers = s.numbers;
    numbers[row] = v;
    match check_row(row, numbers) {
        Ok(()) => Scan {
            result: Ok(()),
            numbers,
            at: next,
        },
        Err(k) => stop(out_of_range(k, place_of(numbers, k)), s),
    }
}

// The refusal of a header's number at this place: 3, or 21 of the landing count.
fn out_of_range(k: usize, place: usize) -> ImageResult
    ensures { result ≡ out_of_range k place }
{
    if k < LANDINGS {
        return Err(ImageFault::OutOfRange(place));
    }
    Err(ImageFault::BadLanding(place))
}

// Where a number of a header stands, or what is behind it: behind the bytes of those before it that stand.
#[tactic(auto, unfolding(crate::specs::Scan::stands_at))]
fn place_of(n: [u32; HEADER_ROWS], k: usize) -> usize
    requires { k ≤ header_count }
    ensures { (result ≡ stands_at n k) × (result ≤ 2 * k) }
{
    let mut at: usize = 0;
    for j in 0..k {
        at += size_in(j, n);
    }
    at
}

// The bytes that a number of a header takes in an image.
#[tactic(auto, using(image_number::proofs::Numbers::size_most))]
fn size_in(row: usize, n: [u32; HEADER_ROWS]) -> usize
    requires { row < header_count }
    ensures { (result ≡ cond (stands row n) (length (number_bytes (get_or n row 0))) 0) × (result ≤ 2) }
{
    if !stands(row, n) {
        return 0;
    }
    image_number::size(n[row])
}

// The tests of one number, once those up to it have been read.
#[tactic(auto, unfolding(crate::specs::Rows::header_checked))]
fn check_row(row: usize, n: [u32; HEADER_ROWS]) -> Result<(), usize>
    ensures { result ≡ header_checked row (header_from n) }
{
    match row {
        FORMAT => fails_unless(FORMAT, (n[FORMAT] == FORMAT_1) | (n[FORMAT] == FORMAT_2)),
        TYPE => fails_unless(TYPE, n[TYPE] < Drive::TYPES),
        SLOT_B => fails_unless(SLOT_B, Drive::takes(Slot::B, n[TYPE], n[SLOT_B])),
        SLOT_C => fails_unless(SLOT_C, Drive::takes(Slot::C, n[TYPE], n[SLOT_C])),
        // judged behind the count
        START => Ok(()),
        COUNT => check_count(n),
        LANDINGS => fails_unless(LANDINGS, n[LANDINGS] <= most_of(n[FORMAT])),
        // a header has no number behind the landing count
        _ => Ok(()),
    }
}

// The count, then the start, which must be below it.
#[tactic(auto, unfolding(crate::specs::Rows::header_checked))]
fn check_count(n: [u32; HEADER_ROWS]) -> Result<(), usize>
    ensures { result ≡ header_checked 5 (header_from n) }
{
    fails_unless(COUNT, count_in_range(n[COUNT]))?;
    fails_unless(START, n[START] < n[COUNT])
}

// A block count: 1 to the most.
fn count_in_range(v: u32) -> bool
    ensures { result ≡ up_to most_blocks v }
{
    (0 < v) & (v <= MOST_BLOCKS)
}

// The most landing blocks of a format.
fn most_of(format: u32) -> u32
    ensures { result ≡ most_of format }
{
    if format == FORMAT_2 {
        return MOST_LANDING_COUNT;
    }
    0
}

// What a row with one test finds.
fn fails_unless(number: usize, holds: bool) -> Result<(), usize>
    ensures { result ≡ cond holds (Ok tt) (Err number) }
{
    if holds { Ok(()) } else { Err(number) }
}

// The landing blocks of an image, behind the numbers of its header.
fn read_landings(image: &[u8], s: Scan, landings: &mut [u16; MOST_LANDINGS]) -> Scan
    requires landings_value { beside s landings.old ≡ scan (length image.now) (from_image image.now) header_count }
    requires landings_len { length landings.old ≡ most_landings }
    ensures landings_after { beside result landings.new ≡ scan_of image.now }
    ensures length_kept { length landings.new ≡ most_landings }
{
    let mut t = s;
    for i in 0..MOST_LANDINGS {
        if !is_next(t, HEADER_ROWS + i) {
            return t;
        }
        t = read_landing(image, i, t, landings);
    }
    t
}

// What stands at the scan's place, taken as a landing block.
#[tactic(auto, unfolding(crate::specs::Scan::taken))]
fn read_landing(image: &[u8], i: usize, s: Scan, landings: &mut [u16; MOST_LANDINGS]) -> Scan
    requires index_in_range { (i < most_landings) × (i ≤ get_or s.numbers 6 0) }
    requires landings_len { length landings.old ≡ most_landings }
    ensures landings_after { beside result landings.new ≡ taken (length image.now) (header_count + i) (beside s landings.old) (number_at image.now s.at) }
    ensures length_kept { length landings.new ≡ most_landings }
{
    match image_number::read(image, s.at) {
        Ok(number) => judge_landing(i, s, number.value, number.next, landings),
        Err(fault) => stop(fault_result(fault, image.len(), s.at), s),
    }
}

// A landing block, which stands at the scan's place, judged beside the numbers read so far.
pub fn judge_landing(
    i: usize,
    s: Scan,
    block: u16,
    next: usize,
    landings: &mut [u16; MOST_LANDINGS],
) -> Scan
    requires index_in_range { (i < most_landings) × (i ≤ get_or s.numbers 6 0) }
    requires landings_len { length landings.old ≡ most_landings }
    ensures landings_after { beside result landings.new ≡ judged (header_count + i) (beside s landings.old) block next }
    ensures length_kept { length landings.new ≡ most_landings }
{
    let numbers = s.numbers;
    if !landing_fits(numbers[COUNT], i, block_before(landings, i), block) {
        return stop(
            Err(ImageFault::BadLanding(place_of_landing(numbers, landings, i))),
            s,
        );
    }
    landings[i] = block;
    Scan {
        result: Ok(()),
        numbers,
        at: next,
    }
}

// Whether a block may be landing block i behind the one before it: it is below the count, and above that one.
pub fn landing_fits(count: u32, i: usize, before: u16, block: u16) -> bool
    ensures { result ≡ (ltb block count && (eqb i 0 || ltb before block)) }
{
    (u32::from(block) < count) & ((i == 0) | (before < block))
}

// The landing block before landing block i; 0 before the first.
fn block_before(landings: &[u16; MOST_LANDINGS], i: usize) -> u16
    requires { i < most_landings }
    ensures { result ≡ cond (eqb i 0) 0 (get_or landings.now (i - 1) 0) }
{
    if i == 0 {
        return 0;
    }
    landings[i - 1]
}

// Where a landing block stands: behind the header's numbers and the landing blocks before it.
fn place_of_landing(n: [u32; HEADER_ROWS], landings: &[u16; MOST_LANDINGS], i: usize) -> usize
    requires { (i < most_landings) × (i ≤ get_or n 6 0) }
    ensures { result ≡ stands_at (n ++ landings.now) (header_count + i) }
{
    let mut at = place_of(n, HEADER_ROWS);
    for block in &landings[..i] {
        at += image_number::size(u32::from(*block));
    }
    at
}

// The header that was read, once the image's length is judged too.
#[tactic(auto, using(crate::proofs::Read::closed_as))]
fn close(s: Scan, length: usize) -> Result<HeaderRead, ImageFault>
    requires room { s.at ≤ most_header_bytes }
    requires narrow { done s.result ≡ true → Narrow s.numbers }
    ensures { result ≡ read_result (closed (alone s) length) }
{
    s.result?;
    judge_length(s.at, s.numbers[COUNT], length)?;
    Ok(HeaderRead {
        header: header_from(s.numbers),
        at: s.at,
    })
}

// The length of an image whose blocks begin at this place: 1 where it ends early, 4 where bytes are left over.
#[tactic(auto, unfolding(crate::specs::Scan::length_result))]
fn judge_length(at: usize, count: u32, length: usize) -> ImageResult
    requires { at ≤ most_header_bytes }
    ensures { result ≡ length_result at count length }
{
    let end = at + limits::BLOCK_LENGTH * (count as usize);
    if length < end {
        return Err(ImageFault::EndsEarly(length));
    }
    if end < length {
        return Err(ImageFault::LeftOver(end));
    }
    Ok(())
}

// Of two judgements, one after the other, the refusal that comes first.
#[tactic(auto, unfolding(crate::specs::Scan::first_refusal))]
pub fn first_refusal(a: ImageResult, b: ImageResult) -> ImageResult
    ensures { result ≡ first_refusal a b }
{
    if a.is_ok() {
        return b;
    }
    a
}

// Refused by this result: the numbers so far stay.
pub fn stop(res: ImageResult, s: Scan) -> Scan
    ensures { result ≡ stopped_scan res s }
{
    Scan { result: res, ..s }
}
