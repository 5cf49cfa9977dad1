// The loader (document 01, "Refused because of the input"): which images are accepted, and which refusal with which place all else gets.
#![tactic(auto)]

ghost use Rattle.std.specs.Prelude.{◌≡◌, ◌≤◌, length};
ghost use Rattle.limits.specs.Limits.{marks_length};
ghost use Rattle.walk.specs.Verdict.{blocks_verdict, verdict_of, accepted_blocks};
ghost use Rattle.walk_search.specs.After.{After};
ghost use Rattle.walk_search.specs.Program.{terms_of};
ghost use Rattle.walk_search.specs.Search.{each_verdict};

use image_header::{Header, reader};
use limits::{MARKS_LENGTH, MOST_LANDINGS};
use program::Program;
use walk::{Refusal, Verdict};

mod program;
mod search;

// The verdict on an image: 13, then 1 to 4 and 21, then 5 to 8 and 23 of the blocks, then the least 51 that ends another task (7), then the least bad point (9
// to 12). The search works in the first MARKS_LENGTH bytes of marks, which may hold anything; no byte behind them is touched.
pub fn judge(image: &[u8], marks: &mut [u8]) -> Verdict
    ensures value { result ≡ verdict_of image.now (length marks.old) }
    ensures after { After marks_length marks.old marks.new }
{
    if marks.len() < MARKS_LENGTH {
        return Err(Refusal::MarksShort(marks.len()));
    }
    let mut landings = [0u16; MOST_LANDINGS];
    let read = match reader::read(image, &mut landings) {
        Ok(read) => read,
        Err(fault) => return Err(Refusal::Image(fault)),
    };
    let program = Program {
        header: read.header,
        landings: &landings[..read.header.landings as usize],
        blocks: reader::part_of(image, Ok(read)),
    };
    judge_blocks(&program, marks)
}

// The part of the image that holds its blocks, the empty part when the image is refused by any number.
pub fn blocks<'a>(image: &'a [u8], marks: &mut [u8]) -> &'a [u8]
    ensures result_value { result.now ≡ accepted_blocks image.now (length marks.old) }
    ensures after { After marks_length marks.old marks.new }
{
    if walk_verdict::is_accepted(judge(image, marks)) {
        reader::block_part(image)
    } else {
        &image[..0]
    }
}

// The blocks of a program, judged upwards by 5 to 8 and 23, then the walks.
#[tactic(auto, using(crate::proofs::Upwards::then_walks))]
fn judge_blocks(program: &Program, marks: &mut [u8]) -> Verdict
    requires { marks_length ≤ length marks.old }
    ensures value { result ≡ blocks_verdict (terms_of program.now) program.now.blocks.now 0 program.now.header.count }
    ensures after { After marks_length marks.old marks.new }
{
    judge_each(program.header, program.blocks)?;
    search::judge_walks(program, marks)
}

// The blocks of an image with this header, each judged by itself, upwards.
#[tactic(auto, using(crate::proofs::Upwards::each_next), unfolding(crate::specs::Search::each_verdict))]
fn judge_each(header: Header, blocks: &[u8]) -> Verdict
    ensures { result ≡ each_verdict header blocks.now 0 header.count }
{
    for b in 0..header.count {
        if let Err(fault) = walk_blocks::block_fault_at(header, blocks, b) {
            return Err(Refusal::Block(fault, usize::from(b)));
        }
    }
    Ok(())
}
