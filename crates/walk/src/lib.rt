// The verdict on an image with lent marks (document 01, "Refused because of the input"; 16, which comes second in a load, belongs to the
// state buffer). No code here: specs/ says what walks are and what a verdict says of them, and computes the verdict; the crate walk_search
// finds it.
#![tactic(auto)]

use command_judge::BlockFault;
use image_result::ImageFault;
use walk_fault::Fault;
use walk_point::Point;

// What an image and marks come to: accepted, or the first refusal with its place.
pub type Verdict = Result<(), Refusal>;

// Why an image is not accepted.
#[derive(Clone, Copy)]
pub enum Refusal {
    // marks of this length are too short
    MarksShort(usize),
    // what is wrong with the header or the length of the image
    Image(ImageFault),
    // the first block that is refused by itself, by 5 to 8 or 23, and what is wrong with it
    Block(BlockFault, usize),
    // a 51 at this block that ends another task
    Foreign(usize),
    // the least bad point, and what it breaks
    Bad(Fault, Point),
}
