// The program image (document 01, "The image"; change request 1): the numbers of a header, in format 2 the landing blocks, then the blocks, and no byte more.
// Crate `image_number` reads one number, reader.rt reads and judges the header and the landing blocks; `image_writer` writes an image.
#![tactic(auto)]

use drive::Drive;

pub mod reader;

// The header of an image.
#[derive(Clone, Copy, Default, PartialEq, Eq)]
pub struct Header {
    pub format: u8,
    pub drive: Drive,
    pub start: u16,
    pub count: u16,
    // how many landing blocks stand behind it: 0 in format 1
    pub landings: u8,
}
