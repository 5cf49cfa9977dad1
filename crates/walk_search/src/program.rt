// What is judged of an image whose header load accepts.
ghost use Rattle.walk.specs.Successors.{WalkBounds};
ghost use Rattle.walk_search.specs.Terms.{terms};

use image_header::Header;

// A program: its header, its landing blocks and its blocks, under which walks stay within the marks.
#[derive(Clone, Copy)]
pub struct Program<'a> {
    pub header: Header,
    pub landings: &'a [u16],
    pub blocks: &'a [u8],
    pub ghost bounds: { WalkBounds (terms header landings.now) },
}
