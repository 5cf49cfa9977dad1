// The numbers of an image (document 01, "The image"): seven bits to a byte, one or two bytes, always the fewest. The value is summed
// in 16 bits; its place keeps the width of the image's length.
#![tactic(auto)]

ghost use Rattle.std.specs.Prelude.{◌≡◌, ◌+◌, ◌<◌, length};
ghost use Rattle.image_number.specs.Number.{number_at, number_bytes};

// A number, and the place behind it.
#[derive(Clone, Copy)]
pub struct Number {
    pub value: u16,
    pub next: usize,
}

// Why no number stands at a place: too few bytes; or bytes that are not the shortest form of a number of two bytes (a second
// byte that is 0 or has its top bit set).
#[derive(Clone, Copy)]
pub enum NumberFault {
    EndsEarly,
    NotShortest,
}

// The number at a place of the image.
#[tactic(auto, unfolding(crate::specs::Number::number_at, crate::specs::Number::first_byte, crate::specs::Number::second_byte))]
pub fn read(image: &[u8], at: usize) -> Result<Number, NumberFault>
    ensures { result ≡ number_at image.now at }
{
    if at >= image.len() {
        return Err(NumberFault::EndsEarly);
    }
    let low = image[at] as u16;
    if low < 128 {
        return Ok(Number {
            value: low,
            next: at + 1,
        });
    }
    if at + 1 >= image.len() {
        return Err(NumberFault::EndsEarly);
    }
    let high = image[at + 1] as u16;
    if high == 0 || high >= 128 {
        return Err(NumberFault::NotShortest);
    }
    Ok(Number {
        value: low - 128 + 128 * high,
        next: at + 2,
    })
}

// How many bytes a number takes; one that has no form counts as two, which is where the writer places what would follow it.
#[tactic(auto, unfolding(crate::specs::Number::number_bytes))]
pub fn size(v: u32) -> usize
    ensures { result ≡ length (number_bytes v) }
{
    if v < 128 { 1 } else { 2 }
}
