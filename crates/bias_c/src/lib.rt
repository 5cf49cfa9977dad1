// The archive for C (include/bias.h): each function is the one of that name in the crate bias, which Rattle's crates call, and says what that one says.
#![tactic(auto)]

ghost use Rattle.std.specs.Prelude.{◌≡◌, [], ◌∷◌, length};
ghost use Rattle.limits.specs.Limits.{marks_length};
ghost use Rattle.walk_search.specs.After.{After};
ghost use Rattle.image_header.specs.Rows.{format1, format2};
ghost use Rattle.image_writer.specs.Writer.{with_landings, written, out_after};
ghost use Rattle.machine.specs.Inputs.{inputs_of};
ghost use Rattle.bias_results.specs.Results.{written_for};
ghost use Rattle.bias.specs.Load.{load};
ghost use Rattle.bias.specs.Step.{stepped};

use bias_results::{BiasAnswer, BiasVerdict};

// Loads an image: judges it, in the first MARKS_LENGTH bytes of marks, and puts its fresh state into the buffer where it is accepted.
#[unsafe(no_mangle)]
pub extern "C" fn bias_load(image: &[u8], marks: &mut [u8], state: &mut [u8]) -> BiasVerdict
    ensures value { result ≡ (load image.now (length marks.old) state.old).verdict }
    ensures state_after { state.new ≡ (load image.now (length marks.old) state.old).buffer }
    ensures after { After marks_length marks.old marks.new }
{
    bias::bias_load(image, marks, state)
}

// Steps a task: 15, then 16, then 18, 17 or the command.
#[unsafe(no_mangle)]
pub extern "C" fn bias_step(
    image: &[u8],
    state: &mut [u8],
    task: u32,
    inputs: &[u8],
    start: u8,
    ramp_ended: u8,
    in_window: u8,
) -> BiasAnswer
    ensures value { result ≡ (stepped image.now state.old (inputs_of task inputs.now start ramp_ended in_window)).answer }
    ensures state_after { state.new
        ≡ (stepped image.now state.old (inputs_of task inputs.now start ramp_ended in_window)).buffer }
{
    bias::bias_step(image, state, task, inputs, start, ramp_ended, in_window)
}

// Writes the image, of format 1, of these header numbers and blocks to the front of out.
#[unsafe(no_mangle)]
pub extern "C" fn bias_write(
    format: u32,
    model: u32,
    b: u32,
    c: u32,
    start: u32,
    count: u32,
    blocks: &[u8],
    out: &mut [u8],
) -> BiasVerdict
    ensures value { result
        ≡ written_for (written format1 (with_landings (format ∷ model ∷ b ∷ c ∷ start ∷ count ∷ []) []) (length blocks.now) (length out.old)) }
    ensures out_after { out.new
        ≡ out_after format1 (with_landings (format ∷ model ∷ b ∷ c ∷ start ∷ count ∷ []) []) blocks.now out.old }
{
    bias::bias_write(format, model, b, c, start, count, blocks, out)
}

// Writes the image, of format 2, of these header numbers, landing blocks (two bytes each, low byte first) and blocks to the front of out.
#[unsafe(no_mangle)]
pub extern "C" fn bias_write_landings(
    format: u32,
    model: u32,
    b: u32,
    c: u32,
    start: u32,
    count: u32,
    landings: &[u8],
    blocks: &[u8],
    out: &mut [u8],
) -> BiasVerdict
    ensures value { result
        ≡ written_for (written format2 (with_landings (format ∷ model ∷ b ∷ c ∷ start ∷ count ∷ []) landings.now) (length blocks.now)
        (length out.old)) }
    ensures out_after { out.new
        ≡ out_after format2 (with_landings (format ∷ model ∷ b ∷ c ∷ start ∷ count ∷ []) landings.now) blocks.now out.old }
{
    bias::bias_write_landings(format, model, b, c, start, count, landings, blocks, out)
}
