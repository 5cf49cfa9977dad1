// Runs the manual's examples: a line of standard input is a program image and a list of steps, and its trace goes to standard output. What is printed is
// held to the file stdout, which comes from other readings of the papers and not from this code; docs/EXAMPLES.md says which, and names the examples.
#![tactic(auto)]

ghost use Rattle.std.specs.Prelude.{◌≡◌, ◌/◌, ◌≤◌, ◌==◌, length, position, IfOk, OnOk};
ghost use Rattle.limits.specs.Limits.{state_length};
ghost use Rattle.text_hex.specs.Lines.{lines_of};
ghost use Rattle.bias.specs.Step.{stepped};
ghost use Rattle.manual.specs.Run.{record_length, given, levels_at, inputs_at, repeated, with_byte, recorded, after, after_example, space_of, behind, example};

use limits::{CELLS, STATE_LENGTH};
use std::io;

const LINE_END: u8 = b'\n';

const SPACE: u8 = b' ';

// A record of steps: how often, the task, the start input, ramp ended, in window, and four inputs that are high (0: none). One of no steps puts a byte into
// the state buffer instead: its place, low byte first, and the byte. So examples can show 16 and 17, which no run from a load meets.
const RECORD_LENGTH: usize = 9;

// Room for the whole input, and for the steps of an example.
const TEXT_LENGTH: usize = 65536;

const STEPS_LENGTH: usize = 4096;

fn main(rt: HostRuntime) -> io::Result<()> {
    let mut space = [0u8; TEXT_LENGTH];
    let n = text_input::read_full(&mut rt.stdin(), &mut space)?;
    examples(&rt, &space[..n])?;
    Ok(())
}

// An example for each line; gives how many. An error is the printing's.
fn examples<P: Print>(rt: &P, text: &[u8]) -> io::Result<usize>
    ensures { IfOk result (λ count. count ≡ lines_of text.now (length text.now)) }
{
    let mut from = 0;
    let mut n = 0;
    for (i, byte) in text.iter().enumerate() {
        if *byte == LINE_END {
            n += 1;
            text_print::show(rt, b"example ", n as u64)?;
            rt.write_all(b"\n")?;
            example(rt, &text[from..i])?;
            from = i + 1;
        }
    }
    Ok(n)
}

// Runs the image and the steps of a line: digits, a space, digits. Gives the state buffer at the end.
fn example<P: Print>(rt: &P, line: &[u8]) -> io::Result<[u8; STATE_LENGTH]>
    ensures { IfOk result (λ state. state ≡ example line.now) }
{
    let mut image = text_verdict::input();
    let mut steps = [0u8; STEPS_LENGTH];
    let k = space_of(line);
    let n = text_hex::decode(&line[..k], &mut image);
    let m = text_hex::decode(behind(line, k), &mut steps);
    let mut state = [0u8; STATE_LENGTH];
    run(rt, &image[..n], &steps[..m], &mut state)?;
    Ok(state)
}

// Where the space stands, or the end.
fn space_of(line: &[u8]) -> usize
    ensures value { result ≡ space_of line.now }
    ensures upper_bound { result ≤ length line.now }
{
    first_space(line).unwrap_or(line.len())
}

// The first space, if there is one.
fn first_space(line: &[u8]) -> Option<usize>
    ensures { result ≡ position (λ byte. byte == 32) line.now }
{
    line.iter().position(|byte| *byte == SPACE)
}

// What stands behind a place.
fn behind(line: &[u8], k: usize) -> &[u8]
    ensures { result.now ≡ behind line.now k }
{
    if k < line.len() {
        return &line[k + 1..];
    }
    &line[..0]
}

// Loads an image and carries out the steps, if it is accepted.
fn run<P: Print>(rt: &P, image: &[u8], steps: &[u8], state: &mut [u8]) -> io::Result<()>
    requires { length state.old ≡ state_length }
    ensures { OnOk result (state.new ≡ after_example image.now steps.now state.old) }
{
    let mut marks = text_verdict::marks();
    let v = bias::bias_load(image, &mut marks, state);
    if text_step::show_load(rt, v)? != 0 {
        return Ok(());
    }
    run_records(rt, image, steps, state)
}

// The records of steps, one after the other.
fn run_records<P: Print>(rt: &P, image: &[u8], steps: &[u8], state: &mut [u8]) -> io::Result<()>
    requires { length state.old ≡ state_length }
    ensures { OnOk result (state.new ≡ after image.now steps.now (length steps.now / record_length) state.old) }
{
    for entry in steps.chunks_exact(RECORD_LENGTH) {
        run_record(rt, image, entry, state)?;
    }
    Ok(())
}

// A record: its steps, or the byte that it puts.
fn run_record<P: Print>(rt: &P, image: &[u8], entry: &[u8], state: &mut [u8]) -> io::Result<()>
    requires state_len { length state.old ≡ state_length }
    requires entry_len { length entry.now ≡ record_length }
    ensures { OnOk result (state.new ≡ recorded image.now entry.now 0 state.old) }
{
    let n = entry[0];
    if n == 0 {
        put_byte(entry, state);
        return Ok(());
    }
    repeat(rt, image, n, &inputs_at(entry), state)
}

// The byte of a record, put into the state buffer; none is put past its end.
fn put_byte(entry: &[u8], state: &mut [u8])
    requires state_len { length state.old ≡ state_length }
    requires entry_len { length entry.now ≡ record_length }
    ensures { state.new ≡ with_byte entry.now 0 state.old }
{
    let low = entry[1];
    let high = entry[2];
    let value = entry[3];
    let place = num_le::read_u16([low, high]) as usize;
    if place >= STATE_LENGTH {
        return;
    }
    state_bytes::put_byte(state, place, value);
}

// What a step is given besides the image and the state.
#[derive(Clone, Copy)]
struct StepInputs {
    task: u32,
    levels: [u8; CELLS],
    start: u8,
    ramp_ended: u8,
    in_window: u8,
}

// The inputs of a record.
fn inputs_at(entry: &[u8]) -> StepInputs
    requires { length entry.now ≡ record_length }
    ensures { given result ≡ inputs_at entry.now 0 }
{
    StepInputs {
        task: u32::from(entry[1]),
        levels: levels(entry),
        start: entry[2],
        ramp_ended: entry[3],
        in_window: entry[4],
    }
}

// The input levels of a record.
fn levels(entry: &[u8]) -> [u8; CELLS]
    requires { length entry.now ≡ record_length }
    ensures { result ≡ levels_at entry.now 0 }
{
    let mut levels = [0u8; CELLS];
    for pin in &entry[5..] {
        levels[*pin as usize] = 1;
    }
    levels
}

// The same step, n times.
fn repeat<P: Print>(
    rt: &P,
    image: &[u8],
    n: u8,
    inputs: &StepInputs,
    state: &mut [u8],
) -> io::Result<()>
    requires { length state.old ≡ state_length }
    ensures { OnOk result (state.new ≡ repeated image.now (given inputs.now) n state.old) }
{
    for _i in 0..n {
        step(rt, image, inputs, state)?;
    }
    Ok(())
}

// One step and its line.
fn step<P: Print>(rt: &P, image: &[u8], inputs: &StepInputs, state: &mut [u8]) -> io::Result<()>
    requires { length state.old ≡ state_length }
    ensures { state.new ≡ (stepped image.now state.old (given inputs.now)).buffer }
{
    let a = state_copy::copy_in(state);
    let r = bias::bias_step(
        image,
        state,
        inputs.task,
        &inputs.levels,
        inputs.start,
        inputs.ramp_ended,
        inputs.in_window,
    );
    let b = state_copy::copy_in(state);
    text_step::show_step(rt, image, &a, &b, inputs.task, r)?;
    Ok(())
}
