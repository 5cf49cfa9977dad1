// The functions that C calls (include/bias.h). C passes a pointer and a length for each slice, of any length, so none of them has a precondition:
// each answers whatever bytes a host lends.
#![tactic(auto)]

ghost use Rattle.std.specs.Prelude.{◌≡◌, true, [], ◌∷◌, ◌<◌, length, Ok};
ghost use Rattle.limits.specs.Limits.{task_count, marks_length, inputs_length};
ghost use Rattle.walk.specs.Verdict.{verdict_of};
ghost use Rattle.walk_search.specs.After.{After};
ghost use Rattle.image_header.specs.Rows.{format1, format2};
ghost use Rattle.image_writer.specs.Writer.{with_landings, written, out_after};
ghost use Rattle.state.specs.State.{task_at};
ghost use Rattle.state_layout.specs.Codecs.{header_in};
ghost use Rattle.state_layout.specs.Layout.{header_at, decoded};
ghost use Rattle.state_layout.specs.IsState.{is_state};
ghost use Rattle.machine.specs.Inputs.{inputs_of};
ghost use Rattle.machine.specs.Engine.{terms_held, task_step};
ghost use Rattle.machine.specs.Theorem.{loaded};
ghost use Rattle.exec_step.specs.Readiness.{ready_for};
ghost use Rattle.bias_results.specs.Results.{written_for};
ghost use Rattle.bias.specs.Load.{load, judged_load};
ghost use Rattle.bias.specs.Step.{handed, step_state, stepped};

use bias_results::{BiasAnswer, BiasVerdict};
use command_operands::Command;
use image_header::{Header, reader};
use limits::{INPUTS_LENGTH, MARKS_LENGTH, MOST_LANDINGS, STATE_LENGTH, TASK_COUNT};
use machine::NotDone;
use state::{State, Task};
use walk::Refusal;

// Loads an image: judges it, in the first MARKS_LENGTH bytes of marks, and puts its fresh state into the buffer where it is accepted.
pub fn bias_load(image: &[u8], marks: &mut [u8], state: &mut [u8]) -> BiasVerdict
    ensures value { result ≡ (load image.now (length marks.old) state.old).verdict }
    ensures state_after { state.new ≡ (load image.now (length marks.old) state.old).buffer }
    ensures after { After marks_length marks.old marks.new }
{
    let n = marks.len();
    if n < MARKS_LENGTH {
        return bias_results::verdict(Err(Refusal::MarksShort(n)));
    }
    let Some(state) = state.as_mut_array() else {
        return bias_results::numbered(bias_results::NO_STATE, 0);
    };
    load_image(image, marks, state)
}

// Judges an image, and puts its fresh state into the buffer where it is accepted.
fn load_image(image: &[u8], marks: &mut [u8], state: &mut [u8; STATE_LENGTH]) -> BiasVerdict
    ensures value { result ≡ (judged_load image.now (verdict_of image.now (length marks.old)) state.old).verdict }
    ensures state_after { state.new
        ≡ (judged_load image.now (verdict_of image.now (length marks.old)) state.old).buffer }
    ensures after { After marks_length marks.old marks.new }
{
    let verdict = walk_search::judge(image, marks);
    if !verdict.is_ok() {
        return bias_results::verdict(verdict);
    }
    state_encode::encode(state, fresh(image));
    bias_results::verdict(verdict)
}

// The state that an accepted image begins with.
fn fresh(image: &[u8]) -> State
    ensures { result ≡ loaded image.now }
{
    let mut landings = [0; MOST_LANDINGS];
    let header = match reader::read(image, &mut landings) {
        Ok(read) => read.header,
        Err(_) => Header::default(),
    };
    State::fresh(header, landings)
}

// Steps a task: 15, then 16, then 18, 17 or the command.
pub fn bias_step(
    image: &[u8],
    state: &mut [u8],
    task: u32,
    inputs: &[u8],
    start: u8,
    ramp_ended: u8,
    in_window: u8,
) -> BiasAnswer
    ensures value { result ≡ (stepped image.now state.old (inputs_of task inputs.now start ramp_ended in_window)).answer }
    ensures state_after { state.new
        ≡ (stepped image.now state.old (inputs_of task inputs.now start ramp_ended in_window)).buffer }
{
    if task >= TASK_COUNT {
        return bias_results::answer(None, Err(NotDone::NoTask(task)));
    }
    let n = inputs.len();
    if n != INPUTS_LENGTH {
        return bias_results::answer(None, Err(NotDone::Inputs(n)));
    }
    let Some(state) = state.as_mut_array() else {
        return bias_results::no_state();
    };
    step_buffer(
        image, state, task as u8, inputs, start, ramp_ended, in_window,
    )
}

// Steps a task of the state that a buffer holds, if it holds one: 16, then 18 and 17, which leave the buffer alone, then the command.
fn step_buffer(
    image: &[u8],
    state: &mut [u8; STATE_LENGTH],
    t: u8,
    inputs: &[u8],
    start: u8,
    ramp_ended: u8,
    in_window: u8,
) -> BiasAnswer
    requires task_in_range { t < task_count }
    requires inputs_len { length inputs.now ≡ inputs_length }
    ensures value { result ≡ (step_state image.now state.old (inputs_of t inputs.now start ramp_ended in_window)).answer }
    ensures state_after { state.new
        ≡ (step_state image.now state.old (inputs_of t inputs.now start ramp_ended in_window)).buffer }
{
    if !state_judge::is_state(state) {
        return bias_results::no_state();
    }
    let header = state_decode::header_in(state);
    let n = usize::from(header.landings);
    let landings = state_decode::landings_in(state, header.landings);
    let task = state_decode::task_at(state, t);
    match exec_step::ready_for(image, header, &landings, t, task) {
        Ok(c) => {
            carry_out(
                image,
                state,
                t,
                inputs,
                start,
                ramp_ended,
                in_window,
                header,
                &landings[..n],
                task,
                c,
            )
        }
        Err(reason) => bias_results::answer(None, Err(reason)),
    }
}

// Carries out the command c of a task: what its action changes is changed in the values, and the state after it goes into the buffer.
fn carry_out(
    image: &[u8],
    state: &mut [u8; STATE_LENGTH],
    t: u8,
    inputs: &[u8],
    start: u8,
    ramp_ended: u8,
    in_window: u8,
    header: Header,
    landings: &[u16],
    task: Task,
    c: Command,
) -> BiasAnswer
    requires state_value { is_state state.old ≡ true }
    requires task_in_range { t < task_count }
    requires header_value { header ≡ header_in state.old header_at }
    requires landings_value { landings.now ≡ (terms_held (decoded state.old)).landings }
    requires task_value { task ≡ task_at (decoded state.old) t }
    requires c_value { Ok c ≡ ready_for image.now (terms_held (decoded state.old)) t task }
    ensures value { result
        ≡ (handed (task_step image.now (decoded state.old) (inputs_of t inputs.now start ramp_ended in_window) task)
        ).answer }
    ensures state_after { state.new
        ≡ (handed (task_step image.now (decoded state.old) (inputs_of t inputs.now start ramp_ended in_window) task)
        ).buffer }
{
    let tasks = state_decode::tasks_in(state);
    let mut variables = state_decode::variables_in(state);
    let mut flags = state_decode::flags_in(state);
    let mut outputs = state_decode::outputs_in(state);
    let motion_before = state_decode::motion_in(state);
    let notes_before = state_decode::notes_in(state);
    let action = exec_step::action_of(
        header.drive,
        c,
        inputs,
        landings,
        start,
        ramp_ended,
        in_window,
        task.time,
        task.turns,
        &variables,
        &flags,
        &outputs,
        motion_before,
        notes_before,
    );
    let change = action.change;
    let outcome = action.outcome;
    let request = action.request;
    let motion = state::make_change(
        change,
        &mut variables,
        &mut flags,
        &mut outputs,
        motion_before,
    );
    let notes = exec_step::notes_after(t, start, outcome, request, notes_before);
    let after = exec_tasks::after(header.start, t, task, outcome, tasks);
    let answer = exec_step::answer_to(outcome, exec_step::point_of(t, task));
    state_encode::encode_parts(
        state, &variables, &flags, &outputs, header, motion, notes, after,
    );
    bias_results::answer(request, answer)
}

// Writes the image, of format 1, of these header numbers and blocks to the front of out.
pub fn bias_write(
    format: u32,
    model: u32,
    b: u32,
    c: u32,
    start: u32,
    count: u32,
    blocks: &[u8],
    out: &mut [u8],
) -> BiasVerdict
    ensures value { result
        ≡ written_for (written format1 (with_landings (format ∷ model ∷ b ∷ c ∷ start ∷ count ∷ []) []) (length blocks.now) (length out.old)) }
    ensures out_after { out.new
        ≡ out_after format1 (with_landings (format ∷ model ∷ b ∷ c ∷ start ∷ count ∷ []) []) blocks.now out.old }
{
    let numbers = [format, model, b, c, start, count];
    bias_results::written(image_writer::write(reader::FORMAT_1, numbers, &blocks[..0], blocks, out))
}

// Writes the image, of format 2, of these header numbers, landing blocks (two bytes each, low byte first) and blocks to the front of out.
pub fn bias_write_landings(
    format: u32,
    model: u32,
    b: u32,
    c: u32,
    start: u32,
    count: u32,
    landings: &[u8],
    blocks: &[u8],
    out: &mut [u8],
) -> BiasVerdict
    ensures value { result
        ≡ written_for (written format2 (with_landings (format ∷ model ∷ b ∷ c ∷ start ∷ count ∷ []) landings.now) (length blocks.now)
        (length out.old)) }
    ensures out_after { out.new
        ≡ out_after format2 (with_landings (format ∷ model ∷ b ∷ c ∷ start ∷ count ∷ []) landings.now) blocks.now out.old }
{
    let numbers = [format, model, b, c, start, count];
    bias_results::written(image_writer::write(reader::FORMAT_2, numbers, landings, blocks, out))
}
