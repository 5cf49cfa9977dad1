// An image loaded and a lent list of steps carried out, by the functions that C calls. What `bias_run` promises of them is the theorem over every list of
// steps (proved_demands/specs/Theorem.antt). It has no precondition: every byte of the steps is answered, and a step that does not stand whole ends them.
#![tactic(auto)]

ghost use Rattle.std.specs.Prelude.{◌≡◌, ◌<◌, [], ◌∷◌, length, IfSome, MatchOption};
ghost use Rattle.limits.specs.Limits.{marks_length};
ghost use Rattle.machine.specs.Inputs.{inputs_of};
ghost use Rattle.walk_search.specs.After.{After};
ghost use Rattle.bias.specs.Load.{load};
ghost use Rattle.proved_demands.specs.Run.{buffer_after};
ghost use Rattle.proved_demands.specs.Theorem.{Run};
ghost use Rattle.bias_run.specs.Steps.{steps_of, after_run};

use bias_results::BiasVerdict;

// What stands before the input levels of a step: the task number (4 bytes), the start input, ramp ended, in window, the length of the input levels (2
// bytes).
const HEAD_LENGTH: usize = 9;

// A step of the list, as it is handed to `bias_step`.
#[derive(Clone, Copy)]
struct Step<'a> {
    task: u32,
    start: u8,
    ramp_ended: u8,
    in_window: u8,
    levels: &'a [u8],
}

// Loads an image and, where the load answers 0, carries out the steps that stand whole at the front.
pub fn bias_run(image: &[u8], marks: &mut [u8], state: &mut [u8], steps: &[u8]) -> BiasVerdict
    ensures value { result ≡ (load image.now (length marks.old) state.old).verdict }
    ensures state_after { state.new ≡ after_run image.now (length marks.old) state.old steps.now }
    ensures after { After marks_length marks.old marks.new }
    ensures run { result.number ≡ 0
        → Run image.now (load image.now (length marks.old) state.old).buffer (steps_of steps.now) }
{
    let verdict = bias::bias_load(image, marks, state);
    if verdict.number != 0 {
        return verdict;
    }
    run_steps(image, steps, state);
    verdict
}

// Carries out the steps that stand whole at the front.
#[tactic(auto, unfolding(proved_demands::specs::Run::buffer_after))]
fn run_steps(image: &[u8], steps: &[u8], state: &mut [u8])
    ensures { state.new ≡ buffer_after image.now state.old (steps_of steps.now) }
{
    let mut left = steps;
    while let Some((step, rest)) = split_step(left) {
        bias::bias_step(
            image,
            state,
            step.task,
            step.levels,
            step.start,
            step.ramp_ended,
            step.in_window,
        );
        left = rest;
    }
}

// The step that stands whole at the front, and what is behind it.
fn split_step(steps: &[u8]) -> Option<(Step, &[u8])>
    ensures front { MatchOption result
        (steps_of steps.now ≡ [])
        (λ r. steps_of steps.now
        ≡ inputs_of r.0.task r.0.levels.now r.0.start r.0.ramp_ended r.0.in_window ∷ steps_of r.1.now) }
    ensures shorter { IfSome result (λ r. length r.1.now < length steps.now) }
{
    let (head, behind) = steps.split_at_checked(HEAD_LENGTH)?;
    let length = num_le::read_u16([head[7], head[8]]);
    let (levels, rest) = behind.split_at_checked(usize::from(length))?;
    let step = Step {
        task: num_le::read_u32([head[0], head[1], head[2], head[3]]),
        start: head[4],
        ramp_ended: head[5],
        in_window: head[6],
        levels,
    };
    Some((step, rest))
}
