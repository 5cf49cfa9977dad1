// The three tasks after a command: each operation on a task's record by value, and what an outcome makes of the tasks.
#![tactic(auto)]

ghost use Rattle.std.specs.Prelude.{◌≡◌, ◌+◌, ◌-◌, ◌<◌, ◌≤◌, set};
ghost use Rattle.limits.specs.Limits.{most_blocks, most_depth};
ghost use Rattle.machine.specs.DepthAllows.{DepthAllows};
ghost use Rattle.machine.specs.Engine.{go_to, stay_with, call_to, return_from, start_anew, restarted, stopped, tasks_after};

use limits::TASKS;
use machine::Outcome;
use state::Task;

// To a block, with no wait.
fn go_to(b: u16, task: Task) -> Task
    ensures { result ≡ go_to b task }
{
    Task {
        status: state::RUNNING,
        block: b,
        time: 0,
        turns: 0,
        ..task
    }
}

// At the same block, with a wait.
fn stay_with(time: u32, turns: u32, task: Task) -> Task
    ensures { result ≡ stay_with time turns task }
{
    Task {
        status: state::RUNNING,
        time,
        turns,
        ..task
    }
}

// A call: the block behind it goes on the call stack.
fn call_to(a: u16, mut task: Task) -> Task
    requires block_in_range { task.block < most_blocks }
    requires depth_in_range { task.depth < most_depth }
    ensures { result ≡ call_to a task }
{
    task.stack[usize::from(task.depth)] = task.block + 1;
    task.depth += 1;
    go_to(a, task)
}

// A return: the last block comes off the stack, and its entry is cleared.
fn return_from(mut task: Task) -> Task
    requires depth_nonzero { 0 < task.depth }
    requires depth_in_range { task.depth ≤ most_depth }
    ensures { result ≡ return_from task }
{
    task.depth -= 1;
    let last = usize::from(task.depth);
    let b = task.stack[last];
    task.stack[last] = 0;
    go_to(b, task)
}

// A task anew at a block; the start of BIAS stays the program start.
fn start_anew(first: u16, u: u8, a: u16) -> Task
    ensures { result ≡ start_anew first u a }
{
    let start = if u == limits::BIAS { first } else { a };
    Task {
        start,
        ..Task::running(a)
    }
}

// A task back at its start.
fn restarted(task: Task) -> Task
    ensures { result ≡ restarted task }
{
    Task::running(task.start)
}

// A task that has ended or is halted.
fn stopped(status: u8, task: Task) -> Task
    ensures { result ≡ stopped status task }
{
    Task {
        status,
        time: 0,
        turns: 0,
        ..task
    }
}

// A task's record put in its place.
fn put(mut tasks: [Task; TASKS], t: u8, task: Task) -> [Task; TASKS]
    ensures { result ≡ set tasks t task }
{
    let place = usize::from(t);
    if place < TASKS {
        tasks[place] = task;
    }
    tasks
}

// The tasks after the outcome of a command that task t, whose record is `task`, executed; `first` is the program start.
pub fn after(first: u16, t: u8, task: Task, outcome: Outcome, tasks: [Task; TASKS]) -> [Task; TASKS]
    requires block_in_range { task.block < most_blocks }
    requires depth_allows { DepthAllows task.depth outcome }
    ensures { result ≡ tasks_after first t task outcome tasks }
{
    match outcome {
        Outcome::GoOn => put(tasks, t, go_to(task.block + 1, task)),
        Outcome::Stay(time, turns) => put(tasks, t, stay_with(time, turns, task)),
        Outcome::Jump(a) => put(tasks, t, go_to(a, task)),
        Outcome::Call(a) => put(tasks, t, call_to(a, task)),
        Outcome::Return => put(tasks, t, return_from(task)),
        Outcome::Start(u, a) => {
            let tasks = put(tasks, t, go_to(task.block + 1, task));
            put(tasks, u, start_anew(first, u, a))
        }
        Outcome::Restart => put(tasks, t, restarted(task)),
        Outcome::End => put(tasks, t, stopped(state::ENDED, task)),
        Outcome::Halt(_) => put(tasks, t, stopped(state::HALTED, task)),
    }
}
