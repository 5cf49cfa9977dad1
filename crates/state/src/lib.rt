// The state of a program that runs, by value (document 01, "Running"): the values in three parts (cells, motion, notes), and a record for each task with its
// own call stack. The buffer that firmware keeps is read and written by the crates above (docs/STATE.md).
#![tactic(auto)]

ghost use Rattle.std.specs.Prelude.{◌≡◌};
ghost use Rattle.state.specs.Wait.{due};
ghost use Rattle.state.specs.State.{never_started, running, fresh_values, fresh};
ghost use Rattle.state.specs.Change.{cells_of, cells_after, motion_after};
ghost use Rattle.state.specs.State.{with_position, with_speed, with_acceleration, with_deceleration};

use drive::Drive;
use image_header::Header;
use limits::{CELLS, MOST_LANDINGS, STACK_LENGTH, TASKS};

// What a task does: it was never started, it runs, it ended itself by 51, or 19, 20 or 22 halted it.
pub const NEVER_STARTED: u8 = 0;

pub const RUNNING: u8 = 1;

pub const ENDED: u8 = 2;

pub const HALTED: u8 = 3;

// A task: its status; the block that it is at and the one that it starts at; its call stack, of which the first `depth` blocks count, each the block
// behind a 52; its pending wait, the time T in ms and the turns k, both 0 where there is none.
#[derive(Clone, Copy)]
pub struct Task {
    pub status: u8,
    pub block: u16,
    pub start: u16,
    pub depth: u8,
    pub stack: [u16; STACK_LENGTH],
    pub time: u32,
    pub turns: u32,
}

// The stored parameters of the axis.
#[derive(Clone, Copy)]
pub struct Axis {
    pub position: i32,
    pub speed: u16,
    pub acceleration: u16,
    pub deceleration: u16,
}

// The number of the axis. There is one.
pub const FIRST_AXIS: u8 = 0;

// Variables, flags and output levels.
#[derive(Clone, Copy)]
pub struct Cells {
    pub variables: [i32; CELLS],
    pub flags: [u8; CELLS],
    pub outputs: [u8; CELLS],
}

// What motion commands keep: the stored parameters of the axis, and the start mark of 0E.
#[derive(Clone, Copy)]
pub struct Motion {
    pub axis: Axis,
    pub mark: u8,
}

// Notes of BIAS: the start input's level at its latest step that was not refused, and whether its latest step that was executed carried out a move.
#[derive(Clone, Copy)]
pub struct Notes {
    pub level: u8,
    pub moved: u8,
}

// What commands read and write besides their task.
#[derive(Clone, Copy)]
pub struct Values {
    pub cells: Cells,
    pub motion: Motion,
    pub notes: Notes,
}

// What one command changes of them, if it changes any: the content of one cell, the stored parameters of an axis, or the start mark.
#[derive(Clone, Copy)]
pub enum Change {
    Variable(u8, i32),
    Flag(u8, u8),
    Output(u8, u8),
    Parameters(u8, Axis),
    Mark(u8),
}

// The landing list has room for the most landing blocks: the header says how many of it there are.
#[derive(Clone, Copy)]
pub struct State {
    pub values: Values,
    pub header: Header,
    pub landings: [u16; MOST_LANDINGS],
    pub tasks: [Task; TASKS],
}

impl Task {
    // A task that was never started.
    pub fn never_started() -> Task
        ensures { result ≡ never_started }
    {
        Task {
            status: NEVER_STARTED,
            block: 0,
            start: 0,
            depth: 0,
            stack: [0; STACK_LENGTH],
            time: 0,
            turns: 0,
        }
    }

    // A task that begins at a block, with its start there too: no call, no wait.
    pub fn running(start: u16) -> Task
        ensures { result ≡ running start }
    {
        Task {
            status: RUNNING,
            block: start,
            start,
            ..Task::never_started()
        }
    }
}

impl Axis {
    // Another stored position.
    pub fn with_position(self, position: i32) -> Axis
        ensures { result ≡ with_position position self }
    {
        Axis { position, ..self }
    }

    // Another stored speed.
    pub fn with_speed(self, speed: u16) -> Axis
        ensures { result ≡ with_speed speed self }
    {
        Axis { speed, ..self }
    }

    // Another stored acceleration.
    pub fn with_acceleration(self, acceleration: u16) -> Axis
        ensures { result ≡ with_acceleration acceleration self }
    {
        Axis {
            acceleration,
            ..self
        }
    }

    // Another stored deceleration.
    pub fn with_deceleration(self, deceleration: u16) -> Axis
        ensures { result ≡ with_deceleration deceleration self }
    {
        Axis {
            deceleration,
            ..self
        }
    }
}

impl Values {
    // As load leaves them: all cells 0, the parameters at their least, no start mark, the start input taken as high, no move before.
    pub fn fresh() -> Values
        ensures { result ≡ fresh_values }
    {
        let axis = Axis {
            position: 0,
            speed: 1,
            acceleration: 1,
            deceleration: 1,
        };
        Values {
            cells: Cells {
                variables: [0; CELLS],
                flags: [0; CELLS],
                outputs: [0; CELLS],
            },
            motion: Motion { axis, mark: 0 },
            notes: Notes { level: 1, moved: 0 },
        }
    }
}

// Makes a change where the cells stand; what motion keeps is handed back.
pub fn make_change<'a>(
    change: Option<Change>,
    variables: &'a mut [i32; CELLS],
    flags: &'a mut [u8; CELLS],
    outputs: &'a mut [u8; CELLS],
    motion: Motion,
) -> Motion
    ensures outputs_after { cells_of variables.new flags.new outputs.new
        ≡ cells_after change (cells_of variables.old flags.old outputs.old) }
    ensures value { result ≡ motion_after change motion }
{
    let Some(change) = change else {
        return motion;
    };
    match change {
        Change::Variable(index, value) => {
            variables[usize::from(index)] = value;
            motion
        }
        Change::Flag(index, level) => {
            flags[usize::from(index)] = level;
            motion
        }
        Change::Output(index, level) => {
            outputs[usize::from(index)] = level;
            motion
        }
        Change::Parameters(_, axis) => Motion { axis, ..motion },
        Change::Mark(mark) => Motion { mark, ..motion },
    }
}

impl State {
    // As load leaves it: BIAS at the program start, the other tasks not started.
    pub fn fresh(header: Header, landings: [u16; MOST_LANDINGS]) -> State
        ensures { result ≡ fresh header landings }
    {
        let bias = Task::running(header.start);
        let idle = Task::never_started();
        State {
            values: Values::fresh(),
            header,
            landings,
            tasks: [bias, idle, idle],
        }
    }
}

// Whether a wait of so many ms is over after so many turns. No product is above 64 bits.
pub fn is_due(drive: Drive, time: u32, turns: u32) -> bool
    ensures { result ≡ due drive.model time turns }
{
    1000 * u64::from(time) <= u64::from(turns) * u64::from(drive.cycle())
}
