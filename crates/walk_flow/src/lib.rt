// What a command may continue with (document 01, "Walks"), and which task may execute it: 7 of a 51 that ends another task, and the boxes of 9.
#![tactic(auto)]

ghost use Rattle.std.specs.Prelude.{◌≡◌};
ghost use Rattle.command_table.specs.Rows.{row_of};
ghost use Rattle.walk_flow.specs.Terms.{by_header};
ghost use Rattle.walk_flow.specs.Flow.{flow_by, ending_by, flow_of};
ghost use Rattle.walk_flow.specs.Permission.{foreign, permitted};

use command_operands::Command;
use command_table::{FlowKind, Row};
use image_header::Header;

// What a command may continue with; the blocks named are those of its operands.
#[derive(Clone, Copy)]
pub enum Flow {
    // the next block
    Next,
    // the next block, or the same again
    Wait,
    // the named block
    Jump(u16),
    // the named block, or the next
    Branch(u16),
    // the named block, one call deeper; the next block at the return
    Call(u16),
    // the block behind the latest call
    Return,
    // the next block; the task of this number starts at the named block
    Start(u8, u16),
    // the start of its own task
    Restart,
    // nothing
    End,
    // any landing block
    ComputedJump,
    // the next block; the task of this number starts at any landing block
    ComputedStart(u8),
}

impl Flow {
    // All that a command, whose code has this row, may continue with in a program with this header.
    #[tactic(auto, unfolding(crate::specs::Flow::flow_of))]
    pub fn of(header: Header, row: Row, c: Command) -> Flow
        requires { row ≡ row_of c.code }
        ensures { result ≡ flow_of (by_header header) c }
    {
        flow_by(row.flow, c.x, c.word)
    }
}

// Whether a 51 ends another task than the one that executes it; the command's code has this row.
#[tactic(auto, unfolding(crate::specs::Permission::foreign))]
pub fn foreign(task: u8, row: Row, c: Command) -> bool
    requires { row ≡ row_of c.code }
    ensures { result ≡ foreign task c }
{
    let mode = c.x;
    row.flow.is_ending() && mode != 0 && u16::from(mode) != u16::from(task) + 1
}

// Whether the boxes of the manual let a task use a command, whose code has this row, in a program with this header.
#[tactic(auto, unfolding(crate::specs::Permission::permitted))]
pub fn permitted(header: Header, row: Row, c: Command, task: u8) -> bool
    requires { row ≡ row_of c.code }
    ensures { result ≡ permitted (by_header header) c.code task }
{
    let tasks = row.tasks;
    match task {
        limits::BIAS => tasks / command_table::B % 2 == 1,
        limits::PLC => tasks / command_table::P % 2 == 1,
        limits::MATHEMATICS => tasks / command_table::M % 2 == 1,
        _ => false,
    }
}

fn flow_by(kind: FlowKind, x: u8, word: u16) -> Flow
    ensures { result ≡ flow_by kind x word }
{
    match kind {
        FlowKind::Nothing => Flow::End,
        FlowKind::Next => Flow::Next,
        FlowKind::Wait => Flow::Wait,
        FlowKind::Jump => Flow::Jump(word),
        FlowKind::Branch => Flow::Branch(word),
        FlowKind::Call => Flow::Call(word),
        FlowKind::Return => Flow::Return,
        FlowKind::StartBias => Flow::Start(limits::BIAS, word),
        FlowKind::StartPlc => Flow::Start(limits::PLC, word),
        FlowKind::StartMathematics => Flow::Start(limits::MATHEMATICS, word),
        FlowKind::Ending => ending(x),
        FlowKind::ComputedJump => Flow::ComputedJump,
        FlowKind::ComputedStartBias => Flow::ComputedStart(limits::BIAS),
    }
}

// The flow of 51, by its mode.
fn ending(mode: u8) -> Flow
    ensures { result ≡ ending_by mode }
{
    if mode == 0 { Flow::Restart } else { Flow::End }
}
