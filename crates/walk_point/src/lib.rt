// Points of a walk and what one point breaks (document 01, "Walks"; refusals 7 of a foreign 51, then 9, 10, 11, 12).
#![tactic(auto)]

ghost use Rattle.std.specs.Prelude.{◌≡◌};
ghost use Rattle.command_table.specs.Rows.{row_of};
ghost use Rattle.walk_flow.specs.Terms.{by_header};
ghost use Rattle.walk_flow.specs.Flow.{continues};
ghost use Rattle.walk_point.specs.PointFault.{too_deep, no_call, any_past, flow_fault, fault_of};

use command_operands::Command;
use command_table::Row;
use image_header::Header;
use walk_fault::Fault;
use walk_flow::Flow;

// A point of a walk (document 01: place): a task at a block, inside this many calls.
#[derive(Clone, Copy)]
pub struct Point {
    pub task: u8,
    pub block: u16,
    pub depth: u8,
}

impl Point {
    // What a command, whose code has this row, breaks at this point of an image with this header.
    #[tactic(auto, unfolding(crate::specs::PointFault::fault_of))]
    pub fn fault(self, header: Header, row: Row, c: Command) -> Result<(), Fault>
        requires { row ≡ row_of c.code }
        ensures { result ≡ fault_of (by_header header) c self }
    {
        if walk_flow::foreign(self.task, row, c) {
            return Err(Fault::Foreign);
        }
        if !walk_flow::permitted(header, row, c, self.task) {
            return Err(Fault::Forbidden);
        }
        flow_fault(header.count, self, Flow::of(header, row, c))
    }
}

// What a flow breaks at a point of an image of this many blocks: 10, 11 or 12.
#[tactic(auto, unfolding(crate::specs::PointFault::flow_fault))]
fn flow_fault(count: u16, p: Point, f: Flow) -> Result<(), Fault>
    ensures { result ≡ flow_fault count p f }
{
    if too_deep(f, p.depth) {
        return Err(Fault::TooDeep);
    }
    if no_call(f, p.depth) {
        return Err(Fault::NoCall);
    }
    if past_end(count, p.task, p.block, f) {
        return Err(Fault::PastEnd);
    }
    Ok(())
}

// A call at the greatest depth.
fn too_deep(f: Flow, depth: u8) -> bool
    ensures { result ≡ too_deep f depth }
{
    matches!(f, Flow::Call(_)) && depth >= limits::MOST_DEPTH
}

// A return at depth 0.
fn no_call(f: Flow, depth: u8) -> bool
    ensures { result ≡ no_call f depth }
{
    matches!(f, Flow::Return) && depth == 0
}

// Whether a command at this block of this task may go on with a block that is not below the count.
pub fn past_end(count: u16, task: u8, block: u16, f: Flow) -> bool
    ensures { result ≡ any_past count (continues task block f) }
{
    let count = u32::from(count);
    let here = u32::from(block);
    let next = here + 1;
    match f {
        Flow::Next => count <= next,
        Flow::Wait => count <= next || count <= here,
        Flow::Jump(a) => count <= u32::from(a),
        Flow::Branch(a) => count <= u32::from(a) || count <= next,
        Flow::Call(a) => count <= u32::from(a) || count <= next,
        // starting its own task, a command goes on at the named block alone, or with nothing
        Flow::Start(u, a) => count <= u32::from(a) || u != task && count <= next,
        Flow::ComputedStart(u) => u != task && count <= next,
        Flow::Return | Flow::Restart | Flow::End | Flow::ComputedJump => false,
    }
}
