// The blocks of an image as a graph of pairs, a task at a block, with a set of depths for each: what the command at a pair breaks, at which depths, and to
// which pairs it hands the other depths on. Blocks are any bytes.
#![tactic(auto)]

ghost use Rattle.std.specs.Prelude.{◌≡◌, cond};
ghost use Rattle.command_table.specs.Rows.{row_of};
ghost use Rattle.walk_flow.specs.Terms.{by_header};
ghost use Rattle.walk_graph.specs.Depths.{ground, deeper, least_depth};
ghost use Rattle.walk_graph.specs.Onward.{pair_of, onward_foreign, onward_none, onward_to, onward_landing, broken, handed_on, flow_onward, command_onward, onward_of};

use image_header::Header;
use walk_blocks::Instruction;
use walk_flow::Flow;

// What the command at a pair breaks at some depths, and where it hands the others on. A set of depths has a binary digit for each depth.
#[derive(Clone, Copy)]
pub struct Onward {
    // whether a 51 there ends another task
    pub foreign: bool,
    // the depths at which it is bad
    pub bad: u8,
    // the pair that it names, and the depths handed to it
    pub named: u32,
    pub into: u8,
    // the depths handed to the pair of the block behind
    pub behind: u8,
    // a task, and the depths handed to it at every landing block
    pub lander: u8,
    pub landing: u8,
}

// No depth is bad, and none is handed on.
const NOTHING: Onward = Onward {
    foreign: false,
    bad: 0,
    named: 0,
    into: 0,
    behind: 0,
    lander: 0,
    landing: 0,
};

// The set of the greatest depth alone.
const DEEPEST: u8 = 1 << limits::MOST_DEPTH;

// The number of a pair.
pub fn pair_of(task: u8, block: u16) -> u32
    ensures { result ≡ pair_of task block }
{
    u32::from(block) * limits::TASK_COUNT + u32::from(task)
}

// What the command at a block breaks in a task at the depths s, and where it hands the others on.
#[tactic(auto, using(walk_blocks::proofs::RowOfCode::row_at, walk_blocks::proofs::RowOfCode::command_is), unfolding(crate::specs::Onward::onward_of))]
pub fn onward_of(header: Header, blocks: &[u8], task: u8, block: u16, s: u8) -> Onward
    ensures { result ≡ onward_of (by_header header) blocks.now task block s }
{
    of_instruction(
        header,
        walk_blocks::instruction_at(blocks, block),
        task,
        block,
        s,
    )
}

#[tactic(auto, unfolding(crate::specs::Onward::command_onward))]
fn of_instruction(header: Header, i: Instruction, task: u8, block: u16, s: u8) -> Onward
    requires { i.row ≡ row_of i.command.code }
    ensures { result ≡ command_onward (by_header header) i.command task block s }
{
    if walk_flow::foreign(task, i.row, i.command) {
        return foreign();
    }
    if !walk_flow::permitted(header, i.row, i.command, task) {
        return nowhere(s);
    }
    of_flow(
        header.count,
        task,
        block,
        Flow::of(header, i.row, i.command),
        s,
    )
}

// A 51 that ends another task hands nothing on.
fn foreign() -> Onward
    ensures { result ≡ onward_foreign }
{
    Onward {
        foreign: true,
        ..NOTHING
    }
}

// Nothing is handed on.
fn nowhere(bad: u8) -> Onward
    ensures { result ≡ onward_none bad }
{
    Onward { bad, ..NOTHING }
}

// A flow at a block of a task, in an image of this many blocks.
#[tactic(auto, using(crate::proofs::BadDepths::broken_within), unfolding(crate::specs::Onward::flow_onward))]
fn of_flow(count: u16, task: u8, block: u16, f: Flow, s: u8) -> Onward
    ensures { result ≡ flow_onward count task block f s }
{
    let bad = broken(walk_point::past_end(count, task, block, f), f, s);
    hand_on(task, f, bad, s - bad)
}

// The depths at which a flow breaks 10, 11 or 12: all where it may go past the end.
fn broken(past: bool, f: Flow, s: u8) -> u8
    ensures { result ≡ broken past f s }
{
    if past {
        return s;
    }
    match f {
        Flow::Call(_) => s / DEEPEST * DEEPEST,
        Flow::Return => s % 2,
        _ => 0,
    }
}

// Where a flow hands the depths s of a task on: to the block that it names, to the block behind, and to every landing block.
fn hand_on(task: u8, f: Flow, bad: u8, s: u8) -> Onward
    ensures { result ≡ handed_on task f bad s }
{
    match f {
        Flow::Next | Flow::Wait => to(bad, 0, 0, s),
        Flow::Jump(a) => to(bad, pair_of(task, a), s, 0),
        Flow::Branch(a) => to(bad, pair_of(task, a), s, s),
        Flow::Call(a) => to(bad, pair_of(task, a), deeper(s), s),
        Flow::Start(u, a) => to(bad, pair_of(u, a), ground(s), not_own(u == task, s)),
        Flow::ComputedJump => to_landings(bad, 0, task, s),
        Flow::ComputedStart(u) => to_landings(bad, not_own(u == task, s), u, ground(s)),
        Flow::Return | Flow::Restart | Flow::End => nowhere(bad),
    }
}

fn to(bad: u8, named: u32, into: u8, behind: u8) -> Onward
    ensures { result ≡ onward_to bad named into behind }
{
    Onward {
        bad,
        named,
        into,
        behind,
        ..NOTHING
    }
}

fn to_landings(bad: u8, behind: u8, lander: u8, landing: u8) -> Onward
    ensures { result ≡ onward_landing bad behind lander landing }
{
    Onward {
        bad,
        behind,
        lander,
        landing,
        ..NOTHING
    }
}

// Starting its own task, a command hands nothing to the block behind.
fn not_own(own: bool, s: u8) -> u8
    ensures { result ≡ cond own 0 s }
{
    if own { 0 } else { s }
}

// Depth 0 alone, where there is any depth at all.
fn ground(s: u8) -> u8
    ensures { result ≡ ground s }
{
    if s == 0 { 0 } else { 1 }
}

// Each depth one deeper.
fn deeper(s: u8) -> u8
    ensures { result ≡ deeper s }
{
    s % DEEPEST * 2
}

// The least depth of a set; DEPTHS where it is empty.
#[tactic(auto, using(crate::proofs::Depths::least_depth_is))]
pub fn least_depth(s: u8) -> u32
    ensures { result ≡ least_depth s }
{
    s.trailing_zeros().min(limits::DEPTHS as u32)
}
