// The search over points in the lent marks: what walks reach, and the least of it that is refused. A command changes all depths in one way (a call goes one
// deeper, a start to 0), so the marks hold for each pair, a task at a block, the set of depths seen and the set of those handed on at its latest visit, and
// beside them a list of the pending pairs, those where the two differ. A visit reads a block once, for all depths of its pair, and hands them on. Of each task
// the depths are noted that it has at every landing block, so that these are entered only where a depth is new.
ghost use Rattle.std.specs.Prelude.{◌≡◌, ◌*◌, ◌+◌, ◌<◌, ◌≤◌, length, IfSome};
ghost use Rattle.limits.specs.Limits.{bias, most_blocks, task_count, marks_length};
ghost use Rattle.walk.specs.Index.{point_at};
ghost use Rattle.walk.specs.Verdict.{walks_verdict};
ghost use Rattle.walk_graph.specs.Onward.{pair_of};
ghost use Rattle.walk_search.specs.After.{After};
ghost use Rattle.walk_search.specs.Program.{terms_of};
ghost use Rattle.walk_search.specs.Search.{pair_marks, pairs, fresh, listing, touched, Room, touched_each, RoomEach, landed_with, landed_on, board, visited};
ghost use Rattle.walk_search.specs.Search.{least_with, foreign_with, bad_with, verdict_with, Going, Searched, found};

use crate::program::Program;
use limits::{TASK_COUNT, TASKS};
use walk::{Refusal, Verdict};
use walk_point::Point;

// What a search has found so far: how many pairs are pending, the least block with a 51 that ends another task, and the number of the least bad point.
#[derive(Clone, Copy)]
pub struct Found {
    pub pending: u32,
    pub foreign: Option<u32>,
    pub bad: Option<u32>,
}

// The marks of a pair: the depths seen, those handed on, and the two bytes of an entry of the list.
const PAIR_MARKS: usize = 4;

const HANDED: usize = 1;

const ENTRY_LOW: usize = 2;

const ENTRY_HIGH: usize = 3;

// What the walks of a program come to, found in the marks of its pairs.
pub fn judge_walks(program: &Program, marks: &mut [u8]) -> Verdict
    requires { marks_length ≤ length marks.old }
    ensures value { result ≡ walks_verdict (terms_of program.now) program.now.blocks.now }
    ensures after { After marks_length marks.old marks.new }
{
    let n = PAIR_MARKS * (limits::TASKS * program.header.count as usize);
    search(program, &mut marks[..n])
}

fn search(program: &Program, marks: &mut [u8]) -> Verdict
    requires { length marks.old ≡ pair_marks * pairs (terms_of program.now) }
    ensures value { result ≡ walks_verdict (terms_of program.now) program.now.blocks.now }
    ensures searched { Searched (terms_of program.now) program.now.blocks.now marks.new }
{
    let first = walk_graph::pair_of(limits::BIAS, program.header.start);
    clear(marks, first);
    let found = walk(program, marks);
    verdict_by(program, found.foreign, found.bad)
}

// Clears the marks; then the first pair has seen depth 0, and is the one pair of the list.
fn clear(marks: &mut [u8], first: u32)
    requires pair_marks_in_bounds { pair_marks * first + pair_marks ≤ length marks.old }
    requires first_in_range { first < task_count * most_blocks }
    ensures { marks.new ≡ fresh (length marks.old) first }
{
    marks.fill(0);
    marks[PAIR_MARKS * first as usize] = 1;
    marks[ENTRY_LOW] = (first % 256) as u8;
    marks[ENTRY_HIGH] = (first / 256) as u8;
}

// From the first pair to all that is reached.
fn walk(program: &Program, marks: &mut [u8]) -> Found
    requires { marks.old ≡ fresh (pair_marks * pairs (terms_of program.now)) (pair_of bias program.now.header.start) }
    ensures value { result ≡ found (terms_of program.now) program.now.blocks.now }
    ensures searched { Searched (terms_of program.now) program.now.blocks.now marks.new }
{
    let mut landed = [0u8; TASKS];
    let mut found = Found {
        pending: 1,
        foreign: None,
        bad: None,
    };
    while found.pending > 0 {
        found = visit(program, marks, &mut landed, found);
    }
    found
}

// Takes the last pair off the list and hands on the depths that it has seen.
fn visit<'a>(
    program: &Program,
    marks: &'a mut [u8],
    landed: &'a mut [u8; TASKS],
    found: Found,
) -> Found
    requires going { Going (terms_of program.now) program.now.blocks.now marks.old landed.old found.pending }
    requires pending_nonzero { 0 < found.pending }
    ensures { board marks.new landed.new result ≡ visited (terms_of program.now) program.now.blocks.now (board marks.old landed.old found) }
{
    let last = found.pending - 1;
    let entry = PAIR_MARKS * last as usize;
    let p = num_le::read_u16([marks[entry + ENTRY_LOW], marks[entry + ENTRY_HIGH]]) as u32;
    let at = PAIR_MARKS * p as usize;
    let s = marks[at];
    marks[at + HANDED] = s;
    let block = (p / TASK_COUNT) as u16;
    let o = walk_graph::onward_of(
        program.header,
        program.blocks,
        (p % TASK_COUNT) as u8,
        block,
        s,
    );
    let n = touch(marks, last, o.named, o.into);
    let m = touch(marks, n, p + TASK_COUNT, o.behind);
    let pending = land(program.landings, marks, landed, m, o.lander, o.landing);
    Found {
        pending,
        foreign: least_foreign(o.foreign, block as u32, found.foreign),
        bad: least_bad(o.bad, p, found.bad),
    }
}

// Hands the depths s to pair q, which goes on the list where it was not pending and has not seen them all. Returns how many pairs are on it.
#[tactic(auto, using(crate::proofs::Stores::handed_at), unfolding(crate::specs::Search::touched))]
fn touch(marks: &mut [u8], pending: u32, q: u32, s: u8) -> u32
    requires { Room marks.old pending q s }
    ensures { listing marks.new result ≡ touched q s (listing marks.old pending) }
{
    if s == 0 {
        return pending;
    }
    let at = PAIR_MARKS * q as usize;
    let seen = marks[at];
    let more = seen | s;
    if more == seen {
        return pending;
    }
    marks[at] = more;
    if marks[at + HANDED] != seen {
        return pending;
    }
    let entry = PAIR_MARKS * pending as usize;
    marks[entry + ENTRY_LOW] = (q % 256) as u8;
    marks[entry + ENTRY_HIGH] = (q / 256) as u8;
    pending + 1
}

// Hands the depths s to task t at every landing block, where it has not had them all there, and notes them. Returns how many pairs are on the list.
#[tactic(auto, unfolding(crate::specs::Search::landed_on))]
fn land<'a>(
    landings: &[u16],
    marks: &'a mut [u8],
    landed: &'a mut [u8; TASKS],
    pending: u32,
    t: u8,
    s: u8,
) -> u32
    requires { RoomEach landings.now marks.old pending t s }
    ensures result_after { listing marks.new result ≡ landed_on landings.now t s landed.old (listing marks.old pending) }
    ensures landed_after { landed.new ≡ landed_with landed.old t s }
{
    let at = t as usize;
    let had = landed[at];
    let more = had | s;
    if more == had {
        return pending;
    }
    landed[at] = more;
    touch_each(landings, marks, pending, t, s)
}

// Hands the depths s to task t at each of these landing blocks, one after the other.
fn touch_each(landings: &[u16], marks: &mut [u8], pending: u32, t: u8, s: u8) -> u32
    requires { RoomEach landings.now marks.old pending t s }
    ensures { listing marks.new result ≡ touched_each landings.now t s (listing marks.old pending) }
{
    let mut n = pending;
    for block in landings {
        n = touch(marks, n, walk_graph::pair_of(t, *block), s);
    }
    n
}

// The lesser of the block found so far and this one, if a 51 here ends another task.
fn least_foreign(foreign: bool, block: u32, so: Option<u32>) -> Option<u32>
    ensures { result ≡ foreign_with foreign block so }
{
    if !foreign {
        return so;
    }
    Some(least_with(block, so))
}

// The lesser of the point found so far and the least of pair p at the bad depths.
fn least_bad(bad: u8, p: u32, so: Option<u32>) -> Option<u32>
    requires { p < 65536 }
    ensures { result ≡ bad_with bad p so }
{
    if bad == 0 {
        return so;
    }
    Some(least_with(limits::DEPTHS as u32 * p + walk_graph::least_depth(bad), so))
}

// The lesser of a number and the one found so far.
fn least_with(a: u32, so: Option<u32>) -> u32
    ensures { result ≡ least_with a so }
{
    match so {
        None => a,
        Some(b) => a.min(b),
    }
}

// The verdict by the least foreign block, or else the least bad point.
fn verdict_by(program: &Program, foreign: Option<u32>, bad: Option<u32>) -> Verdict
    requires { IfSome bad (λ i. i < marks_length) }
    ensures { result ≡ verdict_with (terms_of program.now) program.now.blocks.now foreign bad }
{
    if let Some(block) = foreign {
        return Err(Refusal::Foreign(block as usize));
    }
    if let Some(i) = bad {
        let p = point_at(i);
        return match walk_blocks::fault_at(program.header, program.blocks, p) {
            Ok(()) => Ok(()),
            Err(fault) => Err(Refusal::Bad(fault, p)),
        };
    }
    Ok(())
}

// The point of a number.
#[tactic(auto, unfolding(walk::specs::Index::point_at))]
fn point_at(i: u32) -> Point
    requires { i < marks_length }
    ensures { result ≡ point_at i }
{
    let pair = i / limits::DEPTHS as u32;
    Point {
        task: (pair % TASK_COUNT) as u8,
        block: (pair / TASK_COUNT) as u16,
        depth: (i % limits::DEPTHS as u32) as u8,
    }
}
