// Document 01's number and place for each case of a verdict ("Refused because of the input").
#![tactic(auto)]

ghost use Rattle.std.specs.Prelude.{◌≡◌};
ghost use Rattle.walk.specs.Verdict.{verdict_number, verdict_place, verdict_task, verdict_depth, is_accepted};

use walk::{Refusal, Verdict};

// The refusal's number, 0 for none.
pub fn number(v: Verdict) -> u32
    ensures { result ≡ verdict_number v }
{
    match v {
        Ok(()) => 0,
        Err(Refusal::MarksShort(_)) => 13,
        Err(Refusal::Image(fault)) => fault.number(),
        Err(Refusal::Block(fault, _)) => fault.number(),
        Err(Refusal::Foreign(_)) => 7,
        Err(Refusal::Bad(fault, _)) => fault.number(),
    }
}

// The byte, length or block; 0 where document 01 names none.
pub fn place(v: Verdict) -> usize
    ensures { result ≡ verdict_place v }
{
    match v {
        Ok(()) => 0,
        Err(Refusal::MarksShort(length)) => length,
        Err(Refusal::Image(fault)) => fault.place(),
        Err(Refusal::Block(_, block) | Refusal::Foreign(block)) => block,
        Err(Refusal::Bad(_, point)) => usize::from(point.block),
    }
}

// The task, 0 where document 01 names none.
pub fn task(v: Verdict) -> u8
    ensures { result ≡ verdict_task v }
{
    match v {
        Err(Refusal::Bad(_, point)) => point.task,
        _ => 0,
    }
}

// The depth, 0 where document 01 names none.
pub fn depth(v: Verdict) -> u8
    ensures { result ≡ verdict_depth v }
{
    match v {
        Err(Refusal::Bad(_, point)) => point.depth,
        _ => 0,
    }
}

// Whether it is no refusal.
pub fn is_accepted(v: Verdict) -> bool
    ensures { result ≡ is_accepted v }
{
    v.is_ok()
}
