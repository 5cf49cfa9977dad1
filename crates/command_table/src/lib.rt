// The commands carried (document 01, "The commands carried"; change request 1): one row for each code. A row says where the operands stand, what the drive must
// have, which ranges the operands have, which tasks may use the command, and what it may continue with.
#![tactic(auto)]

ghost use Rattle.std.specs.Prelude.{◌≡◌};
ghost use Rattle.command_table.specs.Rows.{facts, is_ending, no_row, row_of};

use Device::*;
use FlowKind::*;
use Layout::*;
use Ranges::*;

// The facts of one command. `tasks` is the sum of the tasks that may use it (below).
#[derive(Clone, Copy)]
pub struct Row {
    // whether the code is carried at all
    pub carried: bool,
    pub layout: Layout,
    pub device: Device,
    pub ranges: Ranges,
    pub tasks: u8,
    pub flow: FlowKind,
}

// Where the operands stand behind the code byte.
#[derive(Clone, Copy)]
pub enum Layout {
    // no operand
    Bare,
    // x in D1
    Byte,
    // word in D1 and D2
    Word,
    // x in D1, y in D2
    Pair,
    // x in D1, y in D2, z in D3
    Triple,
    // x in D1, y in D2, z in D3, word in D4 and D5
    TripleWord,
    // x in D1, word in D2 and D3
    ByteWord,
    // value in D1 to D4
    Value,
    // x in D1, value in D2 to D5
    ByteValue,
    // x in D1, y in D2, value in D3 to D6
    PairValue,
    // x in D1, value in D2 to D5, y in the upper half of D6, word in the lower half of D6 (above) and D7
    ValueJump,
}

// What the drive must have.
#[derive(Clone, Copy)]
pub enum Device {
    // every drive has it
    NoDevice,
    // x is an input
    InputX,
    // y is an input
    InputY,
    // x is an output that can be read
    OutputReadX,
    // y is an output that can be read
    OutputReadY,
    // x is an output that can be written
    OutputWrittenX,
    // the drive is no 637+ (docs/DECISIONS.md, R5b)
    Not637Plus,
}

// The values that the operands may have; 7 refuses all others.
#[derive(Clone, Copy)]
pub enum Ranges {
    // no operand has a range of its own
    Any,
    // word is a block
    Address,
    // x is 0 to 3
    Mode,
    // y is 0 or 1
    Level,
    // y is 0 or 1, z is 0 or 1, word is a block
    LevelJump,
    // y is 0 to 31, z is 0 or 1, word is a block
    BitJump,
    // y is 0 to 7, word is a block
    ConditionJump,
    // value is not 0
    Divisor,
    // z is 1 to 32, and flag y + z - 1 is a flag
    FlagRun,
    // x and y are 0: axis and target
    AxisTarget,
    // x is 0 or 1, y is 0: mode and axis
    ModeAxis,
    // x is 0 or 1, word is 1 to 64000: mode and deceleration
    ModeRamp,
    // word is 1 to 12000
    Speed,
    // word is 1 to 64000
    Ramp,
}

// What the command may continue with.
#[derive(Clone, Copy)]
pub enum FlowKind {
    // nothing: a code that is not carried
    Nothing,
    // the next block
    Next,
    // the next block, or the same again
    Wait,
    // the block word
    Jump,
    // the block word, or the next block
    Branch,
    // the block word, one call deeper; later the next block
    Call,
    // the block behind the latest call
    Return,
    // the next block; BIAS starts at word
    StartBias,
    // the next block; the PLC starts at word
    StartPlc,
    // the next block; mathematics starts at word
    StartMathematics,
    // the start of its task (mode 0), or nothing more
    Ending,
    // any landing block
    ComputedJump,
    // the next block; BIAS starts at any landing block
    ComputedStartBias,
}

impl FlowKind {
    // Whether the command ends a task, or returns to its start.
    pub fn is_ending(self) -> bool
        ensures { result ≡ is_ending self }
    {
        match self {
            FlowKind::Ending => true,
            FlowKind::Nothing
            | FlowKind::Next
            | FlowKind::Wait
            | FlowKind::Jump
            | FlowKind::Branch
            | FlowKind::Call
            | FlowKind::Return
            | FlowKind::StartBias
            | FlowKind::StartPlc
            | FlowKind::StartMathematics
            | FlowKind::ComputedJump
            | FlowKind::ComputedStartBias => false,
        }
    }
}

// Tasks: 1 for BIAS, 2 for the PLC, 4 for mathematics, added.

pub const B: u8 = 1;

pub const P: u8 = 2;

pub const M: u8 = 4;

pub const BP: u8 = B + P;

pub const BM: u8 = B + M;

pub const PM: u8 = P + M;

pub const BPM: u8 = B + P + M;

// The row of a code, by code.
#[tactic(auto, unfolding(crate::specs::Rows::row_of, crate::specs::Rows::rows, crate::specs::Rows::row_in))]
pub fn find(code: u8) -> Row
    ensures { result ≡ row_of code }
{
    match code {
        // move to the stored position
        0x00 => entry(Pair, NoDevice, AxisTarget, B, Wait),
        // move by the stored position
        0x01 => entry(Pair, NoDevice, AxisTarget, B, Wait),
        // endless forward
        0x03 => entry(Pair, NoDevice, AxisTarget, B, Wait),
        // endless backward
        0x04 => entry(Pair, NoDevice, AxisTarget, B, Wait),
        // set the start mark
        0x0E => entry(Bare, NoDevice, Any, B, Next),
        // stop, mode x
        0x0F => entry(Pair, NoDevice, ModeAxis, BP, Next),
        // stop, mode x, with the deceleration in word
        0x1F => entry(ByteWord, NoDevice, ModeRamp, BP, Next),
        // position = value
        0x20 => entry(Value, NoDevice, Any, B, Next),
        // speed = word
        0x21 => entry(Word, NoDevice, Speed, B, Next),
        // acceleration = word
        0x22 => entry(Word, NoDevice, Ramp, B, Next),
        // deceleration = word
        0x23 => entry(Word, NoDevice, Ramp, B, Next),
        // position = variable x
        0x30 => entry(Byte, NoDevice, Any, B, Next),
        // speed = variable x
        0x31 => entry(Byte, NoDevice, Any, B, Next),
        // acceleration = variable x
        0x32 => entry(Byte, NoDevice, Any, B, Next),
        // deceleration = variable x
        0x33 => entry(Byte, NoDevice, Any, B, Next),
        // variable x = position
        0x40 => entry(Byte, NoDevice, Any, BPM, Next),
        // variable x = speed
        0x41 => entry(Byte, NoDevice, Any, BPM, Next),
        // variable x = acceleration
        0x42 => entry(Byte, NoDevice, Any, BPM, Next),
        // variable x = deceleration
        0x43 => entry(Byte, NoDevice, Any, BPM, Next),
        // no operation
        0x50 => entry(Bare, NoDevice, Any, BPM, Next),
        // end, mode x
        0x51 => entry(Byte, NoDevice, Mode, BPM, Ending),
        // call the sub-program at word
        0x52 => entry(Word, NoDevice, Address, BPM, Call),
        // return from a sub-program
        0x53 => entry(Bare, NoDevice, Any, BPM, Return),
        // start the PLC at word
        0x54 => entry(Word, NoDevice, Address, BM, StartPlc),
        // jump to word
        0x55 => entry(Word, NoDevice, Address, BPM, Jump),
        // jump to the block that variable x holds
        0x56 => entry(Byte, NoDevice, Any, BPM, ComputedJump),
        // start BIAS at word
        0x57 => entry(Word, NoDevice, Address, PM, StartBias),
        // wait for position reached
        0x58 => entry(Bare, NoDevice, Any, B, Wait),
        // wait for a time of word x 2 ms
        0x59 => entry(Word, NoDevice, Any, B, Wait),
        // wait for a time of variable x ms
        0x5A => entry(Byte, NoDevice, Any, B, Wait),
        // start BIAS at the block that variable x holds
        0x5B => entry(Byte, NoDevice, Any, PM, ComputedStartBias),
        // flag x = y
        0x60 => entry(Pair, NoDevice, Level, BPM, Next),
        // jump to word if flag x compares by y with z
        0x61 => entry(TripleWord, NoDevice, LevelJump, BPM, Branch),
        // flag x = flag y
        0x62 => entry(Pair, NoDevice, Any, BPM, Next),
        // flag x = input y
        0x63 => entry(Pair, InputY, Any, BPM, Next),
        // flag x = output y
        0x64 => entry(Pair, OutputReadY, Any, BPM, Next),
        // flag x = flag y and flag z
        0x65 => entry(Triple, NoDevice, Any, BPM, Next),
        // flag x = flag y or flag z
        0x66 => entry(Triple, NoDevice, Any, BPM, Next),
        // flag x = flag y exclusive or flag z
        0x67 => entry(Triple, NoDevice, Any, BPM, Next),
        // flag x = not flag y
        0x68 => entry(Pair, NoDevice, Any, BPM, Next),
        // jump to word if bit y of variable x compares by z with 0
        0x6E => entry(TripleWord, Not637Plus, BitJump, BPM, Branch),
        // jump to word if input x compares by y with z
        0x70 => entry(TripleWord, InputX, LevelJump, BPM, Branch),
        // jump to word if output x compares by y with z
        0x71 => entry(TripleWord, OutputReadX, LevelJump, BPM, Branch),
        // output x = y
        0x72 => entry(Pair, OutputWrittenX, Level, BPM, Next),
        // output x = flag y
        0x73 => entry(Pair, OutputWrittenX, Any, BPM, Next),
        // variable x = value
        0x80 => entry(ByteValue, NoDevice, Any, BPM, Next),
        // jump to word if variable x compares by y with value
        0x81 => entry(ValueJump, NoDevice, ConditionJump, BPM, Branch),
        // variable x = variable y + value
        0x82 => entry(PairValue, NoDevice, Any, BPM, Next),
        // variable x = variable y - value
        0x83 => entry(PairValue, NoDevice, Any, BPM, Next),
        // variable x = variable y * value
        0x84 => entry(PairValue, NoDevice, Any, BPM, Next),
        // variable x = variable y / value
        0x85 => entry(PairValue, NoDevice, Divisor, BPM, Next),
        // variable x = z flags from flag y on
        0x86 => entry(Triple, NoDevice, FlagRun, BP, Next),
        // variable x = variable y
        0x88 => entry(Pair, NoDevice, Any, BPM, Next),
        // jump to word if variable x compares by y with variable z
        0x89 => entry(TripleWord, NoDevice, ConditionJump, BPM, Branch),
        // variable x = variable y + variable z
        0x8A => entry(Triple, NoDevice, Any, BPM, Next),
        // variable x = variable y - variable z
        0x8B => entry(Triple, NoDevice, Any, BPM, Next),
        // variable x = variable y * variable z
        0x8C => entry(Triple, NoDevice, Any, BPM, Next),
        // variable x = variable y / variable z
        0x8D => entry(Triple, NoDevice, Any, BPM, Next),
        // start mathematics at word
        0x90 => entry(Word, NoDevice, Address, BP, StartMathematics),
        _ => not_carried(),
    }
}

fn entry(layout: Layout, device: Device, ranges: Ranges, tasks: u8, flow: FlowKind) -> Row
    ensures { result ≡ facts layout device ranges tasks flow }
{
    Row {
        carried: true,
        layout,
        device,
        ranges,
        tasks,
        flow,
    }
}

// A code that is not carried: no operands, no task, nothing to continue with.
fn not_carried() -> Row
    ensures { result ≡ no_row }
{
    Row {
        carried: false,
        layout: Bare,
        device: NoDevice,
        ranges: Any,
        tasks: 0,
        flow: Nothing,
    }
}
