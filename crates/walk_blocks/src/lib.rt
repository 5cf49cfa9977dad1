// The blocks of an image one by one: the bytes of a block, its command, what is wrong with it by itself, and what it breaks at a point. Blocks are any bytes:
// a byte past their end is read as 0.
#![tactic(auto)]

ghost use Rattle.std.specs.Prelude.{◌≡◌};
ghost use Rattle.walk_flow.specs.Terms.{by_header};
ghost use Rattle.walk.specs.Blocks.{block_at, block_fault_at, fault_at};
ghost use Rattle.walk_blocks.specs.Instructions.{instruction_of, instruction_at};

use command_judge::BlockFault;
use command_operands::Command;
use command_table::Row;
use image_header::Header;
use limits::BLOCK_LENGTH;
use walk_fault::Fault;
use walk_point::Point;

// A command with its code's row.
#[derive(Clone, Copy)]
pub struct Instruction {
    pub row: Row,
    pub command: Command,
}

// What the command at a point breaks there.
#[tactic(auto, using(crate::proofs::RowOfCode::row_at, crate::proofs::RowOfCode::command_is), unfolding(walk::specs::Blocks::fault_at))]
pub fn fault_at(header: Header, blocks: &[u8], p: Point) -> Result<(), Fault>
    ensures { result ≡ fault_at (by_header header) blocks.now p }
{
    let i = instruction_at(blocks, p.block);
    p.fault(header, i.row, i.command)
}

// The command at a block and its code's row, without judging it.
#[tactic(auto, unfolding(crate::specs::Instructions::instruction_at))]
pub fn instruction_at(blocks: &[u8], b: u16) -> Instruction
    ensures { result ≡ instruction_at blocks.now b }
{
    decode(block_at(blocks, b))
}

// The command of a block and its code's row.
#[tactic(auto, unfolding(command_operands::specs::Operands::operands))]
pub fn decode(block: [u8; BLOCK_LENGTH]) -> Instruction
    ensures { result ≡ instruction_of block }
{
    let row = command_table::find(block[0]);
    Instruction {
        row,
        command: command_operands::lay_out(row.layout, block),
    }
}

// The eight bytes of a block.
pub fn block_at(blocks: &[u8], b: u16) -> [u8; BLOCK_LENGTH]
    ensures { result ≡ block_at blocks.now b }
{
    let at = BLOCK_LENGTH * usize::from(b);
    if blocks.len() < at + BLOCK_LENGTH {
        return padded(blocks, b);
    }
    let mut block = [0; BLOCK_LENGTH];
    block.copy_from_slice(&blocks[at..at + BLOCK_LENGTH]);
    block
}

// The same of a block that is not there as a whole, which no image of the right length has.
#[cold]
fn padded(blocks: &[u8], b: u16) -> [u8; BLOCK_LENGTH]
    ensures { result ≡ block_at blocks.now b }
{
    let at = BLOCK_LENGTH * usize::from(b);
    let mut block = [0; BLOCK_LENGTH];
    for (k, byte) in block.iter_mut().enumerate() {
        *byte = blocks.get(at + k).copied().unwrap_or(0);
    }
    block
}

// What is wrong with a block by itself, by 5 to 8 or 23.
pub fn block_fault_at(header: Header, blocks: &[u8], b: u16) -> Result<(), BlockFault>
    ensures { result ≡ block_fault_at (by_header header) blocks.now b }
{
    command_judge::judge(header, block_at(blocks, b))
}
