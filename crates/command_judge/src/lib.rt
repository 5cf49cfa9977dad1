// A block judged (document 01, refusals 5 to 8, and change request 3, which splits 23 off 6). Crate `command_operands` reads the operands, devices.rt asks
// the drive, ranges.rt judges the operands.
#![tactic(auto)]

ghost use Rattle.std.specs.Prelude.{◌≡◌, Err};
ghost use Rattle.command_judge.specs.BlockFault.{absence_fault, operand_fault, command_fault, row_fault, block_fault, block_fault_number};
ghost use Rattle.command_operands.specs.Operands.{laid_out};

use command_operands::Command;
use command_table::Row;
use drive::Absence;
use image_header::Header;
use limits::BLOCK_LENGTH;

pub mod devices;
pub mod ranges;

// What is wrong with a block, the first in this order; of NotOnDrive and BoardMissing only one can be.
#[derive(Clone, Copy)]
pub enum BlockFault {
    // no command that we carry has its code
    NotCarried,
    // the drive's type has not the command, or never the pin
    NotOnDrive,
    // a board that the type may carry has the pin, and is not fitted
    BoardMissing,
    // an operand is out of range
    OutOfRange,
    // a byte that the command does not use is not 0
    NotZero,
}

impl From<Absence> for BlockFault {
    ghost from_gives = { λ absence fault. fault ≡ absence_fault absence };

    // 23 where a board would bring the pin, and 6.
    fn from(absence: Absence) -> BlockFault
        ensures { result ≡ absence_fault absence }
    {
        match absence {
            Absence::BoardMissing => BlockFault::BoardMissing,
            Absence::Never => BlockFault::NotOnDrive,
        }
    }
}

// Document 01's number of what judging a block comes to; 0 where it passes.
pub fn number(judged: Result<(), BlockFault>) -> u32
    ensures { result ≡ block_fault_number judged }
{
    judged.err().map_or(0, |fault| fault.number())
}

impl BlockFault {
    // Document 01's number, and change request 3's 23.
    pub fn number(self) -> u32
        ensures { result ≡ block_fault_number (Err self) }
    {
        match self {
            BlockFault::NotCarried => 5,
            BlockFault::NotOnDrive => 6,
            BlockFault::BoardMissing => 23,
            BlockFault::OutOfRange => 7,
            BlockFault::NotZero => 8,
        }
    }
}

// A block of an image with this header.
#[tactic(auto, unfolding(crate::specs::BlockFault::block_fault))]
pub fn judge(header: Header, block: [u8; BLOCK_LENGTH]) -> Result<(), BlockFault>
    ensures { result ≡ block_fault header block }
{
    let row = command_table::find(block[0]);
    judge_read(
        row,
        header,
        block,
        command_operands::lay_out(row.layout, block),
    )
}

// The same, where the block's row and its operands c were read before.
#[tactic(auto, unfolding(crate::specs::BlockFault::row_fault))]
pub fn judge_read(
    row: Row,
    header: Header,
    block: [u8; BLOCK_LENGTH],
    c: Command,
) -> Result<(), BlockFault>
    requires { c ≡ laid_out row.layout block }
    ensures { result ≡ row_fault row header block }
{
    if !row.carried {
        return Err(BlockFault::NotCarried);
    }
    judge_command(row, header, block, c)
}

// A block whose code has this row, with its operands c: what the drive must have, then the operands.
#[tactic(auto, unfolding(crate::specs::BlockFault::command_fault))]
fn judge_command(
    row: Row,
    header: Header,
    block: [u8; BLOCK_LENGTH],
    c: Command,
) -> Result<(), BlockFault>
    ensures { result ≡ command_fault row header block c }
{
    devices::presence(row.device, header.drive, c.x, c.y)?;
    judge_operands(row, header.count, block, c)
}

// The operands of a block of an image of `count` blocks: their ranges, then the bytes that the command does not use.
#[tactic(auto, unfolding(crate::specs::BlockFault::operand_fault))]
fn judge_operands(
    row: Row,
    count: u16,
    block: [u8; BLOCK_LENGTH],
    c: Command,
) -> Result<(), BlockFault>
    ensures { result ≡ operand_fault row count block c }
{
    if !ranges::in_range(row.ranges, count, c) {
        return Err(BlockFault::OutOfRange);
    }
    if !command_operands::unused_zero(row.layout, block) {
        return Err(BlockFault::NotZero);
    }
    Ok(())
}
