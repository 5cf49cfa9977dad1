// The operands of a block, where its code's layout has them. Nothing is judged but that unused bytes are 0.
#![tactic(auto)]

ghost use Rattle.std.specs.Prelude.{◌≡◌, ◌+◌, ◌<◌, ◌==◌};
ghost use Rattle.std.specs.List.{list_all};
ghost use Rattle.limits.specs.Limits.{block_length};
ghost use Rattle.command_operands.specs.Operands.{word_at, value_at, laid_out, operands, used_bytes, unused_zero};

use command_table::Layout;
use limits::BLOCK_LENGTH;

// A command: its code and its operands. An operand that the code's layout does not have is 0.
#[derive(Clone, Copy)]
pub struct Command {
    pub code: u8,
    pub x: u8,
    pub y: u8,
    pub z: u8,
    pub word: u16,
    pub value: i32,
}

// The command of a block, without judging it. A code that is not carried has no operands.
#[tactic(auto, unfolding(crate::specs::Operands::operands))]
pub fn read(block: [u8; BLOCK_LENGTH]) -> Command
    ensures { result ≡ operands block }
{
    lay_out(command_table::find(block[0]).layout, block)
}

// The command of a block whose code has this layout.
pub fn lay_out(layout: Layout, block: [u8; BLOCK_LENGTH]) -> Command
    ensures { result ≡ laid_out layout block }
{
    let bare = Command {
        code: block[0],
        x: 0,
        y: 0,
        z: 0,
        word: 0,
        value: 0,
    };
    let byte = Command {
        x: block[1],
        ..bare
    };
    let pair = Command {
        y: block[2],
        ..byte
    };
    let triple = Command {
        z: block[3],
        ..pair
    };
    match layout {
        Layout::Bare => bare,
        Layout::Byte => byte,
        Layout::Word => Command {
            word: word_at(block, 1),
            ..bare
        },
        Layout::Pair => pair,
        Layout::Triple => triple,
        Layout::TripleWord => Command {
            word: word_at(block, 4),
            ..triple
        },
        Layout::ByteWord => Command {
            word: word_at(block, 2),
            ..byte
        },
        Layout::Value => Command {
            value: value_at(block, 1),
            ..bare
        },
        Layout::ByteValue => Command {
            value: value_at(block, 2),
            ..byte
        },
        Layout::PairValue => Command {
            value: value_at(block, 3),
            ..pair
        },
        // 81: the condition and the upper four bits of the address share D6.
        Layout::ValueJump => Command {
            y: block[6] / 16,
            word: num_le::read_u16([block[7], block[6] % 16]),
            value: value_at(block, 2),
            ..byte
        },
    }
}

// The number of two bytes from byte k on.
fn word_at(block: [u8; BLOCK_LENGTH], k: usize) -> u16
    requires { k + 1 < block_length }
    ensures { result ≡ word_at block k }
{
    num_le::read_u16([block[k], block[k + 1]])
}

// The signed number of four bytes from byte k on.
fn value_at(block: [u8; BLOCK_LENGTH], k: usize) -> i32
    requires { k + 3 < block_length }
    ensures { result ≡ value_at block k }
{
    num_le::read_i32([block[k], block[k + 1], block[k + 2], block[k + 3]])
}

// Whether the bytes that this layout does not use are 0.
pub fn unused_zero(layout: Layout, block: [u8; BLOCK_LENGTH]) -> bool
    ensures { result ≡ unused_zero layout block }
{
    all_zero(&block[1 + used_bytes(layout)..])
}

fn all_zero(bytes: &[u8]) -> bool
    ensures { result ≡ list_all (λ x. x == 0) bytes.now }
{
    bytes.iter().all(|byte| *byte == 0)
}

// How many of D1 to D7 a layout uses.
fn used_bytes(layout: Layout) -> usize
    ensures { result ≡ used_bytes layout }
{
    match layout {
        Layout::Bare => 0,
        Layout::Byte => 1,
        Layout::Word => 2,
        Layout::Pair => 2,
        Layout::Triple => 3,
        Layout::TripleWord => 5,
        Layout::ByteWord => 3,
        Layout::Value => 4,
        Layout::ByteValue => 5,
        Layout::PairValue => 6,
        Layout::ValueJump => 7,
    }
}
