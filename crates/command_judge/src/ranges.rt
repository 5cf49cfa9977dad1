// The ranges of the operands (document 01, refusal 7), by the ranges of a code's row.
ghost use Rattle.std.specs.Prelude.{◌≡◌};
ghost use Rattle.command_judge.specs.BlockFault.{in_range};

use command_operands::Command;
use command_table::Ranges;

// 0 equal, 1 unequal: the conditions of 61, 6E, 70, 71.
pub const MOST_EQUALITY: u8 = 1;

// Modes of 0F and 1F.
pub const MOST_STOP: u8 = 1;

// Modes of 51.
pub const MOST_MODE: u8 = 3;

// Bits of a variable.
pub const MOST_BIT: u8 = 31;

// Conditions of 81 and 89.
pub const MOST_CONDITION: u8 = 7;

// How many flags there are.
const FLAGS: u16 = limits::CELLS as u16;

// Whether the operands of a command are in range, in an image of this many blocks.
pub fn in_range(ranges: Ranges, count: u16, c: Command) -> bool
    ensures { result ≡ in_range ranges count c }
{
    match ranges {
        Ranges::Any => true,
        Ranges::Address => c.word < count,
        Ranges::Mode => c.x <= MOST_MODE,
        Ranges::Level => c.y <= limits::MOST_LEVEL,
        Ranges::LevelJump => c.y <= MOST_EQUALITY && c.z <= limits::MOST_LEVEL && c.word < count,
        Ranges::BitJump => c.y <= MOST_BIT && c.z <= MOST_EQUALITY && c.word < count,
        Ranges::ConditionJump => c.y <= MOST_CONDITION && c.word < count,
        Ranges::Divisor => c.value != 0,
        // the flags that 86 reads: z of them from flag y on
        Ranges::FlagRun => limits::up_to(limits::MOST_RUN, u16::from(c.z))
            && u16::from(c.y) + u16::from(c.z) <= FLAGS,
        Ranges::AxisTarget => c.x == 0 && c.y == 0,
        Ranges::ModeAxis => c.x <= MOST_STOP && c.y == 0,
        Ranges::ModeRamp => c.x <= MOST_STOP && limits::up_to(limits::MOST_RAMP, c.word),
        Ranges::Speed => limits::up_to(limits::MOST_SPEED, c.word),
        Ranges::Ramp => limits::up_to(limits::MOST_RAMP, c.word),
    }
}
