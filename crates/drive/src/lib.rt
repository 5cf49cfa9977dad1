// The drives and their pins and option boards: document 01, "Drive and pins". Crate `drive_pins` has the rows of pins.
#![tactic(auto)]

ghost use Rattle.std.specs.Prelude.{◌≡◌};
ghost use Rattle.drive.specs.Types.{boards, cycle_of, takes};
ghost use Rattle.drive.specs.Pins.{on_board, presence, pin_of};

use drive_pins::{Home, PinKind};

// The slots for option boards.
#[derive(Clone, Copy, PartialEq, Eq)]
pub enum Slot {
    B,
    C,
}

impl Slot {
    // The least types of the slot's boards.
    fn boards(self) -> [u32; 3]
        ensures { result ≡ boards self }
    {
        match self {
            Slot::B => Drive::SLOT_B,
            Slot::C => Drive::SLOT_C,
        }
    }
}

// A drive as the header of an image names it: its model (document 01: type), and the numbers of the boards in its slots B and C.
#[derive(Clone, Copy, PartialEq, Eq, Default)]
pub struct Drive {
    pub model: u8,
    pub b: u8,
    pub c: u8,
}

// Whether a drive has a pin of a kind.
pub type Presence = Result<(), Absence>;

// Why it has not: a board that its type may carry would bring the pin, or nothing would.
#[derive(Clone, Copy, PartialEq, Eq)]
pub enum Absence {
    BoardMissing,
    Never,
}

impl Drive {
    // The types, by document 01's numbers, and how many there are.
    pub const TYPE_631: u8 = 0;

    pub const TYPE_635: u8 = 1;

    pub const TYPE_637: u8 = 2;

    pub const TYPE_637_PLUS: u8 = 3;

    pub const TYPE_637F: u8 = 4;

    pub const TYPES: u32 = 5;

    // The least type that may carry a board, by the board's number in its slot. Number 0 is the empty slot.
    // Slot B: RP-EA5, RP-2C8. Slot C: RP-EAE, RP-SBT.
    pub const SLOT_B: [u32; 3] = [0, 1, 4];

    pub const SLOT_C: [u32; 3] = [0, 1, 4];

    pub const BOARDS: u32 = 3;

    // Cycle lengths in microseconds: up to the 637, and from the 637+ on.
    pub const LONG_CYCLE: u32 = 1899;

    pub const SHORT_CYCLE: u32 = 844;

    // The cycle length in microseconds; 0 for a number that is no type.
    #[tactic(auto, using(crate::proofs::TypesAndSlots::long_cycle, crate::proofs::TypesAndSlots::short_cycle, crate::proofs::TypesAndSlots::no_cycle))]
    pub fn cycle(self) -> u32
        ensures { result ≡ cycle_of self.model }
    {
        match self.model {
            Drive::TYPE_631..=Drive::TYPE_637 => Drive::LONG_CYCLE,
            Drive::TYPE_637_PLUS..=Drive::TYPE_637F => Drive::SHORT_CYCLE,
            _ => 0,
        }
    }

    // Whether a type may have this board number in this slot.
    #[tactic(auto, unfolding(crate::specs::Types::takes))]
    pub fn takes(slot: Slot, model: u32, board: u32) -> bool
        ensures { result ≡ takes (boards slot) model board }
    {
        let least = slot.boards();
        board < Drive::BOARDS && model < Drive::TYPES && least[board as usize] <= model
    }

    // Whether this drive has the pin, used in this way.
    #[tactic(auto, unfolding(crate::specs::Pins::pin_of))]
    pub fn pin(self, kind: PinKind, pin: u8) -> Presence
        ensures { result ≡ pin_of self kind pin }
    {
        match drive_pins::home_of(kind, pin) {
            Some(home) => found(self, home),
            None => Err(Absence::Never),
        }
    }
}

// Whether a drive has what is at this home.
#[tactic(auto, unfolding(crate::specs::Pins::presence))]
fn found(d: Drive, home: Home) -> Presence
    ensures { result ≡ presence d home }
{
    let model = u32::from(d.model);
    match home {
        Home::Only631 => {
            if d.model == Drive::TYPE_631 {
                Ok(())
            } else {
                Err(Absence::Never)
            }
        }
        Home::Others => {
            if d.model != Drive::TYPE_631 && model < Drive::TYPES {
                Ok(())
            } else {
                Err(Absence::Never)
            }
        }
        Home::SlotB(board) => on_board(Drive::takes(Slot::B, model, u32::from(board)), board, d.b),
        Home::SlotC(board) => on_board(Drive::takes(Slot::C, model, u32::from(board)), board, d.c),
    }
}

// Whether a drive has the pins of a board: `could`, whether its type may carry the board; `slot`, the board that its slot holds.
#[tactic(auto, unfolding(crate::specs::Pins::on_board))]
fn on_board(could: bool, board: u8, slot: u8) -> Presence
    ensures { result ≡ on_board could board slot }
{
    if !could {
        Err(Absence::Never)
    } else if slot == board {
        Ok(())
    } else {
        Err(Absence::BoardMissing)
    }
}
