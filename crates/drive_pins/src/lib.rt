// The rows of pins: document 01, "Drive and pins". Where a pin is; whether a drive has what is there, crate `drive` says.
#![tactic(auto)]

ghost use Rattle.std.specs.Prelude.{◌≡◌};
ghost use Rattle.drive_pins.specs.Homes.{home_in, home_of};

// What a command does with a pin.
#[derive(Clone, Copy, PartialEq, Eq)]
pub enum PinKind {
    Input,
    OutputWritten,
    OutputRead,
}

// Where a pin is: on the 631 itself, on every other type itself, or on a board, by its number in slot B or C.
#[derive(Clone, Copy, PartialEq, Eq)]
pub enum Home {
    Only631,
    Others,
    SlotB(u8),
    SlotC(u8),
}

// The pins from the first to the last are at the home.
#[derive(Clone, Copy, PartialEq, Eq)]
pub struct PinRow {
    pub first: u8,
    pub last: u8,
    pub home: Home,
}

// The boards by their numbers in their slots.
const RP_EA5: Home = Home::SlotB(1);

const RP_2C8: Home = Home::SlotB(2);

const RP_EAE: Home = Home::SlotC(1);

const RP_SBT: Home = Home::SlotC(2);

// Document 01's rows of inputs.
const INPUTS: [PinRow; 14] = [
    PinRow {
        first: 7,
        last: 10,
        home: Home::Only631,
    },
    PinRow {
        first: 2,
        last: 2,
        home: Home::Others,
    },
    PinRow {
        first: 4,
        last: 4,
        home: Home::Others,
    },
    PinRow {
        first: 11,
        last: 11,
        home: Home::Others,
    },
    PinRow {
        first: 15,
        last: 15,
        home: Home::Others,
    },
    PinRow {
        first: 22,
        last: 22,
        home: Home::Others,
    },
    PinRow {
        first: 24,
        last: 25,
        home: Home::Others,
    },
    PinRow {
        first: 101,
        last: 102,
        home: RP_EA5,
    },
    PinRow {
        first: 106,
        last: 108,
        home: RP_EA5,
    },
    PinRow {
        first: 201,
        last: 208,
        home: RP_EAE,
    },
    PinRow {
        first: 211,
        last: 216,
        home: RP_EAE,
    },
    PinRow {
        first: 121,
        last: 124,
        home: RP_2C8,
    },
    PinRow {
        first: 91,
        last: 91,
        home: RP_SBT,
    },
    PinRow {
        first: 93,
        last: 93,
        home: RP_SBT,
    },
];

// The rows of the outputs that can be written.
const OUTPUTS: [PinRow; 8] = [
    PinRow {
        first: 5,
        last: 6,
        home: Home::Only631,
    },
    PinRow {
        first: 12,
        last: 13,
        home: Home::Others,
    },
    PinRow {
        first: 20,
        last: 20,
        home: Home::Others,
    },
    PinRow {
        first: 23,
        last: 23,
        home: Home::Others,
    },
    PinRow {
        first: 109,
        last: 110,
        home: RP_EA5,
    },
    PinRow {
        first: 209,
        last: 210,
        home: RP_EAE,
    },
    PinRow {
        first: 217,
        last: 224,
        home: RP_EAE,
    },
    PinRow {
        first: 125,
        last: 128,
        home: RP_2C8,
    },
];

// The one output that can be read and not written.
const READ_ONLY_OUTPUT: u8 = 8;

// Where a pin is that is used in this way.
pub fn home_of(kind: PinKind, pin: u8) -> Option<Home>
    ensures { result ≡ home_of kind pin }
{
    match kind {
        PinKind::Input => home_in(&INPUTS, pin),
        PinKind::OutputWritten => home_in(&OUTPUTS, pin),
        PinKind::OutputRead if pin == READ_ONLY_OUTPUT => Some(Home::Others),
        PinKind::OutputRead => home_in(&OUTPUTS, pin),
    }
}

// The home of the first row that has the pin.
#[tactic(auto, unfolding(crate::specs::Homes::home_in))]
fn home_in(rows: &[PinRow], pin: u8) -> Option<Home>
    ensures { result ≡ home_in rows.now pin }
{
    rows.iter()
        .find(|row| row.first <= pin && pin <= row.last)
        .map(|row| row.home)
}
