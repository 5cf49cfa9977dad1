// What the drive must have (document 01, refusal 6; change request 3, 23), by the device of a code's row.
ghost use Rattle.std.specs.Prelude.{◌≡◌};
ghost use Rattle.command_judge.specs.BlockFault.{not_on_637_plus, device_presence};

use command_table::Device;
use drive::{Absence, Drive, Presence};
use drive_pins::PinKind;

// Whether the drive has what the command needs for its operands x and y.
pub fn presence(device: Device, drive: Drive, x: u8, y: u8) -> Presence
    ensures { result ≡ device_presence device drive x y }
{
    match device {
        Device::NoDevice => Ok(()),
        Device::InputX => drive.pin(PinKind::Input, x),
        Device::InputY => drive.pin(PinKind::Input, y),
        Device::OutputReadX => drive.pin(PinKind::OutputRead, x),
        Device::OutputReadY => drive.pin(PinKind::OutputRead, y),
        Device::OutputWrittenX => drive.pin(PinKind::OutputWritten, x),
        Device::Not637Plus => not_on_637_plus(drive),
    }
}

// A command that the 637+ has not, whatever its boards.
fn not_on_637_plus(drive: Drive) -> Presence
    ensures { result ≡ not_on_637_plus drive }
{
    if drive.model == Drive::TYPE_637_PLUS {
        return Err(Absence::Never);
    }
    Ok(())
}
