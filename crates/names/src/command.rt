// splice_command_type, the last byte of the splice header.
ghost use Rattle.std.specs.Prelude.{◌≡◌};
ghost use Rattle.names.specs.Command.{command_type_of, command_number, commands, command_is};

use crate::numbering::{NumberClass, Numbered};

#[derive(Clone, Copy)]
pub enum SpliceCommandType {
    SpliceNull,
    SpliceSchedule,
    SpliceInsert,
    TimeSignal,
    BandwidthReservation,
    PrivateCommand,
    Reserved(u8),
}

// The value that a number stands for.
impl From<u8> for SpliceCommandType {
    ghost from_gives = { λ id x. x ≡ command_type_of id };

    #[tactic(auto, unfolding(crate::specs::Command::command_type_of))]
    fn from(id: u8) -> SpliceCommandType {
        match id {
            0x00 => SpliceCommandType::SpliceNull,
            0x01..=0x03 => SpliceCommandType::Reserved(id),
            0x04 => SpliceCommandType::SpliceSchedule,
            0x05 => SpliceCommandType::SpliceInsert,
            0x06 => SpliceCommandType::TimeSignal,
            0x07 => SpliceCommandType::BandwidthReservation,
            0x08..=0xfe => SpliceCommandType::Reserved(id),
            0xff => SpliceCommandType::PrivateCommand,
        }
    }
}

// The number of a value.
impl From<SpliceCommandType> for u8 {
    ghost from_gives = { λ x id. id ≡ command_number x };

    fn from(x: SpliceCommandType) -> u8 {
        match x {
            SpliceCommandType::SpliceNull => 0x00,
            SpliceCommandType::SpliceSchedule => 0x04,
            SpliceCommandType::SpliceInsert => 0x05,
            SpliceCommandType::TimeSignal => 0x06,
            SpliceCommandType::BandwidthReservation => 0x07,
            SpliceCommandType::PrivateCommand => 0xff,
            SpliceCommandType::Reserved(n) => n,
        }
    }
}

impl Numbered for SpliceCommandType {
    ghost table = { commands };

    ghost from_is = { command_is };

    ghost into_is = { λ _ _ e. e };

    fn class(self) -> NumberClass {
        match self {
            SpliceCommandType::Reserved(_) => NumberClass::Reserved,
            _ => NumberClass::Named,
        }
    }
}
