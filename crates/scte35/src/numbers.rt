// The named numbers: whether a number has a name (class 0), is reserved (1) or private (2); or refusal 12.
ghost use Rattle.std.specs.Prelude.{◌≡◌};
ghost use Rattle.names.specs.Algorithm.{algorithm_entry, algorithm_of};
ghost use Rattle.names.specs.Command.{command_entry, command_type_of};
ghost use Rattle.names.specs.Flags.{network_flag, network_of, or_12, return_flag, return_of, restrictions_bits, restrictions_of};
ghost use Rattle.names.specs.Segmentation.{segmentation_entry, segmentation_type_of};
ghost use Rattle.names.specs.Upid.{upid_type_entry, upid_type_of};
ghost use Rattle.names.specs.Numbering.{name_of, value_of};
ghost use Rattle.scte35.specs.FlatNumber.{flat_name, flat_answer};

use names::algorithm::EncryptionAlgorithm;
use names::command::SpliceCommandType;
use names::flags::{DeviceRestrictions, Flag, NetworkIndicator, ReturnMode};
use names::numbering::{NumberClass, Numbered};
use names::segmentation::SegmentationTypeId;
use names::upid::SegmentationUpidType;

#[repr(C)]
#[derive(Clone, Copy)]
pub struct FlatNumber {
    pub refusal: u64,
    pub class: u64,
    pub number: u64,
}

// Of a value, its class and its number.
fn classified<T: Numbered>(n: u8) -> FlatNumber
    ensures { result ≡ flat_name T.table.entry (value_of T.table n) }
{
    let x = T::from(n);
    let class = match x.class() {
        NumberClass::Named => 0,
        NumberClass::Reserved => 1,
        NumberClass::Private => 2,
    };
    let number: u8 = x.into();
    FlatNumber {
        refusal: 0,
        class,
        number: number as u64,
    }
}

// Of a flag, its number or refusal 12.
fn flagged<T: Flag>(n: u8) -> FlatNumber
    ensures { result ≡ flat_answer T.number (or_12 (name_of T.number T.names n)) }
{
    match T::try_from(n) {
        Ok(x) => {
            let number: u8 = x.into();
            FlatNumber {
                refusal: 0,
                class: 0,
                number: number as u64,
            }
        }
        Err(_) => FlatNumber {
            refusal: 12,
            class: 0,
            number: 0,
        },
    }
}

#[tactic(auto, unfolding(names::specs::Algorithm::algorithm_of))]
#[unsafe(no_mangle)]
pub extern "C" fn scte35_classify_algorithm(n: u8) -> FlatNumber
    ensures { result ≡ flat_name algorithm_entry (algorithm_of n) }
{
    classified::<EncryptionAlgorithm>(n)
}

#[tactic(auto, unfolding(names::specs::Command::command_type_of))]
#[unsafe(no_mangle)]
pub extern "C" fn scte35_classify_command_type(n: u8) -> FlatNumber
    ensures { result ≡ flat_name command_entry (command_type_of n) }
{
    classified::<SpliceCommandType>(n)
}

#[tactic(auto, unfolding(names::specs::Upid::upid_type_of))]
#[unsafe(no_mangle)]
pub extern "C" fn scte35_classify_upid_type(n: u8) -> FlatNumber
    ensures { result ≡ flat_name upid_type_entry (upid_type_of n) }
{
    classified::<SegmentationUpidType>(n)
}

#[tactic(auto, unfolding(names::specs::Segmentation::segmentation_type_of))]
#[unsafe(no_mangle)]
pub extern "C" fn scte35_classify_segmentation_type(n: u8) -> FlatNumber
    ensures { result ≡ flat_name segmentation_entry (segmentation_type_of n) }
{
    classified::<SegmentationTypeId>(n)
}

#[tactic(auto, unfolding(names::specs::Flags::network_of))]
#[unsafe(no_mangle)]
pub extern "C" fn scte35_classify_network_indicator(n: u8) -> FlatNumber
    ensures { result ≡ flat_answer network_flag (network_of n) }
{
    flagged::<NetworkIndicator>(n)
}

#[tactic(auto, unfolding(names::specs::Flags::return_of))]
#[unsafe(no_mangle)]
pub extern "C" fn scte35_classify_return_mode(n: u8) -> FlatNumber
    ensures { result ≡ flat_answer return_flag (return_of n) }
{
    flagged::<ReturnMode>(n)
}

#[tactic(auto, unfolding(names::specs::Flags::restrictions_of))]
#[unsafe(no_mangle)]
pub extern "C" fn scte35_classify_device_restrictions(n: u8) -> FlatNumber
    ensures { result ≡ flat_answer restrictions_bits (restrictions_of n) }
{
    flagged::<DeviceRestrictions>(n)
}
