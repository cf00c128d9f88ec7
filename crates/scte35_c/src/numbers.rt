// The named numbers: whether a number has a name (class 0), is reserved (1) or private (2); or refusal 12.
ghost use Rattle.std.specs.Prelude.{◌≡◌};
ghost use Rattle.names.specs.Algorithm.{algorithm_entry, algorithm_of};
ghost use Rattle.names.specs.Command.{command_entry, command_type_of};
ghost use Rattle.names.specs.Flags.{network_flag, network_of, return_flag, return_of, restrictions_bits, restrictions_of};
ghost use Rattle.names.specs.Segmentation.{segmentation_entry, segmentation_type_of};
ghost use Rattle.names.specs.Upid.{upid_type_entry, upid_type_of};
ghost use Rattle.scte35.specs.FlatNumber.{flat_name, flat_answer};

use scte35::numbers::FlatNumber;

#[unsafe(no_mangle)]
pub extern "C" fn scte35_classify_algorithm(n: u8) -> FlatNumber
    ensures { result ≡ flat_name algorithm_entry (algorithm_of n) }
{
    scte35::numbers::scte35_classify_algorithm(n)
}

#[unsafe(no_mangle)]
pub extern "C" fn scte35_classify_command_type(n: u8) -> FlatNumber
    ensures { result ≡ flat_name command_entry (command_type_of n) }
{
    scte35::numbers::scte35_classify_command_type(n)
}

#[unsafe(no_mangle)]
pub extern "C" fn scte35_classify_upid_type(n: u8) -> FlatNumber
    ensures { result ≡ flat_name upid_type_entry (upid_type_of n) }
{
    scte35::numbers::scte35_classify_upid_type(n)
}

#[unsafe(no_mangle)]
pub extern "C" fn scte35_classify_segmentation_type(n: u8) -> FlatNumber
    ensures { result ≡ flat_name segmentation_entry (segmentation_type_of n) }
{
    scte35::numbers::scte35_classify_segmentation_type(n)
}

#[unsafe(no_mangle)]
pub extern "C" fn scte35_classify_network_indicator(n: u8) -> FlatNumber
    ensures { result ≡ flat_answer network_flag (network_of n) }
{
    scte35::numbers::scte35_classify_network_indicator(n)
}

#[unsafe(no_mangle)]
pub extern "C" fn scte35_classify_return_mode(n: u8) -> FlatNumber
    ensures { result ≡ flat_answer return_flag (return_of n) }
{
    scte35::numbers::scte35_classify_return_mode(n)
}

#[unsafe(no_mangle)]
pub extern "C" fn scte35_classify_device_restrictions(n: u8) -> FlatNumber
    ensures { result ≡ flat_answer restrictions_bits (restrictions_of n) }
{
    scte35::numbers::scte35_classify_device_restrictions(n)
}
