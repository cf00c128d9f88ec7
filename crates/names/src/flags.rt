// The flags and the two bits of which each number has a name. Any other number is refused, with 12.
ghost use Rattle.std.specs.Prelude.{◌≡◌, ℕ, List};
ghost use Rattle.names.specs.Numbering.{name_of};
ghost use Rattle.names.specs.Flags.{or_12, flag_answer, network_flag, networks, network_of, network_is};
ghost use Rattle.names.specs.Flags.{return_flag, return_modes, return_of, return_is};
ghost use Rattle.names.specs.Flags.{restrictions_bits, restrictions, restrictions_of, restrictions_is};

// A number that has no name.
#[derive(Clone, Copy, Debug, PartialEq, Eq)]
pub struct UnknownNumber;

// A type each of whose values is a name of a number.
pub trait Flag: Copy + TryFrom<u8, Error = UnknownNumber> + Into<u8> {
    // The number of each value, and the values in the order of their numbers.
    ghost number: { Self → ℕ };

    ghost names: { List Self };

    // What `try_from` and `into` give is theirs.
    ghost try_from_is: { (n : ℕ) (r : _) → Self.try_from_gives n r → flag_answer r ≡ or_12 (name_of number names n) };

    ghost into_is: { (x : Self) (n : ℕ) → Self.converts x n → n ≡ number x };
}

// out_of_network_indicator
#[derive(Clone, Copy)]
pub enum NetworkIndicator {
    In,
    Out,
}

impl TryFrom<u8> for NetworkIndicator {
    type Error = UnknownNumber;

    ghost try_from_gives = { λ id r. flag_answer r ≡ network_of id };

    #[tactic(auto, unfolding(crate::specs::Flags::network_of))]
    fn try_from(id: u8) -> Result<NetworkIndicator, UnknownNumber> {
        match id {
            0 => Ok(NetworkIndicator::In),
            1 => Ok(NetworkIndicator::Out),
            2..=255 => Err(UnknownNumber),
        }
    }
}

impl From<NetworkIndicator> for u8 {
    ghost from_gives = { λ x id. id ≡ network_flag x };

    fn from(x: NetworkIndicator) -> u8 {
        match x {
            NetworkIndicator::In => 0,
            NetworkIndicator::Out => 1,
        }
    }
}

impl Flag for NetworkIndicator {
    ghost number = { network_flag };

    ghost names = { networks };

    ghost try_from_is = { network_is };

    ghost into_is = { λ _ _ e. e };
}

// auto_return
#[derive(Clone, Copy)]
pub enum ReturnMode {
    Manual,
    Automatic,
}

impl TryFrom<u8> for ReturnMode {
    type Error = UnknownNumber;

    ghost try_from_gives = { λ flag r. flag_answer r ≡ return_of flag };

    #[tactic(auto, unfolding(crate::specs::Flags::return_of))]
    fn try_from(flag: u8) -> Result<ReturnMode, UnknownNumber> {
        match flag {
            0 => Ok(ReturnMode::Manual),
            1 => Ok(ReturnMode::Automatic),
            2..=255 => Err(UnknownNumber),
        }
    }
}

impl From<ReturnMode> for u8 {
    ghost from_gives = { λ x flag. flag ≡ return_flag x };

    fn from(x: ReturnMode) -> u8 {
        match x {
            ReturnMode::Manual => 0,
            ReturnMode::Automatic => 1,
        }
    }
}

impl Flag for ReturnMode {
    ghost number = { return_flag };

    ghost names = { return_modes };

    ghost try_from_is = { return_is };

    ghost into_is = { λ _ _ e. e };
}

// device_restrictions
#[derive(Clone, Copy)]
pub enum DeviceRestrictions {
    RestrictGroup0,
    RestrictGroup1,
    RestrictGroup2,
    None,
}

impl TryFrom<u8> for DeviceRestrictions {
    type Error = UnknownNumber;

    ghost try_from_gives = { λ restriction r. flag_answer r ≡ restrictions_of restriction };

    #[tactic(auto, unfolding(crate::specs::Flags::restrictions_of))]
    fn try_from(restriction: u8) -> Result<DeviceRestrictions, UnknownNumber> {
        match restriction {
            0 => Ok(DeviceRestrictions::RestrictGroup0),
            1 => Ok(DeviceRestrictions::RestrictGroup1),
            2 => Ok(DeviceRestrictions::RestrictGroup2),
            3 => Ok(DeviceRestrictions::None),
            4..=255 => Err(UnknownNumber),
        }
    }
}

impl From<DeviceRestrictions> for u8 {
    ghost from_gives = { λ x restriction. restriction ≡ restrictions_bits x };

    fn from(x: DeviceRestrictions) -> u8 {
        match x {
            DeviceRestrictions::RestrictGroup0 => 0,
            DeviceRestrictions::RestrictGroup1 => 1,
            DeviceRestrictions::RestrictGroup2 => 2,
            DeviceRestrictions::None => 3,
        }
    }
}

impl Flag for DeviceRestrictions {
    ghost number = { restrictions_bits };

    ghost names = { restrictions };

    ghost try_from_is = { restrictions_is };

    ghost into_is = { λ _ _ e. e };
}
