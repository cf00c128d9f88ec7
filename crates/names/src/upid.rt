// segmentation_upid_type, which says what kind of identifier a UPID is.
ghost use Rattle.std.specs.Prelude.{◌≡◌};
ghost use Rattle.names.specs.Upid.{upid_type_of, upid_type_number, upid_types, upid_type_is};

use crate::numbering::{NumberClass, Numbered};

#[derive(Clone, Copy)]
pub enum SegmentationUpidType {
    NotUsed,
    UserDefinedDeprecated,
    ISCIDeprecated,
    AdID,
    UMID,
    ISANDeprecated,
    ISAN,
    TID,
    TI,
    ADI,
    EIDR,
    ATSC,
    MPU,
    MID,
    ADS,
    URI,
    Reserved(u8),
}

// The value that a number stands for.
impl From<u8> for SegmentationUpidType {
    ghost from_gives = { λ id x. x ≡ upid_type_of id };

    #[tactic(auto, unfolding(crate::specs::Upid::upid_type_of))]
    fn from(id: u8) -> SegmentationUpidType {
        match id {
            0 => SegmentationUpidType::NotUsed,
            1 => SegmentationUpidType::UserDefinedDeprecated,
            2 => SegmentationUpidType::ISCIDeprecated,
            3 => SegmentationUpidType::AdID,
            4 => SegmentationUpidType::UMID,
            5 => SegmentationUpidType::ISANDeprecated,
            6 => SegmentationUpidType::ISAN,
            7 => SegmentationUpidType::TID,
            8 => SegmentationUpidType::TI,
            9 => SegmentationUpidType::ADI,
            10 => SegmentationUpidType::EIDR,
            11 => SegmentationUpidType::ATSC,
            12 => SegmentationUpidType::MPU,
            13 => SegmentationUpidType::MID,
            14 => SegmentationUpidType::ADS,
            15 => SegmentationUpidType::URI,
            16..=255 => SegmentationUpidType::Reserved(id),
        }
    }
}

// The number of a value.
impl From<SegmentationUpidType> for u8 {
    ghost from_gives = { λ x id. id ≡ upid_type_number x };

    fn from(x: SegmentationUpidType) -> u8 {
        match x {
            SegmentationUpidType::NotUsed => 0,
            SegmentationUpidType::UserDefinedDeprecated => 1,
            SegmentationUpidType::ISCIDeprecated => 2,
            SegmentationUpidType::AdID => 3,
            SegmentationUpidType::UMID => 4,
            SegmentationUpidType::ISANDeprecated => 5,
            SegmentationUpidType::ISAN => 6,
            SegmentationUpidType::TID => 7,
            SegmentationUpidType::TI => 8,
            SegmentationUpidType::ADI => 9,
            SegmentationUpidType::EIDR => 10,
            SegmentationUpidType::ATSC => 11,
            SegmentationUpidType::MPU => 12,
            SegmentationUpidType::MID => 13,
            SegmentationUpidType::ADS => 14,
            SegmentationUpidType::URI => 15,
            SegmentationUpidType::Reserved(n) => n,
        }
    }
}

impl Numbered for SegmentationUpidType {
    ghost table = { upid_types };

    ghost from_is = { upid_type_is };

    ghost into_is = { λ _ _ e. e };

    fn class(self) -> NumberClass {
        match self {
            SegmentationUpidType::Reserved(_) => NumberClass::Reserved,
            _ => NumberClass::Named,
        }
    }
}
