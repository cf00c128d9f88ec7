// segmentation_type_id, what a segmentation descriptor marks.
ghost use Rattle.std.specs.Prelude.{◌≡◌};
ghost use Rattle.names.specs.Segmentation.{segmentation_type_of, segmentation_number, segmentations, segmentation_is};

use crate::numbering::{NumberClass, Numbered};

#[derive(Clone, Copy)]
pub enum SegmentationTypeId {
    NotIndicated,
    ContentIdentification,
    ProgramStart,
    ProgramEnd,
    ProgramEarlyTermination,
    ProgramBreakaway,
    ProgramResumption,
    ProgramRunoverPlanned,
    ProgramRunoverUnplanned,
    ProgramOverlapStart,
    ProgramBlackoutOverride,
    ProgramStartInProgress,
    ChapterStart,
    ChapterEnd,
    BreakStart,
    BreakEnd,
    ProviderAdvertisementStart,
    ProviderAdvertisementEnd,
    DistributorAdvertisementStart,
    DistributorAdvertisementEnd,
    ProviderPlacementOpportunityStart,
    ProviderPlacementOpportunityEnd,
    DistributorPlacementOpportunityStart,
    DistributorPlacementOpportunityEnd,
    UnscheduledEventStart,
    UnscheduledEventEnd,
    NetworkStart,
    NetworkEnd,
    Reserved(u8),
}

// The value that a number stands for.
impl From<u8> for SegmentationTypeId {
    ghost from_gives = { λ id x. x ≡ segmentation_type_of id };

    #[tactic(auto, unfolding(crate::specs::Segmentation::segmentation_type_of))]
    fn from(id: u8) -> SegmentationTypeId {
        match id {
            0x00 => SegmentationTypeId::NotIndicated,
            0x01 => SegmentationTypeId::ContentIdentification,
            0x02..=0x0f => SegmentationTypeId::Reserved(id),
            0x10 => SegmentationTypeId::ProgramStart,
            0x11 => SegmentationTypeId::ProgramEnd,
            0x12 => SegmentationTypeId::ProgramEarlyTermination,
            0x13 => SegmentationTypeId::ProgramBreakaway,
            0x14 => SegmentationTypeId::ProgramResumption,
            0x15 => SegmentationTypeId::ProgramRunoverPlanned,
            0x16 => SegmentationTypeId::ProgramRunoverUnplanned,
            0x17 => SegmentationTypeId::ProgramOverlapStart,
            0x18 => SegmentationTypeId::ProgramBlackoutOverride,
            0x19 => SegmentationTypeId::ProgramStartInProgress,
            0x1a..=0x1f => SegmentationTypeId::Reserved(id),
            0x20 => SegmentationTypeId::ChapterStart,
            0x21 => SegmentationTypeId::ChapterEnd,
            0x22 => SegmentationTypeId::BreakStart,
            0x23 => SegmentationTypeId::BreakEnd,
            0x24..=0x2f => SegmentationTypeId::Reserved(id),
            0x30 => SegmentationTypeId::ProviderAdvertisementStart,
            0x31 => SegmentationTypeId::ProviderAdvertisementEnd,
            0x32 => SegmentationTypeId::DistributorAdvertisementStart,
            0x33 => SegmentationTypeId::DistributorAdvertisementEnd,
            0x34 => SegmentationTypeId::ProviderPlacementOpportunityStart,
            0x35 => SegmentationTypeId::ProviderPlacementOpportunityEnd,
            0x36 => SegmentationTypeId::DistributorPlacementOpportunityStart,
            0x37 => SegmentationTypeId::DistributorPlacementOpportunityEnd,
            0x38..=0x3f => SegmentationTypeId::Reserved(id),
            0x40 => SegmentationTypeId::UnscheduledEventStart,
            0x41 => SegmentationTypeId::UnscheduledEventEnd,
            0x42..=0x4f => SegmentationTypeId::Reserved(id),
            0x50 => SegmentationTypeId::NetworkStart,
            0x51 => SegmentationTypeId::NetworkEnd,
            0x52..=0xff => SegmentationTypeId::Reserved(id),
        }
    }
}

// The number of a value.
impl From<SegmentationTypeId> for u8 {
    ghost from_gives = { λ x id. id ≡ segmentation_number x };

    fn from(x: SegmentationTypeId) -> u8 {
        match x {
            SegmentationTypeId::NotIndicated => 0x00,
            SegmentationTypeId::ContentIdentification => 0x01,
            SegmentationTypeId::ProgramStart => 0x10,
            SegmentationTypeId::ProgramEnd => 0x11,
            SegmentationTypeId::ProgramEarlyTermination => 0x12,
            SegmentationTypeId::ProgramBreakaway => 0x13,
            SegmentationTypeId::ProgramResumption => 0x14,
            SegmentationTypeId::ProgramRunoverPlanned => 0x15,
            SegmentationTypeId::ProgramRunoverUnplanned => 0x16,
            SegmentationTypeId::ProgramOverlapStart => 0x17,
            SegmentationTypeId::ProgramBlackoutOverride => 0x18,
            SegmentationTypeId::ProgramStartInProgress => 0x19,
            SegmentationTypeId::ChapterStart => 0x20,
            SegmentationTypeId::ChapterEnd => 0x21,
            SegmentationTypeId::BreakStart => 0x22,
            SegmentationTypeId::BreakEnd => 0x23,
            SegmentationTypeId::ProviderAdvertisementStart => 0x30,
            SegmentationTypeId::ProviderAdvertisementEnd => 0x31,
            SegmentationTypeId::DistributorAdvertisementStart => 0x32,
            SegmentationTypeId::DistributorAdvertisementEnd => 0x33,
            SegmentationTypeId::ProviderPlacementOpportunityStart => 0x34,
            SegmentationTypeId::ProviderPlacementOpportunityEnd => 0x35,
            SegmentationTypeId::DistributorPlacementOpportunityStart => 0x36,
            SegmentationTypeId::DistributorPlacementOpportunityEnd => 0x37,
            SegmentationTypeId::UnscheduledEventStart => 0x40,
            SegmentationTypeId::UnscheduledEventEnd => 0x41,
            SegmentationTypeId::NetworkStart => 0x50,
            SegmentationTypeId::NetworkEnd => 0x51,
            SegmentationTypeId::Reserved(n) => n,
        }
    }
}

impl Numbered for SegmentationTypeId {
    ghost table = { segmentations };

    ghost from_is = { segmentation_is };

    ghost into_is = { λ _ _ e. e };

    fn class(self) -> NumberClass {
        match self {
            SegmentationTypeId::Reserved(_) => NumberClass::Reserved,
            _ => NumberClass::Named,
        }
    }
}
