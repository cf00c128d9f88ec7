// encryption_algorithm, six bits of the splice header.
ghost use Rattle.std.specs.Prelude.{◌≡◌};
ghost use Rattle.names.specs.Algorithm.{algorithm_of, algorithm_number, algorithms, algorithm_is};

use crate::numbering::{NumberClass, Numbered};

#[derive(Clone, Copy)]
pub enum EncryptionAlgorithm {
    None,
    DesEcb,
    DesCbc,
    TripleDesEde3Ecb,
    Reserved(u8),
    Private(u8),
}

// The value that a number stands for.
impl From<u8> for EncryptionAlgorithm {
    ghost from_gives = { λ id x. x ≡ algorithm_of id };

    #[tactic(auto, unfolding(crate::specs::Algorithm::algorithm_of))]
    fn from(id: u8) -> EncryptionAlgorithm {
        match id {
            0 => EncryptionAlgorithm::None,
            1 => EncryptionAlgorithm::DesEcb,
            2 => EncryptionAlgorithm::DesCbc,
            3 => EncryptionAlgorithm::TripleDesEde3Ecb,
            4..=31 => EncryptionAlgorithm::Reserved(id),
            32..=255 => EncryptionAlgorithm::Private(id),
        }
    }
}

// The number of a value.
impl From<EncryptionAlgorithm> for u8 {
    ghost from_gives = { λ x id. id ≡ algorithm_number x };

    fn from(x: EncryptionAlgorithm) -> u8 {
        match x {
            EncryptionAlgorithm::None => 0,
            EncryptionAlgorithm::DesEcb => 1,
            EncryptionAlgorithm::DesCbc => 2,
            EncryptionAlgorithm::TripleDesEde3Ecb => 3,
            EncryptionAlgorithm::Reserved(n) => n,
            EncryptionAlgorithm::Private(n) => n,
        }
    }
}

impl Numbered for EncryptionAlgorithm {
    ghost table = { algorithms };

    ghost from_is = { algorithm_is };

    ghost into_is = { λ _ _ e. e };

    fn class(self) -> NumberClass {
        match self {
            EncryptionAlgorithm::Reserved(_) => NumberClass::Reserved,
            EncryptionAlgorithm::Private(_) => NumberClass::Private,
            _ => NumberClass::Named,
        }
    }
}
