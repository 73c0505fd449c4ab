//! What a state keeps of an image, and what a survey answers.
ghost use Rattle.std.specs.Prelude.{◌≡◌};

use flash_traits::{Fault, Region};
use guard_row::GuardError;
use sector_log::Log;

/// The four states in which an image may be found.
#[derive(Clone, Copy, Debug, PartialEq, Eq)]
pub enum Shape {
    /// Home is in use, and the other sector is available.
    Alone,
    /// Home is full, and the other sector is available.
    Marked,
    /// Home is full, and the other sector is in use.
    Spilled,
    /// One sector is in use, and the other is void.
    Voided,
}

/// What a state keeps of the image.
#[derive(Clone, Copy, Debug, PartialEq, Eq)]
pub struct Kept {
    /// The board's sector size.
    pub sector_bytes: u32,
    /// The guard count, at most 8,192.
    pub guard: u16,
    /// The log of the home sector, or of the sector that isn't void.
    pub home: Log,
    /// The log of the sector in use beside a full home.
    pub other: Option<Log>,
    /// Whether the torn last entry of `other` can be completed into the copy of a chunk.
    pub completable: bool,
}

/// What a survey finds.
#[derive(Clone, Copy, Debug, PartialEq, Eq)]
pub struct Survey {
    pub shape: Shape,
    pub kept: Kept,
}

/// Why there is no survey.
#[derive(Clone, Copy, Debug, PartialEq, Eq)]
pub enum SurveyError {
    /// A read failed.
    Fault(Fault),
    /// The words are no image: this is the first foreign word, with its offset in halfwords.
    Foreign {
        region: Region,
        offset: u32,
        word: u16,
    },
}

impl From<Fault> for SurveyError {
    ghost use Rattle.sector_image.specs.declared.kept.SurveyError.TheVariants as errors;

    ghost from_gives = { λ fault e. e ≡ errors.Fault fault };

    fn from(fault: Fault) -> SurveyError {
        SurveyError::Fault(fault)
    }
}

/// A word that isn't of the guard row's grammar is foreign there.
impl From<GuardError> for SurveyError {
    ghost use Rattle.sector_image.specs.Steps.Errors.{error_of_guard};

    ghost from_gives = { λ refusal e. e ≡ error_of_guard refusal };

    fn from(refusal: GuardError) -> SurveyError {
        match refusal {
            GuardError::Fault(kind) => SurveyError::Fault(kind),
            GuardError::Word { offset, word } => SurveyError::Foreign {
                region: Region::Guard,
                offset,
                word,
            },
        }
    }
}
