//! Why an image isn't printed.
ghost use Rattle.std.specs.Prelude.{◌≡◌};
ghost use Rattle.image_report.specs.declared.errors.ReportError.TheVariants as errors;
ghost use Rattle.image_report.specs.Steps.Errors.{error_of_survey};

use flash_traits::{Failed, Fault, Region};
use sector_image::SurveyError;
use std::alloc::AllocError;
use thiserror::Error;

/// Why an image isn't printed.
#[derive(Clone, Copy, Debug, PartialEq, Eq, Drop, Error)]
pub enum ReportError {
    /// There was no memory for the storage bytes; nothing was read or written.
    #[error("no memory for the storage bytes")]
    Memory,
    /// A call of the board failed.
    #[error("a call of the board failed: {0:?}")]
    Fault(Fault),
    /// The words are no image: this is the first foreign word, with its offset in halfwords.
    #[error("foreign word {word:04X} at {offset} of {region:?}")]
    Foreign {
        region: Region,
        offset: u32,
        word: u16,
    },
    /// The sink failed; a prefix of the text was written.
    #[error("the output failed")]
    Output,
}

impl From<AllocError> for ReportError {
    ghost from_gives = { λ _ error. error ≡ errors.Memory };

    fn from(_: AllocError) -> ReportError {
        ReportError::Memory
    }
}

impl From<Fault> for ReportError {
    ghost from_gives = { λ kind error. error ≡ errors.Fault kind };

    fn from(kind: Fault) -> ReportError {
        ReportError::Fault(kind)
    }
}

impl From<SurveyError> for ReportError {
    ghost from_gives = { λ refusal error. error ≡ error_of_survey refusal };

    fn from(refusal: SurveyError) -> ReportError {
        match refusal {
            SurveyError::Fault(kind) => ReportError::Fault(kind),
            SurveyError::Foreign {
                region,
                offset,
                word,
            } => ReportError::Foreign {
                region,
                offset,
                word,
            },
        }
    }
}

/// A failed call here is one of the sink.
impl From<Failed> for ReportError {
    ghost from_gives = { λ _ error. error ≡ errors.Output };

    fn from(_: Failed) -> ReportError {
        ReportError::Output
    }
}
