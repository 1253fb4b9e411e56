//! The reasons why a filter ends early.
ghost use Rattle.std.specs.Prelude.{◌≡◌};
ghost use Rattle.text_filter.specs.declared.fault.FilterFault.TheVariants.{Memory};

use std::alloc::AllocError;

/// The reason why a filter ended early.
#[derive(Clone, Copy, Debug, PartialEq, Eq)]
pub enum FilterFault {
    /// The source has failed.
    Read = 1,
    /// The sink has failed.
    Write = 2,
    /// An allocation has failed.
    Memory = 3,
}

/// The front of the line for a fault.
const NAME: &str = "symfilter: ";

impl FilterFault {
    ghost use Rattle.text_filter.specs.Fault.{reason_of, line_of};

    /// Returns the words for the fault, without a program's name in front: `read failed`, `write failed` or
    /// `out of memory`.
    pub fn reason(&self) -> &'static str
        ensures words { result.now ≡ reason_of self.now }
    {
        &self.line()[NAME.len()..]
    }

    /// Returns the line that the program `symfilter` prints for the fault: the program's name, and the words.
    pub fn line(&self) -> &'static str
        ensures words { result.now ≡ line_of self.now }
    {
        match self {
            FilterFault::Read => "symfilter: read failed",
            FilterFault::Write => "symfilter: write failed",
            FilterFault::Memory => "symfilter: out of memory",
        }
    }
}

impl From<AllocError> for FilterFault {
    ghost from_gives = { λ _ fault. fault ≡ Memory };

    fn from(_error: AllocError) -> FilterFault {
        FilterFault::Memory
    }
}
