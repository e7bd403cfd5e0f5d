//! How a run ends.
ghost use Rattle.std.specs.Prelude.{◌≡◌};
ghost use Rattle.cube_run.specs.Ends.{code_of, status_of, words_status};

use cube_args::WordsStop;
use cube_state::Stop;
use fact_model::Memory;
use std::alloc::AllocError;

/// How a run ended.
#[derive(Clone, Copy, Debug, PartialEq, Eq)]
pub enum Status {
    /// The script was read to its end, and every reply was told.
    Done,
    /// The words are not those that the program takes. Nothing was read, written or told.
    Usage,
    /// The source failed.
    Input,
    /// A file failed.
    Disk,
    /// The output failed. The first bytes of a reply may have been told.
    Output,
    /// A file does not hold what the warehouse writes, from this offset on.
    Damaged { file: u32, offset: u64 },
    /// Want of memory.
    Memory,
    /// The script is longer than its limit.
    TooLong,
}

impl Status {
    /// The exit status of the process.
    pub fn code(&self) -> u8
        ensures { result ≡ code_of self.now }
    {
        match self {
            Status::Done => 0,
            Status::Usage => 2,
            Status::Input => 3,
            Status::Disk => 4,
            Status::Output => 5,
            Status::Damaged { .. } => 6,
            Status::Memory => 7,
            Status::TooLong => 8,
        }
    }
}

impl From<Memory> for Status {
    ghost use Rattle.cube_run.specs.declared.exit.Status.TheVariants as statuses;

    ghost from_gives = { λ _ status. status ≡ statuses.Memory };

    fn from(_memory: Memory) -> Status {
        Status::Memory
    }
}

impl From<AllocError> for Status {
    ghost use Rattle.cube_run.specs.declared.exit.Status.TheVariants as statuses;

    ghost from_gives = { λ _ status. status ≡ statuses.Memory };

    fn from(_error: AllocError) -> Status {
        Status::Memory
    }
}

impl From<WordsStop> for Status {
    ghost from_gives = { λ stop status. status ≡ words_status stop };

    fn from(stop: WordsStop) -> Status {
        match stop {
            WordsStop::Usage => Status::Usage,
            WordsStop::Memory => Status::Memory,
        }
    }
}

impl From<Stop> for Status {
    ghost from_gives = { λ stop status. status ≡ status_of stop };

    fn from(stop: Stop) -> Status {
        match stop {
            Stop::Disk => Status::Disk,
            Stop::Output => Status::Output,
            Stop::Damaged { file, offset } => Status::Damaged { file, offset },
            Stop::Memory => Status::Memory,
        }
    }
}
