// Why a run stops before the input's end, or without its answers.
ghost use Rattle.std.specs.Prelude.{◌≡◌};
ghost use Rattle.text_serve.specs.declared.error.RunError.TheVariants as errors;

use std::error::Error;
use std::fmt;
use text_io::{Unread, Unwritten};

#[derive(Clone, Copy, Debug, PartialEq, Eq)]
pub enum RunError {
    Unread,
    TooLong,
    Unwritten,
}

impl From<Unread> for RunError {
    ghost from_gives = { λ _ e. e ≡ errors.Unread };

    fn from(_e: Unread) -> RunError {
        RunError::Unread
    }
}

impl From<Unwritten> for RunError {
    ghost from_gives = { λ _ e. e ≡ errors.Unwritten };

    fn from(_e: Unwritten) -> RunError {
        RunError::Unwritten
    }
}

impl fmt::Display for RunError {
    fn fmt<W: fmt::Write>(&self, f: &mut fmt::Formatter<W>) -> fmt::Result {
        match self {
            Self::Unread => write!(f, "input cannot be read"),
            Self::TooLong => write!(f, "input is too long"),
            Self::Unwritten => write!(f, "output cannot be written"),
        }
    }
}

impl Error for RunError {}
