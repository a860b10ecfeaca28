// What is wrong with an input, and at which line.
ghost use Rattle.std.specs.Prelude.{◌≡◌};

use draw::BadSource;
use inventory::NoSuchFamily;
use std::alloc::AllocError;
use thiserror::Error;

#[derive(Clone, Copy, PartialEq, Eq, Debug, Error)]
pub enum What {
    #[error("the input is not text")]
    NotText,
    #[error("the first line is `seed N` or `tape N N ..`")]
    NoSource,
    #[error("a number is due: digits alone, and not too large")]
    NotANumber,
    #[error(transparent)]
    NoSuchSource(#[from] BadSource),
    #[error("an item is a family and a number, as `key 3`")]
    NotAnItem,
    #[error(transparent)]
    NoSuchFamily(#[from] NoSuchFamily),
    #[error("the kinds of a family are numbered 0 to 31")]
    NoSuchKind,
    #[error("at most 256 items are dealt")]
    TooManyItems,
    #[error("out of memory")]
    NoMemory(#[from(alloc)] AllocError),
}

impl What {
    // What is wrong, said of a line.
    pub fn at_line(self, line: usize) -> Fault
        ensures line { result.line ≡ line }
        ensures what { result.what ≡ self }
    {
        Fault { line, what: self }
    }
}

// The line is counted from 1. For the whole input it is 0, a number and no Option, since 0 is what is printed.
#[derive(Clone, Copy, PartialEq, Eq, Debug, Error)]
#[error("line {line}: {what}")]
pub struct Fault {
    pub line: usize,
    pub what: What,
}
