// Where the listing goes, and where it is said why there is no more of it.
use std::alloc::Global;
use std::io;
use std::io::{Stderr, Stdout};

// The listing ends here. Standard error says why.
#[derive(Clone, Copy, Debug, PartialEq, Eq)]
pub(crate) struct Cut;

#[derive(Clone, Copy)]
pub(crate) struct Outputs {
    listing: Stdout,
    reasons: Stderr,
    alloc: Global,
}

impl Outputs {
    pub(crate) fn new(listing: Stdout, reasons: Stderr, alloc: Global) -> Outputs {
        Outputs {
            listing,
            reasons,
            alloc,
        }
    }

    // Writes all of the bytes to the listing, or says why not.
    pub(crate) fn write(self, bytes: &[u8]) -> Result<(), Cut> {
        match self.listing.write_all(bytes) {
            Ok(()) => Ok(()),
            Err(error) => Err(self.fail("standard output", error)),
        }
    }

    // A line of standard error. If it cannot be written, nobody can be told.
    pub(crate) fn say(self, line: &str) {
        let _ = eprintln!(self.reasons; "{line}");
    }

    // What failed, and why in the system's words. Its number of the error, which std puts behind them, is left out.
    pub(crate) fn fail(self, what: &str, error: io::Error) -> Cut {
        let _ = match format!(in self.alloc; "{error}") {
            Ok(text) => {
                let why = before(text.as_str(), " (os error ");
                eprintln!(self.reasons; "{what}: {why}")
            }
            Err(_) => eprintln!(self.reasons; "{what}: {error}"),
        };
        Cut
    }
}

// The text in front of a mark, or all of it if the mark is not there.
fn before<'a>(text: &'a str, mark: &str) -> &'a str {
    text.split_once(mark).map_or(text, |(front, _)| front)
}
