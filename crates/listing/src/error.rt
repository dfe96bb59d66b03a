ghost use Rattle.std.specs.Prelude.{◌≡◌};
ghost use Rattle.listing.specs.declared.error.ListingError.TheVariants.{NoTree, Memory};

use std::alloc::{AllocError, AllocFailed};
use std::error::Error;
use std::fmt;
use vocabulary::refusal::Refusal;

// Why there is no listing: the nodes have no tree, or there is no memory for the text.
#[derive(Clone, Copy, PartialEq, Eq, Debug)]
pub enum ListingError {
    NoTree(Refusal),
    Memory,
}

impl fmt::Display for ListingError {
    fn fmt<W: fmt::Write>(&self, f: &mut fmt::Formatter<W>) -> fmt::Result {
        match self {
            ListingError::NoTree(refusal) => write!(f, "{refusal}"),
            ListingError::Memory => f.write_str("there is no memory for the listing"),
        }
    }
}

impl Error for ListingError {}

// By hand, since the `From` that a derive writes has no contract, and a listing's answer tells the two apart.
impl From<Refusal> for ListingError {
    ghost from_gives = { λ refusal r. r ≡ NoTree refusal };

    fn from(refusal: Refusal) -> ListingError {
        ListingError::NoTree(refusal)
    }
}

impl From<AllocError> for ListingError {
    ghost from_gives = { λ _ r. r ≡ Memory };

    fn from(_e: AllocError) -> ListingError {
        ListingError::Memory
    }
}

impl<T: Drop> From<AllocFailed<T>> for ListingError {
    ghost from_gives = { λ _ r. r ≡ Memory };

    fn from(_e: AllocFailed<T>) -> ListingError {
        ListingError::Memory
    }
}
