// The second ledger's images: read into the book, judged, and written from the book.
#![tactic(auto)]

mod judge;
mod read;
mod write;

pub use judge::is_valid;
pub use read::read_image;
pub use write::write_image;
