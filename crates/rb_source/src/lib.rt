//! Contexts for programs: pieces, which hold them, and sources, which fill pieces from a list or from any reader.
#![tactic(auto)]

mod agreement;
mod counts;
mod delivery;
mod form;
mod framed_reader;
mod framing;
mod list_source;
mod long;
mod piece;
mod portion_parser;
mod source;
mod window;

pub use agreement::sources_agree;
pub use counts::ContextCounts;
pub use form::{Fit, Form};
pub use framed_reader::FramedReader;
pub use framing::Framing;
pub use list_source::ListSource;
pub use piece::{PIECE_SIZE, Piece};
pub use source::{Filled, Source, SourceFault};
