// Binary PGM (P5) in and out, over lent memory: the calls under one name. Every call answers on every input, and a refusal writes nothing.
// What holds of both, that an accepted file has the page's shape and that a written picture reads back the same, is proved here, and what
// a file that is cut short answers.
#![tactic(auto)]

pub use pgm_read::{Picture, raster, read};
pub use pgm_write::write;
