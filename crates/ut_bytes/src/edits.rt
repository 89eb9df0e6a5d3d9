//! What tr does to each byte before it squeezes.
use crate::tables::{Images, Marks};

/// What is done to each byte.
#[derive(Drop)]
pub enum Edit {
    /// It stays.
    Nothing,
    /// It is deleted where it is in the set.
    Delete(Marks),
    /// It becomes its image.
    Translate(Images),
}
