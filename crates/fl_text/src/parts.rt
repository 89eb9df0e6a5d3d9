//! What a node's kind has beside its edges and its stage.
use crate::names::Name;
use ps_lines::Text;
use ps_world::Path;
use ut_options::Texts;

/// The kind of a node as its object's members have it: its name, and what else is there.
#[derive(Debug, Drop)]
pub struct Parts {
    pub name: Name,
    /// Whether a file is written behind what it holds.
    pub append: Option<bool>,
    /// Whether a cat closes its inputs.
    pub close: Option<bool>,
    /// The path of a file that is read or written.
    pub path: Option<Path>,
    /// The text of a text node.
    pub text: Option<Text>,
    /// The words of an invocation.
    pub words: Option<Texts>,
}
