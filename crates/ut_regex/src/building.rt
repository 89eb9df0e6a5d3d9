//! The tree of an expression, made piece by piece.
ghost use Rattle.std.specs.Prelude.{◌≡◌, [], OnOk, IfOk};
ghost use Rattle.ut_regex.specs.Tree.{with_nodes, with_node};
ghost use Rattle.ut_regex.specs.Inner.Building.{start, fresh, grown, with_part, ended, joined, built};

use crate::pieces::Piece;
use crate::tree::Node;
use std::alloc::{AllocError, Global};

/// How many parts a side has so far. Those before the last are joined already.
#[derive(Clone, Copy, Debug, PartialEq, Eq)]
pub(crate) enum Parts {
    Nothing,
    One,
    More,
}

/// Where an open group has come to.
#[derive(Clone, Copy, Debug, PartialEq, Eq)]
pub(crate) struct Level {
    /// A side was ended by a bar.
    pub barred: bool,
    /// The parts of the side that is read.
    pub parts: Parts,
}

impl Level {
    /// Nothing was read in the group.
    fn fresh() -> Level
        ensures { result ≡ fresh }
    {
        Level {
            barred: false,
            parts: Parts::Nothing,
        }
    }
}

/// The nodes of what was read, and where the open groups have come to.
#[derive(Drop)]
pub(crate) struct Builder {
    nodes: Vec<Node>,
    level: Level,
    outer: Vec<Level>,
}

impl Builder {
    /// Nothing was read.
    pub(crate) fn new(alloc: Global) -> Builder
        ensures { built result ≡ start }
    {
        Builder {
            nodes: Vec::new(alloc),
            level: Level::fresh(),
            outer: Vec::new(alloc),
        }
    }

    /// Adds a piece.
    pub(crate) fn add(&mut self, piece: Piece) -> Result<(), AllocError>
        ensures { OnOk result (built self.new ≡ grown piece (built self.old)) }
    {
        match piece {
            Piece::One(one) => self.add_item(Node::Leaf(one)),
            Piece::Begin => self.add_item(Node::Begin),
            Piece::End => self.add_item(Node::End),
            Piece::Open => {
                self.begin_part()?;
                self.outer.push(self.level)?;
                self.level = Level::fresh();
                Ok(())
            }
            Piece::Close => {
                self.end_sides()?;
                self.add_node(Node::Group)?;
                self.level = self.outer.pop().unwrap_or(Level::fresh());
                Ok(())
            }
            Piece::Bar => {
                self.end_sides()?;
                self.level = Level {
                    barred: true,
                    parts: Parts::Nothing,
                };
                Ok(())
            }
            Piece::Repeat(bounds) => self.add_node(Node::Repetition(bounds)),
        }
    }

    /// The nodes, behind the last piece.
    pub(crate) fn finish(mut self) -> Result<Vec<Node>, AllocError>
        ensures { IfOk result (λ nodes. with_nodes [] nodes.items ≡ ended self.level (built self).trees) }
    {
        self.end_sides()?;
        Ok(self.nodes)
    }

    /// Adds an item that has no parts.
    fn add_item(&mut self, node: Node) -> Result<(), AllocError>
        ensures { OnOk result (built self.new ≡ record { trees = with_node (joined self.old.level.parts (built self.old).trees) node; level = with_part self.old.level; outer = (built self.old).outer }) }
    {
        self.begin_part()?;
        self.add_node(node)
    }

    /// Joins the parts of the side before the next one.
    fn begin_part(&mut self) -> Result<(), AllocError>
        ensures { OnOk result (built self.new ≡ record { trees = joined self.old.level.parts (built self.old).trees; level = with_part self.old.level; outer = (built self.old).outer }) }
    {
        match self.level.parts {
            Parts::Nothing => {
                self.level.parts = Parts::One;
                Ok(())
            }
            Parts::One => {
                self.level.parts = Parts::More;
                Ok(())
            }
            Parts::More => self.add_node(Node::Sequence),
        }
    }

    /// Makes one of the sides, at the end of the last.
    fn end_sides(&mut self) -> Result<(), AllocError>
        ensures { OnOk result (built self.new ≡ record { trees = ended self.old.level (built self.old).trees; level = self.old.level; outer = (built self.old).outer }) }
    {
        match self.level.parts {
            Parts::Nothing => self.add_node(Node::Empty)?,
            Parts::One => {}
            Parts::More => self.add_node(Node::Sequence)?,
        }
        if self.level.barred {
            self.add_node(Node::Alternative)
        } else {
            Ok(())
        }
    }

    /// Adds a node.
    #[tactic(auto, using(crate::proofs::NodeLemmas::with_nodes_one))]
    fn add_node(&mut self, node: Node) -> Result<(), AllocError>
        ensures { OnOk result (built self.new ≡ record { trees = with_node (built self.old).trees node; level = self.old.level; outer = (built self.old).outer }) }
    {
        self.nodes.push(node)?;
        Ok(())
    }
}
