//! What engines tell of themselves.
ghost use Rattle.std.specs.Prelude.{◌≡◌, [], OnOk, OnErr};
ghost use Rattle.fl_classes.specs.Used.{words_used};
ghost use Rattle.fl_engines.specs.Logs.{Log, at_width, log_of, with_words};

use crate::words::add_words;
use fl_graph::Graph;
use ps_lines::Memory;
use std::alloc::Global;
use std::marker::Model;
use ut_options::Texts;

/// Over how many parts an engine spreads graphs, and the words of the utilities that its graphs have run, in the order of the runs.
#[derive(Debug, Drop)]
pub(crate) struct Journal {
    width: u32,
    words: Vec<Texts>,
    alloc: Global,
}

impl Model for Journal {
    ghost Value = { Log };

    ghost view = { λ journal. log_of journal.width journal.words.items };
}

impl Journal {
    /// Nothing was run, and graphs aren't spread.
    pub(crate) fn new(alloc: Global) -> Journal
        ensures { result ≡ log_of 1 [] }
    {
        Journal {
            width: 1,
            words: Vec::new(alloc),
            alloc,
        }
    }

    /// Over how many parts graphs are spread.
    pub(crate) fn width(&self) -> u32
        ensures { result ≡ self.now.width }
    {
        self.width
    }

    /// Graphs are spread over so many parts from now on.
    pub(crate) fn spread_over(&mut self, width: u32)
        ensures { self.new ≡ at_width width self.old }
    {
        self.width = width;
    }

    /// Puts the words of a graph's utilities behind those that were run. Where memory is refused nothing has changed.
    pub(crate) fn note(&mut self, graph: &Graph) -> Result<(), Memory>
        ensures ok { OnOk result (self.new ≡ with_words (words_used graph.now.nodes) self.old) }
        ensures err { OnErr result (self.new ≡ self.old) }
    {
        add_words(self.alloc, &mut self.words, graph.nodes.as_slice())
    }

    /// The words of the utilities that were run.
    pub(crate) fn words(&self) -> &[Texts]
        ensures { result.now ≡ self.now.words }
    {
        self.words.as_slice()
    }
}
