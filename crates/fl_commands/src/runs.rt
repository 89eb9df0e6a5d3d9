//! Runs of utilities over what their operands name.
ghost use Rattle.std.specs.Prelude.{◌≡◌, ◌+◌, ◌<◌, ◌≤◌, ◌^◌, length, true, Some, IfSome};
ghost use Rattle.std.specs.List.{filter_map, list_all};
ghost use Rattle.ps_world.specs.Files.{Files, NoWriterOut, bytes_at};
ghost use Rattle.ut_args.specs.Built.{is_built_of};
ghost use Rattle.ut_args.specs.Inputs.{operands_of};
ghost use Rattle.ut_args.specs.Invocations.{command_of};
ghost use Rattle.fl_graph.specs.Paths.{ArePathsApart, paths_read, paths_written};
ghost use Rattle.fl_graph.specs.Valid.{Valid};
ghost use Rattle.fl_classes.specs.Kinds.{are_run};
ghost use Rattle.fl_segments.specs.Groups.{marks_hold};
ghost use Rattle.fl_segments.specs.Stages.{file_in, files_read, files_written, is_stage};
ghost use Rattle.fl_commands.specs.Inner.Overs.{RunsOver, done_by, ended_by, ended_of};
ghost use Rattle.fl_commands.specs.Inner.Segments.{AllThere, segment_asks};
ghost use Rattle.fl_commands.specs.Members.{AllCanRun, AllNamesStand, files_named, files_teed};
ghost use Rattle.fl_commands.specs.Operands.{AllStand, AreNamed, deals, ins_of as ins_of_def};
ghost use Rattle.fl_commands.specs.Runs.{Runs, RunsCommand, RunsPipeline, counts_of, graph_asks};
ghost use Rattle.fl_commands.specs.Writers.{AreBegun, AreFilesAt, AreWrittenApart, MayWrite};

use crate::lending::{Lent, lend};
use crate::marks::stages_at;
use crate::members::Member;
use crate::operands::Operand;
use crate::readers::give_back;
use crate::stages::stage_of;
use crate::writers::end_writers;
use fl_core::Ends;
use fl_engines::{Came, Engine, Over, number_ends, run_own};
use fl_graph::Graph;
use fl_segments::{First, MAX_STAGES, Stage, compile};
use ps_world::{Gate, Path, Sink, Source, Tree, WorldErr};
use std::alloc::Global;
use ut_args::Inv;

/// How a run of utilities came out.
#[derive(Clone, Copy, Debug, PartialEq, Eq)]
pub enum Ended {
    /// It has run to its end, with this exit status.
    Done(u8),
    /// Standard input failed.
    Input,
    /// The output failed.
    Output,
    /// The tree failed.
    Tree,
    /// Memory was refused.
    Memory,
}

/// How a run of utilities came out, with the input and output that it was handed.
pub struct Commanded<I, O> {
    pub ended: Ended,
    pub input: I,
    pub out: O,
}

/// Runs a utility over what its operands name, as a graph on the engine, and writes its output.
///
/// `operands` are what the words of its operands name (`look_at`); none of an operand that has no input is read. The stream that `-` names,
/// and the lack of an operand, begins so; where that is the input, it is read to its end. `tees` are the files that `tee` writes: they are
/// there already, and get its input behind what they hold. Done leaves the output of the utility without the operands that have no input
/// behind what the output has taken, and its words behind those that the engine has noted; after any other answer a front of the output is
/// written. Each reader and writer that the tree lent has gone back to it. A fault is told only where the count of its object rose.
///
/// What some utilities do where an operand has no input, nothing at all, is the caller's: it doesn't run them then.
pub fn run_command<T: Tree, I: Source + Send, O: Sink + Send, G: Gate, X: Engine>(
    alloc: Global,
    inv: &Inv,
    operands: &[Operand],
    tees: &[Path],
    from: &First,
    tree: &mut T,
    input: I,
    out: O,
    gate: &G,
    engine: &mut X,
) -> Commanded<I, O>
    requires built { is_built_of inv.now ≡ true }
    requires named { AreNamed (operands_of inv.now) operands.now }
    requires few { length operands.now + 1 < 2 ^ 32 }
    requires tees { MayWrite inv.now tees.now }
    requires apart { AreWrittenApart (filter_map file_in (ins_of_def (deals (command_of inv.now)) operands.now)) tees.now }
    requires stand { IfSome (T.state tree.old).held (λ files. AllStand files operands.now) }
    requires whole { IfSome (T.state tree.old).held NoWriterOut }
    requires begun { AreBegun (T.state tree.old).held tees.now }
    ensures { RunsCommand inv.now operands.now tees.now from.now (T.state tree.old) (T.state tree.new) (I.left input) (I.left result.input) (O.taken out) (O.taken result.out)
        (counts_of (I.faults input) (O.faults out) (T.faults tree.old)) (counts_of (I.faults result.input) (O.faults result.out) (T.faults tree.new))
        (X.used engine.old) (X.used engine.new) result.ended }
{
    let Ok(stage) = stage_of(alloc, inv, operands, tees) else {
        return Commanded {
            ended: Ended::Memory,
            input,
            out,
        };
    };
    run_segment(
        alloc,
        [stage].as_slice(),
        from,
        tree,
        input,
        out,
        gate,
        engine,
    )
}

/// Runs the members of a pipeline (XCU 2.9.2), each over the output of the one before, as one graph on the engine, and writes what the last
/// one writes.
///
/// No call gathers what goes from one member to the next: it goes over the edges of the graph. The stream of the first begins so, and what is said of a utility
/// (`run_command`) holds of each member, also of the files that `tee` writes. The status is the last one's.
pub fn run_pipeline<T: Tree, I: Source + Send, O: Sink + Send, G: Gate, X: Engine>(
    alloc: Global,
    members: &[Member],
    from: &First,
    tree: &mut T,
    input: I,
    out: O,
    gate: &G,
    engine: &mut X,
) -> Commanded<I, O>
    requires some { 1 ≤ length members.now }
    requires most { length members.now ≤ MAX_STAGES }
    requires ready { AllCanRun members.now }
    requires apart { AreWrittenApart (files_named members.now) (files_teed members.now) }
    requires stand { IfSome (T.state tree.old).held (λ files. AllNamesStand files members.now) }
    requires whole { IfSome (T.state tree.old).held NoWriterOut }
    requires begun { AreBegun (T.state tree.old).held (files_teed members.now) }
    ensures { RunsPipeline members.now from.now (T.state tree.old) (T.state tree.new) (I.left input) (I.left result.input) (O.taken out) (O.taken result.out)
        (counts_of (I.faults input) (O.faults out) (T.faults tree.old)) (counts_of (I.faults result.input) (O.faults result.out) (T.faults tree.new))
        (X.used engine.old) (X.used engine.new) result.ended }
{
    let stages = match stages_at(alloc, engine.width(), members, tree) {
        Ok(stages) => stages,
        Err(error) => {
            return Commanded {
                ended: of_tree(error),
                input,
                out,
            };
        }
    };
    run_segment(
        alloc,
        stages.as_slice(),
        from,
        tree,
        input,
        out,
        gate,
        engine,
    )
}

/// Runs stages, whose files are there, and those that are marked closed are so.
///
/// A file that is written gets its text behind what it holds.
fn run_segment<T: Tree, I: Source + Send, O: Sink + Send, G: Gate, X: Engine>(
    alloc: Global,
    segment: &[Stage],
    from: &First,
    tree: &mut T,
    input: I,
    out: O,
    gate: &G,
    engine: &mut X,
) -> Commanded<I, O>
    requires some { 1 ≤ length segment.now }
    requires most { length segment.now ≤ MAX_STAGES }
    requires stages { list_all is_stage segment.now ≡ true }
    requires paths { ArePathsApart (files_read segment.now) (files_written segment.now) }
    requires there { IfSome (T.state tree.old).held (λ files. AllThere files segment.now) }
    requires begun { IfSome (T.state tree.old).held (λ files. AreFilesAt files (files_written segment.now)) }
    requires marks { (files : Files) → (T.state tree.old).held ≡ Some files → marks_hold (bytes_at files) segment.now ≡ true }
    ensures { Runs (segment_asks segment.now from.now) (T.state tree.old) (T.state tree.new) (I.left input) (I.left result.input) (O.taken out) (O.taken result.out)
        (counts_of (I.faults input) (O.faults out) (T.faults tree.old)) (counts_of (I.faults result.input) (O.faults result.out) (T.faults tree.new))
        (X.used engine.old) (X.used engine.new) result.ended }
{
    let Ok(graph) = compile(alloc, segment, from, engine.width()) else {
        return Commanded {
            ended: Ended::Memory,
            input,
            out,
        };
    };
    run_graph(alloc, &graph, tree, input, out, gate, engine)
}

/// Runs a graph over the files that its nodes read and write, which are there, the input and the output.
///
/// A file that is written gets its text behind what it holds, whatever its node's mode; where it's to be begun anew, the caller does that. Done
/// leaves the graph's outcome, for the texts of the input and of the files as they were, and its words behind those that the engine has noted.
/// What is said of a utility (`run_command`) holds of a graph: of a front of the output, of what the tree lent, and of faults.
pub fn run_graph<T: Tree, I: Source + Send, O: Sink + Send, G: Gate, X: Engine>(
    alloc: Global,
    graph: &Graph,
    tree: &mut T,
    input: I,
    out: O,
    gate: &G,
    engine: &mut X,
) -> Commanded<I, O>
    requires valid { Valid graph.now.nodes graph.now.status }
    requires there { IfSome (T.state tree.old).held (λ files. AreFilesAt files (paths_read graph.now.nodes)) }
    requires begun { IfSome (T.state tree.old).held (λ files. AreFilesAt files (paths_written graph.now.nodes)) }
    ensures { Runs (graph_asks graph.now) (T.state tree.old) (T.state tree.new) (I.left input) (I.left result.input) (O.taken out) (O.taken result.out)
        (counts_of (I.faults input) (O.faults out) (T.faults tree.old)) (counts_of (I.faults result.input) (O.faults result.out) (T.faults tree.new))
        (X.used engine.old) (X.used engine.new) result.ended }
{
    let lent = match lend(alloc, graph.nodes.as_slice(), tree) {
        Ok(lent) => lent,
        Err(error) => {
            return Commanded {
                ended: of_tree(error),
                input,
                out,
            };
        }
    };
    let Lent {
        readers,
        paths,
        writers,
        written,
    } = lent;
    let Over { came, ends } = run_over::<T, I, O, G, X>(
        alloc, graph, readers, writers, input, out, gate, engine,
    );
    let Ends {
        readers,
        writers,
        input,
        out,
    } = ends;
    let returned = end_writers(writers, written, tree);
    give_back(readers, paths, tree);
    Commanded {
        ended: how_ended(came, returned),
        input,
        out,
    }
}

/// How a run of utilities came out, by how that of its graph did, and how its writers went back.
fn how_ended(came: Came, returned: Result<(), WorldErr>) -> Ended
    ensures { result ≡ ended_by came returned }
{
    match came {
        Came::Done(status) => done(status, returned),
        Came::Input => Ended::Input,
        Came::Output => Ended::Output,
        Came::Reader => Ended::Tree,
        Came::Writer => Ended::Tree,
        Came::Memory => Ended::Memory,
    }
}

/// How one that has run to its end came out, by how its writers went back.
fn done(status: u8, returned: Result<(), WorldErr>) -> Ended
    ensures { result ≡ done_by status returned }
{
    match returned {
        Ok(()) => Ended::Done(status),
        Err(error) => of_tree(error),
    }
}

/// How it came out where a file can't be opened.
pub(crate) fn of_tree(error: WorldErr) -> Ended
    ensures { result ≡ ended_of error }
{
    match error {
        WorldErr::Failed => Ended::Tree,
        WorldErr::Memory => Ended::Memory,
    }
}

/// Runs a graph over these readers and writers, the input and the output.
fn run_over<T: Tree, I: Source + Send, O: Sink + Send, G: Gate, X: Engine>(
    alloc: Global,
    graph: &Graph,
    readers: Vec<(u32, T::Reader)>,
    writers: Vec<(u32, T::Writer)>,
    input: I,
    out: O,
    gate: &G,
    engine: &mut X,
) -> Over<T::Reader, T::Writer, I, O>
    requires valid { Valid graph.now.nodes graph.now.status }
    requires kinds { are_run graph.now.nodes ≡ true }
    requires reads { length readers.items ≡ length (paths_read graph.now.nodes) }
    requires writes { length writers.items ≡ length (paths_written graph.now.nodes) }
    ensures { RunsOver T.Reader.left I.left T.Writer.taken O.taken T.Reader.faults T.Writer.faults I.faults O.faults graph.now readers.items writers.items input out (X.used engine.old) (X.used engine.new) result.came result.ends }
{
    let mut ends = Ends {
        readers,
        writers,
        input,
        out,
    };
    match number_ends(graph, &mut ends) {
        Ok(true) => run_own(alloc, engine, graph, ends, gate),
        Ok(false) => unreachable!(),
        Err(_refused) => Over {
            came: Came::Memory,
            ends,
        },
    }
}
