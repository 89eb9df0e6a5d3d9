//! What the words of the command line come to before anything runs.
ghost use Rattle.std.specs.Prelude.{◌≡◌, false, IfErr, IfOk, IfSome, IsOkAnd, MatchOption};
ghost use Rattle.std.specs.Option.{option_map};
ghost use Rattle.ps_world.specs.Files.{NoWriterOut, IsFileAt, bytes_at};
ghost use Rattle.ps_world.specs.Places.{StandsIn, resolve};
ghost use Rattle.ps_world.specs.TreeState.{OnlyLent, TreeState};
ghost use Rattle.sh_parse.specs.Outcomes.{AreOutcomes, Readings};
ghost use Rattle.sh_tree.specs.Views.{script_tree};
ghost use Rattle.sh_eval.specs.Contract.{faults_of};
ghost use Rattle.pash.specs.Readings.{IsFrontOf, IsLoaded};
ghost use Rattle.pash.specs.Runs.{Stops};
ghost use Rattle.pash.specs.Starts.{IsOfCommand, IsOfText, IsReady, as_start, draws, file_of, over_text, runs, shell_of, setup_of, start_of, start_of_exec, start_of_graph, start_of_outcome, start_of_run, start_of_trial, text_of, uses_tree};
ghost use Rattle.pash.specs.Words.{as_run, command_of, reads_input, texts, uses_files};

use crate::answers::{RunFault, Why, answer_of, of_tree, refusal_of};
use crate::command::{Command, RunCommand, Sample};
use crate::reading::read_script;
use crate::words::read_command;
use fl_graph::Graph;
use fl_printed::check;
use ps_lines::{Memory, Text};
use ps_world::{Path, Place, Tree, look, read_front};
use sh_eval::Shell;
use sh_lex::MAX_SCRIPT;
use sh_parse::ParseRefusal;
use sh_tree::Script;
use std::alloc::Global;
use ut_options::Texts;

/// What the words of the command line come to.
#[derive(Debug, Drop)]
pub enum Start {
    /// Nothing runs, and this is the answer.
    Answered(Why),
    /// This script runs, and begins so.
    Script(Script, Setup),
    /// This graph runs: its patterns can be read, and its files are there or can be made.
    Graph(Graph),
    /// This text is written.
    Text(Sample),
    /// This script runs so over this text.
    Trial(Script, Setup, Sample),
}

/// The script of a trial: the three words that stand most often in its text.
const TRIAL_SCRIPT: &[u8] = b"tr -cs a-z '\\n' | sort | uniq -c | sort -rn | head -n 3";

/// What a script begins with.
#[derive(Debug, Drop)]
pub struct Setup {
    /// Its shell.
    pub shell: Shell,
    /// Over how many parts its graphs are spread, 1 to 16.
    pub width: u32,
}

/// Finds out what the words ask for: whether they are a command, and whether SCRIPT or GRAPH is a file, and its text a script, or that of a
/// graph that can run.
pub fn begin<T: Tree>(alloc: Global, tree: &mut T, words: &[String]) -> Result<Start, RunFault>
    requires whole { IfSome (T.state tree.old).held NoWriterOut }
    ensures start { IfOk result (λ start. (reads : Readings) → AreOutcomes reads → IfSome (T.state tree.old).held (λ files.
        as_start start ≡ start_of reads files (T.state tree.old).home (command_of (texts words.now)))) }
    ensures usage { IfOk result (λ start. MatchOption (command_of (texts words.now)) (start ≡ Start.Answered Why.Usage) (λ _. IsOfCommand start)) }
    ensures ready { IfOk result (IsReady (T.state tree.new)) }
    ensures unread { reads_input (command_of (texts words.now)) ≡ false → IfOk result (λ start. draws start ≡ false) }
    ensures unused { uses_files (command_of (texts words.now)) ≡ false → (tree.new ≡ tree.old) × IsOkAnd result (λ start. uses_tree start ≡ false) }
    ensures lent { OnlyLent (T.state tree.old) (T.state tree.new) }
    ensures cause { Stops (faults_of 0 0 0 (T.faults tree.old)) (faults_of 0 0 0 (T.faults tree.new)) result }
{
    match read_command(words) {
        Some(Command::Run(command)) => begin_run(alloc, tree, &command),
        Some(Command::Exec(graph)) => begin_exec(alloc, tree, graph),
        Some(Command::Gen(sample)) => Ok(Start::Text(sample)),
        Some(Command::Trial(sample, command)) => begin_trial(alloc, sample, &command),
        None => Ok(Start::Answered(Why::Usage)),
    }
}

/// Makes what a trial begins with.
fn begin_trial(alloc: Global, sample: Sample, command: &RunCommand<'_>) -> Result<Start, RunFault>
    ensures start { IfOk result (λ start. (reads : Readings) → AreOutcomes reads → as_start start ≡ start_of_trial reads sample (as_run command.now)) }
    ensures command { IfOk result IsOfCommand }
    ensures ready { (tree : TreeState) → IfOk result (IsReady tree) }
    ensures unread { IfOk result (λ start. draws start ≡ false) }
    ensures memory { IfErr result (λ stop. stop ≡ RunFault.Memory) }
{
    match begin_text(alloc, command, TRIAL_SCRIPT) {
        Ok(start) => Ok(over_sample(start, sample)),
        Err(stop) => Err(stop),
    }
}

/// The start of a script whose input is this text.
fn over_sample(start: Start, sample: Sample) -> Start
    ensures start { as_start result ≡ over_text (text_of sample) (as_start start) }
    ensures command { IsOfCommand start → IsOfCommand result }
    ensures ready { (tree : TreeState) → IsReady tree start → IsReady tree result }
    ensures unread { IsOfText start → draws result ≡ false }
{
    match start {
        Start::Answered(why) => Start::Answered(why),
        Start::Script(script, setup) => Start::Trial(script, setup, sample),
        Start::Graph(graph) => Start::Graph(graph),
        Start::Text(other) => Start::Text(other),
        Start::Trial(script, setup, other) => Start::Trial(script, setup, other),
    }
}

/// Reads the script of a command, if its path names a file.
fn begin_run<T: Tree>(
    alloc: Global,
    tree: &mut T,
    command: &RunCommand<'_>,
) -> Result<Start, RunFault>
    requires whole { IfSome (T.state tree.old).held NoWriterOut }
    ensures start { IfOk result (λ start. (reads : Readings) → AreOutcomes reads → IfSome (T.state tree.old).held (λ files.
        as_start start ≡ start_of_run files (T.state tree.old).home reads (as_run command.now))) }
    ensures command { IfOk result IsOfCommand }
    ensures ready { IfOk result (IsReady (T.state tree.new)) }
    ensures lent { OnlyLent (T.state tree.old) (T.state tree.new) }
    ensures cause { Stops (faults_of 0 0 0 (T.faults tree.old)) (faults_of 0 0 0 (T.faults tree.new)) result }
{
    match load(alloc, tree, command.script, MAX_SCRIPT + 1) {
        Ok(Some(text)) => begin_text(alloc, command, text.as_slice()),
        Ok(None) => no_script(alloc, command.script),
        Err(stop) => Err(stop),
    }
}

/// Reads the graph whose text stands in the file at this path, if it names one.
fn begin_exec<T: Tree>(alloc: Global, tree: &mut T, graph: &[u8]) -> Result<Start, RunFault>
    requires whole { IfSome (T.state tree.old).held NoWriterOut }
    ensures start { IfOk result (λ start. (reads : Readings) → AreOutcomes reads → IfSome (T.state tree.old).held (λ files.
        as_start start ≡ start_of_exec files (T.state tree.old).home graph.now)) }
    ensures command { IfOk result IsOfCommand }
    ensures ready { IfOk result (IsReady (T.state tree.new)) }
    ensures lent { OnlyLent (T.state tree.old) (T.state tree.new) }
    ensures cause { Stops (faults_of 0 0 0 (T.faults tree.old)) (faults_of 0 0 0 (T.faults tree.new)) result }
{
    match load(alloc, tree, graph, usize::MAX) {
        Ok(Some(text)) => begin_graph(alloc, tree, text.as_slice()),
        Ok(None) => no_script(alloc, graph),
        Err(stop) => Err(stop),
    }
}

/// What the text of a graph comes to.
fn begin_graph<T: Tree>(alloc: Global, tree: &mut T, text: &[u8]) -> Result<Start, RunFault>
    ensures start { IfOk result (λ start. IfSome (T.state tree.old).held (λ files.
        as_start start ≡ start_of_graph files (T.state tree.old).home text.now)) }
    ensures command { IfOk result IsOfCommand }
    ensures ready { IfOk result (IsReady (T.state tree.new)) }
    ensures state { T.state tree.new ≡ T.state tree.old }
    ensures cause { Stops (faults_of 0 0 0 (T.faults tree.old)) (faults_of 0 0 0 (T.faults tree.new)) result }
{
    match check(alloc, text, tree) {
        Ok(Ok(graph)) => Ok(Start::Graph(graph)),
        Ok(Err(cause)) => Ok(Start::Answered(answer_of(cause))),
        Err(error) => Err(of_tree(error)),
    }
}

/// Reads the file that a path names, or its first `most` bytes where it has more; None where it names no file.
fn load<T: Tree>(
    alloc: Global,
    tree: &mut T,
    given: &[u8],
    most: usize,
) -> Result<Option<Vec<u8>>, RunFault>
    requires whole { IfSome (T.state tree.old).held NoWriterOut }
    ensures loaded { IfOk result (λ found. IfSome (T.state tree.old).held (λ files.
        IsLoaded files (file_of (resolve files (T.state tree.old).home given.now)) most (option_map (λ text. text.items) found))) }
    ensures lent { OnlyLent (T.state tree.old) (T.state tree.new) }
    ensures cause { Stops (faults_of 0 0 0 (T.faults tree.old)) (faults_of 0 0 0 (T.faults tree.new)) result }
{
    match look(alloc, tree, given) {
        Ok(place) => load_at(alloc, tree, place, most),
        Err(error) => Err(of_tree(error)),
    }
}

/// Likewise, at a place.
fn load_at<T: Tree>(
    alloc: Global,
    tree: &mut T,
    place: Place,
    most: usize,
) -> Result<Option<Vec<u8>>, RunFault>
    requires whole { IfSome (T.state tree.old).held NoWriterOut }
    requires file { IfSome (T.state tree.old).held (λ files. StandsIn files place) }
    ensures loaded { IfOk result (λ found. IfSome (T.state tree.old).held (λ files.
        IsLoaded files (file_of place) most (option_map (λ text. text.items) found))) }
    ensures lent { OnlyLent (T.state tree.old) (T.state tree.new) }
    ensures cause { Stops (faults_of 0 0 0 (T.faults tree.old)) (faults_of 0 0 0 (T.faults tree.new)) result }
{
    match file_path(place) {
        Some(path) => match load_file(alloc, tree, &path, most) {
            Ok(text) => Ok(Some(text)),
            Err(stop) => Err(stop),
        },
        None => Ok(None),
    }
}

/// The path of the file that a place names, where it names one.
fn file_path(place: Place) -> Option<Path>
    ensures { result ≡ file_of place }
{
    match place {
        Place::File(path) => Some(path),
        Place::Missing | Place::Makeable(_) | Place::Dir(_) | Place::Null => None,
    }
}

/// The bytes of a file, or the first `most` where it has more.
fn load_file<T: Tree>(
    alloc: Global,
    tree: &mut T,
    path: &Path,
    most: usize,
) -> Result<Vec<u8>, RunFault>
    requires { IfSome (T.state tree.old).held (λ files. IsFileAt files path.now) }
    ensures text { IfOk result (λ text. IfSome (T.state tree.old).held (λ files. IsFrontOf (bytes_at files path.now) most text.items)) }
    ensures lent { OnlyLent (T.state tree.old) (T.state tree.new) }
    ensures cause { Stops (faults_of 0 0 0 (T.faults tree.old)) (faults_of 0 0 0 (T.faults tree.new)) result }
{
    let mut reader = match tree.open(path) {
        Ok(reader) => reader,
        Err(error) => return Err(of_tree(error)),
    };
    let text = read_front(alloc, &mut reader, most);
    tree.end_read(path, reader);
    match text {
        Ok(text) => Ok(text),
        Err(error) => Err(of_tree(error)),
    }
}

/// The answer where a path names no file.
fn no_script(alloc: Global, given: &[u8]) -> Result<Start, RunFault>
    ensures start { IfOk result (λ start. start ≡ Start.Answered (Why.NoScript given.now)) }
    ensures memory { IfErr result (λ stop. stop ≡ RunFault.Memory) }
{
    match Text::copy_of(alloc, given) {
        Ok(path) => Ok(Start::Answered(Why::NoScript(path))),
        Err(_refused) => Err(RunFault::Memory),
    }
}

/// What the text of a command's script comes to.
fn begin_text(alloc: Global, command: &RunCommand<'_>, text: &[u8]) -> Result<Start, RunFault>
    ensures start { IfOk result (λ start. (reads : Readings) → AreOutcomes reads →
        as_start start ≡ start_of_outcome (setup_of (as_run command.now)) (reads text.now)) }
    ensures command { IfOk result IsOfCommand }
    ensures form { IfOk result IsOfText }
    ensures ready { (tree : TreeState) → IfOk result (IsReady tree) }
    ensures memory { IfErr result (λ stop. stop ≡ RunFault.Memory) }
{
    match read_script(alloc, text) {
        Ok(script) => begin_script(alloc, command, script),
        Err(ParseRefusal::Refused(cause)) => Ok(Start::Answered(Why::Refused(refusal_of(cause)))),
        Err(ParseRefusal::Memory) => Err(RunFault::Memory),
    }
}

/// Makes what a command's script begins with.
fn begin_script(alloc: Global, command: &RunCommand<'_>, script: Script) -> Result<Start, RunFault>
    ensures start { IfOk result (λ start. as_start start ≡ runs (script_tree script) (setup_of (as_run command.now))) }
    ensures command { IfOk result IsOfCommand }
    ensures form { IfOk result IsOfText }
    ensures ready { (tree : TreeState) → IfOk result (IsReady tree) }
    ensures memory { IfErr result (λ stop. stop ≡ RunFault.Memory) }
{
    match new_shell(alloc, command) {
        Ok(shell) => Ok(Start::Script(
            script,
            Setup {
                shell,
                width: command.width,
            },
        )),
        Err(_refused) => Err(RunFault::Memory),
    }
}

/// The shell in which a command's script begins.
fn new_shell(alloc: Global, command: &RunCommand<'_>) -> Result<Shell, Memory>
    ensures { IfOk result (λ shell. shell ≡ shell_of (as_run command.now)) }
{
    let arguments = bytes_of_each(alloc, command.arguments)?;
    Shell::new(alloc, command.script, arguments.as_slice())
}

/// The bytes of each word.
fn bytes_of_each(alloc: Global, words: &[String]) -> Result<Texts, Memory>
    ensures { IfOk result (λ copies. copies ≡ texts words.now) }
{
    let mut copies = Texts::new(alloc);
    for word in words {
        copies.push(alloc, word.as_bytes())?;
    }
    Ok(copies)
}
