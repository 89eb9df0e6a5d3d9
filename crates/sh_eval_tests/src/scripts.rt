//! Small scripts over objects in memory: what each writes and tells, and the status that it leaves.
ghost use Rattle.std.specs.Prelude.{IfSome};
ghost use Rattle.ps_world.specs.Files.{NoWriterOut};

use fl_engines::InTurn;
use ps_fakes::{MemSink, MemSource, MemTree, OpenGate};
use ps_lines::Memory;
use ps_world::Tree;
use sh_eval::{Flow, How, Played, Refusal, Shell, run_script};
use sh_lex::lex;
use sh_parse::parse;
use sh_tree::Script;
use std::alloc::Global;
use std::process::Abort;
use std::sync::Wait;
use std::test::Fail;
use std::thread::Threads;

/// What came of a script.
#[derive(Drop)]
pub(crate) struct Ran {
    pub(crate) how: How,
    left: Left,
}

/// What a script left.
#[derive(Drop)]
struct Left {
    status: u8,
    output: Vec<u8>,
    errors: Vec<u8>,
    /// The bytes of the file `f`, where there is one.
    file: Option<Vec<u8>>,
    /// The words of the utilities that the engine has noted, each behind a bar.
    noted: Vec<u8>,
}

/// The script that a text is, if it is one.
fn script_of(alloc: Global, text: &[u8]) -> Result<Option<Script>, Memory> {
    match lex(alloc, text) {
        Ok(tokens) => {
            let script = parse(alloc, text, tokens.as_slice()).ok();
            drop(tokens);
            Ok(script)
        }
        Err(fault) => {
            drop(fault);
            Ok(None)
        }
    }
}

/// Runs a script in the shell `s` without arguments, over an input.
pub(crate) fn run<H: Threads + Wait + Sync>(
    rt: &H,
    alloc: Global,
    text: &str,
    input: &str,
) -> Result<Option<Ran>, Memory> {
    run_at(rt, alloc, 1, text, input)
}

/// Runs a script at a width over an input, in a shell without arguments.
fn run_at<H: Threads + Wait + Sync>(
    rt: &H,
    alloc: Global,
    width: u32,
    text: &str,
    input: &str,
) -> Result<Option<Ran>, Memory> {
    let mut shell = Shell::new(alloc, b"s", &[])?;
    let ran = run_in(rt, alloc, width, &mut shell, text, input);
    drop(shell);
    ran
}

/// Runs a script at a width in a shell, over an input, in a tree where `g` is a file, `d` a directory, and `f` missing.
fn run_in<H: Threads + Wait + Sync>(
    rt: &H,
    alloc: Global,
    width: u32,
    shell: &mut Shell,
    text: &str,
    input: &str,
) -> Result<Option<Ran>, Memory> {
    match script_of(alloc, text.as_bytes())? {
        Some(script) => {
            // What is large is let go by a call: going out of scope is proved a part at a time.
            let ran = run_read(rt, alloc, width, shell, &script, input);
            drop(script);
            ran
        }
        None => Ok(None),
    }
}

/// Likewise, of a script that is read.
fn run_read<H: Threads + Wait + Sync>(
    rt: &H,
    alloc: Global,
    width: u32,
    shell: &mut Shell,
    script: &Script,
    input: &str,
) -> Result<Option<Ran>, Memory> {
    let files: [(&[u8], Option<&[u8]>); 2] = [(b"/w/g", Some(b"1\n2\n")), (b"/w/d", None)];
    match MemTree::of_table(alloc, b"/w", &files, Vec::new(alloc))? {
        Some(mut tree) => {
            let ran = run_over(rt, alloc, width, shell, script, &mut tree, input);
            drop(tree);
            ran
        }
        None => Ok(None),
    }
}

/// Runs a script in a shell, over an input and a tree in which no file is open.
fn run_over<H: Threads + Wait + Sync>(
    _rt: &H,
    alloc: Global,
    width: u32,
    shell: &mut Shell,
    script: &Script,
    tree: &mut MemTree,
    input: &str,
) -> Result<Option<Ran>, Memory>
    requires whole { IfSome (⟦<MemTree as Tree>⟧.state tree.old).held NoWriterOut }
{
    let input = Vec::from_slice(alloc, input.as_bytes())?;
    let mut errors = MemSink::new(alloc, Vec::new(alloc));
    let mut engine = InTurn::<H>::new(alloc);
    let Played { how, input, out } = run_script(
        alloc,
        script,
        width,
        shell,
        tree,
        MemSource::new(input, Vec::new(alloc)),
        MemSink::new(alloc, Vec::new(alloc)),
        &mut errors,
        &OpenGate,
        &mut engine,
    );
    drop(input);
    let left = left_of(alloc, shell.status(), tree, &out, &errors, &engine);
    drop(engine);
    drop(out);
    drop(errors);
    came(how, left)
}

/// The words of the utilities that an engine has noted, each behind a bar.
fn noted_words<H>(alloc: Global, engine: &InTurn<H>) -> Result<Vec<u8>, Memory> {
    let mut noted = Vec::new(alloc);
    for words in engine.used() {
        for word in words.as_slice() {
            noted.push(b'|')?;
            noted.extend_from_slice(word.as_slice())?;
        }
    }
    Ok(noted)
}

/// What a run left behind.
fn left_of<H>(
    alloc: Global,
    status: u8,
    tree: &MemTree,
    out: &MemSink,
    errors: &MemSink,
    engine: &InTurn<H>,
) -> Result<Left, Memory> {
    let noted = noted_words(alloc, engine)?;
    let output = Vec::from_slice(alloc, out.taken())?;
    let errors = Vec::from_slice(alloc, errors.taken())?;
    let file = match tree.file(b"/w/f")? {
        Some(bytes) => Some(Vec::from_slice(alloc, bytes)?),
        None => None,
    };
    Ok(Left {
        status,
        output,
        errors,
        file,
        noted,
    })
}

fn came(how: How, left: Result<Left, Memory>) -> Result<Option<Ran>, Memory> {
    match left {
        Ok(left) => Ok(Some(Ran { how, left })),
        Err(memory) => {
            drop(how);
            Err(memory)
        }
    }
}

/// Whether this came of a script.
fn is_as(ran: &Ran, output: &str, errors: &str, status: u8) -> bool {
    ran.left.output.as_slice() == output.as_bytes()
        && ran.left.errors.as_slice() == errors.as_bytes()
        && ran.left.status == status
}

/// A script over an input writes and tells this, and leaves this status, at every width.
pub(crate) fn expect<H: Abort + Threads + Wait + Sync>(
    rt: &H,
    alloc: Global,
    text: &str,
    input: &str,
    output: &str,
    errors: &str,
    status: u8,
) -> Result<(), Fail> {
    for width in [1, 3] {
        let ran = run_at(rt, alloc, width, text, input)?.expect(rt, text);
        is_right(rt, &ran, text, is_as(&ran, output, errors, status));
        drop(ran);
    }
    Ok(())
}

/// What came of the text is right.
fn is_right(rt: &impl Abort, ran: &Ran, text: &str, right: bool) {
    assert!(rt;
        right,
        "{text}: {:?} wrote {:?}, told {:?} and left {}",
        ran.how, ran.left.output, ran.left.errors, ran.left.status
    );
}

/// Whether a script writes this in a shell with one argument that has run nothing.
fn begins<H: Threads + Wait + Sync>(
    rt: &H,
    alloc: Global,
    text: &str,
    output: &str,
) -> Result<bool, Memory> {
    let args = [Vec::from_slice(alloc, b"a b")?];
    let mut shell = Shell::new(alloc, b"script", &args)?;
    let first = shell.status();
    let ran = run_in(rt, alloc, 1, &mut shell, text, "");
    drop(shell);
    match ran? {
        Some(ran) => {
            let holds = first == 0 && ran.left.output.as_slice() == output.as_bytes();
            drop(ran);
            Ok(holds)
        }
        None => Ok(false),
    }
}

#[test]
fn a_shell_begins(rt: HostRuntime) -> Result<(), Fail> {
    let text = r#"echo "$0" "$#" "$1" "${IFS-none}""#;
    assert!(rt; begins(&rt, rt.alloc(), text, "script 1 a b none\n")?);
    Ok(())
}

static LISTS: [(&str, &str, &str, &str, u8); 10] = [
    ("", "", "", "", 0),
    ("echo a; echo b", "", "a\nb\n", "", 0),
    ("false || echo x && echo y", "", "x\ny\n", "", 0),
    ("true || echo x && echo y", "", "y\n", "", 0),
    ("! true; echo $?; ! false", "", "1\n", "", 0),
    ("{ echo a; false; }; echo $?", "", "a\n1\n", "", 0),
    ("(x=1; exit 3); echo $? $x", "", "3\n", "", 0),
    ("echo a b | read -r x y; echo \"<$x>\"", "", "<>\n", "", 0),
    ("echo a | echo b | read -r x; echo $?", "", "0\n", "", 0),
    ("exit 7; echo no", "", "", "", 7),
];

#[test]
fn lists_and_pipelines_are_run(rt: HostRuntime) -> Result<(), Fail> {
    for &(text, input, output, errors, status) in LISTS.iter() {
        expect(&rt, rt.alloc(), text, input, output, errors, status)?;
    }
    Ok(())
}

static LOOPS: [(&str, &str, &str, &str, u8); 8] = [
    (
        "if false; then echo 1; elif true; then echo 2; else echo 3; fi",
        "",
        "2\n",
        "",
        0,
    ),
    ("if false; then echo 1; fi; echo $?", "", "0\n", "", 0),
    (
        "i=0; while test $i -lt 3; do echo $i; i=$((i+1)); done",
        "",
        "0\n1\n2\n",
        "",
        0,
    ),
    (
        "i=0; until [ $i = 2 ]; do i=$((i+1)); false; done; echo $?",
        "",
        "1\n",
        "",
        0,
    ),
    (
        "for x in a b; do for y in 1 2 3; do if test $y = 2; then continue 2; fi; echo $x$y; done; done",
        "",
        "a1\nb1\n",
        "",
        0,
    ),
    (
        "for x in a b c; do while true; do break 2; done; echo no; done; echo $x",
        "",
        "a\n",
        "",
        0,
    ),
    (
        "set -- a 'b c'; for x; do echo \"<$x>\"; done",
        "",
        "<a>\n<b c>\n",
        "",
        0,
    ),
    (
        "while read -r x; do echo \"<$x>\"; done",
        "1\n2\n",
        "<1>\n<2>\n",
        "",
        0,
    ),
];

static PIPELINES: [(&str, &str, &str, &str, u8); 14] = [
    ("cat g | cat", "", "1\n2\n", "", 0),
    ("cat | tr 1-9 a-i | sort -r", "1\n2\n", "b\na\n", "", 0),
    ("grep 2 g | wc -l", "", "1\n", "", 0),
    ("! cat g | grep x", "", "", "", 0),
    ("cat g | grep x | cat", "", "", "", 0),
    // What is told of all operands comes before what is written.
    (
        "cat no g | cat - none",
        "",
        "1\n2\n",
        "cat: no: No such file or directory\ncat: none: No such file or directory\n",
        1,
    ),
    // Nothing of the first is read where the second does not read it.
    ("cat - | cat g", "x\n", "1\n2\n", "", 0),
    // Each stage has variables of its own.
    ("cat ${x:=g} | cat $x -", "", "1\n2\n", "", 0),
    // A stage that is more than a utility has the others run one after the other.
    ("cat g | { cat; echo 3; }", "", "1\n2\n3\n", "", 0),
    ("cat g | x=1 cat | sort -r", "", "2\n1\n", "", 0),
    ("cat g | cat \"${x?gone}\"", "", "", "pash: x: gone\n", 1),
    (
        "cat g | sort no | cat; echo $?",
        "",
        "0\n",
        "sort: no: No such file or directory\n",
        0,
    ),
    ("x=$(cat g | tail -n 1); echo $x", "", "2\n", "", 0),
    ("{ cat g | sort -r; } > f; cat f", "", "2\n1\n", "", 0),
];

#[test]
fn pipelines_of_utilities_run_as_one(rt: HostRuntime) -> Result<(), Fail> {
    for &(text, input, output, errors, status) in PIPELINES.iter() {
        expect(&rt, rt.alloc(), text, input, output, errors, status)?;
    }
    Ok(())
}

#[test]
fn conditions_and_loops_are_run(rt: HostRuntime) -> Result<(), Fail> {
    for &(text, input, output, errors, status) in LOOPS.iter() {
        expect(&rt, rt.alloc(), text, input, output, errors, status)?;
    }
    Ok(())
}

static WORDS: [(&str, &str, &str, &str, u8); 9] = [
    (
        "x=$(echo a; echo b; echo); echo \"$x\"",
        "",
        "a\nb\n",
        "",
        0,
    ),
    ("x='a  b'; echo $x \"$x\"", "", "a b a  b\n", "", 0),
    ("echo $(echo $(echo in))", "", "in\n", "", 0),
    ("x=$(false); echo $?", "", "1\n", "", 0),
    ("x=1; x=2 true; echo $x", "", "1\n", "", 0),
    ("x=1; x=2 :; echo $x", "", "2\n", "", 0),
    ("unset x; echo ${x:-d}", "", "d\n", "", 0),
    ("set -- a b c; shift 2; echo $1", "", "c\n", "", 0),
    (
        "echo 1:2 | { IFS=: read -r a b; echo $b; }",
        "",
        "2\n",
        "",
        0,
    ),
];

#[test]
fn words_are_expanded(rt: HostRuntime) -> Result<(), Fail> {
    for &(text, input, output, errors, status) in WORDS.iter() {
        expect(&rt, rt.alloc(), text, input, output, errors, status)?;
    }
    Ok(())
}

static FAULTS: [(&str, &str, &str, &str, u8); 5] = [
    ("echo ${x?gone}; echo no", "", "", "pash: x: gone\n", 1),
    (
        "echo a; echo $((1/0)); echo no",
        "",
        "a\n",
        "pash: arithmetic: division by zero\n",
        1,
    ),
    ("test a b; echo $?", "", "2\n", "test: bad usage\n", 0),
    ("shift 1; echo no", "", "", "shift: bad usage\n", 2),
    ("(shift 1); echo $?", "", "2\n", "shift: bad usage\n", 0),
];

#[test]
fn faults_are_told(rt: HostRuntime) -> Result<(), Fail> {
    for &(text, input, output, errors, status) in FAULTS.iter() {
        expect(&rt, rt.alloc(), text, input, output, errors, status)?;
    }
    Ok(())
}

/// Scripts, what they write and tell, the status, and what the file `f` holds, where there is one.
static REDIRECTIONS: [(&str, &str, &str, u8, Option<&str>); 17] = [
    ("echo a > f; echo b >> f", "", "", 0, Some("a\nb\n")),
    ("echo a > f; echo b > f", "", "", 0, Some("b\n")),
    ("read -r x < g; echo $x", "1\n", "", 0, None),
    (
        "{ read -r x; read -r y; } < g; echo $y$x",
        "21\n",
        "",
        0,
        None,
    ),
    (
        "while read -r x; do echo \"<$x>\"; done < g > f",
        "",
        "",
        0,
        Some("<1>\n<2>\n"),
    ),
    (
        "{ echo a; echo b >&2; } > f 2>&1",
        "",
        "",
        0,
        Some("a\nb\n"),
    ),
    (
        "{ echo a; echo b >&2; } 2>&1 > f",
        "b\n",
        "",
        0,
        Some("a\n"),
    ),
    (
        "echo a > f > d; echo $?",
        "1\n",
        "pash: d: Is a directory\n",
        0,
        Some(""),
    ),
    ("> f", "", "", 0, Some("")),
    (
        "x=1 < no; echo $? \"$x\"",
        "1 \n",
        "pash: no: No such file or directory\n",
        0,
        None,
    ),
    (
        "x=1 true 2> f < no; echo $? $x",
        "1\n",
        "",
        0,
        Some("pash: no: No such file or directory\n"),
    ),
    (
        ": > nodir/x; echo a",
        "",
        "pash: nodir/x: No such file or directory\n",
        1,
        None,
    ),
    (
        "echo a > /dev/null; read -r x < /dev/null; echo $?",
        "1\n",
        "",
        0,
        None,
    ),
    ("x=$(echo a > f); echo \"<$x>\"", "<>\n", "", 0, Some("a\n")),
    ("(exit 3) > f; echo $?", "3\n", "", 0, Some("")),
    (
        "for x in a b; do echo $x; done > f",
        "",
        "",
        0,
        Some("a\nb\n"),
    ),
    ("test 1 2 2> f", "", "", 2, Some("test: bad usage\n")),
];

/// A script writes and tells this, leaves this status, and the file `f` with these bytes or none.
fn leaves<H: Abort + Threads + Wait + Sync>(
    rt: &H,
    alloc: Global,
    row: &(&str, &str, &str, u8, Option<&str>),
) -> Result<(), Fail> {
    let &(text, output, errors, status, file) = row;
    let ran = run(rt, alloc, text, "")?.expect(rt, text);
    is_right(rt, &ran, text, is_as(&ran, output, errors, status));
    has_file(rt, &ran.left, text, file);
    drop(ran);
    Ok(())
}

fn has_file(rt: &impl Abort, left: &Left, text: &str, file: Option<&str>) {
    let holds = left.file.as_deref() == file.map(str::as_bytes);
    assert!(rt; holds, "{text}: f holds {:?}", left.file);
}

#[test]
fn redirections_are_done(rt: HostRuntime) -> Result<(), Fail> {
    for row in REDIRECTIONS.iter() {
        leaves(&rt, rt.alloc(), row)?;
    }
    Ok(())
}

static UTILITIES: [(&str, &str, &str, &str, u8); 21] = [
    ("cat g", "", "1\n2\n", "", 0),
    ("cat < g", "", "1\n2\n", "", 0),
    ("echo b; cat - g -", "x\n", "b\nx\n1\n2\n", "", 0),
    (
        "cat g no g; echo $?",
        "",
        "1\n2\n1\n2\n1\n",
        "cat: no: No such file or directory\n",
        0,
    ),
    ("cat d", "", "", "cat: d: Is a directory\n", 1),
    (
        "sort g no; echo $?",
        "",
        "2\n",
        "sort: no: No such file or directory\n",
        0,
    ),
    ("cat g | tr 12 34 | sort -r", "", "4\n3\n", "", 0),
    ("cut -c 1 g | wc -l", "", "2\n", "", 0),
    ("tail -n +2 g > f; cat f", "", "2\n", "", 0),
    ("x=$(cat g); echo \"$x\"", "", "1\n2\n", "", 0),
    ("grep -F 2 g && echo yes", "", "2\nyes\n", "", 0),
    ("grep -F x g; echo $?", "", "1\n", "", 0),
    ("grep -F -s x no", "", "", "", 2),
    ("read -r x; cat", "a\nb\nc\n", "b\nc\n", "", 0),
    ("{ read -r x; cat; } < g", "", "2\n", "", 0),
    ("cat; cat", "a\n", "a\n", "", 0),
    ("echo a | cat g", "", "1\n2\n", "", 0),
    ("cat > f; cat f f", "in\n", "in\nin\n", "", 0),
    ("cat g >&2", "", "", "1\n2\n", 0),
    (
        "cat no g > /dev/null 2> f; cat f",
        "",
        "cat: no: No such file or directory\n",
        "",
        0,
    ),
    ("tr; echo $?", "", "2\n", "tr: bad usage\n", 0),
];

#[test]
fn utilities_are_run(rt: HostRuntime) -> Result<(), Fail> {
    for &(text, input, output, errors, status) in UTILITIES.iter() {
        expect(&rt, rt.alloc(), text, input, output, errors, status)?;
    }
    Ok(())
}

static NOTED: [(&str, &str); 4] = [
    ("cat g | tee f | wc -l", "|tee|f|wc|-l"),
    ("tee -a no/x /dev/null < g", "|tee|-a|no/x|/dev/null"),
    ("tee f < g > h; sort f h", "|tee|f|sort|f|h"),
    ("{ tee f; } < g | tr 1 2", "|tee|f|tr|1|2"),
];

/// A script notes these utilities.
fn notes<H: Abort + Threads + Wait + Sync>(
    rt: &H,
    alloc: Global,
    text: &str,
    noted: &str,
) -> Result<(), Fail> {
    let ran = run(rt, alloc, text, "")?.expect(rt, text);
    is_right(
        rt,
        &ran,
        text,
        ran.left.noted.as_slice() == noted.as_bytes(),
    );
    drop(ran);
    Ok(())
}

#[test]
fn utilities_that_ran_are_noted(rt: HostRuntime) -> Result<(), Fail> {
    for &(text, noted) in NOTED.iter() {
        notes(&rt, rt.alloc(), text, noted)?;
    }
    Ok(())
}

/// Whether a script is refused where it runs, for a busy path where that is wanted, and had written this.
fn is_refused(ran: &Ran, busy: bool, output: &[u8]) -> bool {
    let told = match &ran.how {
        How::Gone(Flow::Refused(Refusal::PathBusy(_))) => true,
        How::Gone(Flow::Refused(_)) => !busy,
        _ => false,
    };
    told && ran.left.output.as_slice() == output
}

fn expect_refused<H: Abort + Threads + Wait + Sync>(
    rt: &H,
    alloc: Global,
    text: &str,
    busy: bool,
    output: &[u8],
) -> Result<(), Fail> {
    let ran = run(rt, alloc, text, "")?.expect(rt, text);
    is_right(rt, &ran, text, is_refused(&ran, busy, output));
    drop(ran);
    Ok(())
}

static BUSY: [&str; 9] = [
    "cat g > g",
    "cat f > ./f",
    "sort g - f >> f",
    "> f > f",
    "read -r x < g > g",
    "{ echo a > f; } > f",
    "{ read -r x < f; } > ./f",
    "while true; do echo a >> d/../f; done > f",
    "(echo a > f) 2> f",
];

static PASTED: [(&str, &str, &str, &str, u8); 6] = [
    ("paste g - g", "a\n", "1\ta\t1\n2\t\t2\n", "", 0),
    ("cat g | paste - -", "", "1\t2\n", "", 0),
    ("paste -d , - g -", "a\nb\nc\n", "a,1,b\nc,2,\n", "", 0),
    ("paste -s -d , - g", "a\nb\n", "a,b\n1,2\n", "", 0),
    (
        "paste g no; echo $?",
        "",
        "1\n",
        "paste: no: No such file or directory\n",
        0,
    ),
    ("paste - - < g > f; paste -s f g", "", "1\t2\n1\t2\n", "", 0),
];

#[test]
fn lines_are_pasted(rt: HostRuntime) -> Result<(), Fail> {
    for &(text, input, output, errors, status) in PASTED.iter() {
        expect(&rt, rt.alloc(), text, input, output, errors, status)?;
    }
    Ok(())
}

#[test]
fn busy_paths_are_refused(rt: HostRuntime) -> Result<(), Fail> {
    for text in BUSY.iter() {
        expect_refused(&rt, rt.alloc(), text, true, b"")?;
    }
    Ok(())
}

static REFUSED: [&str; 4] = [
    "echo a; sleep 1; echo b",
    "echo a; (sort -c f); echo b",
    "echo a; x=$(tr -Q a); echo b",
    "echo a; i=0; x=; while test $i -lt 257; do x=\"$x g\"; i=$((i+1)); done; cat $x",
];

#[test]
fn what_is_refused_ends_the_run(rt: HostRuntime) -> Result<(), Fail> {
    for text in REFUSED.iter() {
        expect_refused(&rt, rt.alloc(), text, false, b"a\n")?;
    }
    Ok(())
}
