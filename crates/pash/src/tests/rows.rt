//! What scripts and words tell, where nothing fails.
use super::{
    Entry, Failing, INPUT, Reply, WIDTHS, finished, in_turn, refused, repeated, run, run_on,
};
use crate::answers::Why;
use ps_fakes::MemTree;
use ps_lines::Text;
use sh_eval::Refusal;
use std::process::Abort;
use std::sync::Wait;
use std::test::Fail;
use std::thread::Threads;

/// A script with the arguments `A` and `b c` tells this at every width, over a few files.
fn tells_script<R: Abort + AllocGlobal + Threads + Wait + Sync>(
    rt: &R,
    script: &str,
    reply: &Reply,
) -> Result<(), Fail> {
    let entries: [Entry; 12] = [
        (b"/w/s", Some(script.as_bytes())),
        (b"/w/a", Some(b"x1")),
        (b"/w/b", Some(b"x2\ny\n")),
        (b"/w/one", Some(b"1\n")),
        (b"/w/lines", Some(b"a b\nc")),
        (b"/w/words", Some(b"b a\nab\nc\nxa")),
        (b"/w/pairs", Some(b"b:2\na:10\nc:1\n")),
        (b"/w/numbers", Some(b"10\n9\n2\n")),
        (b"/w/d", None),
        (b"/w/x1.txt", Some(b"")),
        (b"/w/x2.txt", Some(b"")),
        (b"/w/.x3.txt", Some(b"")),
    ];
    for width in WIDTHS {
        let ran = run(
            rt,
            &["run", width, "s", "A", "b c"],
            &entries,
            Failing::Nothing,
        )?;
        let is_right = ran.is(reply);
        assert!(rt;
            is_right,
            "{script} at {width}: {:?} wrote {:?}, told {:?}, left {}",
            ran.why,
            ran.out.taken(),
            ran.err.taken(),
            ran.status
        );
        assert_eq!(rt; ran.tree.lent(), ran.tree.back(), "{script}");
    }
    Ok(())
}

/// A row: a script, its output, errors and status.
type Row<'a> = (&'a str, &'a str, &'a str, u8);

fn tells_rows<R: Abort + AllocGlobal + Threads + Wait + Sync>(
    rt: &R,
    rows: &[Row],
) -> Result<(), Fail> {
    for &(script, output, errors, status) in rows {
        let reply = finished(output.as_bytes(), errors.as_bytes(), status);
        tells_script(rt, script, &reply)?;
    }
    Ok(())
}

/// tee writes its files beside its output; those that can't be made are told, and it goes on.
#[test]
fn tee_writes_its_files(rt: HostRuntime) -> Result<(), Fail> {
    tells_rows(
        &rt,
        &[
            ("echo one | tee g | wc -l; cat g", "1\none\n", "", 0),
            (
                "echo a > g; echo b | tee -a g h; cat g h",
                "b\na\nb\nb\n",
                "",
                0,
            ),
            (
                "tee none/x g d; echo $?; cat g",
                "in\n1\nin\n",
                "tee: none/x: No such file or directory\ntee: d: Is a directory\n",
                0,
            ),
            ("tee /dev/null /dev/null < a", "x1", "", 0),
        ],
    )
}

/// A last line without a newline stays so, and what can't be read is told.
#[test]
fn utilities_run(rt: HostRuntime) -> Result<(), Fail> {
    tells_rows(
        &rt,
        &[
            ("", "", "", 0),
            ("cat a b", "x1x2\ny\n", "", 0),
            ("\n# c\n  cat   a  b # x\n\n", "x1x2\ny\n", "", 0),
            ("cat", "in\n", "", 0),
            (
                "cat missing",
                "",
                "cat: missing: No such file or directory\n",
                1,
            ),
            ("cat /w /dev/null", "", "cat: /w: Is a directory\n", 1),
            ("cat a b | grep -F x", "x1x2\n", "", 0),
            ("grep x a b", "a:x1\nb:x2\n", "", 0),
            ("wc a b", "0 1 2 a\n2 2 5 b\n2 3 7 total\n", "", 0),
            ("head -n 1 a b", "==> a <==\nx1\n==> b <==\nx2\n", "", 0),
            (
                "grep x a missing",
                "a:x1\n",
                "grep: missing: No such file or directory\n",
                2,
            ),
            (
                "wc missing none",
                "0 0 0 total\n",
                "wc: missing: No such file or directory\nwc: none: No such file or directory\n",
                1,
            ),
            (
                "cat missing one | wc -l",
                "1\n",
                "cat: missing: No such file or directory\n",
                0,
            ),
            ("cat words | grep -F a | wc -l\n", "3\n", "", 0),
            ("cat words | \n grep -F a | wc -l\n", "3\n", "", 0),
            (
                "cat b | cat | cat | cat | cat | cat | cat | cat | cat | cat | cat | cat | cat | cat | cat | cat | wc -l",
                "2\n",
                "",
                0,
            ),
            ("cat one > m1 | cat m*", "1\n", "", 0),
            (
                "cat none | grep -F a | wc -l",
                "0\n",
                "cat: none: No such file or directory\n",
                0,
            ),
            ("grep -F z b; echo $?", "1\n", "", 0),
            ("cat d/../b | tr a-z A-Z", "X2\nY\n", "", 0),
            ("cut -d : -f 2 pairs | sort -n", "1\n2\n10\n", "", 0),
            (
                "sort numbers; sort -n numbers | tail -n +3",
                "10\n2\n9\n10\n",
                "",
                0,
            ),
            ("cat /dev/null | sort | wc -l", "0\n", "", 0),
            ("cut b; echo $?", "2\n", "cut: bad usage\n", 0),
        ],
    )
}

/// The utilities of text statistics and log analysis, in the forms that read one input.
#[test]
fn texts_are_counted_and_searched(rt: HostRuntime) -> Result<(), Fail> {
    tells_rows(
        &rt,
        &[
            ("cat b b | sort | uniq -d", "x2\ny\n", "", 0),
            ("cat one one pairs | uniq -u", "b:2\na:10\nc:1\n", "", 0),
            ("wc b", "2 2 5 b\n", "", 0),
            ("cat /dev/null | sort | uniq -c | wc", "0 0 0\n", "", 0),
            ("head -n 1 pairs; tail -n 1 pairs", "b:2\nc:1\n", "", 0),
            (
                "tail -c 3 pairs; head missing",
                ":1\n",
                "head: missing: No such file or directory\n",
                1,
            ),
            ("echo aabb | tr -s ab", "ab\n", "", 0),
            ("cat a b | grep x", "x1x2\n", "", 0),
            (
                "grep -i -e X -e Q b; grep -x -v y b; grep z b; echo $?",
                "x2\nx2\n1\n",
                "",
                0,
            ),
            (
                "grep a missing; echo $?",
                "2\n",
                "grep: missing: No such file or directory\n",
                0,
            ),
            ("echo a | grep '['; echo $?", "2\n", "grep: bad usage\n", 0),
        ],
    )
}

#[test]
fn lists_and_loops_run(rt: HostRuntime) -> Result<(), Fail> {
    tells_rows(
        &rt,
        &[
            ("for i in 1 2 3; do echo $i; done | tail -n 1", "3\n", "", 0),
            (
                "if false; then echo a; elif ! true; then echo b; else echo c; fi && echo d || echo e",
                "c\nd\n",
                "",
                0,
            ),
            (
                "while true; do while true; do break 2; done; done; echo $?",
                "0\n",
                "",
                0,
            ),
            ("false || echo x && ! cat a", "x\nx1", "", 1),
            ("(exit 3); echo $?; exit 7; echo no", "3\n", "", 7),
            (
                "i=0; until [ $i = 3 ]; do i=$((i + 1)); done; echo $i | cat - one",
                "3\n1\n",
                "",
                0,
            ),
        ],
    )
}

#[test]
fn words_are_expanded(rt: HostRuntime) -> Result<(), Fail> {
    tells_rows(
        &rt,
        &[
            ("x='a  b'; echo $x \"$x\"", "a b a  b\n", "", 0),
            ("echo $0 $# $1 \"$2\"", "s 2 A b c\n", "", 0),
            (
                "set -- a 'b c'; for i in \"$@\"; do echo \"[$i]\"; done; shift; echo $#",
                "[a]\n[b c]\n1\n",
                "",
                0,
            ),
            (
                "echo *.txt; echo *.log; f=x1.txt; echo ${f%.*}",
                "x1.txt x2.txt\n*.log\nx1\n",
                "",
                0,
            ),
            (
                "IFS=:; x=a::b; for i in $x; do echo \"<$i>\"; done",
                "<a>\n<>\n<b>\n",
                "",
                0,
            ),
            ("echo $((7 / 2 * 2)) $((x = 3)) $x", "6 3 3\n", "", 0),
            (
                "echo a; echo $((1 / 0)); echo b",
                "a\n",
                "pash: arithmetic: division by zero\n",
                1,
            ),
            ("(echo ${x?none}); echo $?", "1\n", "pash: x: none\n", 0),
            (
                "x=$(echo a; echo); echo \"[$x]\"; unset x; echo \"[$x]\"; exit 3",
                "[a]\n[]\n",
                "",
                3,
            ),
            ("x=$(sort pairs | wc -l); echo \"<$x>\"", "<3>\n", "", 0),
        ],
    )
}

#[test]
fn redirections_are_done(rt: HostRuntime) -> Result<(), Fail> {
    tells_rows(
        &rt,
        &[
            ("cat missing 2>&1 >/dev/null | wc -l", "1\n", "", 0),
            ("tr '\\n' ' ' < b", "x2 y ", "", 0),
            (
                "cat < missing; echo $?",
                "1\n",
                "pash: missing: No such file or directory\n",
                0,
            ),
            ("sort pairs > f; cut -d : -f 1 f", "a\nb\nc\n", "", 0),
        ],
    )
}

/// What a script leaves in its files, and of its input, which it doesn't read.
fn leaves_files<R: Abort + AllocGlobal + Threads + Wait + Sync>(
    rt: &R,
    width: &str,
) -> Result<(), Fail> {
    let entries: [Entry; 2] = [
        (b"/w/s", Some(b"sort b | tail -n +2 > f; cat b >> f")),
        (b"/w/b", Some(b"y\nx\n")),
    ];
    let mut ran = run(rt, &["run", width, "s"], &entries, Failing::Nothing)?;
    assert!(rt; ran.is(&finished(b"", b"", 0)), "{:?}", ran.why);
    assert!(rt; ran.tree.file(b"/w/f")? == Some(b"y\ny\nx\n"));
    assert!(rt; ran.tree.file(b"/w/b")? == Some(b"y\nx\n"));
    assert!(rt; ran.has_left(INPUT));
    Ok(())
}

/// A script that reads its input leaves nothing of it.
fn leaves_no_input<R: Abort + AllocGlobal + Threads + Wait + Sync>(
    rt: &R,
    width: &str,
) -> Result<(), Fail> {
    let entries: [Entry; 1] = [(b"/w/s", Some(b"read -r x; echo \"<$x>\"; cat"))];
    let mut ran = run(rt, &["run", width, "s"], &entries, Failing::Nothing)?;
    assert!(rt; ran.is(&finished(b"<in>\n", b"", 0)), "{:?}", ran.why);
    assert!(rt; ran.has_left(b""));
    Ok(())
}

#[test]
fn files_and_input_are_left(rt: HostRuntime) -> Result<(), Fail> {
    for width in WIDTHS {
        leaves_files(&rt, width)?;
        leaves_no_input(&rt, width)?;
    }
    Ok(())
}

/// The utilities that the engine was asked for, each once for every part that it runs over: `cat` hands on what it reads, and is none.
#[test]
fn the_engine_runs_the_utilities(rt: HostRuntime) -> Result<(), Fail> {
    let alloc = rt.alloc();
    let entries: [Entry; 2] = [
        (b"/w/s", Some(b"echo a; cat b | tr x z | sort | wc -l")),
        (b"/w/b", Some(b"y\nx\n")),
    ];
    let tree = MemTree::of_table(alloc, b"/w", &entries, Vec::new(alloc))?;
    let tree = tree.expect(&rt, "the entries make a tree");
    let mut engine = in_turn(&rt, alloc);
    let ran = run_on(
        alloc,
        &["run", "2", "s"],
        tree,
        Failing::Nothing,
        &mut engine,
    )?;
    assert!(rt; ran.is(&finished(b"a\n2\n", b"", 0)), "{:?}", ran.why);
    let mut told = Vec::new(alloc);
    for words in engine.used() {
        for word in words.as_slice() {
            told.extend_from_slice(word.as_slice())?;
            told.push(b' ')?;
        }
    }
    let wanted = b"tr x z tr x z sort sort wc -l wc -l ";
    assert_eq!(rt; told.as_slice(), wanted.as_slice());
    Ok(())
}

/// The words ask for this.
fn tells<R: Abort + AllocGlobal + Threads + Wait + Sync>(
    rt: &R,
    words: &[&str],
    entries: &[Entry],
    reply: &Reply,
) -> Result<(), Fail> {
    let ran = run(rt, words, entries, Failing::Nothing)?;
    assert!(rt; ran.is(reply), "{words:?} ended with {:?}", ran.why);
    assert_eq!(rt; ran.tree.lent(), ran.tree.back(), "{words:?}");
    Ok(())
}

/// A script of this name, run at every width, does so.
fn tells_at_widths<R: Abort + AllocGlobal + Threads + Wait + Sync>(
    rt: &R,
    name: &str,
    entries: &[Entry],
    reply: &Reply,
) -> Result<(), Fail> {
    for width in WIDTHS {
        tells(rt, &["run", width, name], entries, reply)?;
    }
    Ok(())
}

/// The words are no command.
fn tells_usage<R: Abort + AllocGlobal + Threads + Wait + Sync>(
    rt: &R,
    words: &[&str],
) -> Result<(), Fail> {
    let reply = Reply {
        output: b"",
        errors: b"pash: usage\n",
        status: 2,
        why: Why::Usage,
    };
    tells(rt, words, &[(b"/w/s", Some(b"cat s"))], &reply)
}

#[test]
fn words_that_are_no_command(rt: HostRuntime) -> Result<(), Fail> {
    tells_usage(&rt, &["run", "0", "s"])?;
    tells_usage(&rt, &["run", "17", "s"])?;
    tells_usage(&rt, &["run", "01", "s"])?;
    tells_usage(&rt, &["run"])?;
    tells_usage(&rt, &["exec"])?;
    tells_usage(&rt, &["exec", "s", "s"])?;
    tells_usage(&rt, &["gen", "4294967296", "1"])?;
    tells_usage(&rt, &["gen", "00", "1"])?;
    tells_usage(&rt, &["gen", "0", "0"])?;
    tells_usage(&rt, &["gen", "0", "1000001"])?;
    tells_usage(&rt, &["gen", "0", "1", "1"])?;
    tells_usage(&rt, &["trial", "0", "1"])?;
    tells_usage(&rt, &["trial", "0", "1", "17"])?;
    tells_usage(&rt, &["trial", "0", "1", "1", "s"])?;
    tells_usage(&rt, &[])
}

/// The words ask for this, and the input is left as it was.
fn tells_unread<R: Abort + AllocGlobal + Threads + Wait + Sync>(
    rt: &R,
    words: &[&str],
    output: &[u8],
) -> Result<(), Fail> {
    let mut ran = run(rt, words, &[], Failing::Nothing)?;
    assert!(rt;
        ran.is(&finished(output, b"", 0)),
        "{words:?} ended with {:?}",
        ran.why
    );
    assert!(rt; ran.has_left(INPUT), "{words:?}");
    Ok(())
}

/// The texts that seeds give, worked out by the rule; and what GNU's tools print for the trial's script over them.
#[test]
fn a_seed_gives_a_text(rt: HostRuntime) -> Result<(), Fail> {
    tells_unread(&rt, &["gen", "0", "2"], b"gb ac eb\nbd cc gb\n")?;
    tells_unread(&rt, &["gen", "4294967295", "1"], b"fc hc da\n")?;
    for width in WIDTHS {
        tells_unread(&rt, &["trial", "0", "2", width], b"2 gb\n1 eb\n1 cc\n")?;
        tells_unread(&rt, &["trial", "7", "200", width], b"27 ga\n27 eb\n26 bc\n")?;
    }
    Ok(())
}

#[test]
fn a_script_that_is_not_there(rt: HostRuntime) -> Result<(), Fail> {
    let reply = Reply {
        output: b"",
        errors: b"pash: none: No such file or directory\n",
        status: 2,
        why: Why::NoScript(Text::copy_of(rt.alloc(), b"none")?),
    };
    tells(&rt, &["exec", "none"], &[], &reply)?;
    tells_at_widths(&rt, "none", &[], &reply)
}

/// A script of so many operands, each the same file of one line.
fn tells_of_operands<R: Abort + AllocGlobal + Threads + Wait + Sync>(
    rt: &R,
    operands: usize,
    reply: &Reply,
) -> Result<(), Fail> {
    let alloc = rt.alloc();
    let mut script = Vec::from_slice(alloc, b"cat")?;
    script.extend_from_slice(repeated(alloc, b" a", operands)?.as_slice())?;
    let entries: [Entry; 2] = [(b"/w/s", Some(script.as_slice())), (b"/w/a", Some(b"x1\n"))];
    tells_at_widths(rt, "s", &entries, reply)
}

#[test]
fn a_command_has_at_most_256_operands(rt: HostRuntime) -> Result<(), Fail> {
    let lines = repeated(rt.alloc(), b"x1\n", 256)?;
    tells_of_operands(&rt, 256, &finished(lines.as_slice(), b"", 0))?;
    let too_many = refused(b"", b"pash: refused: ArgsTooMany\n", Refusal::ArgsTooMany);
    tells_of_operands(&rt, 257, &too_many)
}
