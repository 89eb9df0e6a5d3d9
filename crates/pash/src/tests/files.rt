//! Scripts over a file of their own: what they tell at each width, and what they leave in it.
use super::{Entry, Failing, WIDTHS, finished, repeated, run};
use std::process::Abort;
use std::sync::Wait;
use std::test::Fail;
use std::thread::Threads;

/// The bytes of the file `f`, a script, its output and errors, and the file's bytes behind it.
type Row<'a> = (&'a str, &'a str, &'a str, &'a str, &'a str);

/// A script over a file ends with status 0, and tells and leaves this at every width.
fn leaves<R: Abort + AllocGlobal + Threads + Wait + Sync>(
    rt: &R,
    file: &[u8],
    script: &str,
    output: &[u8],
    errors: &[u8],
    left: &[u8],
) -> Result<(), Fail> {
    let entries: [Entry; 2] = [(b"/w/s", Some(script.as_bytes())), (b"/w/f", Some(file))];
    for width in WIDTHS {
        let ran = run(rt, &["run", width, "s"], &entries, Failing::Nothing)?;
        let is_right = ran.is(&finished(output, errors, 0));
        assert!(rt;
            is_right,
            "{script} at {width}: {:?} wrote {:?}",
            ran.why,
            ran.out.taken()
        );
        assert!(rt;
            ran.tree.file(b"/w/f")? == Some(left),
            "{script} at {width}"
        );
        assert_eq!(rt; ran.tree.lent(), ran.tree.back(), "{script} at {width}");
    }
    Ok(())
}

fn leaves_rows<R: Abort + AllocGlobal + Threads + Wait + Sync>(
    rt: &R,
    rows: &[Row],
) -> Result<(), Fail> {
    for &(file, script, output, errors, left) in rows {
        leaves(
            rt,
            file.as_bytes(),
            script,
            output.as_bytes(),
            errors.as_bytes(),
            left.as_bytes(),
        )?;
    }
    Ok(())
}

/// A script reads the file, which stays as it is.
fn reads_rows<R: Abort + AllocGlobal + Threads + Wait + Sync>(
    rt: &R,
    rows: &[(&str, &str, &str)],
) -> Result<(), Fail> {
    for &(file, script, output) in rows {
        leaves(
            rt,
            file.as_bytes(),
            script,
            output.as_bytes(),
            b"",
            file.as_bytes(),
        )?;
    }
    Ok(())
}

/// A stage reads the whole output of the one before, so a pipeline may write the file that it began with.
#[test]
fn files_are_written(rt: HostRuntime) -> Result<(), Fail> {
    leaves_rows(
        &rt,
        &[
            ("b\na\nb\n", "sort f | uniq > f", "", "", "a\nb\n"),
            (
                "",
                "echo a > f; echo b >> f; cat missing 2>&1 | cat - f",
                "cat: missing: No such file or directory\na\nb\n",
                "",
                "a\nb\n",
            ),
            (
                "k\n",
                ": > f; echo a; cat missing 2>f || cat f",
                "a\ncat: missing: No such file or directory\n",
                "",
                "cat: missing: No such file or directory\n",
            ),
            (
                "",
                "for i in 1 2 3; do echo $i; done > f; tail -n 1 f",
                "3\n",
                "",
                "1\n2\n3\n",
            ),
            ("k\n", "{ echo a; echo b >&2; } > f 2>&1", "", "", "a\nb\n"),
            ("b\na\n", "sort f | tee f", "a\nb\n", "", "a\nb\n"),
        ],
    )
}

#[test]
fn texts_are_read(rt: HostRuntime) -> Result<(), Fail> {
    reads_rows(
        &rt,
        &[
            (
                "b a\n\na b b\n",
                "tr -cs A-Za-z '\\n' < f | sort | uniq -c | sort -rn | head -n 2",
                "3 b\n2 a\n",
            ),
            ("a\nb\n", "tr '\\n' ' ' < f | wc -w", "2\n"),
            ("a\na\nb\n", "uniq -d f", "a\n"),
            ("1 a\n2 a\n3 b\n", "uniq -c -f 1 f", "2 1 a\n1 3 b\n"),
            (
                "x\ny\nx\n",
                "grep -c x f; grep -n y f; grep -lv x f; grep -q z f || echo no",
                "2\n2:y\nf\nno\n",
            ),
            ("ab\nabc\nba\n", "grep -E '^(a|b){2}$' f", "ab\nba\n"),
            ("*a\na\n", "grep '*a' f", "*a\n"),
            ("abcdef", "tail -c 3 f", "def"),
            (
                "b:2\na:10\nc:1\n",
                "sort -t : -k 2n f | cut -d : -f 1 | paste -s -d , -",
                "c,b,a\n",
            ),
            (
                "a b\nc",
                "while read -r l; do echo \"<$l>\"; done < f",
                "<a b>\n",
            ),
        ],
    )
}

/// A line is not bounded by what a piece holds.
#[test]
fn a_long_line_is_counted(rt: HostRuntime) -> Result<(), Fail> {
    let line = repeated(rt.alloc(), b"0123456789", 300_000)?;
    leaves(
        &rt,
        line.as_slice(),
        "wc -c < f",
        b"3000000\n",
        b"",
        line.as_slice(),
    )
}
