//! What is told of a script that isn't run, or not run further.
use super::{Entry, Failing, INPUT, Reply, WIDTHS, finished, refused, repeated, run};
use ps_lines::Text;
use sh_eval::Refusal;
use std::process::Abort;
use std::sync::Wait;
use std::test::Fail;
use std::thread::Threads;

/// The bytes of the file `f`.
const FILE: &[u8] = b"k\n";

/// The script isn't run at any width: this is told, and nothing else is read or written.
fn tells<R: Abort + AllocGlobal + Threads + Wait + Sync>(
    rt: &R,
    script: &[u8],
    reply: &Reply,
) -> Result<(), Fail> {
    let entries = [(b"/w/s".as_slice(), Some(script))];
    for width in WIDTHS {
        let mut ran = run(rt, &["run", width, "s"], &entries, Failing::Nothing)?;
        assert!(rt; ran.is(reply), "{script:?} ended with {:?}", ran.why);
        assert_eq!(rt; (ran.tree.lent(), ran.tree.back()), (1, 1), "{script:?}");
        assert!(rt; ran.has_left(INPUT), "{script:?}");
    }
    Ok(())
}

/// What the tokens are refused for is told with its offset, in bytes from the script's first.
#[test]
fn tokens_are_refused(rt: HostRuntime) -> Result<(), Fail> {
    let and = Text::copy_of(rt.alloc(), b"&")?;
    tells(
        &rt,
        b"echo a; cat f &",
        &refused(
            b"",
            b"pash: refused: OutOfProfile & 14\n",
            Refusal::OutOfProfile(and, 14),
        ),
    )?;
    tells(
        &rt,
        b"echo 'a",
        &refused(
            b"",
            b"pash: refused: UnclosedQuote 5\n",
            Refusal::UnclosedQuote(5),
        ),
    )?;
    tells(
        &rt,
        b"echo ${x",
        &refused(
            b"",
            b"pash: refused: UnclosedBrace 5\n",
            Refusal::UnclosedBrace(5),
        ),
    )
}

#[test]
fn what_the_tokens_are_is_refused(rt: HostRuntime) -> Result<(), Fail> {
    tells(
        &rt,
        b"a && ; b",
        &refused(b"", b"pash: refused: BadSyntax\n", Refusal::BadSyntax),
    )?;
    tells(
        &rt,
        b"echo ${x:=1} $(echo 2)",
        &refused(
            b"",
            b"pash: refused: SubstitutionMix 0\n",
            Refusal::SubstitutionMix(0),
        ),
    )?;
    tells(
        &rt,
        b"echo ${x!}",
        &refused(
            b"",
            b"pash: refused: ParameterForm 5\n",
            Refusal::ParameterForm(5),
        ),
    )
}

/// `true` inside so many subshells, one in the other.
fn tells_of_levels<R: Abort + AllocGlobal + Threads + Wait + Sync>(
    rt: &R,
    levels: usize,
    reply: &Reply,
) -> Result<(), Fail> {
    let alloc = rt.alloc();
    let mut script = repeated(alloc, b"( ", levels)?;
    script.extend_from_slice(b"true")?;
    script.extend_from_slice(repeated(alloc, b" )", levels)?.as_slice())?;
    tells(rt, script.as_slice(), reply)
}

#[test]
fn a_script_has_at_most_64_levels(rt: HostRuntime) -> Result<(), Fail> {
    tells_of_levels(&rt, 64, &finished(b"", b"", 0))?;
    let too_deep = refused(b"", b"pash: refused: TooDeep 128\n", Refusal::TooDeep(128));
    tells_of_levels(&rt, 65, &too_deep)
}

/// A comment of so many bytes and the `#` before them.
fn tells_of_comment<R: Abort + AllocGlobal + Threads + Wait + Sync>(
    rt: &R,
    length: usize,
    reply: &Reply,
) -> Result<(), Fail> {
    let alloc = rt.alloc();
    let mut script = Vec::from_slice(alloc, b"#")?;
    script.extend_from_slice(vec![in alloc; b'x'; length]?.as_slice())?;
    tells(rt, script.as_slice(), reply)
}

#[test]
fn a_comment_counts_to_the_length_of_a_script(rt: HostRuntime) -> Result<(), Fail> {
    tells_of_comment(&rt, 1_048_575, &finished(b"", b"", 0))?;
    let too_long = refused(
        b"",
        b"pash: refused: ScriptTooLong\n",
        Refusal::ScriptTooLong,
    );
    tells_of_comment(&rt, 1_048_576, &too_long)
}

/// The script is refused in the middle, at every width: what it did before stays, and this is in the file `f`.
fn tells_behind<R: Abort + AllocGlobal + Threads + Wait + Sync>(
    rt: &R,
    script: &[u8],
    reply: &Reply,
    left: &[u8],
) -> Result<(), Fail> {
    let entries: [Entry; 2] = [(b"/w/s", Some(script)), (b"/w/f", Some(FILE))];
    for width in WIDTHS {
        let ran = run(rt, &["run", width, "s"], &entries, Failing::Nothing)?;
        assert!(rt; ran.is(reply), "{script:?} ended with {:?}", ran.why);
        assert!(rt; ran.tree.file(b"/w/f")? == Some(left), "{script:?}");
        assert_eq!(rt; ran.tree.lent(), ran.tree.back(), "{script:?}");
    }
    Ok(())
}

#[test]
fn commands_are_refused_in_the_middle(rt: HostRuntime) -> Result<(), Fail> {
    let sleep = Text::copy_of(rt.alloc(), b"sleep")?;
    tells_behind(
        &rt,
        b"echo a; sleep 1; echo b",
        &refused(
            b"a\n",
            b"pash: refused: UnknownCommand sleep\n",
            Refusal::UnknownCommand(sleep),
        ),
        FILE,
    )?;
    let sort = Text::copy_of(rt.alloc(), b"sort")?;
    tells_behind(
        &rt,
        b"sort -c f",
        &refused(
            b"",
            b"pash: refused: UnsupportedFlag sort c\n",
            Refusal::UnsupportedFlag(sort, b'c'),
        ),
        FILE,
    )?;
    let pattern = Text::copy_of(rt.alloc(), b"\\(a\\)\\1")?;
    tells_behind(
        &rt,
        b"echo aa | grep '\\(a\\)\\1'",
        &refused(
            b"",
            b"pash: refused: UnsupportedPattern \\(a\\)\\1\n",
            Refusal::UnsupportedPattern(pattern),
        ),
        FILE,
    )
}

/// The script is refused since it writes and reads `f` at once, and leaves this in it.
fn tells_busy<R: Abort + AllocGlobal + Threads + Wait + Sync>(
    rt: &R,
    script: &[u8],
    left: &[u8],
) -> Result<(), Fail> {
    let busy = Text::copy_of(rt.alloc(), b"f")?;
    let reply = refused(b"", b"pash: refused: PathBusy f\n", Refusal::PathBusy(busy));
    tells_behind(rt, script, &reply, left)
}

/// A file that is written and read at once stays as it is, or as the redirection around has left it.
#[test]
fn a_busy_path_is_refused(rt: HostRuntime) -> Result<(), Fail> {
    tells_busy(&rt, b"cat f > f", FILE)?;
    tells_busy(&rt, b"{ cat f; } > f", b"")?;
    tells_busy(&rt, b"tee f f", FILE)
}
