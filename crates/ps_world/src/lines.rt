//! One line of a source, and nothing behind it.
ghost use Rattle.std.specs.Prelude.{◌≡◌, ◌≢◌, ◌+◌, ◌^◌, ◌≤◌, [], ◌∷◌, ◌++◌, length, Err, IfOk, IfSome, IfNone, OnErr, OnOk};
ghost use Rattle.ps_world.specs.Counts.{Counts};
ghost use Rattle.ps_world.specs.Told.{bytes_then, IsEnded, TookLine, TookOfLine};

use crate::error::WorldErr;
use crate::source::Source;
use ps_lines::NEWLINE;

/// Takes the first line of what is left of a source and puts it behind `line`, without its newline; answers whether a newline ended it
/// (XCU read).
///
/// The newline is taken too, and not a byte behind it, since what comes next may be read by others. Without a newline all that was left
/// was taken. On an error the bytes that were taken stand behind `line` all the same: room for a byte is made before it is taken.
pub fn read_line<S: Source>(source: &mut S, line: &mut Vec<u8>) -> Result<bool, WorldErr>
    ensures ok { IfOk result (λ closed. TookLine (S.left source.old) (S.left source.new) line.old.items line.new.items closed) }
    ensures err { OnErr result (TookOfLine (S.left source.old) (S.left source.new) line.old.items line.new.items) }
    ensures cause { Counts (S.faults source.old) (S.faults source.new) result }
{
    loop {
        if let Some(closed) = append_byte(source, line)? {
            return Ok(closed);
        }
    }
}

/// Takes a byte and puts it behind `line`, if it is no newline; answers whether a newline ended the line, where it has ended.
fn append_byte<S: Source>(source: &mut S, line: &mut Vec<u8>) -> Result<Option<bool>, WorldErr>
    ensures more { IfOk result (λ ended. IfNone ended (TookOfLine (S.left source.old) (S.left source.new) line.old.items line.new.items)) }
    ensures ended { IfOk result (λ ended. IfSome ended (TookLine (S.left source.old) (S.left source.new) line.old.items line.new.items)) }
    ensures err { OnErr result (S.left source.new ≡ S.left source.old) }
    ensures kept { OnErr result (line.new.items ≡ line.old.items) }
    ensures given { IfOk result (λ ended. IfNone ended (S.given source.new ≡ S.given source.old + 1)) }
    ensures within { IfOk result (λ _. S.given source.new ≤ 2 ^ 40) }
    ensures cause { Counts (S.faults source.old) (S.faults source.new) result }
{
    line.push(NEWLINE)?;
    match read_byte(source) {
        Ok(Some(byte)) if byte != NEWLINE => {
            let end = line.len() - 1;
            line[end] = byte;
            Ok(None)
        }
        Ok(ended) => {
            line.pop();
            Ok(Some(ended.is_some()))
        }
        Err(error) => {
            line.pop();
            Err(error)
        }
    }
}

/// Takes the next byte of a source, where one is left.
fn read_byte<S: Source>(source: &mut S) -> Result<Option<u8>, WorldErr>
    ensures byte { IfOk result (λ byte. IfSome byte (λ byte. S.left source.old ≡ bytes_then (byte ∷ []) (S.left source.new))) }
    ensures end { IfOk result (λ byte. IfNone byte (S.left source.new ≡ S.left source.old)) }
    ensures ended { IfOk result (λ byte. IfNone byte (IsEnded (S.left source.new))) }
    ensures err { OnErr result (S.left source.new ≡ S.left source.old) }
    ensures given { IfOk result (λ byte. IfSome byte (λ _. S.given source.new ≡ S.given source.old + 1)) }
    ensures within { S.given source.new ≤ 2 ^ 40 }
    ensures cause { Counts (S.faults source.old) (S.faults source.new) result }
{
    let mut buffer = [0];
    let count = source.read(&mut buffer)?;
    if count == 0 {
        return Ok(None);
    }
    Ok(Some(buffer[0]))
}
