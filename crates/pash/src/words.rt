//! The words of the command line.
ghost use Rattle.std.specs.Prelude.{◌≡◌, ◌≤◌, IfSome};
ghost use Rattle.std.specs.Option.{option_map};
ghost use Rattle.pash.specs.Words.{as_command, command_of, exec_by, gen_by, lines_of, only_width_of, run_by, sample_of, seed_of, texts, trial_by, width_of, within_of};
ghost use Rattle.pash.specs.declared.command.TheConstants.{MOST_WIDTH};

use crate::command::{Command, MOST_LINES, MOST_WIDTH, RunCommand, Sample};
use ps_lines::read_decimal;

/// The name of the command that runs a script.
const RUN: &[u8] = b"run";

/// The name of the one that runs a printed graph.
const EXEC: &[u8] = b"exec";

/// The name of the one that writes the text that a seed gives.
const GEN: &[u8] = b"gen";

/// The name of the one that runs a script over this text.
const TRIAL: &[u8] = b"trial";

/// Reads the words after the program's name; None where they are no command.
#[tactic(auto, unfolding(crate::specs::Words::command_of))]
pub fn read_command(words: &[String]) -> Option<Command<'_>>
    ensures { option_map as_command result ≡ command_of (texts words.now) }
{
    match words {
        [name, rest @ ..] if name.as_bytes() == RUN => read_run(rest),
        [name, rest @ ..] if name.as_bytes() == EXEC => read_exec(rest),
        [name, rest @ ..] if name.as_bytes() == GEN => read_gen(rest),
        [name, rest @ ..] if name.as_bytes() == TRIAL => read_trial(rest),
        _ => None,
    }
}

/// Reads what stands behind `run`: W SCRIPT ARG*.
fn read_run(words: &[String]) -> Option<Command<'_>>
    ensures { option_map as_command result ≡ run_by (texts words.now) }
{
    match words {
        [width, script, arguments @ ..] => {
            let width = read_width(width.as_bytes())?;
            Some(Command::Run(RunCommand {
                width,
                script: script.as_bytes(),
                arguments,
            }))
        }
        _ => None,
    }
}

/// Reads what stands behind `exec`: GRAPH.
fn read_exec(words: &[String]) -> Option<Command<'_>>
    ensures { option_map as_command result ≡ exec_by (texts words.now) }
{
    match words {
        [graph] => Some(Command::Exec(graph.as_bytes())),
        _ => None,
    }
}

/// Reads what stands behind `gen`: SEED LINES.
fn read_gen(words: &[String]) -> Option<Command<'_>>
    ensures { option_map as_command result ≡ gen_by (texts words.now) }
{
    match words {
        [seed, lines] => {
            let sample = read_sample(seed.as_bytes(), lines.as_bytes())?;
            Some(Command::Gen(sample))
        }
        _ => None,
    }
}

/// Reads what stands behind `trial`: SEED LINES W.
fn read_trial(words: &[String]) -> Option<Command<'_>>
    ensures { option_map as_command result ≡ trial_by (texts words.now) }
{
    match words {
        [seed, lines, rest @ ..] => {
            let sample = read_sample(seed.as_bytes(), lines.as_bytes())?;
            let width = read_only_width(rest)?;
            Some(Command::Trial(
                sample,
                RunCommand {
                    width,
                    script: TRIAL,
                    arguments: &[],
                },
            ))
        }
        _ => None,
    }
}

/// Reads which text a seed gives: SEED is below 2^32, and LINES 1 to 1,000,000.
fn read_sample(seed: &[u8], lines: &[u8]) -> Option<Sample>
    ensures { result ≡ sample_of seed.now lines.now }
{
    let seed = read_number(seed, 0, u32::MAX)?;
    let lines = read_number(lines, 1, MOST_LINES)?;
    Some(Sample { seed, lines })
}

/// Reads a width where it is the only word.
fn read_only_width(words: &[String]) -> Option<u32>
    ensures width { result ≡ only_width_of (texts words.now) }
    ensures spread { IfSome result (λ width. (1 ≤ width) × (width ≤ MOST_WIDTH)) }
{
    match words {
        [width] => read_width(width.as_bytes()),
        _ => None,
    }
}

/// Reads a width, 1 to 16.
fn read_width(text: &[u8]) -> Option<u32>
    ensures width { result ≡ width_of text.now }
    ensures spread { IfSome result (λ width. (1 ≤ width) × (width ≤ MOST_WIDTH)) }
{
    read_number(text, 1, MOST_WIDTH)
}

/// Reads a number from `least` to `most` in decimal, without a sign or a leading zero.
fn read_number(text: &[u8], least: u32, most: u32) -> Option<u32>
    ensures number { result ≡ within_of least most text.now }
    ensures within { IfSome result (λ number. (least ≤ number) × (number ≤ most)) }
{
    if let [b'0', _, ..] = text {
        return None;
    }
    let number = read_decimal(text)?;
    if u64::from(least) <= number && number <= u64::from(most) {
        Some(number as u32)
    } else {
        None
    }
}
