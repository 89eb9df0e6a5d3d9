//! The class of each invocation.
ghost use Rattle.std.specs.Prelude.{◌≡◌};
ghost use Rattle.ut_args.specs.Classes.{class_of, is_no_count as is_no_count_def, keeps_closed_of, of_one as of_one_def, report_class as report_class_def};

use crate::classes::{Class, Seam};
use crate::commands::{Origin, Report};
use crate::invocations::Inv;
use crate::strings::keeps_newline;
use crate::utilities::has_at_most_one;
use ut_options::Texts;

/// The class of an invocation.
pub fn class(inv: &Inv) -> Class
    ensures { result ≡ class_of inv.now }
{
    match inv {
        Inv::Cat(_) => Class::S(Seam::Bytes),
        Inv::Grep(grep) => of_one(
            &grep.args.operands,
            report_class(grep.args.report, grep.args.numbers),
        ),
        Inv::Tr(tr) => {
            if tr.args.squeezes {
                return Class::P;
            }
            Class::S(Seam::Bytes)
        }
        Inv::Cut(_) => Class::S(Seam::Lines),
        Inv::Head(head) => of_one(&head.args.operands, Class::P),
        Inv::Tail(tail) => match tail.args.part.origin {
            Origin::Start(_) => Class::N,
            Origin::End(_) => Class::P,
        },
        Inv::Wc(wc) => of_one(&wc.args.operands, Class::P),
        Inv::Uniq(_) => Class::P,
        Inv::Sort(_) => Class::P,
        Inv::Paste(_) => Class::N,
        _ => Class::E,
    }
}

/// A class of an invocation with at most one operand.
fn of_one(operands: &Texts, class: Class) -> Class
    ensures { result ≡ of_one_def operands.now class }
{
    if has_at_most_one(operands) {
        class
    } else {
        Class::N
    }
}

/// The class of grep of one input.
fn report_class(report: Report, numbers: bool) -> Class
    ensures { result ≡ report_class_def report numbers }
{
    match report {
        Report::Lines => {
            if numbers {
                return Class::N;
            }
            Class::S(Seam::Lines)
        }
        Report::Count => Class::P,
        Report::Path => Class::N,
        Report::Nothing => Class::S(Seam::Lines),
    }
}

/// Whether its output for a closed text is closed, and that for the empty text empty.
pub fn keeps_closed(inv: &Inv) -> bool
    ensures { result ≡ keeps_closed_of inv.now }
{
    match inv {
        Inv::Cat(_) => true,
        Inv::Cut(_) => true,
        Inv::Grep(grep) => { has_at_most_one(&grep.args.operands) && is_no_count(grep.args.report) }
        Inv::Tr(tr) => keeps_newline(&tr.args),
        _ => false,
    }
}

/// Whether grep doesn't count.
fn is_no_count(report: Report) -> bool
    ensures { result ≡ is_no_count_def report }
{
    match report {
        Report::Count => false,
        Report::Lines | Report::Path | Report::Nothing => true,
    }
}
