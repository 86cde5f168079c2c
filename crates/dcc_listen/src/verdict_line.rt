//! A function that returns the line of a verdict.
ghost use Rattle.std.specs.Prelude.{◌≡◌};
ghost use Rattle.dcc_listen.specs.VerdictLine.{verdict_line};

use dcc_io::{Line, append, append_decimal};
use dcc_order::Verdict;

/// Returns the line of a verdict: `alike`, `writes`, `members k` or `order k`, and a line feed.
#[tactic(auto, using(dcc_io::proofs::DecimalLemmas::decimal_is_short))]
pub(crate) fn verdict_line(verdict: Verdict) -> Line
    ensures { result.items ≡ verdict_line verdict }
{
    let mut line = Line::new();
    match verdict {
        Verdict::Alike => append(&mut line, b"alike\n"),
        Verdict::Writes => append(&mut line, b"writes\n"),
        Verdict::Members(block) => {
            append(&mut line, b"members ");
            append_decimal(&mut line, block);
            append(&mut line, b"\n");
        }
        Verdict::Order(block) => {
            append(&mut line, b"order ");
            append_decimal(&mut line, block);
            append(&mut line, b"\n");
        }
    }
    line
}
