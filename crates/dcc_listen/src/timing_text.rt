//! The text of the statistics of a capture. Each line has a name, and then a number, two limits or
//! the word `none`.
ghost use Rattle.std.specs.Prelude.{◌≡◌, ◌<◌, ◌≤◌, ◌+◌, ◌++◌, ℕ, List, IfSome, length, codes};
ghost use Rattle.std.specs.Fmt.{decimal};
ghost use Rattle.arrayvec.specs.ArrayVec.{array_vec_len};
ghost use Rattle.dcc_wire.specs.declared.seen.Seen.{Seen};
ghost use Rattle.dcc_timing.specs.Tallies.{IsTally};
ghost use Rattle.dcc_timing.specs.Classes.{AreClasses};
ghost use Rattle.dcc_timing.specs.Outcomes.{AreOutcomes};
ghost use Rattle.dcc_timing.specs.PacketBits.{AreBits};
ghost use Rattle.dcc_lost.specs.MeasuresTrack.{MeasuresTrack};
ghost use Rattle.dcc_listen.specs.TimingText.{bit_lines, figure_line, mean_line, mean_or_none, number_or_none};
ghost use Rattle.dcc_listen.specs.TimingText.{other_lines, outcome_lines, tally_lines, timing_text};

use arrayvec::ArrayVec;
use dcc_io::append;
use dcc_lost::TrackFigures;
use dcc_timing::{Bits, Classes, Mean, Outcomes, Tally};

/// A text with capacity for all lines of the statistics.
pub(crate) type Text = ArrayVec<u8, 2048>;

/// Returns the lines of all statistics.
pub(crate) fn timing_text(figures: &TrackFigures) -> Text
    ensures { (halves : List ℕ) → MeasuresTrack figures.now halves → result.items ≡ timing_text halves }
{
    let timings = figures.timings();
    let mut text = Text::new();
    add_figure(
        &mut text,
        b"halves",
        b" ",
        Some(u64::from(timings.halves())),
    );
    add_figure(&mut text, b"time", b" ", Some(timings.time()));
    add_outcomes(&mut text, timings.outcomes());
    add_figure(&mut text, b"lost", b" ", Some(u64::from(figures.lost())));
    add_figure(
        &mut text,
        b"preamble",
        b" least ",
        as_number(figures.shortest_preamble()),
    );
    add_figure(&mut text, b"gap", b" most ", timings.longest_gap());
    add_bits(&mut text, timings.classes(), timings.bits());
    add_others(&mut text, timings.classes());
    text
}

/// Returns `number` as a number of 64 bits.
fn as_number(number: Option<u16>) -> Option<u64>
    ensures { result ≡ number }
{
    match number {
        Some(number) => Some(u64::from(number)),
        None => None,
    }
}

/// Appends the lines with the number of packets, and with the number of refusals for each error.
fn add_outcomes(text: &mut Text, outcomes: &Outcomes)
    requires { array_vec_len text.old + 240 ≤ 2048 }
    ensures items { (seen : List (ℕ × Seen)) → AreOutcomes outcomes.now seen
        → text.new.items ≡ text.old.items ++ outcome_lines seen }
    ensures len { array_vec_len text.new ≤ array_vec_len text.old + 240 }
{
    add_figure(text, b"packets", b" ", Some(u64::from(outcomes.packets)));
    add_figure(
        text,
        b"refused",
        b" H1 ",
        Some(u64::from(outcomes.bad_halves)),
    );
    add_figure(
        text,
        b"refused",
        b" H2 ",
        Some(u64::from(outcomes.split_bits)),
    );
    add_figure(
        text,
        b"refused",
        b" H3 ",
        Some(u64::from(outcomes.too_short)),
    );
    add_figure(
        text,
        b"refused",
        b" H4 ",
        Some(u64::from(outcomes.too_long)),
    );
    add_figure(
        text,
        b"refused",
        b" H5 ",
        Some(u64::from(outcomes.error_bytes)),
    );
}

/// Appends the lines about ones and zeros, with the limits of NMRA S-9.1 for a station and for a
/// decoder.
fn add_bits(text: &mut Text, classes: &Classes, bits: &Bits)
    requires { array_vec_len text.old + 800 ≤ 2048 }
    ensures items { (halves : List ℕ) (pairs : List (ℕ × ℕ)) → AreClasses classes.now halves → AreBits bits.now pairs
        → text.new.items ≡ text.old.items ++ bit_lines halves pairs }
    ensures len { array_vec_len text.new ≤ array_vec_len text.old + 800 }
{
    add_tally(text, b"ones", &classes.ones);
    append(text, b"ones station 55 61\nones decoder 52 64\n");
    add_tally(text, b"differences", &bits.differences);
    append(text, b"differences station 3\ndifferences decoder 6\n");
    add_tally(text, b"zeros", &classes.zeros);
    append(text, b"zeros station 95 9900\nzeros decoder 90 10000\n");
    add_tally(text, b"sums", &bits.sums);
    append(text, b"sums station 12000\n");
}

/// Appends the lines about the half-bits that are neither half of a one nor half of a zero.
fn add_others(text: &mut Text, classes: &Classes)
    requires { array_vec_len text.old + 480 ≤ 2048 }
    ensures { (halves : List ℕ) → AreClasses classes.now halves
        → text.new.items ≡ text.old.items ++ other_lines halves }
{
    add_tally(text, b"below", &classes.below);
    add_tally(text, b"between", &classes.between);
    add_tally(text, b"above", &classes.above);
}

/// Appends the lines with the count, the least number, the greatest number and the mean of a list
/// of numbers.
fn add_tally(text: &mut Text, name: &[u8], tally: &Tally)
    requires room { array_vec_len text.old + 160 ≤ 2048 }
    requires short { length name.now ≤ 11 }
    ensures items { (numbers : List ℕ) → IsTally tally.now numbers
        → text.new.items ≡ text.old.items ++ tally_lines name.now numbers }
    ensures len { array_vec_len text.new ≤ array_vec_len text.old + 160 }
{
    add_figure(text, name, b" count ", Some(tally.count()));
    add_figure(text, name, b" least ", tally.least());
    add_figure(text, name, b" most ", tally.most());
    add_mean(text, name, tally.mean());
}

/// Appends the line with one number of the statistics, or with `none` if there is no number.
#[tactic(auto, unfolding(crate::specs::TimingText::figure_line))]
fn add_figure(text: &mut Text, name: &[u8], word: &[u8], number: Option<u64>)
    requires { array_vec_len text.old + length name.now + length word.now + 21 ≤ 2048 }
    ensures items { text.new.items ≡ text.old.items ++ figure_line name.now word.now number }
    ensures len { array_vec_len text.new ≤ array_vec_len text.old + length name.now + length word.now + 21 }
{
    append(text, name);
    append(text, word);
    add_number_or_none(text, number);
    append(text, b"\n");
}

/// Appends the digits of a number, or `none` if there is no number.
#[tactic(auto, using(crate::proofs::TimingTextLemmas::decimal_is_short))]
fn add_number_or_none(text: &mut Text, number: Option<u64>)
    requires { array_vec_len text.old + 20 ≤ 2048 }
    ensures items { text.new.items ≡ text.old.items ++ number_or_none number }
    ensures len { array_vec_len text.new ≤ array_vec_len text.old + 20 }
{
    match number {
        Some(number) => add_number(text, number),
        None => append(text, b"none"),
    }
}

/// Appends the line of a mean. If there is no mean, the line has the word `none`.
#[tactic(auto, unfolding(crate::specs::TimingText::mean_line))]
fn add_mean(text: &mut Text, name: &[u8], mean: Option<Mean>)
    requires room { array_vec_len text.old + length name.now + 30 ≤ 2048 }
    requires below { IfSome mean (λ mean. mean.hundredths < 100) }
    ensures items { text.new.items ≡ text.old.items ++ mean_line name.now mean }
    ensures len { array_vec_len text.new ≤ array_vec_len text.old + length name.now + 30 }
{
    append(text, name);
    append(text, b" mean ");
    add_mean_or_none(text, mean);
    append(text, b"\n");
}

/// Appends a mean with two digits for the hundredths, or `none` if there is no mean.
#[tactic(auto, using(crate::proofs::TimingTextLemmas::decimal_is_short))]
fn add_mean_or_none(text: &mut Text, mean: Option<Mean>)
    requires room { array_vec_len text.old + 23 ≤ 2048 }
    requires below { IfSome mean (λ mean. mean.hundredths < 100) }
    ensures items { text.new.items ≡ text.old.items ++ mean_or_none mean }
    ensures len { array_vec_len text.new ≤ array_vec_len text.old + 23 }
{
    match mean {
        Some(mean) => {
            add_number(text, mean.whole);
            text.push(b'.');
            text.push(b'0' + (mean.hundredths / 10) as u8);
            text.push(b'0' + (mean.hundredths % 10) as u8);
        }
        None => append(text, b"none"),
    }
}

/// Appends the decimal digits of a number, of which there are at most 20.
fn add_number(text: &mut Text, number: u64)
    requires { array_vec_len text.old + length (decimal number) ≤ 2048 }
    ensures items { text.new.items ≡ text.old.items ++ decimal number }
    ensures len { array_vec_len text.new ≡ array_vec_len text.old + length (decimal number) }
{
    if number < 10 {
        text.push(b'0' + number as u8);
        return;
    }
    add_number(text, number / 10);
    text.push(b'0' + (number % 10) as u8);
}
