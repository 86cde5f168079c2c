//! Theorems about the outcomes of half-bits.

ghost use Rattle.std.specs.Prelude.{◌≡◌, ℕ, List, ◌++◌, map};
ghost use Rattle.dcc_wire.specs.Half.{class_of};
ghost use Rattle.dcc_wire.specs.Framing.{seen};
ghost use Rattle.dcc_wire.specs.Jitter.{AllNominal, AreWithin, CanBeSentAs};
ghost use Rattle.dcc_wire.specs.SeenLaws.{SeenOnlyGrows};
ghost use Rattle.dcc_wire.specs.OutcomeLaws.{OutcomesAreRows, NoOutcomeIsUnfinished, SomeRowFits, OneRowFits};
ghost use Rattle.dcc_wire.specs.OutcomeLaws.{NoRowIsUnfinished};
ghost use Rattle.dcc_wire.specs.Recovery.{NoiseCostsNoLaterPacket, NoiseCostsAtMostTheFirst, OpenBodiesEndSoon};
ghost use Rattle.dcc_wire.specs.Recovery.{NoiseBetweenBodiesCostsNothing, LongPreamblesLoseNothing};
ghost use Rattle.dcc_wire.specs.Recovery.{OneOfThreeCopiesIsSeen, OneOfThreeCopiesIsSeenAfterNoise};
ghost use Rattle.dcc_wire.specs.Sending.{Sent, sent_all, at_last_halves, AllFrames};

/// Theorem: a framer that hears sent packets one after the other sees each packet at its last
/// half-bit, and sees nothing else.
#[tactic(auto, using(crate::proofs::FramerSteps::sending))]
pub fn sent_packets_are_seen()
    ensures { (packets : List Sent) → AllFrames packets → seen (sent_all packets) ≡ at_last_halves 0 packets }
{}

/// Theorem: two lists of half-bits have the same outcomes if the half-bits at each place have the
/// same class.
#[tactic(auto, using(crate::proofs::FramerSteps::classing))]
pub fn classes_decide_the_outcomes()
    ensures { (durations others : List ℕ) → map class_of durations ≡ map class_of others
        → seen durations ≡ seen others }
{}

/// Theorem: a receiver that measures each half-bit with an error of at most 3 microseconds loses
/// nothing that a station sends.
///
/// A station sends ones of 55 to 61 and zeros of 95 to 9900 microseconds. With an error of at most
/// 3 microseconds, the measured half-bits are within 52 to 64 and within 90 to 10000 microseconds.
/// With the nominal half-bits of 58 and 100 microseconds, the error can be 6 microseconds.
#[tactic(auto, using(crate::proofs::FramerSteps::measuring))]
pub fn measured_packets_are_seen()
    // A framer sees each packet at its last half-bit, and nothing else.
    ensures exact { (packets : List Sent) (measured : List ℕ) → AllFrames packets
        → AreWithin 3 (sent_all packets) measured → seen measured ≡ at_last_halves 0 packets }
    // If other half-bits come before and after the packets, the errors change no outcome.
    ensures anywhere { (packets : List Sent) (before measured after : List ℕ)
        → AreWithin 3 (sent_all packets) measured
        → seen (before ++ measured ++ after) ≡ seen (before ++ sent_all packets ++ after) }
    // The half-bits of the station can differ from bit to bit, each within its limits.
    ensures varied { (packets : List Sent) (durations measured : List ℕ) → AllFrames packets
        → CanBeSentAs packets durations → AreWithin 3 durations measured → seen measured ≡ at_last_halves 0 packets }
    ensures varied_anywhere { (packets : List Sent) (before durations measured after : List ℕ)
        → CanBeSentAs packets durations → AreWithin 3 durations measured
        → seen (before ++ measured ++ after) ≡ seen (before ++ sent_all packets ++ after) }
    // An error of at most 6 microseconds loses no packet with the nominal durations.
    ensures nominal { (packets : List Sent) (measured : List ℕ) → AllFrames packets → AllNominal packets
        → AreWithin 6 (sent_all packets) measured → seen measured ≡ at_last_halves 0 packets }
{}

/// Theorem: noise costs at most the first packet that is sent after it.
///
/// Noise is any list of half-bits. If the noise leaves a body unfinished, the preamble of the first
/// packet completes this body, and the outcome can be a packet that nobody sent. The first packet
/// is lost if its preamble has 14 to 17 ones and the body ends in the last 18 half-bits of this
/// preamble.
#[tactic(auto, using(crate::proofs::FramerSteps::recovering))]
pub fn noise_costs_at_most_the_first_packet()
    // A framer sees each packet after the first one at its last half-bit, and nothing else.
    ensures others { NoiseCostsNoLaterPacket }
    // Between the noise and those packets it sees at most one outcome of a body that the noise
    // leaves unfinished, and the first packet unless this packet is lost.
    ensures first { NoiseCostsAtMostTheFirst }
    // Such a body ends within the first 18 half-bits of the first preamble.
    ensures soon { OpenBodiesEndSoon }
    // If the noise leaves no body unfinished, a framer sees each packet, and nothing else.
    ensures between { NoiseBetweenBodiesCostsNothing }
    // If the first preamble has at least 18 ones, as in service mode, a framer sees each packet.
    ensures long { LongPreamblesLoseNothing }
{}

/// Theorem: let a new framer take whole packets, and then three copies of a packet in a row, one of
/// which noise replaces. It then sees one of the other two copies at its last half-bit. It also does so
/// if any half-bits come before the whole packets, and at least one packet is whole.
pub fn one_of_three_copies_is_seen()
    ensures whole { OneOfThreeCopiesIsSeen }
    ensures after_noise { OneOfThreeCopiesIsSeenAfterNoise }
{}

/// Theorem: if a list of half-bits is a prefix of a longer list, its outcomes are a prefix of the
/// outcomes of the longer list.
#[tactic(auto, using(crate::proofs::FramerSteps::growing))]
pub fn more_halves_only_add()
    ensures { SeenOnlyGrows }
{}

/// Theorem: let a list of half-bits begin with a half-bit of a zero. The outcome of the list is the
/// outcome of the row of the table that fits. The list has no outcome if the row for unfinished
/// bodies fits.
pub fn outcomes_are_the_rows_of_the_table()
    ensures rows { OutcomesAreRows }
    ensures unfinished { NoOutcomeIsUnfinished }
{}

/// Theorem: exactly one row of the table fits a list of half-bits that begins with a half-bit of a
/// zero. This row is the row for packets, for one of the five errors, or for unfinished bodies. The
/// list also determines the outcome in the row, and the number of half-bits of this outcome.
pub fn exactly_one_row_of_the_table_fits()
    ensures some { SomeRowFits }
    ensures one { OneRowFits }
    ensures unfinished { NoRowIsUnfinished }
{}
