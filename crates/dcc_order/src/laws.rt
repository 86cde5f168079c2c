//! Theorems about half-bits, lists of packets and comparisons.

ghost use Rattle.std.specs.Prelude.{◌≡◌, ℕ, List};
ghost use Rattle.dcc_regs.specs.Result.{RegisterMap};
ghost use Rattle.dcc_regs.specs.declared.register.Who.{Who};
ghost use Rattle.dcc_order.specs.Hearing.{HasHeardHalves};
ghost use Rattle.dcc_order.specs.HearingLaws.{AlikeHalves, AlikeHalvesLeaveTheSame, NoHalvesHeard, OneListOfPackets};
ghost use Rattle.dcc_order.specs.HearingLaws.{SomeListOfPackets};
ghost use Rattle.dcc_order.specs.InStep.{FewerRequestsAfterLeft, FewerRequestsAfterRight, NoMoreIsGiven};
ghost use Rattle.dcc_order.specs.InStep.{NothingGivenYet};
ghost use Rattle.dcc_order.specs.InStep.{OneMoreOfLeft, OneMoreOfRight, PlacesAreCounted, VerdictIsOfBoth};
ghost use Rattle.dcc_order.specs.InStep.{VerdictIsOfTheGiven};
ghost use Rattle.dcc_order.specs.SendingLaws.{NothingElseIsSeen, SentPacketIsDone, SentPacketsAreHeard};
ghost use Rattle.dcc_order.specs.SentHalves.{FrameIsSeen, FramesAreHeard, NothingIsSeen, SendingBegins};
ghost use Rattle.dcc_order.specs.SentHalves.{SomethingIsSeen};
ghost use Rattle.dcc_order.specs.ToldTracks.{NoHalfHasCome, NoPacketHasCome, PacketIsHeardAndTold};
ghost use Rattle.dcc_order.specs.ToldTracks.{PacketIsPassedOver, PacketIsTold, TrackIsHeard, TrackIsTold};
ghost use Rattle.dcc_order.specs.SafeTracks.{CvsOfTrackChangeByTwoCopies, CvsOfTrackChangeByWrites};
ghost use Rattle.dcc_order.specs.SafeTracks.{CvsOfTrackStayWithoutWrites, LastStopOfTrackStops};
ghost use Rattle.dcc_order.specs.SafeTracks.{OnlySpeedPacketsOfTrackMove, ReadOnlyCvsStayOnTrack};
ghost use Rattle.dcc_order.specs.SafeTracks.{StandingLocoStandsOnTrack};
ghost use Rattle.dcc_order.specs.NoisyTracks.{NoiseCostsNoPacketButTheFirst, NoiseBetweenBodiesCostsNoPacket};
ghost use Rattle.dcc_order.specs.NoisyTracks.{DecodersHearPacketsAfterNoise, MeasuredPacketsAreHeard};
ghost use Rattle.dcc_order.specs.NoisyTracks.{MeasuringChangesNoDecoder, OneOfThreeCopiesIsHeard};
ghost use Rattle.dcc_order.specs.NoisyTracks.{OneOfThreeStopsIsEnough, NominalPacketsAreHeard, VariedPacketsAreHeard};
ghost use Rattle.dcc_order.specs.NoisyTracks.{VaryingChangesNoDecoder, OneOfThreeCopiesIsHeardAfterNoise};
ghost use Rattle.dcc_order.specs.NoisyTracks.{OneOfThreeStopsIsEnoughAfterNoise};
ghost use Rattle.dcc_order.specs.OneMore.{FinishedBlocksStay, OneMorePacket};
ghost use Rattle.dcc_order.specs.Laws.{AlikeIsTheVerdict, AlikeListsAgreeAfterEachBlock, AlikeListsLeaveTheSame};

use dcc_regs::{Decoder, Notify};

/// Theorem: let two decoders of any types start equal, and let each hear half-bits through a new
/// framer, in any pieces. If the packets of the half-bits are alike for the decoders, their
/// registers are equal. The contract of `hear` provides the premise that each decoder has heard its
/// half-bits.
pub fn decoders_that_heard_alike_halves_are_equal(left: &dyn Decoder, right: &dyn Decoder)
    ensures { (own : Who) (start : RegisterMap) (halves others : List ℕ) → AlikeHalves own halves others →
        HasHeardHalves halves own start (who left.now) (registers left.now) →
        HasHeardHalves others own start (who right.now) (registers right.now) →
        registers left.now ≡ registers right.now }
{}

/// Theorem: a list of half-bits contains exactly one list of packets.
pub fn one_list_of_packets()
    ensures some { SomeListOfPackets }
    ensures one { OneListOfPackets }
{}

/// Theorem: a decoder that has heard an empty list of half-bits is unchanged.
pub fn no_halves_heard()
    ensures { NoHalvesHeard }
{}

/// Theorem: the half-bits of packets that are sent one after the other, each in any timing, contain
/// exactly these packets, in order, and no refusal.
#[tactic(auto, using(crate::proofs::SentAndHeard::sent_packets_are_heard, crate::proofs::SentAndHeard::nothing_else_is_seen))]
pub fn sent_packets_are_heard()
    ensures packets { SentPacketsAreHeard }
    ensures nothing_else { NothingElseIsSeen }
{}

/// Theorem: a decoder that has heard the half-bits of one packet, sent in any timing as a track of
/// one piece, has executed this packet. The contract of `hear_one` says that a decoder has heard
/// its half-bits.
pub fn sent_packet_is_done()
    ensures { SentPacketIsDone }
{}

/// Theorem: let two lists be alike for a decoder. After each block, the CV bits of the decoder are
/// equal for both lists, for any registers at the start.
pub fn alike_lists_agree_after_each_block()
    ensures { AlikeListsAgreeAfterEachBlock }
{}

/// Theorem: if two lists are alike for a decoder, each register of the decoder has the same value
/// after both lists, for any registers at the start.
pub fn alike_lists_leave_the_same()
    ensures { AlikeListsLeaveTheSame }
{}

/// Theorem: the verdict on two lists is Alike if and only if the lists are alike for the decoder.
#[tactic(auto, using(crate::proofs::AlikeVerdicts::alike_is))]
pub fn alike_is_the_verdict()
    ensures { AlikeIsTheVerdict }
{}

/// Theorem: decoders that are equal at the start, and hear half-bits whose packets are alike for
/// them, have equal registers at the end.
pub fn alike_halves_leave_the_same()
    ensures { AlikeHalvesLeaveTheSame }
{}

/// Theorem: one more packet changes no block if the decoder does not hear the packet, or if the
/// packet is an own write that follows two copies of itself. Each other own write ends the last
/// block, and each other packet is added to the last block.
pub fn one_more_packet()
    ensures { OneMorePacket }
{}

/// Theorem: a block that a write has ended does not change, whatever packets follow.
pub fn finished_blocks_stay()
    ensures { FinishedBlocksStay }
{}

/// Theorem: let a caller with its own loop pass the items to a [`Comparer`](crate::Comparer) that
/// the comparer asks for. The loop then ends with the verdict on the two lists. The clauses are
/// about the start, each given packet and each end of a list. After each packet and each end of a
/// list, fewer requests remain.
pub fn lists_in_step()
    ensures begins { NothingGivenYet }
    ensures left { OneMoreOfLeft }
    ensures right { OneMoreOfRight }
    ensures less_behind_left { FewerRequestsAfterLeft }
    ensures less_behind_right { FewerRequestsAfterRight }
    ensures counted { PlacesAreCounted }
    ensures verdict { VerdictIsOfBoth }
    ensures given_alone { VerdictIsOfTheGiven }
    ensures no_more { NoMoreIsGiven }
{}

/// Theorem: let a caller have its own loop over a framer, a decoder and a listener. After a track
/// was pushed half-bit by half-bit, the decoder has heard the track. The listener was notified of
/// each packet that the decoder hears. The clauses are about the start, about each half-bit
/// according to its outcome, and about the end.
pub fn tracks_are_told<N: Notify>()
    ensures begins { NoHalfHasCome N.told }
    ensures no_packet { NoPacketHasCome N.told }
    ensures packet { PacketIsTold N.told }
    ensures passed_over { PacketIsPassedOver N.told }
    ensures heard { TrackIsHeard N.told }
    ensures told { TrackIsTold N.told }
{}

/// Theorem: let a caller have its own loop, which calls
/// [`apply_and_announce`](dcc_regs::apply_and_announce) for each packet. After a track was pushed
/// half-bit by half-bit, the decoder has heard the track. The listener was notified of each packet
/// that the decoder hears.
pub fn packets_are_told<N: Notify>()
    ensures begins { NoHalfHasCome N.told }
    ensures no_packet { NoPacketHasCome N.told }
    ensures packet { PacketIsHeardAndTold N.told }
    ensures heard { TrackIsHeard N.told }
    ensures told { TrackIsTold N.told }
{}

/// Theorem: let a caller with its own loop over [`Halves`](dcc_wire::Halves) push each half-bit of
/// a frame to a framer. The last outcome of the framer is then this frame. The clauses are about
/// the start, each half-bit, and the end.
pub fn frames_are_sent()
    ensures begins { SendingBegins }
    ensures nothing { NothingIsSeen }
    ensures something { SomethingIsSeen }
    ensures seen { FrameIsSeen }
    ensures heard { FramesAreHeard }
{}

/// Theorem: let a decoder hear half-bits, which can be any list, noise included. A locomotive that
/// stands still keeps standing if the half-bits contain no speed packet to its own address and no
/// speed packet of 128 steps to all locomotives. A locomotive stands still after the last stop that
/// it hears, if no later packet that it hears sets its speed to a step. A bit of a CV changes only
/// if the decoder hears two copies of a write to its own address that sets this bit, and no packet
/// between them. One copy is enough if an equal write is pending at the start. If the decoder hears
/// no write to its own address, no CV changes. CV7 and CV8 never change.
pub fn decoders_are_safe_on_any_track()
    ensures stands { StandingLocoStandsOnTrack }
    ensures movers { OnlySpeedPacketsOfTrackMove }
    ensures stops { LastStopOfTrackStops }
    ensures writes { CvsOfTrackChangeByWrites }
    ensures copies { CvsOfTrackChangeByTwoCopies }
    ensures stay { CvsOfTrackStayWithoutWrites }
    ensures read_only { ReadOnlyCvsStayOnTrack }
{}

/// Theorem: noise costs at most the first packet that is sent after it. Noise is any list of
/// half-bits.
///
/// After the noise, a decoder hears at most one packet of a body that the noise leaves unfinished.
/// Then it hears the first packet, unless this packet is lost, and then exactly the other packets,
/// in order. The packet of the unfinished body can be a packet that nobody sent.
pub fn noise_costs_no_packet_but_the_first()
    // The first packet is lost only if its preamble has fewer than 18 ones.
    ensures packets { NoiseCostsNoPacketButTheFirst }
    // If the noise leaves no body unfinished, the packets of the noise and each sent packet are
    // heard, and nothing else.
    ensures between { NoiseBetweenBodiesCostsNoPacket }
    // A decoder that has heard the half-bits has the registers after these packets.
    ensures decoders { DecodersHearPacketsAfterNoise }
{}

/// Theorem: a decoder that measures each half-bit of the sent packets with an error of at most 3
/// microseconds hears exactly these packets.
pub fn measured_packets_are_heard()
    ensures packets { MeasuredPacketsAreHeard }
    // If other half-bits come before and after the packets, the errors change no decoder.
    ensures anywhere { MeasuringChangesNoDecoder }
    // The half-bits of the station can differ from bit to bit, each within its limits.
    ensures varied { VariedPacketsAreHeard }
    ensures varied_anywhere { VaryingChangesNoDecoder }
    // An error of at most 6 microseconds loses no packet with the nominal durations.
    ensures nominal { NominalPacketsAreHeard }
{}

/// Theorem: let a new framer take whole packets, and then three copies of a packet in a row, one of
/// which noise replaces. The packet is then heard. It is also heard if any half-bits come before the
/// whole packets, and at least one packet is whole: a locomotive has just gained contact, for example.
pub fn one_of_three_copies_is_heard()
    ensures copy { OneOfThreeCopiesIsHeard }
    // If the packet is a stop that the decoder hears, the locomotive stands, unless the decoder
    // hears a packet after the earlier packets that sets the speed to a step.
    ensures stops { OneOfThreeStopsIsEnough }
    ensures copy_after_noise { OneOfThreeCopiesIsHeardAfterNoise }
    ensures stops_after_noise { OneOfThreeStopsIsEnoughAfterNoise }
{}
