//! Theorems about the definitions.

ghost use Rattle.dcc_lost.specs.LostLaws.{LostPacketsAreLost, LostPacketsHaveCauses, NoLostPacketIsSeen};
ghost use Rattle.dcc_lost.specs.LostLaws.{OneOutcomeUsesThePreamble};

/// Theorem: `packet_lost` is a packet if and only if this packet is lost. Then the half-bits, in
/// their nearest classes, end with at least 8 half-bits of ones and the body of this packet. They
/// end with the body of no longer packet. The framer returns no outcome for the last half-bit, and
/// has no unfinished body.
pub fn lost_packets_are_the_definition()
    ensures { LostPacketsAreLost }
{}

/// Theorem: no packet is both seen and lost.
pub fn no_lost_packet_is_seen()
    ensures { NoLostPacketIsSeen }
{}

/// Theorem: each packet that is lost has a cause: a preamble that is too short, or half-bits outside
/// the limits of a decoder.
pub fn lost_packets_have_causes()
    ensures { LostPacketsHaveCauses }
{}

/// Theorem: let an outcome use one of the last 20 half-bits before the body of a lost packet. This
/// outcome is then the last outcome before the end of the packet.
pub fn one_outcome_uses_the_preamble()
    ensures { OneOutcomeUsesThePreamble }
{}

ghost use Rattle.dcc_lost.specs.JoinedLaws.{FoundBodiesAreUnused, NoHalfIsRemoved};

/// Theorem: the joined half-bits of a list, one after the other, are the half-bits of this list.
pub fn joining_keeps_all_half_bits()
    ensures { NoHalfIsRemoved }
{}

/// Theorem: no packet that is seen uses a half-bit of the body of a found packet. The packet that is
/// seen ends before this body begins, or its own body begins after the end of the found packet.
pub fn found_bodies_are_unused()
    ensures { FoundBodiesAreUnused }
{}

ghost use Rattle.dcc_lost.specs.JoinedLaws.{OnlySpikesAreJoined};

/// Theorem: if no half-bit of a list is shorter than the limit, each half-bit is a joined half-bit of
/// its own.
pub fn only_spikes_are_joined()
    ensures { OnlySpikesAreJoined }
{}

ghost use Rattle.dcc_lost.specs.JoinedLaws.{FoundPacketsHaveCauses};

/// Theorem: each packet that is found in half-bits of at most 65535 microseconds has a cause: one of
/// the causes of a lost packet, or spikes.
pub fn found_packets_have_causes()
    ensures { FoundPacketsHaveCauses }
{}

ghost use Rattle.dcc_lost.specs.JoinedLaws.{FoundWithoutSpikesIsLost};

/// Theorem: let no half-bit of a list be shorter than the limit or longer than 65535 microseconds. A
/// packet that is found at the last half-bit of this list is then also lost there without joining.
pub fn without_spikes_found_packets_are_lost()
    ensures { FoundWithoutSpikesIsLost }
{}
