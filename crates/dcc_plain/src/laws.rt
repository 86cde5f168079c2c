//! Theorems about standard packets.

ghost use Rattle.dcc_plain.specs.StandardLaws.{OneStandardPacket, StandardPacketsAreReadBack};

/// Theorem: no two standard packets have the same bytes.
pub fn bytes_have_one_standard_packet()
    ensures { OneStandardPacket }
{}

/// Theorem: a standard packet is the packet of its bytes. So `standard_read` returns the packet for the
/// bytes that `standard_frame` writes before the error byte.
pub fn standard_packets_are_read_back()
    ensures { StandardPacketsAreReadBack }
{}
