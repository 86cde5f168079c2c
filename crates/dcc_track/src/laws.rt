//! Theorems about a decoder on both tracks, for lists of frames.

ghost use Rattle.dcc_track.specs.Laws.{Board511HearsBroadcasts};
ghost use Rattle.dcc_track.specs.Laws.{MainOnlyIsPlain, ResetEntersTheMachine, ServiceModeIsTheMachine};
ghost use Rattle.dcc_track.specs.Laws.{NoFrameHeard, OneMoreFrameHeard, WithoutServicePacketsIsPlain};

/// Theorem: the relation `HearsFrames` holds for the frames that a decoder on both tracks has heard.
/// The clauses are about the start, and about one more frame. A caller with its own loop over
/// [`TrackDecoder::hear`](crate::TrackDecoder::hear) uses this theorem as the premise of the theorems
/// below.
pub fn frames_are_heard()
    ensures begins { NoFrameHeard }
    ensures one_more { OneMoreFrameHeard }
{}

/// Theorem: let a decoder on both tracks be outside of service mode, and hear frames of which no
/// service packet comes directly after a reset. Its address and its registers are then those of a
/// plain decoder that hears the packets of these frames. The CVs of an accessory decoder do not
/// change.
pub fn without_service_packets_is_plain()
    ensures { WithoutServicePacketsIsPlain }
{}

/// Theorem: let a decoder stay on the main track, and hear frames. Its address and its registers are
/// then those of a plain decoder that hears the packets of these frames. The CVs of an accessory
/// decoder do not change.
pub fn main_only_is_plain()
    ensures { MainOnlyIsPlain }
{}

/// Theorem: let a decoder that can hear both tracks be in service mode, and hear resets and service
/// packets.
/// Its service part, its CVs and its acknowledgements are then those of a
/// [`ServiceDecoder`](dcc_service::ServiceDecoder) that gets these frames. Service mode can begin
/// with the first of the frames, if this frame is a reset.
pub fn service_mode_is_the_machine()
    ensures lasts { ServiceModeIsTheMachine }
    ensures begins { ResetEntersTheMachine }
{}

/// Theorem: an accessory decoder with the address 511 hears exactly the packets that all accessory
/// decoders hear.
pub fn board_511_hears_broadcasts()
    ensures { Board511HearsBroadcasts }
{}
