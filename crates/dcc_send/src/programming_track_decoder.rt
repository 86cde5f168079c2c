//! A function that returns the decoder on the programming track.
ghost use Rattle.std.specs.Prelude.{◌≡◌, None, Some, MatchResult, false};
ghost use Rattle.dcc_send.specs.ProgrammingTrack.{first_cvs};

use dcc_io::ToolFault;
use dcc_packet::PacketFault;
use dcc_saved::Saved;
use dcc_service::ServiceDecoder;

/// Creates a decoder on the programming track with the CVs of the first locomotive in `decoders`.
/// The decoder is not in service mode.
///
/// Errors: U3 with P10 for the line `end_line` of the decoder text, if there is no locomotive.
pub fn programming_track(decoders: &[Saved], end_line: u32) -> Result<ServiceDecoder, ToolFault>
    ensures { MatchResult result
        (λ track. (first_cvs decoders.now ≡ Some track.cvs) × (track.in_service ≡ false) × (track.pending ≡ None))
        (λ fault. (first_cvs decoders.now ≡ None) × (fault ≡ ToolFault.Line end_line PacketFault.Word)) }
{
    for decoder in decoders {
        match decoder {
            Saved::Loco(state) => return Ok(ServiceDecoder::new(&state.cvs)),
            Saved::Board(_) => (),
        }
    }
    Err(ToolFault::Line {
        line: u64::from(end_line),
        fault: PacketFault::Word,
    })
}
