//! A decoder on the programming track.

ghost use Rattle.std.specs.Prelude.{◌≡◌, ◌↔◌, IsTrue};
ghost use Rattle.dcc_service.specs.Machine.{reset_bytes};

use crate::progress::ServiceProgress;
use dcc_packet::lemma_cvs;
use dcc_wire::Frame;
use std::marker::Model;

/// A decoder on the programming track, in direct mode (NMRA S-9.2.3). The decoder has its CVs, is
/// in service mode or not, and can have a pending service packet.
#[derive(Drop)]
pub struct ServiceDecoder {
    pub(crate) progress: ServiceProgress,
    pub(crate) cvs: [u8; 1024],
}

impl Model for ServiceDecoder {
    ghost use Rattle.dcc_service.specs.Machine.{ServiceState};
    ghost use Rattle.dcc_service.specs.Progress.{state_with_cvs};

    ghost Value = { ServiceState };

    ghost view = { λ d. state_with_cvs d.progress d.cvs };
}

impl ServiceDecoder {
    ghost use Rattle.std.specs.Prelude.{◌≡◌, ◌↔◌, IsTrue, Some, None, true, false};
    ghost use Rattle.dcc_packet.specs.Cvs.{IsCvs};
    ghost use Rattle.dcc_service.specs.Machine.{Step, acted_on, is_acknowledged};

    /// Creates a decoder that is not in service mode, with the CVs `cvs`. The first byte of `cvs`
    /// is CV1.
    pub fn new(cvs: &[u8; 1024]) -> ServiceDecoder
        ensures { result ≡ record { in_service = false; pending = None; cvs = cvs.now } }
    {
        ServiceDecoder {
            progress: ServiceProgress::new(),
            cvs: *cvs,
        }
    }

    /// Returns the CVs of the decoder. The first byte of the result is CV1.
    pub fn cvs(&self) -> &[u8; 1024]
        ensures value { result.now ≡ self.now.cvs }
        ensures bytes { IsCvs self.now.cvs }
    {
        lemma_cvs(&self.cvs);
        &self.cvs
    }

    /// Applies a frame. Returns true if the decoder acknowledges the frame.
    ///
    /// The reset `00 00 00` enters service mode. In service mode the decoder executes a service
    /// packet when the second copy comes, and again for each further copy that follows without
    /// another packet in between. A packet that is neither the reset nor a service packet leaves
    /// service mode.
    ///
    /// The decoder acknowledges a write that it executes, and a comparison of equal values. The
    /// decoder never writes CV7 or CV8.
    pub fn apply(&mut self, frame: &Frame) -> bool
        ensures { Step self.old frame.now self.new result }
    {
        self.progress.apply(&mut self.cvs, frame)
    }
}
