//! Functions that convert a decoder on the programming track to and from its state.

use crate::{ServiceDecoder, ServicePacket, ServiceProgress};

impl ServiceDecoder {
    ghost use Rattle.std.specs.Prelude.{◌≡◌};

    /// Creates a decoder in this state. The parameter `in_service` is true if the decoder is in
    /// service mode, and `pending` is its pending packet, or `None`. The first byte of `cvs` is
    /// CV1.
    pub fn restore(
        in_service: bool,
        pending: Option<ServicePacket>,
        cvs: &[u8; 1024],
    ) -> ServiceDecoder
        ensures { result ≡ record { in_service = in_service; pending = pending; cvs = cvs.now } }
    {
        ServiceDecoder {
            progress: ServiceProgress {
                in_service,
                pending,
            },
            cvs: *cvs,
        }
    }

    /// Returns true if the decoder is in service mode.
    pub fn is_in_service(&self) -> bool
        ensures { result ≡ self.now.in_service }
    {
        self.progress.in_service
    }

    /// Returns the pending packet, which the decoder executes if the packet comes again. Returns
    /// `None` if no packet is pending.
    pub fn pending(&self) -> Option<ServicePacket>
        ensures { result ≡ self.now.pending }
    {
        self.progress.pending
    }
}
