//! A function that copies a configuration variable (CV) from one decoder to another. Each decoder
//! has a programming track of its own.

ghost use Rattle.std.specs.Prelude.{◌≡◌, ◌↔◌, true, IsTrue};
ghost use Rattle.dcc_packet.specs.Cvs.{is_writable, written};
ghost use Rattle.dcc_service.specs.Cvs.{cv_in};

use crate::programmer::{Track, read_cv};
use dcc_packet::CvNumber;
use dcc_service::ServicePacket;

/// Reads a CV of the first decoder, writes its value to the second decoder, and reads the CV of the
/// second decoder. Returns true if the CV then has the same value in both decoders. The result is
/// always true if the CV is writable.
pub fn copy_cv<F: Track, T: Track>(from: &mut F, to: &mut T, cv: CvNumber) -> bool
    // The value was written to the second decoder.
    ensures writes { T.cvs to.new ≡ written (T.cvs to.old) cv (cv_in (F.cvs from.old) cv.number) }
    // The second decoder has this value if the CV is writable.
    ensures copied { is_writable cv ≡ true → IsTrue result }
    // The result is true if and only if both decoders have the same value.
    ensures same { IsTrue result ↔ (cv_in (T.cvs to.new) cv.number ≡ cv_in (F.cvs from.old) cv.number) }
    ensures kept { F.cvs from.new ≡ F.cvs from.old }
{
    let Some(value) = read_cv(from, cv) else {
        return false;
    };
    to.put(&ServicePacket::Write { cv, value });
    read_cv(to, cv) == Some(value)
}
