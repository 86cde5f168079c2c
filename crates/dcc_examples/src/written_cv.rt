//! A custom programmer, which writes a CV with the questions of a `CvWriter` on a custom track.

ghost use Rattle.std.specs.Prelude.{◌≡◌, ◌↔◌, true, false};
ghost use Rattle.dcc_packet.specs.Cvs.{cv_in, is_read_only};
ghost use Rattle.dcc_service.specs.QuestionLaws.{OtherCvsStay};

use crate::programmer::Track;
use dcc_packet::CvNumber;
use dcc_service::{CvWriter, Writing, laws};

/// Writes the byte `value` to a CV. Returns true if the CV then has this value. The result is false
/// only for CV7 and CV8, and then no CV changes.
pub fn write_cv<T: Track>(track: &mut T, cv: CvNumber, value: u8) -> bool
    ensures value { (result ≡ true) ↔ (cv_in (T.cvs track.new) cv.number ≡ value) }
    ensures others { OtherCvsStay cv (T.cvs track.old) (T.cvs track.new) }
    ensures kept { result ≡ false → (is_read_only cv.number ≡ true) × (T.cvs track.new ≡ T.cvs track.old) }
{
    laws::writings_under_way();
    let mut writer = CvWriter::new(cv, value);
    'questions: loop {
        let yes = track.put(&writer.question());
        match writer.answer(yes) {
            Writing::More(next) => writer = next,
            Writing::Done => return true,
            Writing::Failed => return false,
        }
    }
}
