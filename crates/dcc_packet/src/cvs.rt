//! The configuration variables (CVs) of a decoder, CV1 to CV1024. Each CV is a byte, and the first
//! byte is CV1 (NMRA S-9.2.2, RCN-214).

ghost use Rattle.std.specs.Prelude.{◌≡◌, ℕ, ◌≤◌, ◌==◌, ◌&&◌, if◌then◌else◌};
ghost use Rattle.dcc_packet.specs.Cvs.{IsCvs, cv_in, is_writable, written};

use crate::CvNumber;

/// Lemma: each element of the array `cvs` is below 256. The function does nothing at run time.
pub fn lemma_cvs(cvs: &[u8; 1024])
    ensures { IsCvs cvs.now }
{
    // The type invariant of the slice proves the lemma.
    let _ = cvs.as_slice();
}

/// Returns the value of the CV `cv`.
#[inline]
pub fn cv_value(cvs: &[u8; 1024], cv: CvNumber) -> u8
    ensures { result ≡ cv_in cvs.now cv.number }
{
    cvs[usize::from(cv.number()) - 1]
}

/// Writes `value` to the CV `cv` and returns true. If `cv` is CV7 (version) or CV8 (manufacturer),
/// which never change, the function returns false and writes nothing.
#[inline]
pub fn write_cv(cvs: &mut [u8; 1024], cv: CvNumber, value: u8) -> bool
    ensures cvs { cvs.new ≡ written cvs.old cv value }
    ensures each { (n : ℕ) → 1 ≤ n
        → cv_in cvs.new n ≡ (if n == cv.number && is_writable cv then value else cv_in cvs.old n) }
    ensures done { result ≡ is_writable cv }
{
    let number = usize::from(cv.number());
    if number == 7 || number == 8 {
        return false;
    }
    cvs[number - 1] = value;
    true
}

/// Writes `new` to `value`, which is the value of the CV `cv`, and returns true. If `cv` is CV7
/// (version) or CV8 (manufacturer), which never change, the function returns false and writes
/// nothing.
#[inline]
pub fn write_value(value: &mut u8, cv: CvNumber, new: u8) -> bool
    ensures value { value.new ≡ (if is_writable cv then new else value.old) }
    ensures done { result ≡ is_writable cv }
{
    if cv.number() == 7 || cv.number() == 8 {
        return false;
    }
    *value = new;
    true
}
