//! Functions that read the CVs of a locomotive decoder, and write CVs after a heard packet.
ghost use Rattle.std.specs.Prelude.{◌≡◌, ℕ, ◌≤◌, true, Some, None, unwrap_or, if◌then◌else◌};
ghost use Rattle.dcc_regs.specs.AccessedCv.{HaveAddress};
ghost use Rattle.dcc_regs.specs.Addresses.{active_address as address_at, is_active};
ghost use Rattle.dcc_packet.specs.Bits.{is_one};
ghost use Rattle.dcc_packet.specs.Cvs.{cv_in};
ghost use Rattle.dcc_regs.specs.Loco.{is_cv_bit};
ghost use Rattle.dcc_regs.specs.Result.{is_effective, mode_of};
ghost use Rattle.dcc_regs.specs.Writes.{bit_set};
ghost use Rattle.dcc_regs.specs.declared.register.Value.TheVariants.{Flag, Pending as PendingValue};

use crate::register::SpeedMode;
use crate::writes::is_repeated_write;
use dcc_packet::{Address, Packet, What, cv_value, write_cv};

/// Returns the active address that a decoder with the CVs `cvs` has after power-up. Returns `None`
/// if these CVs contain no address.
pub fn active_address(cvs: &[u8; 1024]) -> Option<Address>
    ensures address { result ≡ address_at (cv_in cvs.now) }
    ensures active { is_active result ≡ true }
{
    address_of_cvs(cvs[0], cvs[16], cvs[17], cvs[28])
}

/// Returns the active address that a decoder has after power-up, if CV1, CV17, CV18 and CV29 have
/// the values of the parameters. Returns `None` if these CVs contain no address.
pub fn address_of_cvs(cv1: u8, cv17: u8, cv18: u8, cv29: u8) -> Option<Address>
    ensures address { (cvs : ℕ → ℕ) → HaveAddress cvs cv1 cv17 cv18 cv29 → result ≡ address_at cvs }
    ensures active { is_active result ≡ true }
{
    if cv29 >> 5 & 1 == 1 && (192..=231).contains(&cv17) {
        let number = (cv17 as u16 - 192) * 256 + cv18 as u16;
        Address::long(number).ok()
    } else {
        Address::short(cv1).ok()
    }
}

/// Returns bit `place` of CV `cv`. Returns `None` if there is no such CV or no such bit.
pub fn bit(cvs: &[u8; 1024], cv: u16, place: u8) -> Option<bool>
    ensures { result ≡ (if is_cv_bit cv place then Some (is_one (cv_in cvs.now cv) place) else None) }
{
    if (1..=1024).contains(&cv) && place <= 7 {
        Some(cvs[cv as usize - 1] >> place & 1 == 1)
    } else {
        None
    }
}

/// Executes a heard packet that is the second copy of the own write `pending`. The function writes
/// the CV, or the bit of a CV, that the packet names. Any other packet changes no CV.
pub fn hear(cvs: &mut [u8; 1024], pending: &Option<Packet>, packet: &Packet)
    ensures { (cv place : ℕ) → 1 ≤ cv → place ≤ 7
        → is_one (cv_in cvs.new cv)
        place ≡ (if is_effective (Some (PendingValue pending.now)) packet.now then unwrap_or
        (bit_set packet.now cv place) (is_one (cv_in cvs.old cv) place) else is_one
        (cv_in cvs.old cv) place) }
{
    if is_repeated_write(pending, packet) {
        execute_write(cvs, packet);
    }
}

/// Executes a CV write, which writes a CV or a bit of a CV. CV7 and CV8 never change. A packet of
/// another kind changes no CV. The function does not check that the write takes effect (RCN-214).
pub fn execute_write(cvs: &mut [u8; 1024], packet: &Packet)
    ensures { (cv place : ℕ) → 1 ≤ cv → place ≤ 7
        → is_one (cv_in cvs.new cv) place ≡ unwrap_or (bit_set packet.now cv place)
        (is_one (cv_in cvs.old cv) place) }
{
    match packet {
        Packet::Loco {
            what: What::CvWrite { cv, value },
            ..
        } => {
            let _ = write_cv(cvs, *cv, *value);
        }
        Packet::Loco {
            what: What::CvBitWrite { cv, place, one },
            ..
        } => {
            let value = place.with_bit(cv_value(cvs, *cv), *one);
            let _ = write_cv(cvs, *cv, value);
        }
        _ => {}
    }
}

/// Returns the mode in which a decoder with the CVs `cvs` reads speed instructions.
pub fn mode(cvs: &[u8; 1024]) -> SpeedMode
    ensures { result ≡ mode_of (Some (Flag (is_one (cv_in cvs.now 29) 1))) }
{
    mode_of(cvs[28])
}

/// Returns the mode in which a decoder reads speed instructions, if CV29 has the value `cv29`: bit
/// 1 is one for 28 steps.
pub fn mode_of(cv29: u8) -> SpeedMode
    ensures { result ≡ mode_of (Some (Flag (is_one cv29 1))) }
{
    if cv29 >> 1 & 1 == 1 {
        SpeedMode::Steps28
    } else {
        SpeedMode::Steps14
    }
}
