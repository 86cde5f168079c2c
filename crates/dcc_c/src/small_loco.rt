//! Functions of locomotive decoders whose CVs the caller stores, for example in EEPROM.

ghost use Rattle.std.specs.Prelude.{◌≡◌, ◌≢◌, ◌<◌, ◌==◌, not, true, false, Option, None, Some, IfSome};
ghost use Rattle.std.specs.Prelude.{List, ℕ};
ghost use Rattle.dcc_packet.specs.declared.address.Address.{Address};
ghost use Rattle.dcc_packet.specs.declared.packet.Packet.{Packet};
ghost use Rattle.dcc_packet.specs.Cvs.{IsCvs, cv_in};
ghost use Rattle.dcc_packet.specs.StoredCvs.{HasValue};
ghost use Rattle.dcc_packet.specs.Spelling.{spelling};
ghost use Rattle.dcc_regs.specs.declared.loco_state.LocoState.{LocoState};
ghost use Rattle.dcc_regs.specs.declared.register.Who.{Who};
ghost use Rattle.dcc_regs.specs.AccessedCv.{HaveAddress};
ghost use Rattle.dcc_regs.specs.Heard.{hears as is_heard_by};
ghost use Rattle.dcc_regs.specs.Loco.{start_map, start_who};
ghost use Rattle.dcc_regs.specs.LocoRegisters.{registers_in};
ghost use Rattle.dcc_regs.specs.LocoState.{loco_map, loco_who};
ghost use Rattle.dcc_c.specs.Frames.{frame_answer};
ghost use Rattle.dcc_c.specs.Locos.{HasAddress};
ghost use Rattle.dcc_c.specs.SmallLocos.{AppliesToValue, IsSmallLoco, cv_or_0, loco_cv};

use crate::frame::{DccFrame, frame_of};
use crate::loco::registers_hear;
use crate::loco_numbers::{DccLocoRegisters, no_registers, pending_left, put, take_up};
use dcc_packet::{CvNumber, Packet, PacketFault};
use dcc_regs::LocoRegisters;
use dcc_wire::Frame;

/// The state of a locomotive decoder without its CVs as a C struct, for a program that stores the
/// CVs itself, for example in EEPROM. In `dcc.h` the struct has the fields of `registers` as its
/// own fields, at the same places.
#[repr(C)]
#[derive(Clone, Copy, Drop)]
pub struct DccSmallLoco {
    /// The registers except the CVs.
    pub registers: DccLocoRegisters,
    /// The value of CV29.
    pub cv29: u8,
}

/// Initialises a locomotive decoder that is powered up with the given values of CV1, CV17, CV18 and
/// CV29. The decoder is stopped and forward, and all its functions and binary states are off.
#[unsafe(no_mangle)]
pub extern "C" fn dcc_small_loco_new(loco: &mut DccSmallLoco, cv1: u8, cv17: u8, cv18: u8, cv29: u8)
    ensures { (cvs : List ℕ) → IsCvs cvs → HaveAddress (cv_in cvs) cv1 cv17 cv18 cv29
        → (state : LocoState) × IsSmallLoco loco.new state × (state.cvs ≡ cvs)
        × (loco_who state ≡ start_who (cv_in cvs)) × (loco_map state ≡ start_map (cv_in cvs)) }
{
    let registers = LocoRegisters::powered_up(cv1, cv17, cv18, cv29);
    put(&mut loco.registers, &registers, DccFrame::none());
    loco.cv29 = cv29;
}

/// Writes to `cv` the number of the CV that `dcc_small_loco_apply` accesses for the frame `frame`,
/// or 0 if that function accesses no CV. Returns 0 on success, 1 (L1) or 2 (L2) if `frame` is no
/// frame, and 13 (P13) if the fields of `loco` are not a possible state of a decoder. If the result
/// is not 0, nothing is written.
#[unsafe(no_mangle)]
pub extern "C" fn dcc_small_loco_cv(loco: &DccSmallLoco, frame: &[u8], cv: &mut u16) -> u8
    ensures no_frame { frame_answer frame.now ≢ 0 → result ≡ frame_answer frame.now }
    ensures tells { frame_answer frame.now ≡ 0 → (state : LocoState) → IsSmallLoco loco.now state →
        (packet : Packet) × (spelling packet ≡ frame.now) × (cv.new ≡ cv_or_0 (loco_cv state packet)) × (result ≡ 0) }
    ensures decoder { result ≡ 0 → (state : LocoState) × IsSmallLoco loco.now state }
    ensures refused { result ≢ 0 → result ≢ frame_answer frame.now → result ≡ 13 }
    ensures untold { result ≢ 0 → cv.new ≡ cv.old }
{
    match frame_of(frame) {
        Ok(frame) => match accessed_cv(loco, &frame) {
            Some(number) => {
                *cv = number;
                0
            }
            None => PacketFault::State.number(),
        },
        Err(number) => number,
    }
}

/// Applies the packet of the frame `frame`. If `dcc_small_loco_cv` writes the number of a CV for
/// this frame, `value` must be the value of this CV. The function writes the new value of the CV to
/// `value`. The function writes true to `changed` if the new value differs from the value before,
/// otherwise false. The decoder ignores a packet that it does not hear. Returns 0 on success, 1
/// (L1) or 2 (L2) if `frame` is no frame, and 13 (P13) if the fields of `loco` are not a possible
/// state of a decoder. If the result is not 0, nothing changes.
#[unsafe(no_mangle)]
pub extern "C" fn dcc_small_loco_apply(
    loco: &mut DccSmallLoco,
    frame: &[u8],
    value: &mut u8,
    changed: &mut bool,
) -> u8
    ensures no_frame { frame_answer frame.now ≢ 0 → result ≡ frame_answer frame.now }
    ensures applies { frame_answer frame.now ≡ 0 → (before : LocoState) → IsSmallLoco loco.old before →
        (packet : Packet) × (spelling packet ≡ frame.now) × (result ≡ 0)
        × (HasValue before.cvs (loco_cv before packet) value.old
        → AppliesToValue packet before value.old loco.new value.new)
        × (loco_cv before packet ≡ None → value.new ≡ value.old) }
    ensures changed { result ≡ 0 → changed.new ≡ not (value.new == value.old) }
    ensures decoder { result ≡ 0 → (before : LocoState) × IsSmallLoco loco.old before }
    ensures refused { result ≢ 0 → result ≢ frame_answer frame.now → result ≡ 13 }
    ensures kept { result ≢ 0 → loco.new ≡ loco.old }
    ensures untold { result ≢ 0 → (value.new ≡ value.old) × (changed.new ≡ changed.old) }
{
    let before = *value;
    match frame_of(frame) {
        Ok(frame) => {
            if apply(loco, value, &frame) {
                *changed = *value != before;
                0
            } else {
                PacketFault::State.number()
            }
        }
        Err(number) => number,
    }
}

/// Writes true to `heard` if the decoder hears the packet of the frame `frame`, otherwise false.
/// Returns 0 on success, 1 (L1) or 2 (L2) if `frame` is no frame, and 13 (P13) if the address
/// fields of `loco` do not form a possible address. If the result is not 0, nothing is written. The
/// function reads only the address fields of `loco`.
#[unsafe(no_mangle)]
pub extern "C" fn dcc_small_loco_hears(loco: &DccSmallLoco, frame: &[u8], heard: &mut bool) -> u8
    ensures no_frame { frame_answer frame.now ≢ 0 → result ≡ frame_answer frame.now }
    ensures tells { frame_answer frame.now ≡ 0 → (own : Option Address) → HasAddress loco.now.registers own →
        (packet : Packet) × (spelling packet ≡ frame.now) × (heard.new ≡ is_heard_by (Who.Loco own) packet)
        × (result ≡ 0) }
    ensures address { result ≡ 0 → (own : Option Address) × HasAddress loco.now.registers own }
    ensures refused { result ≢ 0 → result ≢ frame_answer frame.now → result ≡ 13 }
    ensures untold { result ≢ 0 → heard.new ≡ heard.old }
{
    registers_hear(&loco.registers, frame, heard)
}

/// Reads the registers from the fields. Returns false if the fields of `loco` are not a possible
/// state of a decoder. If the result is false, the registers can have any value.
// not inlined, so that the archive contains the code once for both functions
#[inline(never)]
fn take_up_small(loco: &DccSmallLoco, registers: &mut LocoRegisters) -> bool
    ensures found { (state : LocoState) → IsSmallLoco loco.now state
        → (result ≡ true) × (registers.new ≡ registers_in state) }
    ensures decoder { result ≡ true → (state : LocoState) × IsSmallLoco loco.now state }
{
    byte_is_small(loco.cv29);
    take_up(&loco.registers, registers)
}

/// Lemma: a byte is below 256. The function does nothing at run time.
fn byte_is_small(value: u8)
    ensures { value < 256 }
{}

/// Returns the number of the CV that the decoder accesses for the frame, or 0 for no CV. Returns
/// `None` if the fields of `loco` are not a possible state of a decoder.
fn accessed_cv(loco: &DccSmallLoco, frame: &Frame) -> Option<u16>
    ensures tells { (state : LocoState) → IsSmallLoco loco.now state →
        (packet : Packet) × (spelling packet ≡ frame.now) × (result ≡ Some (cv_or_0 (loco_cv state packet))) }
    ensures decoder { IfSome result (λ _. (state : LocoState) × IsSmallLoco loco.now state) }
{
    let mut registers = no_registers();
    if !take_up_small(loco, &mut registers) {
        return None;
    }
    Some(number_of(&registers.accessed_cv(&Packet::read(frame))))
}

/// Returns the number of a CV, or 0 for no CV.
pub(crate) fn number_of(cv: &Option<CvNumber>) -> u16
    ensures { result ≡ cv_or_0 cv.now }
{
    match cv {
        Some(cv) => cv.number(),
        None => 0,
    }
}

/// Applies the packet of a frame to the decoder with the fields of `loco`. Returns false, and
/// changes nothing, if the fields of `loco` are not a possible state of a decoder.
fn apply(loco: &mut DccSmallLoco, value: &mut u8, frame: &Frame) -> bool
    ensures decoder { result ≡ true → (before : LocoState) × IsSmallLoco loco.old before }
    ensures applies { (before : LocoState) → IsSmallLoco loco.old before →
        (packet : Packet) × (spelling packet ≡ frame.now) × (result ≡ true)
        × (HasValue before.cvs (loco_cv before packet) value.old
        → AppliesToValue packet before value.old loco.new value.new)
        × (loco_cv before packet ≡ None → value.new ≡ value.old) }
    ensures kept { result ≡ false → (loco.new ≡ loco.old) × (value.new ≡ value.old) }
{
    let mut registers = no_registers();
    if !take_up_small(loco, &mut registers) {
        return false;
    }
    let packet = Packet::read(frame);
    if registers.apply_with_value(&mut loco.cv29, value, &packet) {
        let pending = pending_left(&registers.pending, frame);
        put(&mut loco.registers, &registers, pending);
    }
    true
}
