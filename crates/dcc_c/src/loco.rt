//! Functions of locomotive decoders.

ghost use Rattle.std.specs.Prelude.{◌≡◌, ◌≢◌, ◌≤◌, ℕ, true, false, Option, Some, if◌then◌else◌, unwrap_or};
ghost use Rattle.dcc_packet.specs.declared.address.Address.{Address};
ghost use Rattle.dcc_packet.specs.declared.packet.Packet.{Packet};
ghost use Rattle.dcc_packet.specs.Spelling.{spelling};
ghost use Rattle.dcc_packet.specs.Cvs.{cv_in};
ghost use Rattle.dcc_wire.specs.Frames.{IsFrame};
ghost use Rattle.dcc_regs.specs.declared.loco_state.LocoState.{LocoState};
ghost use Rattle.dcc_regs.specs.declared.register.Who.{Who};
ghost use Rattle.dcc_regs.specs.Heard.{hears as is_heard_by};
ghost use Rattle.dcc_regs.specs.Loco.{is_byte_write, start_map, start_who};
ghost use Rattle.dcc_regs.specs.LocoState.{is_state, loco_map, loco_who};
ghost use Rattle.dcc_regs.specs.Setting.{left_pending};
ghost use Rattle.dcc_c.specs.Frames.{frame_answer, frame_numbers};
ghost use Rattle.dcc_c.specs.Applied.{HasApplied};
ghost use Rattle.dcc_c.specs.Inner.HeardLocos.{AppliesHeard};
ghost use Rattle.dcc_c.specs.Locos.{HasAddress, loco_numbers, pending_numbers};

use crate::frame::{DccFrame, check_frame};
use crate::loco_numbers::{
    DccLoco, DccLocoRegisters, are_possible, are_possible_with_pending, own_address, put,
};
use crate::loco_setting::set_registers;
use dcc_packet::frame_laws::each_frame_is_a_packet;
use dcc_packet::{Packet, PacketFault, read_loco};
use dcc_regs::{LocoRegisters, execute_write, is_own_write, loco_hears_frame, mode_of};

/// Initialises a locomotive decoder that is powered up with the CVs `cvs`. The first byte of `cvs`
/// is CV1. The decoder is stopped and forward, and all its functions and binary states are off.
#[unsafe(no_mangle)]
pub extern "C" fn dcc_loco_new(loco: &mut DccLoco, cvs: &[u8; 1024])
    ensures { (state : LocoState) × (is_state state ≡ true) × (loco.new ≡ loco_numbers state)
        × (loco_who state ≡ start_who (cv_in cvs.now)) × (loco_map state ≡ start_map (cv_in cvs.now)) }
{
    loco.cvs.copy_from_slice(cvs);
    dcc_loco_power_up(loco);
}

/// Powers a locomotive decoder up, as `dcc_loco_new` does with the CVs in `loco.cvs`. The CVs do not
/// change. The other fields can have any values.
#[unsafe(no_mangle)]
pub extern "C" fn dcc_loco_power_up(loco: &mut DccLoco)
    ensures new { (state : LocoState) × (is_state state ≡ true) × (loco.new ≡ loco_numbers state)
        × (loco_who state ≡ start_who (cv_in loco.old.cvs)) × (loco_map state ≡ start_map (cv_in loco.old.cvs)) }
    ensures cvs { loco.new.cvs ≡ loco.old.cvs }
{
    let registers = LocoRegisters::new(&loco.cvs);
    put(&mut loco.registers, &registers, DccFrame::none());
}

/// Applies the packet of the frame `frame`. The decoder ignores a packet that it does not hear.
/// Returns 0 on success, 1 (L1) or 2 (L2) if `frame` is no frame, and 13 (P13) if the fields of
/// `loco` are not a possible state of a decoder. If the result is not 0, nothing changes.
#[unsafe(no_mangle)]
pub extern "C" fn dcc_loco_apply(loco: &mut DccLoco, frame: &[u8]) -> u8
    ensures no_frame { frame_answer frame.now ≢ 0 → result ≡ frame_answer frame.now }
    ensures applies { frame_answer frame.now ≡ 0 → (before : LocoState) → is_state before ≡ true
        → loco.old ≡ loco_numbers before →
        (packet : Packet) × (after : LocoState) × (spelling packet ≡ frame.now) × (is_state after ≡ true)
        × (loco.new ≡ loco_numbers after)
        × (result ≡ 0) × HasApplied packet (loco_who before) (loco_map before) (loco_who after) (loco_map after) }
    ensures decoder { result ≡ 0 → (before : LocoState) × (is_state before ≡ true) × (loco.old ≡ loco_numbers before) }
    ensures refused { result ≢ 0 → result ≢ frame_answer frame.now → result ≡ 13 }
    ensures kept { result ≢ 0 → loco.new ≡ loco.old }
{
    match check_frame(frame) {
        Ok(()) => {
            if apply(loco, frame) {
                0
            } else {
                PacketFault::State.number()
            }
        }
        Err(number) => number,
    }
}

/// Writes true to `heard` if the decoder hears the packet of the frame `frame`, otherwise false.
/// Returns 0 on success, 1 (L1) or 2 (L2) if `frame` is no frame, and 13 (P13) if the address
/// fields of `loco` do not form a possible address. If the result is not 0, nothing is written. The
/// function reads only the address fields of `loco`.
#[unsafe(no_mangle)]
pub extern "C" fn dcc_loco_hears(loco: &DccLoco, frame: &[u8], heard: &mut bool) -> u8
    ensures no_frame { frame_answer frame.now ≢ 0 → result ≡ frame_answer frame.now }
    ensures tells { frame_answer frame.now ≡ 0 → (own : Option Address) → HasAddress loco.now.registers own →
        (packet : Packet) × (spelling packet ≡ frame.now) × (heard.new ≡ is_heard_by (Who.Loco own) packet)
        × (result ≡ 0) }
    ensures address { result ≡ 0 → (own : Option Address) × HasAddress loco.now.registers own }
    ensures refused { result ≢ 0 → result ≢ frame_answer frame.now → result ≡ 13 }
    ensures untold { result ≢ 0 → heard.new ≡ heard.old }
{
    registers_hear(&loco.registers, frame, heard)
}

/// Writes true to `heard` if a decoder with these registers hears the packet of the frame `frame`,
/// otherwise false. Returns the same numbers as `dcc_loco_hears`.
pub(crate) fn registers_hear(registers: &DccLocoRegisters, frame: &[u8], heard: &mut bool) -> u8
    ensures no_frame { frame_answer frame.now ≢ 0 → result ≡ frame_answer frame.now }
    ensures tells { frame_answer frame.now ≡ 0 → (own : Option Address) → HasAddress registers.now own →
        (packet : Packet) × (spelling packet ≡ frame.now) × (heard.new ≡ is_heard_by (Who.Loco own) packet)
        × (result ≡ 0) }
    ensures address { result ≡ 0 → (own : Option Address) × HasAddress registers.now own }
    ensures refused { result ≢ 0 → result ≢ frame_answer frame.now → result ≡ 13 }
    ensures untold { result ≢ 0 → heard.new ≡ heard.old }
{
    match check_frame(frame) {
        Ok(()) => match own_address(registers) {
            Ok(own) => {
                each_frame_is_a_packet(frame);
                *heard = loco_hears_frame(&own, frame);
                0
            }
            Err(refusal) => refusal.number(),
        },
        Err(number) => number,
    }
}

/// Applies the packet of a frame to the decoder with the fields of `loco`. Returns false, and
/// changes nothing, if the fields of `loco` are not a possible state of a decoder.
#[inline(always)]
pub(crate) fn apply(loco: &mut DccLoco, frame: &[u8]) -> bool
    requires { IsFrame frame.now }
    ensures decoder { result ≡ true → (before : LocoState) × (is_state before ≡ true)
        × (loco.old ≡ loco_numbers before) }
    ensures applies { (before : LocoState) → is_state before ≡ true → loco.old ≡ loco_numbers before →
        (packet : Packet) × (after : LocoState) × (spelling packet ≡ frame.now) × (is_state after ≡ true)
        × (loco.new ≡ loco_numbers after) × (result ≡ true)
        × HasApplied packet (loco_who before) (loco_map before) (loco_who after) (loco_map after) }
    ensures kept { result ≡ false → loco.new ≡ loco.old }
{
    if loco.registers.pending.is_of(frame) {
        return apply_pending(loco, frame);
    }
    if !are_possible(&loco.registers) {
        return false;
    }
    let Ok(own) = own_address(&loco.registers) else {
        return false;
    };
    if !loco_hears_frame(&own, frame) {
        each_frame_is_a_packet(frame);
        return true;
    }
    hear(loco, frame);
    true
}

/// Applies the packet of a frame to the decoder with the fields of `loco`, as `apply` does. The
/// frame must be that of the pending write. If the decoder can have this pending write, the packet
/// is a write that takes effect.
// not inlined, since most packets are no second copies of a write
#[inline(never)]
fn apply_pending(loco: &mut DccLoco, frame: &[u8]) -> bool
    requires valid { IsFrame frame.now }
    requires pending { loco.old.registers.pending ≡ frame_numbers frame.now }
    ensures decoder { result ≡ true → (before : LocoState) × (is_state before ≡ true)
        × (loco.old ≡ loco_numbers before) }
    ensures applies { (before : LocoState) → is_state before ≡ true → loco.old ≡ loco_numbers before →
        (packet : Packet) × (after : LocoState) × (spelling packet ≡ frame.now) × (is_state after ≡ true)
        × (loco.new ≡ loco_numbers after) × (result ≡ true)
        × HasApplied packet (loco_who before) (loco_map before) (loco_who after) (loco_map after) }
    ensures kept { result ≡ false → loco.new ≡ loco.old }
{
    if !are_possible_with_pending(&loco.registers) {
        return false;
    }
    let Ok(own) = own_address(&loco.registers) else {
        return false;
    };
    let Some((to, what)) = read_loco(&frame[..frame.len() - 1]) else {
        return false;
    };
    let packet = Packet::Loco { to, what };
    let is_write = is_own_write(&packet) & loco_hears_frame(&own, frame);
    if !is_write {
        return false;
    }
    execute_write(&mut loco.cvs, &packet);
    true
}

/// Applies the packet of a frame to a decoder that hears the packet. The frame must not be that of
/// the pending write.
#[inline(always)]
fn hear(loco: &mut DccLoco, frame: &[u8])
    requires valid { IsFrame frame.now }
    requires other { loco.old.registers.pending ≢ frame_numbers frame.now }
    ensures { (packet : Packet) × (spelling packet ≡ frame.now) × AppliesHeard packet loco.old loco.new }
{
    match read_loco(&frame[..frame.len() - 1]) {
        Some((to, what)) => obey(loco, frame, &Packet::Loco { to, what }),
        None => {
            each_frame_is_a_packet(frame);
            loco.registers.pending = DccFrame::none();
        }
    }
}

/// Applies the packet of `frame` to a decoder that hears the packet. The frame must not be that of
/// the pending write.
#[inline(always)]
fn obey(loco: &mut DccLoco, frame: &[u8], packet: &Packet)
    requires valid { IsFrame frame.now }
    requires other { loco.old.registers.pending ≢ frame_numbers frame.now }
    requires spelled { spelling packet.now ≡ frame.now }
    ensures { AppliesHeard packet.now loco.old loco.new }
{
    let mode = mode_of(loco.cvs[28]);
    leave_pending(&mut loco.registers.pending, frame, packet);
    set_registers(&mut loco.registers, mode, packet);
}

/// Leaves the packet of `frame` as the pending write if the packet is an own write. Leaves no write
/// pending after any other packet.
#[inline(always)]
fn leave_pending(pending: &mut DccFrame, frame: &[u8], packet: &Packet)
    requires valid { IsFrame frame.now }
    requires spelled { spelling packet.now ≡ frame.now }
    ensures pending { pending.new ≡ pending_numbers (left_pending packet.now) }
    ensures byte { is_byte_write packet.now ≡ true }
{
    if is_own_write(packet) {
        *pending = DccFrame::of(frame);
    } else {
        *pending = DccFrame::none();
    }
}
