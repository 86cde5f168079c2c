//! The C struct of a locomotive decoder, and the state that its fields represent.

ghost use Rattle.std.specs.Prelude.{◌≡◌, ◌↔◌, ℕ, ◌≤◌, ◌^◌, ◌<◌, true, Option, Some, None, Ok, IfSome, IfOk, IfErr};
ghost use Rattle.std.specs.Prelude.{IsTrue, List};
ghost use Rattle.dcc_wire.specs.Frames.{IsFrame};
ghost use Rattle.dcc_packet.specs.declared.address.Address.{Address};
ghost use Rattle.dcc_packet.specs.declared.address.LongAddress.{LongAddress};
ghost use Rattle.dcc_packet.specs.declared.address.ShortAddress.{ShortAddress};
ghost use Rattle.dcc_packet.specs.declared.packet.Packet.{Packet};
ghost use Rattle.dcc_packet.specs.Spelling.{spelling};
ghost use Rattle.dcc_regs.specs.declared.loco_state.LocoState.{LocoState};
ghost use Rattle.dcc_regs.specs.declared.register.Speed.{Speed};
ghost use Rattle.dcc_regs.specs.Addresses.{is_active};
ghost use Rattle.dcc_regs.specs.Loco.{is_byte_write, is_pending_for, is_speed as is_speed_in_range};
ghost use Rattle.dcc_regs.specs.Writes.{is_own_write as is_own_write_of};
ghost use Rattle.dcc_regs.specs.LocoRegisters.{registers_in, with_cvs};
ghost use Rattle.dcc_regs.specs.LocoState.{is_state};
ghost use Rattle.dcc_c.specs.Packets.{address_kind, address_number};
ghost use Rattle.dcc_c.specs.Locos.{HasAddress, own_kind, own_number, pending_numbers, register_numbers};
ghost use Rattle.dcc_c.specs.Locos.{speed_mode, speed_step, words_of};

use crate::frame::DccFrame;
use crate::packet::{address_kind, address_number};
use dcc_packet::frame_laws::each_frame_is_a_packet;
use dcc_packet::{Address, Packet, PacketFault, read_loco};
use dcc_regs::{LocoRegisters, Speed, is_own_write, loco_hears_frame};
use dcc_wire::Frame;

/// The registers of a locomotive decoder except its CVs as a C struct.
#[repr(C)]
#[derive(Clone, Copy, Drop)]
pub struct DccLocoRegisters {
    /// The kind of the address: 0 for none, 1 for short, 2 for long.
    pub address_kind: u8,
    /// The kind of the speed: 0 for stop, 1 for emergency stop, or the number of speed steps, which
    /// is 14, 28 or 126.
    pub speed_mode: u8,
    /// The speed step, counted from 1, or 0 for stop and emergency stop.
    pub step: u8,
    /// True if the direction is forward.
    pub forward: bool,
    /// The number of the address, or 0 if the decoder has no address.
    pub address: u16,
    /// The frame of the pending CV write, or no bytes if no write is pending.
    pub pending: DccFrame,
    /// The functions: bit n of the first number is function n, and bit n of the second number is
    /// function 64 + n.
    pub functions: [u64; 2],
    /// The binary states: bit n of the first number is state n, and bit n of the second number is
    /// state 64 + n.
    pub states: [u64; 2],
}

/// The state of a locomotive decoder as a C struct. In `dcc.h` the struct has the fields of
/// `registers` as its own fields, at the same places.
#[repr(C)]
#[derive(Clone, Copy, Drop)]
pub struct DccLoco {
    /// The registers except the CVs.
    pub registers: DccLocoRegisters,
    /// The values of CV1 to CV1024. The first byte of `cvs` is CV1.
    pub cvs: [u8; 1024],
}

/// The constant 2^64.
const WORD: u128 = 1 << 64;

/// Writes the registers and the frame of the pending write to the fields of the C struct.
// inlined, as `take_up` and `read` are, since a call of each takes 16 instructions more for a packet
#[inline(always)]
pub(crate) fn put(numbers: &mut DccLocoRegisters, registers: &LocoRegisters, pending: DccFrame)
    requires { pending ≡ pending_numbers registers.now.pending }
    ensures { numbers.new ≡ register_numbers registers.now }
{
    numbers.address_kind = own_kind(&registers.address);
    numbers.address = own_number(&registers.address);
    numbers.speed_mode = speed_mode(registers.speed);
    numbers.step = speed_step(registers.speed);
    numbers.forward = registers.forward;
    numbers.pending = pending;
    numbers.functions = words_of(registers.functions);
    numbers.states = words_of(registers.states);
}

fn own_kind(own: &Option<Address>) -> u8
    ensures { result ≡ own_kind own.now }
{
    match own {
        None => 0,
        Some(own) => address_kind(own),
    }
}

fn own_number(own: &Option<Address>) -> u16
    ensures { result ≡ own_number own.now }
{
    match own {
        None => 0,
        Some(own) => address_number(own),
    }
}

pub(crate) fn speed_mode(speed: Speed) -> u8
    ensures { result ≡ speed_mode speed }
{
    match speed {
        Speed::Stop => 0,
        Speed::Emergency => 1,
        Speed::Step14(_) => 14,
        Speed::Step28(_) => 28,
        Speed::Step126(_) => 126,
    }
}

pub(crate) fn speed_step(speed: Speed) -> u8
    ensures { result ≡ speed_step speed }
{
    match speed {
        Speed::Stop | Speed::Emergency => 0,
        Speed::Step14(step) | Speed::Step28(step) | Speed::Step126(step) => step,
    }
}

/// Returns the frame of the pending write after the packet of `frame`, or no bytes if no write is
/// pending.
pub(crate) fn pending_left(pending: &Option<Packet>, frame: &Frame) -> DccFrame
    requires { IfSome pending.now (λ packet. spelling packet ≡ frame.now) }
    ensures { result ≡ pending_numbers pending.now }
{
    match pending {
        None => DccFrame::none(),
        Some(_) => DccFrame::of_frame(frame),
    }
}

pub(crate) fn words_of(bits: u128) -> [u64; 2]
    ensures { result ≡ words_of bits }
{
    [(bits % WORD) as u64, (bits / WORD) as u64]
}

/// Returns the registers of a stopped decoder without an address, which `take_up` overwrites.
pub(crate) fn no_registers() -> LocoRegisters
    ensures address { result.address ≡ None }
    ensures speed { result.speed ≡ Speed.Stop }
{
    LocoRegisters {
        address: None,
        speed: Speed::Stop,
        forward: true,
        functions: 0,
        states: 0,
        pending: None,
    }
}

/// Reads the registers from the fields. Returns false if the fields of `numbers` are not a possible
/// state of a decoder. If the result is false, the registers can have any value.
// writes the registers in place, since each copy would take space on the stack
#[inline(always)]
pub(crate) fn take_up(numbers: &DccLocoRegisters, registers: &mut LocoRegisters) -> bool
    ensures found { (state : LocoState) → is_state state ≡ true → numbers.now ≡ register_numbers (registers_in state)
        → (result ≡ true) × (registers.new ≡ registers_in state) }
    ensures possible { result ≡ true → (cvs : List ℕ) → is_state (with_cvs registers.new cvs) ≡ true }
    ensures numbers { result ≡ true → numbers.now ≡ register_numbers registers.new }
{
    read(numbers, registers) && registers.is_possible()
}

/// Reads the registers from the fields. Returns false if a field is out of its range. The function
/// does not check that a decoder can have these registers.
#[inline(always)]
fn read(numbers: &DccLocoRegisters, registers: &mut LocoRegisters) -> bool
    ensures found { (state : LocoState) → is_state state ≡ true → numbers.now ≡ register_numbers (registers_in state)
        → (result ≡ true) × (registers.new ≡ registers_in state) }
    ensures numbers { result ≡ true → numbers.now ≡ register_numbers registers.new }
{
    let Some(address) = address_of(numbers.address_kind, numbers.address) else {
        return false
    };
    let Some(speed) = speed_of(numbers.speed_mode, numbers.step) else {
        return false
    };
    registers.address = address;
    registers.speed = speed;
    registers.forward = numbers.forward;
    registers.functions = bits_of(&numbers.functions);
    registers.states = bits_of(&numbers.states);
    read_pending(&numbers.pending, &mut registers.pending)
}

/// Returns the address in the fields, or `None` if the decoder has no address.
///
/// Errors: P13 if no decoder can have this address.
// inlined, as `address_of` is, since a call of its own takes 32 bytes of stack
#[inline(always)]
pub(crate) fn own_address(numbers: &DccLocoRegisters) -> Result<Option<Address>, PacketFault>
    ensures found { (own : Option Address) → HasAddress numbers.now own → result ≡ Ok own }
    ensures address { IfOk result (HasAddress numbers.now) }
    ensures fault { IfErr result (λ fault. fault ≡ PacketFault.State) }
{
    address_of(numbers.address_kind, numbers.address).ok_or(PacketFault::State)
}

#[inline(always)]
fn address_of(kind: u8, number: u16) -> Option<Option<Address>>
    ensures active { IfSome result (λ own. is_active own ≡ true) }
    ensures numbers { IfSome result (λ own. (kind ≡ own_kind own) × (number ≡ own_number own)) }
    ensures found { (own : Option Address) → is_active own ≡ true → kind ≡ own_kind own → number ≡ own_number own
        → result ≡ Some own }
{
    match kind {
        0 if number == 0 => Some(None),
        1 => Some(Some(short(number)?)),
        2 => Some(Some(long(number)?)),
        _ => None,
    }
}

#[inline(always)]
fn short(number: u16) -> Option<Address>
    ensures numbers { IfSome result (λ own. (address_kind own ≡ 1) × (address_number own ≡ number)) }
    ensures found { (own : ShortAddress) → number ≡ own.number → result ≡ Some (Address.Short own) }
{
    if number > 127 {
        return None;
    }
    Address::short(number as u8).ok()
}

#[inline(always)]
fn long(number: u16) -> Option<Address>
    ensures numbers { IfSome result (λ own. (address_kind own ≡ 2) × (address_number own ≡ number)) }
    ensures found { (own : LongAddress) → number ≡ own.number → result ≡ Some (Address.Long own) }
{
    Address::long(number).ok()
}

fn speed_of(mode: u8, step: u8) -> Option<Speed>
    ensures found { (speed : Speed) → mode ≡ speed_mode speed → step ≡ speed_step speed → result ≡ Some speed }
    ensures numbers { IfSome result (λ speed. (mode ≡ speed_mode speed) × (step ≡ speed_step speed)) }
{
    match mode {
        0 if step == 0 => Some(Speed::Stop),
        1 if step == 0 => Some(Speed::Emergency),
        14 => Some(Speed::Step14(step)),
        28 => Some(Speed::Step28(step)),
        126 => Some(Speed::Step126(step)),
        _ => None,
    }
}

pub(crate) fn bits_of(words: &[u64; 2]) -> u128
    ensures found { (bits : ℕ) → words.now ≡ words_of bits → result ≡ bits }
    ensures words { words.now ≡ words_of result }
{
    u128::from(words[1]) * WORD + u128::from(words[0])
}

/// Reads the pending packet from its frame. Returns false if the bytes of the struct are no frame.
/// If the result is false, the packet can have any value.
// not inlined, so that the pending packet takes no stack while another packet is applied
#[inline(never)]
fn read_pending(numbers: &DccFrame, pending: &mut Option<Packet>) -> bool
    ensures found { (own : Option Address) (packet : Option Packet) → is_pending_for own packet ≡ true
        → numbers.now ≡ pending_numbers packet → (result ≡ true) × (pending.new ≡ packet) }
    ensures numbers { result ≡ true → numbers.now ≡ pending_numbers pending.new }
{
    if numbers.len == 0 {
        *pending = None;
        return numbers.is_none();
    }
    match Frame::of(numbers.as_slice()) {
        Ok(frame) => {
            *pending = Some(Packet::read(&frame));
            numbers.is(&DccFrame::of_frame(&frame))
        }
        Err(_) => false,
    }
}

/// Returns true if a decoder with the address in the fields can have the registers in the fields.
/// The function does not check the address.
#[inline(always)]
pub(crate) fn are_possible(numbers: &DccLocoRegisters) -> bool
    ensures found { (state : LocoState) → is_state state ≡ true → numbers.now ≡ register_numbers (registers_in state)
        → result ≡ true }
    ensures possible { result ≡ true → (own : Option Address) → HasAddress numbers.now own
        → (registers : LocoRegisters) × ((cvs : List ℕ) → is_state (with_cvs registers cvs) ≡ true)
        × (numbers.now ≡ register_numbers registers) }
{
    if !has_pending(numbers) {
        return false;
    }
    are_possible_with_pending(numbers)
}

/// Returns true if a decoder with the address and the pending write in the fields can have the
/// other registers in the fields. The function does not check the address and the pending write.
#[inline(always)]
pub(crate) fn are_possible_with_pending(numbers: &DccLocoRegisters) -> bool
    ensures found { (state : LocoState) → is_state state ≡ true → numbers.now ≡ register_numbers (registers_in state)
        → result ≡ true }
    ensures possible { result ≡ true → (own : Option Address) (pending : Option Packet) → HasAddress numbers.now own
        → is_pending_for own pending ≡ true → numbers.now.pending ≡ pending_numbers pending
        → (registers : LocoRegisters) × ((cvs : List ℕ) → is_state (with_cvs registers cvs) ≡ true)
        × (numbers.now ≡ register_numbers registers) }
{
    let functions = bits_of(&numbers.functions);
    let states = bits_of(&numbers.states);
    has_speed(numbers.speed_mode, numbers.step) & (functions >> 69 == 0) & (states % 2 == 0)
}

/// Returns true if the kind and the step of a speed are those of a speed that a decoder can have.
#[inline(always)]
fn has_speed(mode: u8, step: u8) -> bool
    ensures found { (speed : Speed) → is_speed_in_range speed ≡ true → mode ≡ speed_mode speed
        → step ≡ speed_step speed → result ≡ true }
    ensures speed { result ≡ true → (speed : Speed) × (is_speed_in_range speed ≡ true) × (mode ≡ speed_mode speed)
        × (step ≡ speed_step speed) }
{
    if mode <= 1 {
        return step == 0;
    }
    ((mode == 14) | (mode == 28) | (mode == 126)) & (1 <= step) & (step <= mode)
}

/// Returns true if a decoder with the address in the fields can have the pending write in the
/// fields. The function does not check the address.
#[inline(always)]
fn has_pending(numbers: &DccLocoRegisters) -> bool
    ensures found { (own : Option Address) (packet : Option Packet) → HasAddress numbers.now own
        → is_pending_for own packet ≡ true → numbers.now.pending ≡ pending_numbers packet → result ≡ true }
    ensures pending { result ≡ true → (own : Option Address) → HasAddress numbers.now own
        → (packet : Option Packet) × (is_pending_for own packet ≡ true)
        × (numbers.now.pending ≡ pending_numbers packet) }
{
    if numbers.pending.len == 0 {
        return numbers.pending.is_none();
    }
    has_pending_write(numbers)
}

/// Returns true if a decoder with the address in the fields can have the pending write in the
/// fields, which must be a write. The function does not check the address.
// not inlined, since most calls find no pending write
#[inline(never)]
fn has_pending_write(numbers: &DccLocoRegisters) -> bool
    ensures found { (own : Option Address) (packet : Packet) → HasAddress numbers.now own
        → is_pending_for own (Some packet) ≡ true → numbers.now.pending ≡ pending_numbers (Some packet)
        → result ≡ true }
    ensures pending { result ≡ true → (own : Option Address) → HasAddress numbers.now own
        → (packet : Packet) × (is_pending_for own (Some packet) ≡ true)
        × (numbers.now.pending ≡ pending_numbers (Some packet)) }
{
    match own_address(numbers) {
        Ok(own) => is_write_for(&own, &numbers.pending),
        Err(_) => false,
    }
}

/// Returns true if the struct has a frame that writes a CV of a decoder with the address `own`.
fn is_write_for(own: &Option<Address>, pending: &DccFrame) -> bool
    ensures found { (packet : Packet) → is_pending_for own.now (Some packet) ≡ true
        → pending.now ≡ pending_numbers (Some packet) → result ≡ true }
    ensures pending { result ≡ true → (packet : Packet) × (is_pending_for own.now (Some packet) ≡ true)
        × (pending.now ≡ pending_numbers (Some packet)) }
{
    let bytes = pending.as_slice();
    match Frame::check(bytes) {
        Ok(()) => {
            each_frame_is_a_packet(bytes);
            loco_hears_frame(own, bytes) & is_write(bytes) & pending.is(&DccFrame::of(bytes))
        }
        Err(_) => false,
    }
}

/// Returns true if the packet of the frame is a write of a CV that is no broadcast.
#[inline(always)]
fn is_write(frame: &[u8]) -> bool
    requires { IsFrame frame.now }
    ensures own { (packet : Packet) → spelling packet ≡ frame.now → result ≡ is_own_write_of packet }
    ensures byte { (packet : Packet) → spelling packet ≡ frame.now → is_byte_write packet ≡ true }
{
    match read_loco(&frame[..frame.len() - 1]) {
        Some((to, what)) => is_own_write(&Packet::Loco { to, what }),
        None => false,
    }
}
