//! The registers of a locomotive decoder except its CVs, and the effect of a packet on registers
//! and CVs.

ghost use Rattle.std.specs.Prelude.{◌≡◌, ◌≤◌, ℕ, unwrap_or};
ghost use Rattle.dcc_packet.specs.Bits.{is_one};
ghost use Rattle.dcc_regs.specs.Addresses.{is_active as is_active_address};
ghost use Rattle.dcc_regs.specs.FunctionBits.{function_set as function_set_of};
ghost use Rattle.dcc_regs.specs.Loco.{is_pending_for as is_pending_packet_for, is_speed as is_speed_in_range};
ghost use Rattle.dcc_regs.specs.Speeds.{direction_set as direction_set_of, speed_set as speed_set_of};
ghost use Rattle.dcc_regs.specs.States.{state_set as state_set_of};

use crate::cvs;
use crate::function_bits::functions_set;
use crate::heard::hears;
use crate::loco_state::{LocoState, functions_in};
use crate::register::{Speed, SpeedMode, Who};
use crate::speeds::{direction_set, speed_set};
use crate::states::states_set;
use crate::writes::{is_own_write, leave_pending};
use dcc_packet::{Address, Packet};

/// The registers of a locomotive decoder except its CVs: a [`LocoState`] without `cvs`. A caller
/// can store the CVs anywhere.
#[derive(Clone, Copy)]
pub struct LocoRegisters {
    /// The functions: bit n is one if function n, 0 to 68, is on.
    pub functions: u128,
    /// The binary states: bit n is one if binary state n, 1 to 127, is on. Bit 0 of `states` is
    /// unused.
    pub states: u128,
    /// The pending write, which is the last packet that the decoder heard if this packet is a CV
    /// write to the active address.
    pub pending: Option<Packet>,
    /// The active address, or `None` if the decoder has no address.
    pub address: Option<Address>,
    /// The speed of the locomotive.
    pub speed: Speed,
    /// True if the direction is forward.
    pub forward: bool,
}

impl LocoRegisters {
    ghost use Rattle.std.specs.Prelude.{◌≡◌, ℕ, List, None, true, false};
    ghost use Rattle.dcc_packet.specs.Cvs.{cv_in};
    ghost use Rattle.dcc_regs.specs.AccessedCv.{HaveAddress};
    ghost use Rattle.dcc_regs.specs.declared.register.Register.{Register};
    ghost use Rattle.dcc_regs.specs.Heard.{hears};
    ghost use Rattle.dcc_regs.specs.Loco.{start_map, start_who};
    ghost use Rattle.dcc_regs.specs.LocoRegisters.{with_cvs};
    ghost use Rattle.dcc_regs.specs.LocoState.{is_state, loco_map, loco_who};
    ghost use Rattle.dcc_regs.specs.Result.{step};
    ghost use Rattle.dcc_regs.specs.Setting.{left_pending, set_from};

    /// Creates the registers of a decoder that was powered up with the CVs `cvs`.
    pub fn new(cvs: &[u8; 1024]) -> LocoRegisters
        ensures possible { is_state (with_cvs result cvs.now) ≡ true }
        ensures who { loco_who (with_cvs result cvs.now) ≡ start_who (cv_in cvs.now) }
        ensures registers { loco_map (with_cvs result cvs.now) ≡ start_map (cv_in cvs.now) }
        ensures pending { result.pending ≡ None }
    {
        LocoRegisters::powered_up(cvs[0], cvs[16], cvs[17], cvs[28])
    }

    /// Creates the registers of a decoder that was powered up, if CV1, CV17, CV18 and CV29 have the
    /// given values. No other CV matters.
    pub fn powered_up(cv1: u8, cv17: u8, cv18: u8, cv29: u8) -> LocoRegisters
        ensures possible { (cvs : List ℕ) → is_state (with_cvs result cvs) ≡ true }
        ensures who { (cvs : List ℕ) → HaveAddress (cv_in cvs) cv1 cv17 cv18 cv29
            → loco_who (with_cvs result cvs) ≡ start_who (cv_in cvs) }
        ensures registers { (cvs : List ℕ) → loco_map (with_cvs result cvs) ≡ start_map (cv_in cvs) }
        ensures pending { result.pending ≡ None }
    {
        LocoRegisters {
            address: cvs::address_of_cvs(cv1, cv17, cv18, cv29),
            speed: Speed::Stop,
            forward: true,
            functions: 0,
            states: 0,
            pending: None,
        }
    }

    /// Returns true if a decoder can have these registers, with any CVs.
    // not inlined, so that its caller takes less stack
    #[inline(never)]
    pub fn is_possible(&self) -> bool
        ensures { (cvs : List ℕ) → result ≡ is_state (with_cvs self.now cvs) }
    {
        is_active(&self.address)
            && is_speed(self.speed)
            && self.functions >> 69 == 0
            && self.states % 2 == 0
            && is_pending_for(&self.address, &self.pending)
    }

    /// Returns the state of a decoder with these registers and the CVs `cvs`.
    pub fn with_cvs(&self, cvs: &[u8; 1024]) -> LocoState
        ensures { result ≡ with_cvs self.now cvs.now }
    {
        LocoState {
            address: self.address,
            speed: self.speed,
            forward: self.forward,
            functions: self.functions,
            states: self.states,
            pending: self.pending,
            cvs: *cvs,
        }
    }

    /// Applies one packet to a decoder with these registers and the CVs `cvs`. The function writes
    /// at most one CV. Returns true if the decoder hears the packet. If the decoder does not hear
    /// the packet, nothing changes.
    // not inlined, so that the numbers of 128 bits do not take space on the stack of each caller
    #[inline(never)]
    pub fn apply(&mut self, cvs: &mut [u8; 1024], packet: &Packet) -> bool
        ensures heard { result ≡ hears (loco_who (with_cvs self.old cvs.old)) packet.now }
        ensures stays { result ≡ false → with_cvs self.new cvs.new ≡ with_cvs self.old cvs.old }
        ensures pending { result ≡ true → self.new.pending ≡ left_pending packet.now }
        ensures possible { is_state (with_cvs self.old cvs.old) ≡ true → is_state (with_cvs self.new cvs.new) ≡ true }
        ensures same_who { loco_who (with_cvs self.new cvs.new) ≡ loco_who (with_cvs self.old cvs.old) }
        ensures step { loco_map (with_cvs self.new cvs.new)
            ≡ step (loco_who (with_cvs self.old cvs.old)) (loco_map (with_cvs self.old cvs.old)) packet.now }
        ensures unheard { hears (loco_who (with_cvs self.old cvs.old)) packet.now ≡ false
            → loco_map (with_cvs self.new cvs.new) ≡ loco_map (with_cvs self.old cvs.old) }
        ensures kept { (r : Register) → set_from (loco_map (with_cvs self.old cvs.old)) packet.now r ≡ None
            → loco_map (with_cvs self.new cvs.new) r ≡ loco_map (with_cvs self.old cvs.old) r }
    {
        if !hears(Who::Loco(self.address), packet) {
            return false;
        }
        let mode = cvs::mode(cvs);
        cvs::hear(cvs, &self.pending, packet);
        self.obey(mode, packet);
        true
    }

    /// Sets all registers except the CVs, after the decoder has heard the packet. The parameter
    /// `mode` is the speed mode before the packet.
    // inlined in both callers, since a call of its own takes 15 instructions more for each packet
    #[inline(always)]
    pub(crate) fn obey(&mut self, mode: SpeedMode, packet: &Packet)
        ensures address { self.new.address ≡ self.old.address }
        ensures speed { self.new.speed ≡ unwrap_or (speed_set_of mode packet.now) self.old.speed }
        ensures forward { self.new.forward ≡ unwrap_or (direction_set_of packet.now) self.old.forward }
        ensures functions { (n : ℕ) → n ≤ 68 → is_one self.new.functions n
            ≡ unwrap_or (function_set_of mode packet.now n) (is_one self.old.functions n) }
        ensures states { (n : ℕ) → n ≤ 127 → is_one self.new.states n
            ≡ unwrap_or (state_set_of packet.now n) (is_one self.old.states n) }
        ensures pending { self.new.pending ≡ left_pending packet.now }
        ensures possible { (cvs after : List ℕ) → hears (loco_who (with_cvs self.old cvs)) packet.now ≡ true
            → is_state (with_cvs self.old cvs) ≡ true → is_state (with_cvs self.new after) ≡ true }
    {
        self.speed = speed_set(mode, packet).unwrap_or(self.speed);
        self.forward = direction_set(packet).unwrap_or(self.forward);
        self.functions = functions_in(functions_set(mode, packet).over(self.functions));
        self.states = states_set(packet).over(self.states);
        leave_pending(&mut self.pending, packet);
    }
}

fn is_active(active: &Option<Address>) -> bool
    ensures { result ≡ is_active_address active.now }
{
    !matches!(active, Some(Address::Broadcast))
}

/// Returns true if the speed is a stop, or a step in the range of its speed mode.
#[inline(always)]
pub fn is_speed(speed: Speed) -> bool
    ensures { result ≡ is_speed_in_range speed }
{
    match speed {
        Speed::Stop | Speed::Emergency => true,
        Speed::Step14(step) => 1 <= step && step <= 14,
        Speed::Step28(step) => 1 <= step && step <= 28,
        Speed::Step126(step) => 1 <= step && step <= 126,
    }
}

fn is_pending_for(active: &Option<Address>, pending: &Option<Packet>) -> bool
    ensures { result ≡ is_pending_packet_for active.now pending.now }
{
    match pending {
        None => true,
        Some(packet) => is_own_write(packet) && hears(Who::Loco(*active), packet),
    }
}
