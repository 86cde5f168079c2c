//! A locomotive decoder whose CVs are stored by the caller, for example in EEPROM. The caller
//! passes the value of the one CV that a packet accesses, and gets the new value of this CV.

ghost use Rattle.std.specs.Prelude.{◌≡◌, ℕ, ◌≤◌, ◌<◌, ◌&&◌, Some, None, false, unwrap_or, option_map};
ghost use Rattle.std.specs.Prelude.{if◌then◌else◌};
ghost use Rattle.dcc_packet.specs.Bits.{is_one};
ghost use Rattle.dcc_packet.specs.declared.cv.CvNumber.{CvNumber};
ghost use Rattle.dcc_regs.specs.AccessedCv.{changed_cv};
ghost use Rattle.dcc_regs.specs.Result.{is_effective};
ghost use Rattle.dcc_regs.specs.Writes.{bit_set, change_of, writes_cv29};
ghost use Rattle.dcc_regs.specs.declared.register.Value.TheVariants.{Pending as PendingValue};

use crate::cvs::mode_of;
use crate::heard::hears;
use crate::loco_registers::LocoRegisters;
use crate::register::Who;
use crate::writes::is_repeated_write;
use dcc_packet::{CvNumber, Packet, What, write_value};

impl LocoRegisters {
    ghost use Rattle.std.specs.Prelude.{◌≡◌, List, ℕ, None, true, false};
    ghost use Rattle.dcc_packet.specs.StoredCvs.{with_value};
    ghost use Rattle.dcc_regs.specs.AccessedCv.{AreStored, accessed_cv};
    ghost use Rattle.dcc_regs.specs.declared.register.Register.{Register};
    ghost use Rattle.dcc_regs.specs.Heard.{hears};
    ghost use Rattle.dcc_regs.specs.LocoRegisters.{with_cvs};
    ghost use Rattle.dcc_regs.specs.LocoState.{is_state, loco_map, loco_who};
    ghost use Rattle.dcc_regs.specs.Result.{step};
    ghost use Rattle.dcc_regs.specs.Setting.{left_pending, set_from};

    /// Returns the CV that [`apply_with_value`](LocoRegisters::apply_with_value) accesses for this
    /// packet: the CV of a CV write that takes effect. Returns `None` for all other packets.
    pub fn accessed_cv(&self, packet: &Packet) -> Option<CvNumber>
        ensures { result ≡ accessed_cv self.now.address self.now.pending packet.now }
    {
        if hears(Who::Loco(self.address), packet) && is_repeated_write(&self.pending, packet) {
            changed_cv(packet)
        } else {
            None
        }
    }

    /// Applies one packet to a decoder with these registers, whose CVs the caller stores. The
    /// parameter `cv29` is the value of CV29. If the packet accesses a CV, `value` is the value of
    /// this CV, and the function writes the new value of the CV to `value`. If this CV is CV29, the
    /// function also writes the new value to `cv29`. If the packet accesses no CV, `value` and
    /// `cv29` do not change. Returns true if the decoder hears the packet. If the decoder does not
    /// hear the packet, nothing changes.
    // not inlined, so that the numbers of 128 bits do not take space on the stack of each caller
    #[inline(never)]
    pub fn apply_with_value(&mut self, cv29: &mut u8, value: &mut u8, packet: &Packet) -> bool
        ensures heard { (cvs : List ℕ) → result ≡ hears (loco_who (with_cvs self.old cvs)) packet.now }
        ensures stays { result ≡ false → (self.new ≡ self.old) × (cv29.new ≡ cv29.old) × (value.new ≡ value.old) }
        ensures value_stays { accessed_cv self.old.address self.old.pending packet.now ≡ None → value.new ≡ value.old }
        ensures pending { result ≡ true → self.new.pending ≡ left_pending packet.now }
        ensures possible { (cvs after : List ℕ) → is_state (with_cvs self.old cvs) ≡ true
            → is_state (with_cvs self.new after) ≡ true }
        ensures same_who { (cvs after : List ℕ) →
            loco_who (with_cvs self.new after) ≡ loco_who (with_cvs self.old cvs) }
        ensures stored { (cvs : List ℕ) →
            let cv = accessed_cv self.old.address self.old.pending packet.now in
            AreStored cvs cv29.old cv value.old → AreStored (with_value cvs cv value.new) cv29.new cv value.new }
        ensures step { (cvs : List ℕ) →
            let cv = accessed_cv self.old.address self.old.pending packet.now in
            AreStored cvs cv29.old cv value.old → loco_map (with_cvs self.new (with_value cvs cv value.new))
            ≡ step (loco_who (with_cvs self.old cvs)) (loco_map (with_cvs self.old cvs)) packet.now }
        ensures unheard { (cvs : List ℕ) →
            let cv = accessed_cv self.old.address self.old.pending packet.now in
            AreStored cvs cv29.old cv value.old → hears (loco_who (with_cvs self.old cvs)) packet.now ≡ false
            → loco_map (with_cvs self.new (with_value cvs cv value.new)) ≡ loco_map (with_cvs self.old cvs) }
        ensures kept { (cvs : List ℕ) →
            let cv = accessed_cv self.old.address self.old.pending packet.now in
            AreStored cvs cv29.old cv value.old → (r : Register)
            → set_from (loco_map (with_cvs self.old cvs)) packet.now r ≡ None
            → loco_map (with_cvs self.new (with_value cvs cv value.new)) r ≡ loco_map (with_cvs self.old cvs) r }
    {
        if !hears(Who::Loco(self.address), packet) {
            return false;
        }
        let mode = mode_of(*cv29);
        hear(cv29, value, &self.pending, packet);
        self.obey(mode, packet);
        true
    }
}

/// Executes a heard packet that is the second copy of the own write `pending`. The parameter
/// `value` is the value of the CV that the packet names, and gets its new value. If this CV is
/// CV29, `cv29` gets the new value too. Any other packet changes nothing.
fn hear(cv29: &mut u8, value: &mut u8, pending: &Option<Packet>, packet: &Packet)
    ensures bits { (cv : CvNumber) (place : ℕ) → option_map changed_cv (change_of packet.now) ≡ Some cv → place ≤ 7
        → is_one value.new place ≡ (if is_effective (Some (PendingValue pending.now)) packet.now
        then unwrap_or (bit_set packet.now cv.number place) (is_one value.old place) else is_one value.old place) }
    ensures stays { is_effective (Some (PendingValue pending.now)) packet.now ≡ false → value.new ≡ value.old }
    ensures other { change_of packet.now ≡ None → value.new ≡ value.old }
    ensures mode { cv29.new ≡ (if is_effective (Some (PendingValue pending.now)) packet.now && writes_cv29 packet.now
        then value.new else cv29.old) }
    ensures byte { value.new < 256 }
{
    if is_repeated_write(pending, packet) {
        write_to(value, packet);
        if writes_cv29(packet) {
            *cv29 = *value;
        }
    }
    let _byte = *value;
}

/// Returns true if the packet writes CV29 or a bit of CV29.
fn writes_cv29(packet: &Packet) -> bool
    ensures { result ≡ writes_cv29 packet.now }
{
    match changed_cv(packet) {
        Some(cv) => cv.number() == 29,
        None => false,
    }
}

/// Returns the CV that the packet writes. Returns `None` if the packet is no CV write.
fn changed_cv(packet: &Packet) -> Option<CvNumber>
    ensures { result ≡ option_map changed_cv (change_of packet.now) }
{
    match packet {
        Packet::Loco {
            what: What::CvWrite { cv, .. } | What::CvBitWrite { cv, .. },
            ..
        } => Some(*cv),
        _ => None,
    }
}

/// Executes a CV write. The parameter `value` is the value of the CV that the packet names, and
/// gets its new value. CV7 and CV8 never change. A packet of another kind changes nothing.
fn write_to(value: &mut u8, packet: &Packet)
    ensures other { change_of packet.now ≡ None → value.new ≡ value.old }
    ensures bits { (cv : CvNumber) (place : ℕ) → option_map changed_cv (change_of packet.now) ≡ Some cv → place ≤ 7
        → is_one value.new place ≡ unwrap_or (bit_set packet.now cv.number place) (is_one value.old place) }
{
    match packet {
        Packet::Loco {
            what: What::CvWrite { cv, value: new },
            ..
        } => {
            let _written = write_value(value, *cv, *new);
        }
        Packet::Loco {
            what: What::CvBitWrite { cv, place, one },
            ..
        } => {
            let new = place.with_bit(*value, *one);
            let _written = write_value(value, *cv, new);
        }
        _ => {}
    }
}
