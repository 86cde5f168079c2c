//! A locomotive decoder that stores its functions and binary states as bits of two numbers.
ghost use Rattle.std.specs.Prelude.{◌≡◌, ℕ, ◌<◌, ◌≤◌, Some, None, if◌then◌else◌, true, ◌↔◌};
ghost use Rattle.std.specs.Prelude.{IsOk, IfOk, IfErr};
ghost use Rattle.dcc_packet.specs.Bits.{is_one};
ghost use Rattle.dcc_regs.specs.LocoRegisters.{with_cvs};
ghost use Rattle.dcc_regs.specs.LocoState.{is_state};
ghost use Rattle.dcc_regs.specs.States.{is_binary_state};

use crate::cvs;
use crate::decoder::Decoder;
use crate::loco_registers::LocoRegisters;
use crate::loco_state::LocoState;
use crate::register::{Register, Value, Who};
use dcc_packet::{CvNumber, Packet, PacketFault, cv_value, lemma_cvs};

/// A locomotive decoder with the contract of `LocoDecoder`. The functions and the binary states are
/// bits of two numbers, and each CV is a byte.
#[derive(Drop)]
pub struct PackedLoco {
    registers: LocoRegisters,
    cvs: [u8; 1024],
    ghost possible: { is_state (with_cvs registers cvs) ≡ true },
}

impl PackedLoco {
    ghost use Rattle.dcc_packet.specs.Cvs.{cv_in};
    ghost use Rattle.dcc_regs.specs.Loco.{cv_held, powered_up, start_map, start_who, with_cv};
    ghost use Rattle.dcc_regs.specs.LocoState.{is_state, loco_map, loco_who};

    /// Creates a locomotive decoder that was powered up with the CVs `cvs`.
    pub fn new(cvs: &[u8; 1024]) -> PackedLoco
        ensures who { ⟦<PackedLoco as Decoder>⟧.who result ≡ start_who (cv_in cvs.now) }
        ensures registers { ⟦<PackedLoco as Decoder>⟧.registers result ≡ start_map (cv_in cvs.now) }
        ensures bytes { (n : ℕ) → cv_in cvs.now n < 256 }
    {
        lemma_cvs(cvs);
        PackedLoco {
            registers: LocoRegisters::new(cvs),
            cvs: *cvs,
        }
    }

    /// Creates the decoder with the state `state`.
    ///
    /// Errors: P13 if no decoder can be in this state.
    pub fn restore(state: &LocoState) -> Result<PackedLoco, PacketFault>
        ensures valid { IsOk result ↔ (is_state state.now ≡ true) }
        ensures fault { IfErr result (λ fault. fault ≡ PacketFault.State) }
        ensures who { IfOk result (λ d. ⟦<PackedLoco as Decoder>⟧.who d ≡ loco_who state.now) }
        ensures registers { IfOk result (λ d. ⟦<PackedLoco as Decoder>⟧.registers d ≡ loco_map state.now) }
    {
        if state.is_possible() {
            Ok(PackedLoco {
                registers: state.registers(),
                cvs: state.cvs,
            })
        } else {
            Err(PacketFault::State)
        }
    }

    /// Returns the state of the decoder as plain data. For this state `restore` returns an equal
    /// decoder.
    pub fn state(&self) -> LocoState
        ensures possible { is_state result ≡ true }
        ensures who { ⟦<PackedLoco as Decoder>⟧.who self.now ≡ loco_who result }
        ensures registers { ⟦<PackedLoco as Decoder>⟧.registers self.now ≡ loco_map result }
    {
        self.registers.with_cvs(&self.cvs)
    }

    /// Powers the decoder up: the decoder becomes the decoder that `new` creates with its CVs.
    pub fn power_up(&mut self)
        ensures who { ⟦<PackedLoco as Decoder>⟧.who self.new ≡ start_who
            (cv_held (⟦<PackedLoco as Decoder>⟧.registers self.old)) }
        ensures registers { ⟦<PackedLoco as Decoder>⟧.registers self.new ≡ powered_up
            (⟦<PackedLoco as Decoder>⟧.registers self.old) }
    {
        lemma_cvs(&self.cvs);
        self.registers = LocoRegisters::new(&self.cvs);
    }

    /// Returns the value of the CV `cv`.
    pub fn cv(&self, cv: CvNumber) -> u8
        ensures { result ≡ cv_held (⟦<PackedLoco as Decoder>⟧.registers self.now) cv.number }
    {
        cv_value(&self.cvs, cv)
    }

    /// Sets the CV `cv` to `value`. The active address and all other registers do not change.
    pub fn set_cv(&mut self, cv: CvNumber, value: u8)
        ensures who { ⟦<PackedLoco as Decoder>⟧.who self.new ≡ ⟦<PackedLoco as Decoder>⟧.who self.old }
        ensures registers { ⟦<PackedLoco as Decoder>⟧.registers self.new ≡ with_cv
            (⟦<PackedLoco as Decoder>⟧.registers self.old) cv.number value }
    {
        lemma_cvs(&self.cvs);
        self.cvs[usize::from(cv.number()) - 1] = value;
    }
}

/// Returns binary state `n`. Returns `None` if `n` is not 1 to 127.
fn state(states: u128, n: u8) -> Option<bool>
    ensures { result ≡ (if is_binary_state n then Some (is_one states n) else None) }
{
    if (1..=127).contains(&n) {
        Some(states >> n & 1 == 1)
    } else {
        None
    }
}

impl Decoder for PackedLoco {
    ghost use Rattle.dcc_regs.specs.LocoRegisters.{with_cvs};
    ghost use Rattle.dcc_regs.specs.LocoState.{loco_map, loco_who};

    ghost who = { λ d. loco_who (with_cvs d.registers d.cvs) };

    ghost registers = { λ d. loco_map (with_cvs d.registers d.cvs) };

    fn who(&self) -> Who {
        Who::Loco(self.registers.address)
    }

    fn apply(&mut self, packet: &Packet) {
        let _heard = self.registers.apply(&mut self.cvs, packet);
    }

    fn get(&self, register: Register) -> Option<Value> {
        match register {
            Register::Speed => Some(Value::Speed(self.registers.speed)),
            Register::Direction => Some(Value::Forward(self.registers.forward)),
            Register::Function(n) if n <= 68 => Some(Value::Flag(
                self.registers.functions >> n & 1 == 1,
            )),
            Register::State(n) => state(self.registers.states, n).map(Value::Flag),
            Register::CvBit(cv, place) => cvs::bit(&self.cvs, cv, place).map(Value::Flag),
            Register::Pending => Some(Value::Pending(self.registers.pending)),
            _ => None,
        }
    }

    fn cv_byte(&self, cv: u16) -> u8 {
        match CvNumber::new(cv) {
            Ok(cv) => self.cv(cv),
            Err(_) => 0,
        }
    }
}
