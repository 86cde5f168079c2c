//! A locomotive decoder that stores its functions and binary states as truth values.
ghost use Rattle.std.specs.Prelude.{◌≡◌, ℕ, ◌<◌, ◌≤◌, IsTrue, Some, None, if◌then◌else◌, unwrap_or, slice_index_or};
ghost use Rattle.std.specs.Prelude.{true, false, ◌↔◌, IsOk, IfOk, IfErr};
ghost use Rattle.dcc_regs.specs.Addresses.{is_active};
ghost use Rattle.dcc_regs.specs.Loco.{is_speed, is_pending_for};
ghost use Rattle.dcc_regs.specs.States.{is_binary_state};

use crate::cvs;
use crate::decoder::Decoder;
use crate::loco_registers::LocoRegisters;
use crate::loco_state::{LocoState, functions_of, packed, states_in, states_of};
use crate::register::{Register, Speed, Value, Who};
use dcc_packet::{Address, CvNumber, Packet, PacketFault, cv_value, lemma_cvs};

/// A locomotive decoder that stores functions and binary states as truth values, and each CV as a
/// byte.
#[derive(Drop)]
pub struct LocoDecoder {
    address: Option<Address>,
    speed: Speed,
    forward: bool,
    functions: [bool; 69],
    states: [bool; 128],
    cvs: [u8; 1024],
    pending: Option<Packet>,
    ghost is_active: { is_active address ≡ true },
    ghost is_speed: { is_speed speed ≡ true },
    ghost is_pending: { is_pending_for address pending ≡ true },
}

impl LocoDecoder {
    ghost use Rattle.dcc_packet.specs.Cvs.{cv_in};
    ghost use Rattle.dcc_regs.specs.Loco.{cv_held, powered_up, start_map, start_who, with_cv};
    ghost use Rattle.dcc_regs.specs.LocoRegisters.{with_cvs};
    ghost use Rattle.dcc_regs.specs.LocoState.{is_state, loco_map, loco_who};

    /// Creates a locomotive decoder that was powered up with the CVs `cvs`.
    pub fn new(cvs: &[u8; 1024]) -> LocoDecoder
        ensures who { ⟦<LocoDecoder as Decoder>⟧.who result ≡ start_who (cv_in cvs.now) }
        ensures registers { ⟦<LocoDecoder as Decoder>⟧.registers result ≡ start_map (cv_in cvs.now) }
        ensures bytes { (n : ℕ) → cv_in cvs.now n < 256 }
    {
        lemma_cvs(cvs);
        LocoDecoder {
            address: cvs::active_address(cvs),
            speed: Speed::Stop,
            forward: true,
            functions: [false; 69],
            states: [false; 128],
            cvs: *cvs,
            pending: None,
        }
    }

    /// Creates the decoder with the state `state`.
    ///
    /// Errors: P13 if no decoder can be in this state.
    pub fn restore(state: &LocoState) -> Result<LocoDecoder, PacketFault>
        ensures valid { IsOk result ↔ (is_state state.now ≡ true) }
        ensures fault { IfErr result (λ fault. fault ≡ PacketFault.State) }
        ensures who { IfOk result (λ d. ⟦<LocoDecoder as Decoder>⟧.who d ≡ loco_who state.now) }
        ensures registers { IfOk result (λ d. ⟦<LocoDecoder as Decoder>⟧.registers d ≡ loco_map state.now) }
    {
        if state.is_possible() {
            Ok(LocoDecoder {
                address: state.address,
                speed: state.speed,
                forward: state.forward,
                functions: functions_of(state.functions),
                states: states_of(state.states),
                cvs: state.cvs,
                pending: state.pending,
            })
        } else {
            Err(PacketFault::State)
        }
    }

    /// Returns the state of the decoder as plain data. For this state `restore` returns an equal
    /// decoder.
    pub fn state(&self) -> LocoState
        ensures possible { is_state result ≡ true }
        ensures who { ⟦<LocoDecoder as Decoder>⟧.who self.now ≡ loco_who result }
        ensures registers { ⟦<LocoDecoder as Decoder>⟧.registers self.now ≡ loco_map result }
    {
        self.registers().with_cvs(&self.cvs)
    }

    /// Powers the decoder up: the decoder becomes the decoder that `new` creates with its CVs.
    pub fn power_up(&mut self)
        ensures who { ⟦<LocoDecoder as Decoder>⟧.who self.new ≡ start_who
            (cv_held (⟦<LocoDecoder as Decoder>⟧.registers self.old)) }
        ensures registers { ⟦<LocoDecoder as Decoder>⟧.registers self.new ≡ powered_up
            (⟦<LocoDecoder as Decoder>⟧.registers self.old) }
    {
        lemma_cvs(&self.cvs);
        *self = LocoDecoder::new(&self.cvs);
    }

    /// Returns the value of the CV `cv`.
    pub fn cv(&self, cv: CvNumber) -> u8
        ensures { result ≡ cv_held (⟦<LocoDecoder as Decoder>⟧.registers self.now) cv.number }
    {
        cv_value(&self.cvs, cv)
    }

    /// Sets the CV `cv` to `value`. The active address and all other registers do not change.
    pub fn set_cv(&mut self, cv: CvNumber, value: u8)
        ensures who { ⟦<LocoDecoder as Decoder>⟧.who self.new ≡ ⟦<LocoDecoder as Decoder>⟧.who self.old }
        ensures registers { ⟦<LocoDecoder as Decoder>⟧.registers self.new ≡ with_cv
            (⟦<LocoDecoder as Decoder>⟧.registers self.old) cv.number value }
    {
        lemma_cvs(&self.cvs);
        self.cvs[usize::from(cv.number()) - 1] = value;
    }

    /// Returns the registers except the CVs, with functions and binary states as bits.
    fn registers(&self) -> LocoRegisters
        ensures possible { is_state (with_cvs result self.now.cvs) ≡ true }
        ensures who { ⟦<LocoDecoder as Decoder>⟧.who self.now ≡ loco_who (with_cvs result self.now.cvs) }
        ensures registers { ⟦<LocoDecoder as Decoder>⟧.registers self.now ≡ loco_map (with_cvs result self.now.cvs) }
    {
        LocoRegisters {
            address: self.address,
            speed: self.speed,
            forward: self.forward,
            functions: packed(&self.functions),
            states: states_in(packed(&self.states)),
            pending: self.pending,
        }
    }

    /// Sets all registers except the CVs.
    fn put(&mut self, registers: &LocoRegisters)
        requires { is_state (with_cvs registers.now self.old.cvs) ≡ true }
        ensures registers { ⟦<LocoDecoder as Decoder>⟧.registers self.new
            ≡ loco_map (with_cvs registers.now self.old.cvs) }
        ensures who { ⟦<LocoDecoder as Decoder>⟧.who self.new ≡ loco_who (with_cvs registers.now self.old.cvs) }
    {
        self.address = registers.address;
        self.speed = registers.speed;
        self.forward = registers.forward;
        self.functions = functions_of(registers.functions);
        self.states = states_of(registers.states);
        self.pending = registers.pending;
    }

    /// Returns binary state `n`. Returns `None` if `n` is not 1 to 127.
    fn binary_state(&self, n: u8) -> Option<bool>
        ensures { result ≡ (if is_binary_state n then Some (slice_index_or self.now.states n false) else None) }
    {
        if (1..=127).contains(&n) {
            Some(self.states[n as usize])
        } else {
            None
        }
    }
}

impl Decoder for LocoDecoder {
    ghost use Rattle.dcc_regs.specs.LocoDecoder.{loco_content};
    ghost use Rattle.dcc_regs.specs.Loco.{loco_registers};
    ghost use Rattle.dcc_regs.specs.declared.register.Who.TheVariants.{Loco as LocoWho};

    ghost who = { λ d. LocoWho d.address };

    ghost registers = { λ d. loco_registers (loco_content d) };

    fn who(&self) -> Who {
        Who::Loco(self.address)
    }

    fn apply(&mut self, packet: &Packet) {
        let mut registers = self.registers();
        let _heard = registers.apply(&mut self.cvs, packet);
        self.put(&registers);
    }

    fn get(&self, register: Register) -> Option<Value> {
        match register {
            Register::Speed => Some(Value::Speed(self.speed)),
            Register::Direction => Some(Value::Forward(self.forward)),
            Register::Function(n) if n <= 68 => Some(Value::Flag(self.functions[n as usize])),
            Register::State(n) => self.binary_state(n).map(Value::Flag),
            Register::CvBit(cv, place) => cvs::bit(&self.cvs, cv, place).map(Value::Flag),
            Register::Pending => Some(Value::Pending(self.pending)),
            _ => None,
        }
    }

    fn cv_byte(&self, cv: u16) -> u8 {
        match CvNumber::new(cv) {
            Ok(cv) => self.cv(cv),
            Err(_) => 0,
        }
    }
}
