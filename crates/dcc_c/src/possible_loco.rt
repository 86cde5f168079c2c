//! The C struct of a locomotive decoder that a decoder on both tracks contains.

ghost use Rattle.std.specs.Prelude.{◌≡◌};
ghost use Rattle.dcc_c.specs.HeldRegisters.{HeldBy, HeldBy-prop};

use crate::loco::{apply, dcc_loco_power_up};
use crate::loco_numbers::{DccLoco, own_address};
use dcc_packet::{CvNumber, Packet, cv_value, lemma_cvs};
use dcc_regs::{Who, is_own_write};
use dcc_track::Programmable;

/// A [`DccLoco`] whose fields are a possible state of a decoder.
#[repr(C)]
#[derive(Drop)]
pub struct PossibleLoco {
    loco: DccLoco,
    ghost held: { HeldBy loco.registers } by { HeldBy-prop loco.registers },
}

impl PossibleLoco {
    ghost use Rattle.std.specs.Prelude.{◌≡◌};
    ghost use Rattle.dcc_packet.specs.Cvs.{cv_in};
    ghost use Rattle.dcc_regs.specs.Loco.{start_map, start_who};
    ghost use Rattle.dcc_track.specs.LocoDecoders.{loco_on_tracks};
    ghost use Rattle.dcc_c.specs.Decoders.{loco_state_in};

    /// Initialises the decoder with the CVs `cvs`, as `dcc_loco_new` does.
    pub(crate) fn start(&mut self, cvs: &[u8; 1024])
        ensures state { loco_state_in self.new
            ≡ loco_on_tracks (start_who (cv_in cvs.now)) (start_map (cv_in cvs.now)) }
        ensures cvs { self.new.loco.cvs ≡ cvs.now }
    {
        self.loco.cvs.copy_from_slice(cvs);
        self.power_up();
    }

    /// Powers the decoder up with its CVs, as `dcc_loco_power_up` does.
    pub(crate) fn power_up(&mut self)
        ensures state { loco_state_in self.new
            ≡ loco_on_tracks (start_who (cv_in self.old.loco.cvs)) (start_map (cv_in self.old.loco.cvs)) }
        ensures cvs { self.new.loco.cvs ≡ self.old.loco.cvs }
    {
        dcc_loco_power_up(&mut self.loco);
    }
}

impl Programmable for PossibleLoco {
    ghost use Rattle.dcc_c.specs.Decoders.{loco_state_in};

    ghost state = { loco_state_in };

    fn identity(&self) -> Who {
        lemma_cvs(&self.loco.cvs);
        match own_address(&self.loco.registers) {
            Ok(own) => Who::Loco(own),
            Err(_) => unreachable!(),
        }
    }

    fn apply_packet(&mut self, packet: &Packet) {
        // (for the proof: a written value is a byte)
        let _ = is_own_write(packet);
        let frame = packet.frame();
        let _ = apply(&mut self.loco, frame.bytes());
    }

    fn read_cv(&self, cv: CvNumber) -> u8 {
        lemma_cvs(&self.loco.cvs);
        cv_value(&self.loco.cvs, cv)
    }

    fn set_cv(&mut self, cv: CvNumber, value: u8) {
        lemma_cvs(&self.loco.cvs);
        self.loco.cvs[usize::from(cv.number()) - 1] = value;
    }

    fn restart(&mut self) {
        lemma_cvs(&self.loco.cvs);
        PossibleLoco::power_up(self);
    }
}
