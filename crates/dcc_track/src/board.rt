//! An accessory decoder on both tracks.

use crate::board_steps::{board_after_packet, board_after_power_up, board_with_cvs};
use crate::programmable::Programmable;
use dcc_packet::{CvNumber, Packet, cv_value, lemma_cvs};
use dcc_regs::{BoardState, Who};

/// An accessory decoder with CVs. Its address is in CV1 and CV9 (NMRA S-9.2.2). A decoder with the
/// address 511 hears only the packets that each accessory decoder hears. No packet of the main
/// track changes a CV.
#[derive(Drop)]
pub struct BoardWithCvs {
    state: BoardState,
    cvs: [u8; 1024],
}

impl BoardWithCvs {
    ghost use Rattle.std.specs.Prelude.{◌≡◌, Some};
    ghost use Rattle.dcc_regs.specs.Board.{board_registers, made};
    ghost use Rattle.dcc_regs.specs.BoardState.{board_map};
    ghost use Rattle.dcc_track.specs.DecoderState.{board_in_cvs};

    /// Creates an accessory decoder that was powered up with the CVs `cvs`. The first byte of
    /// `cvs` is CV1. All outputs are off, all positions 0 and all aspects 0.
    pub fn new(cvs: &[u8; 1024]) -> BoardWithCvs
        ensures board { Some result.state.board ≡ board_in_cvs cvs.now }
        ensures registers { board_map result.state ≡ board_registers made }
        ensures cvs { result.cvs ≡ cvs.now }
    {
        BoardWithCvs {
            state: board_with_cvs(cvs),
            cvs: *cvs,
        }
    }

    /// Creates the decoder with the state `state` and the CVs `cvs`. The first byte of `cvs` is
    /// CV1.
    pub fn restore(state: &BoardState, cvs: &[u8; 1024]) -> BoardWithCvs
        ensures state { result.state ≡ state.now }
        ensures cvs { result.cvs ≡ cvs.now }
    {
        BoardWithCvs {
            state: *state,
            cvs: *cvs,
        }
    }

    /// Returns the address, the outputs, the positions and the aspects.
    pub fn state(&self) -> BoardState
        ensures { result ≡ self.now.state }
    {
        self.state
    }

    /// Returns the CVs. The first byte of the result is CV1.
    pub fn cvs(&self) -> &[u8; 1024]
        ensures { result.now ≡ self.now.cvs }
    {
        &self.cvs
    }
}

impl Programmable for BoardWithCvs {
    ghost use Rattle.dcc_track.specs.BoardsWithCvs.{board_on_tracks};

    ghost state = { λ d. board_on_tracks d.state d.cvs };

    fn identity(&self) -> Who {
        lemma_cvs(&self.cvs);
        Who::Board(self.state.board)
    }

    fn apply_packet(&mut self, packet: &Packet) {
        let state = &mut self.state;
        *state = board_after_packet(state, packet);
    }

    fn read_cv(&self, cv: CvNumber) -> u8 {
        cv_value(&self.cvs, cv)
    }

    fn set_cv(&mut self, cv: CvNumber, value: u8) {
        self.cvs[usize::from(cv.number()) - 1] = value;
    }

    fn restart(&mut self) {
        let state = &mut self.state;
        *state = board_after_power_up(state, &self.cvs);
    }
}
