//! The C struct of an accessory decoder with CVs that a decoder on both tracks contains.

ghost use Rattle.std.specs.Prelude.{◌≡◌, Some};
ghost use Rattle.dcc_c.specs.HeldBoards.{HeldBoard, HeldBoard-prop};

use crate::board::{DccBoard, numbers, state_of};
use dcc_packet::{CvNumber, Packet, cv_value, lemma_cvs};
use dcc_regs::{BoardState, Who};
use dcc_track::{Programmable, board_after_packet, board_after_power_up, board_with_cvs};

/// A [`DccBoard`] with CVs. Its fields are a possible state of a decoder, whose address can be
/// 511.
#[repr(C)]
#[derive(Drop)]
pub struct PossibleBoard {
    board: DccBoard,
    cvs: [u8; 1024],
    ghost held: { HeldBoard board } by { HeldBoard-prop board },
}

impl PossibleBoard {
    ghost use Rattle.std.specs.Prelude.{◌≡◌, Some};
    ghost use Rattle.dcc_regs.specs.Board.{board_registers, made};
    ghost use Rattle.dcc_regs.specs.BoardState.{board_map};
    ghost use Rattle.dcc_track.specs.DecoderState.{board_in_cvs};
    ghost use Rattle.dcc_c.specs.BoardDecoders.{board_in};

    /// Makes the decoder a decoder that was powered up with the CVs `cvs`. All outputs are off,
    /// all positions 0 and all aspects 0.
    pub(crate) fn start(&mut self, cvs: &[u8; 1024])
        ensures board { Some (board_in self.new).board ≡ board_in_cvs cvs.now }
        ensures registers { board_map (board_in self.new) ≡ board_registers made }
        ensures cvs { self.new.cvs ≡ cvs.now }
    {
        self.cvs.copy_from_slice(cvs);
        self.board = numbers(&board_with_cvs(cvs));
    }

    /// Returns the state of the decoder without its CVs.
    fn state(&self) -> BoardState
        ensures { result ≡ board_in self.now }
    {
        match state_of(&self.board) {
            Some(state) => state,
            None => unreachable!(),
        }
    }
}

impl Programmable for PossibleBoard {
    ghost use Rattle.dcc_c.specs.BoardDecoders.{board_state_in};

    ghost state = { board_state_in };

    fn identity(&self) -> Who {
        lemma_cvs(&self.cvs);
        Who::Board(self.state().board)
    }

    fn apply_packet(&mut self, packet: &Packet) {
        let after = board_after_packet(&self.state(), packet);
        self.board = numbers(&after);
    }

    fn read_cv(&self, cv: CvNumber) -> u8 {
        let _board = &self.board;
        cv_value(&self.cvs, cv)
    }

    fn set_cv(&mut self, cv: CvNumber, value: u8) {
        self.cvs[usize::from(cv.number()) - 1] = value;
    }

    fn restart(&mut self) {
        let after = board_after_power_up(&self.state(), &self.cvs);
        self.board = numbers(&after);
    }
}
