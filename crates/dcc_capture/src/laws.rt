//! Theorems about captures and listings.

ghost use Rattle.std.specs.Prelude.{◌≡◌, ℕ, None, Ok, Some};
ghost use Rattle.dcc_io.specs.Counted.{TakesHalf, TakesRun};
ghost use Rattle.dcc_io.specs.InputState.{InputState};
ghost use Rattle.dcc_io.specs.declared.word.Run.{Run};
ghost use Rattle.dcc_capture.specs.Capture.{AnswersRun};
ghost use Rattle.dcc_capture.specs.FirstRead.{AnswersFirst};
ghost use Rattle.dcc_capture.specs.ListingLaws.{OneListing, ListsInHex};

/// Theorem: a half-bit that `take_buffered_halves` of `dcc_io` takes is the next run of the
/// capture, with one half-bit. In the first of two captures, this half-bit is the next run of the
/// first capture.
#[tactic(auto, using(crate::proofs::HalfLemmas::half_taken, crate::proofs::HalfLemmas::first_half_taken))]
pub fn buffered_halves_are_runs()
    ensures run { (old new : InputState) (us : ℕ) → TakesHalf old us new
        → AnswersRun old (Ok (Some (record { us = us; n = 1 }))) new }
    ensures first { (before : ℕ) (old new : InputState) (us : ℕ) → old.fault ≡ None → TakesHalf old us new
        → AnswersFirst before old (Ok (Some (old.place.line, record { us = us; n = 1 }))) new }
{}

/// Theorem: a run that `take_buffered_run` of `dcc_io` returns is the next run of the capture. In
/// the first of two captures, this run is the next run of the first capture.
#[tactic(auto, using(crate::proofs::HalfLemmas::run_taken, crate::proofs::HalfLemmas::first_run_taken))]
pub fn buffered_runs_are_runs()
    ensures run { (old new : InputState) (run : Run) → TakesRun old run new → AnswersRun old (Ok (Some run)) new }
    ensures first { (before : ℕ) (old new : InputState) (run : Run) → old.fault ≡ None → TakesRun old run new
        → AnswersFirst before old (Ok (Some (old.place.line, run))) new }
{}

/// Theorem: a list of outcomes has exactly one listing.
#[tactic(auto, using(crate::proofs::ListingLaws::one_listing))]
pub fn outcomes_have_one_listing()
    ensures { OneListing }
{}

/// Theorem: a list of outcomes determines its listing without packet lines. This listing has each
/// packet in hex.
#[tactic(auto, using(crate::proofs::ListingLaws::lists_in_hex))]
pub fn without_words_the_listing_is_in_hex()
    ensures { ListsInHex }
{}
