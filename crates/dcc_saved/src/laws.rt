//! The theorem that a written decoder text is read back.

ghost use Rattle.dcc_saved.specs.ReadBack.{FleetsAreReadBack};

/// Theorem: the decoder text of at most 64 decoders is read as decoders with equal identities and
/// equal registers.
#[tactic(auto, using(crate::proofs::DecodersBack::fleets_read_back))]
pub fn fleets_are_read_back()
    ensures { FleetsAreReadBack }
{}
