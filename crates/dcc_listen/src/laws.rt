//! A theorem about listings in plain words.

ghost use Rattle.dcc_listen.specs.PlainLaws.{OnePlainListing};

/// Theorem: a list of outcomes has exactly one listing in plain words.
#[tactic(auto, using(crate::proofs::PlainLaws::one_plain_listing))]
pub fn outcomes_have_one_plain_listing()
    ensures { OnePlainListing }
{}
