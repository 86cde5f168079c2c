//! A function that encodes packet lines into half-bits, and lists these half-bits with one line for
//! each packet.

ghost use Rattle.std.specs.Prelude.{IfOk};
ghost use Rattle.dcc_examples.specs.Listed.{IsListingOf};

use dcc_tool::{Counted, Encode, Input, Limits, ToolFault, encode, laws, show};
use std::alloc::Global;

/// Encodes packet lines into half-bits and lists these half-bits. If the half-bits are within the
/// limits, the listing has one line for each packet of the packet lines, in order, and no refusal.
/// The line has the number of the last half-bit of the packet.
pub fn encoded_and_listed(alloc: Global, lines: &[u8]) -> Result<Vec<u8>, ToolFault>
    ensures { IfOk result (λ listing. IsListingOf lines.now listing.items) }
{
    laws::what_is_encoded_is_shown();
    let mut input = Input::new(Counted::new(lines), Limits::full());
    let mut encoded = Counted::new(Vec::new(alloc));
    encode(alloc, &mut input, &mut encoded, HALVES)?;
    let mut capture = Input::new(Counted::new(encoded.inner.as_slice()), Limits::full());
    let mut listing = Counted::new(Vec::new(alloc));
    show(&mut capture, &mut listing, false)?;
    let Counted { inner, failures: _ } = listing;
    Ok(inner)
}

/// The encoding as half-bits for the main track, without a station.
const HALVES: Encode = Encode {
    hex: false,
    service: false,
    station: None,
};
