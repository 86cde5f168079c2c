//! A first call, which lists a capture in memory. The contract says that the result is the listing
//! that the documents show.

ghost use Rattle.std.specs.Prelude.{◌≡◌, IfOk, codes};

use dcc_tool::{Counted, Input, Limits, ToolFault, laws, show};
use std::alloc::Global;

/// Returns the listing of a capture in runs. The capture has one packet, which sets a speed.
pub fn listed(alloc: Global) -> Result<Vec<u8>, ToolFault>
    ensures { IfOk result (λ listing. listing.items ≡ codes "84 036261\n") }
{
    laws::what_show_lists();
    let capture = b"58*28 100*14 58*4 100*4 58*4 100*6 58*2 100*6 58*4 100*8 58*4";
    let mut input = Input::new(Counted::new(capture.as_slice()), Limits::full());
    let mut listing = Counted::new(Vec::new(alloc));
    show(&mut input, &mut listing, false)?;
    let Counted { inner, failures: _ } = listing;
    Ok(inner)
}
