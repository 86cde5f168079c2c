//! The half-bits of a list that are in two ranges.

ghost use Rattle.std.specs.Prelude.{◌≡◌, ◌<◌, ◌≤◌, ◌+◌, ◌-◌, ◌*◌, ◌^◌, length, sum, if◌then◌else◌};
ghost use Rattle.std.specs.List.{filter};
ghost use Rattle.dcc_timing.specs.Inner.Ranges.{is_in};

/// The numbers from `least` to `most`.
#[derive(Clone, Copy)]
pub(crate) struct Span {
    pub(crate) least: u16,
    pub(crate) most: u16,
}

/// The counts and the sums of a list of half-bits with two ranges.
#[derive(Clone, Copy)]
pub(crate) struct Covered {
    /// The number of half-bits in the range of the ones.
    pub(crate) ones: u32,
    /// The number of half-bits in the range of the zeros.
    pub(crate) zeros: u32,
    /// The sum of the half-bits in the range of the ones.
    pub(crate) ones_sum: u32,
    /// The sum of all half-bits.
    pub(crate) sum: u32,
}

/// Returns the counts and the sums of the half-bits `halves` for the ranges `ones` and `zeros`.
#[inline(always)]
pub(crate) fn sums_in(halves: &[u16], ones: Span, zeros: Span) -> Covered
    requires { length halves.now ≤ 1000 }
    ensures ones { result.ones ≡ length (filter (is_in ones) halves.now) }
    ensures zeros { result.zeros ≡ length (filter (is_in zeros) halves.now) }
    ensures ones_sum { result.ones_sum ≡ sum (filter (is_in ones) halves.now) }
    ensures sum { result.sum ≡ sum halves.now }
    ensures few_ones { result.ones ≤ length halves.now }
    ensures few_zeros { result.zeros ≤ length halves.now }
    ensures small { result.ones_sum ≤ 65535 * result.ones }
    ensures part { result.ones_sum ≤ result.sum }
    ensures rest { result.sum ≤ result.ones_sum + 65535 * (length halves.now - result.ones) }
{
    let mut part = Covered {
        ones: 0,
        zeros: 0,
        ones_sum: 0,
        sum: 0,
    };
    for (i, us) in halves.iter().enumerate() {
        let us = *us;
        let one = is_in(ones, us);
        part.ones = add_if(one, part.ones, 1);
        part.zeros = add_if(is_in(zeros, us), part.zeros, 1);
        part.ones_sum = add_if(one, part.ones_sum, u32::from(us));
        part.sum += u32::from(us);
    }
    part
}

/// Returns true if the duration `us` is in the range `span`.
#[inline(always)]
pub(crate) fn is_in(span: Span, us: u16) -> bool
    ensures { result ≡ is_in span us }
{
    span.least <= us && us <= span.most
}

/// Returns `total + more` if `adds` is true, otherwise `total`.
#[inline(always)]
pub(crate) fn add_if(adds: bool, total: u32, more: u32) -> u32
    requires { total + more < 2 ^ 32 }
    ensures { result ≡ (if adds then total + more else total) }
{
    if adds { total + more } else { total }
}
