//! Comparisons of two captures with many packets. `tools/growths` runs these comparisons under a
//! limit of memory, which shows how many packets `same` stores.
ghost use Rattle.std.specs.Prelude.{None};

use crate::page::Page;
use crate::tool::all_or_nothing;
use dcc_io::{Failed, Source};
use dcc_order::Verdict;
use dcc_packet::Address;
use dcc_regs::Who;
use dcc_tool::{Input, Limits, same};
use std::alloc::Global;

/// Packets for locomotive 3: a speed, a write of CV29, another speed, and another write of CV29.
/// These packets form two blocks.
const BLOCKS: &[u8] = b"58*28 100*14 58*4 100*4 58*4 100*6 58*2 100*6 58*4 100*8 58*4\n\
    58*28 100*14 58*4 100*2 58*6 100*2 58*2 100*14 58*6 100*6 58*8 100*6 58*2 100*12 58*4 100*2 58*2\n\
    58*28 100*14 58*4 100*4 58*14 100*4 58*10 100*4 58*2\n\
    58*28 100*14 58*4 100*2 58*6 100*2 58*2 100*14 58*6 100*6 58*10 100*4 58*2 100*10 58*6 100*2 58*2\n";

/// Two speeds for locomotive 3, each twice. A speed ends no block.
const SPEEDS: &[u8] = b"58*28 100*14 58*4 100*4 58*4 100*6 58*2 100*6 58*4 100*8 58*4\n\
    58*28 100*14 58*4 100*4 58*14 100*4 58*10 100*4 58*2\n\
    58*28 100*14 58*4 100*4 58*4 100*6 58*2 100*6 58*4 100*8 58*4\n\
    58*28 100*14 58*4 100*4 58*14 100*4 58*10 100*4 58*2\n";

/// A reader of a text that is repeated. The field `left` is the number of repetitions that are
/// left.
#[derive(Drop)]
struct Repeated<'a> {
    text: &'a [u8],
    at: usize,
    left: u32,
}

impl<'a> Source for Repeated<'a> {
    ghost remaining = { λ _. None };

    ghost failures = { λ _. 0 };

    fn read(&mut self, buffer: &mut [u8]) -> Result<usize, Failed> {
        if self.at >= self.text.len() {
            if self.left == 0 {
                return Ok(0);
            }
            self.left -= 1;
            self.at = 0;
        }
        let rest = self.text.get(self.at..).unwrap_or(&[]);
        let count = rest.len().min(buffer.len());
        buffer[..count].copy_from_slice(&rest[..count]);
        self.at = self.at.saturating_add(count);
        Ok(count)
    }
}

/// Compares two captures of 4,000 packets each. Each capture consists of 1,000 copies of `text`.
fn captures(alloc: Global, text: &[u8]) -> Option<bool> {
    let s3 = Who::Loco(Some(Address::short(3).ok()?));
    let left = Repeated {
        text,
        at: 0,
        left: 999,
    };
    let right = Repeated {
        text,
        at: 0,
        left: 999,
    };
    let (mut left, mut right) = (
        Input::new(left, Limits::full()),
        Input::new(right, Limits::full()),
    );
    let mut page = Page::new();
    let answer = same(alloc, &mut left, &mut right, &mut page, s3);
    all_or_nothing(answer.map(|v| v == Verdict::Alike), &page, b"alike\n")
}

/// Compares two captures with 2,000 blocks each. The comparison stores at most one block of each
/// capture.
pub fn many_blocks(alloc: Global) -> Option<bool> {
    captures(alloc, BLOCKS)
}

/// Compares two captures with one block of 4,000 packets each. The comparison stores all these
/// packets.
pub fn one_block(alloc: Global) -> Option<bool> {
    captures(alloc, SPEEDS)
}
