//! Two blocks that are stored until both have ended and can be compared.

ghost use Rattle.std.specs.Prelude.{◌≡◌, ◌↔◌, ◌+◌, ◌<◌, ◌^◌, ◌++◌, ◌∷◌, [], true, false, IsTrue, OnOk, OnErr, length};
ghost use Rattle.std.specs.Prelude.{Contains};
ghost use Rattle.dcc_order.specs.Verdicts.{SameMembers, SameOrder};
ghost use Rattle.dcc_order.specs.Held.{nothing_held};

use crate::frame_number::number_of_frame;
use crate::numbered_blocks::{contains_all_below, number_at, same_turns_of_all};
use crate::turns::Turns;
use dcc_packet::Packet;
use std::alloc::{AllocError, Global};
use std::collections::BTreeMap;
use std::marker::Model;

/// The open blocks of two lists: the first block belongs to the first list, and the second block to
/// the second list. Each different packet of the first block has a number, and the packets of both
/// blocks are stored as these numbers. A packet of the second block that the first block does not
/// contain is not stored, since the blocks then differ.
///
/// All memory is allocated while packets are appended. The memory holds the different packets, the
/// numbers of the packets of both blocks, the turns of each different packet, and an index of the
/// different packets. A key of the index is a frame that `frame_number` encodes as a number.
#[derive(Drop)]
pub struct HeldBlocks {
    // the different packets of the first block
    members: Vec<Packet>,
    // the numbers of the packets of the first block and of the second block, in order
    numbers: Vec<usize>,
    others: Vec<usize>,
    // the number of each different packet, with the `frame_number` of its frame as the key
    index: BTreeMap<u64, usize>,
    // these lists have capacity for the turns of each different packet, and are empty except during
    // a comparison
    turns: Vec<Turns>,
    other_turns: Vec<Turns>,
}

impl Model for HeldBlocks {
    ghost use Rattle.dcc_order.specs.Held.{Held};

    ghost Value = { Held };

    ghost use Rattle.std.specs.Prelude.{◌≤◌, vec_capacity, vec_len};
    ghost use Rattle.std.specs.Ordering.{nat_cmp};
    ghost use Rattle.std.specs.BTreeMap.{get};
    ghost use Rattle.dcc_order.specs.FrameNumbers.{IsIndex};
    ghost use Rattle.dcc_order.specs.NumberedBlocks.{blocks_numbered, AreHeld};

    ghost view = { λ b. blocks_numbered b.members.items b.numbers.items b.others.items };

    ghost invariant = { λ b. AreHeld b.members.items b.numbers.items b.others.items
        × IsIndex (get nat_cmp b.index) b.members.items
        × (vec_len b.members ≤ vec_capacity b.turns) × (vec_len b.members ≤ vec_capacity b.other_turns) };
}

impl HeldBlocks {
    /// Creates two empty blocks.
    pub fn new(alloc: Global) -> HeldBlocks
        ensures { result ≡ nothing_held }
    {
        HeldBlocks {
            members: Vec::new(alloc),
            numbers: Vec::new(alloc),
            others: Vec::new(alloc),
            index: BTreeMap::new(alloc),
            turns: Vec::new(alloc),
            other_turns: Vec::new(alloc),
        }
    }

    /// Appends a packet to the first block.
    ///
    /// Errors: AllocError if an allocation fails. If an allocation fails, the blocks are unchanged.
    pub fn push_first(&mut self, packet: &Packet) -> Result<(), AllocError>
        ensures ok { OnOk result (self.new ≡ record self.old { first = self.old.first ++ packet.now ∷ [] }) }
        ensures err { OnErr result (self.new ≡ self.old) }
    {
        let frame = number_of_frame(packet);
        let count = self.members.len();
        let number = number_at(&self.index, frame, count);
        if number != count {
            self.numbers.push(number)?;
            return Ok(());
        }
        let members = count.saturating_add(1);
        self.turns.reserve(members)?;
        self.other_turns.reserve(members)?;
        self.members.reserve(1)?;
        self.numbers.reserve(1)?;
        self.index.insert(frame, number)?;
        self.members.push_reserved(*packet);
        self.numbers.push_reserved(number);
        Ok(())
    }

    /// Appends a packet to the second block and returns true. Returns false, and changes nothing,
    /// if the first block does not contain the packet.
    ///
    /// Errors: AllocError if an allocation fails. If an allocation fails, the blocks are unchanged.
    pub fn push_second(&mut self, packet: &Packet) -> Result<bool, AllocError>
        ensures known { result ≡ Ok true
            → (self.new ≡ record self.old { second = self.old.second ++ packet.now ∷ [] }) }
        ensures foreign { result ≡ Ok false → (¬ Contains self.old.first packet.now) × (self.new ≡ self.old) }
        ensures err { OnErr result (self.new ≡ self.old) }
    {
        let frame = number_of_frame(packet);
        let count = self.members.len();
        let number = number_at(&self.index, frame, count);
        if number == count {
            return Ok(false);
        }
        self.others.push(number)?;
        Ok(true)
    }

    /// Returns the number of packets in both blocks together.
    pub fn len(&self) -> u64
        ensures { length self.now.first + length self.now.second < 2 ^ 64
            → result ≡ length self.now.first + length self.now.second }
    {
        let first = self.numbers.len() as u64;
        first.saturating_add(self.others.len() as u64)
    }

    /// Clears both blocks. The lists keep their capacity, and the index frees its memory.
    pub fn clear(&mut self)
        ensures { self.new ≡ nothing_held }
    {
        self.members.clear();
        self.numbers.clear();
        self.others.clear();
        self.index.clear();
    }

    /// Returns true if both blocks have the same set of packets.
    pub fn has_same_members(&mut self) -> bool
        ensures same { IsTrue result ↔ SameMembers self.old.first self.old.second }
        ensures unchanged { self.new ≡ self.old }
    {
        let count = self.members.len();
        let same = contains_all_below(self.others.as_slice(), count, &mut self.other_turns);
        self.other_turns.clear();
        same
    }

    /// Returns true if every two conflicting packets of the first block alternate in the same way
    /// in both blocks.
    pub fn has_same_order(&mut self) -> bool
        ensures same { IsTrue result ↔ SameOrder self.old.first self.old.second }
        ensures unchanged { self.new ≡ self.old }
    {
        let same = same_turns_of_all(
            self.members.as_slice(),
            self.numbers.as_slice(),
            self.others.as_slice(),
            &mut self.turns,
            &mut self.other_turns,
        );
        self.turns.clear();
        self.other_turns.clear();
        same
    }
}
