//! The state of a comparison of two lists.

ghost use Rattle.std.specs.Prelude.{◌≡◌, ◌<◌, ◌-◌, ◌^◌, false, None, Some, OnOk, OnErr, IfSome, IfNone, MatchOption};
ghost use Rattle.dcc_regs.specs.Heard.{hears as is_heard_by};
ghost use Rattle.dcc_order.specs.AlikeLists.{AlikeBlocks};
ghost use Rattle.dcc_order.specs.Comparisons.{ComparerRepresents, BlocksDiffer, EndAlike, IsVerdictAtEnds};
ghost use Rattle.dcc_order.specs.InStep.{BecomesBy};
ghost use Rattle.dcc_order.specs.Inner.ComparisonSteps.{EndsRight};
ghost use Rattle.dcc_order.specs.declared.verdict.Verdict.{Verdict as VerdictOf};
ghost use Rattle.dcc_order.specs.GivenLists.{Lists, no_lists, most_held};

use crate::given_list::GivenList;
use crate::held_blocks::HeldBlocks;
use crate::verdict::Verdict;
use crate::wants::Wants;
use dcc_packet::Packet;
use dcc_regs::{Who, hears, is_own_write};
use std::alloc::{AllocError, Global};

/// The state of a comparison, which stores at most one block of each list. First the left list is
/// read to the end of a block, and then the right list to the end of its block with the same
/// number. Then the two blocks are compared and cleared.
#[derive(Drop)]
pub struct Comparison {
    pub who: Who,
    pub wants: Wants,
    pub block: u32,
    pub left: GivenList,
    pub right: GivenList,
    /// If the comparison waits for the right list, the write that ended the left block. `None` means
    /// that the left list has ended.
    pub left_end: Option<Packet>,
    pub held: HeldBlocks,
}

impl Comparison {
    /// Creates the comparison of two empty lists.
    pub fn new(alloc: Global, who: Who) -> Comparison
        ensures stands { ComparerRepresents result no_lists }
        ensures who { result.who ≡ who }
    {
        Comparison {
            who,
            wants: Wants::Left,
            block: 0,
            left: GivenList::empty(),
            right: GivenList::empty(),
            left_end: None,
            held: HeldBlocks::new(alloc),
        }
    }

    /// Takes an item of the list that `wants` names: the next packet, or `None` for the end.
    ///
    /// Errors: AllocError if an allocation fails. If an allocation fails, the comparison is
    /// unchanged.
    pub fn give(&mut self, item: Option<Packet>) -> Result<(), AllocError>
        requires reached { (lists : Lists) × ComparerRepresents self.old lists }
        requires left { self.old.wants ≡ Wants.Left → IfSome item (λ _. self.old.left.given < 2 ^ 32 - 1) }
        requires right { self.old.wants ≡ Wants.Right → IfSome item (λ _. self.old.right.given < 2 ^ 32 - 1) }
        ensures becomes { OnOk result (BecomesBy self.old item self.new) }
        ensures unchanged { OnErr result (self.new ≡ self.old) }
        ensures end { item ≡ None → result ≡ Ok tt }
        ensures unheard { IfSome item (λ p. is_heard_by self.old.who p ≡ false → result ≡ Ok tt) }
        ensures done { (v : VerdictOf) → self.old.wants ≡ Wants.Done v → (result ≡ Ok tt) × (self.new ≡ self.old) }
    {
        match (self.wants, item) {
            (Wants::Left, None) => self.end_left(None),
            (Wants::Left, Some(packet)) => self.give_left(&packet)?,
            (Wants::Right, None) => self.end_right(&None),
            (Wants::Right, Some(packet)) => self.give_right(&packet)?,
            (Wants::Done(_), _) => (),
        }
        Ok(())
    }

    /// Returns the number of packets in the two open blocks.
    pub fn held_len(&self) -> u64
        ensures { (lists : Lists) → ComparerRepresents self.now lists → ((v : VerdictOf)
            → ¬ (self.now.wants ≡ Wants.Done v))
            → result ≡ most_held self.now.who lists }
    {
        // no block is longer than its list, so these two numbers bound the lengths of the blocks
        let _left = self.left.given;
        let _right = self.right.given;
        self.held.len()
    }

    /// Takes the next packet of the left list.
    fn give_left(&mut self, packet: &Packet) -> Result<(), AllocError>
        requires wants { self.old.wants ≡ Wants.Left }
        requires few { self.old.left.given < 2 ^ 32 - 1 }
        ensures becomes { OnOk result (BecomesBy self.old (Some packet.now) self.new) }
        ensures unchanged { OnErr result (self.new ≡ self.old) }
        ensures unheard { is_heard_by self.old.who packet.now ≡ false → result ≡ Ok tt }
    {
        if !hears(self.who, packet) {
            self.left.given += 1;
            return Ok(());
        }
        if !is_own_write(packet) {
            self.held.push_first(packet)?;
        } else if !self.left.last.was_twice(packet) {
            self.end_left(Some(*packet));
        }
        self.left.hear(packet);
        Ok(())
    }

    /// Ends the left block, with a write or with the end of the left list. The comparison then
    /// waits for the right list.
    fn end_left(&mut self, end: Option<Packet>)
        ensures { self.new ≡ record self.old { left_end = end; wants = Wants.Right } }
    {
        self.left_end = end;
        self.wants = Wants::Right;
    }

    /// Takes the next packet of the right list. If the packet belongs to the right block and the
    /// left block does not contain it, the verdict is `Members`, and no further packet can change
    /// it.
    fn give_right(&mut self, packet: &Packet) -> Result<(), AllocError>
        requires wants { self.old.wants ≡ Wants.Right }
        requires few { self.old.right.given < 2 ^ 32 - 1 }
        requires numbered { self.old.block < 2 ^ 32 - 1 }
        ensures becomes { OnOk result (BecomesBy self.old (Some packet.now) self.new) }
        ensures unchanged { OnErr result (self.new ≡ self.old) }
        ensures unheard { is_heard_by self.old.who packet.now ≡ false → result ≡ Ok tt }
    {
        if !hears(self.who, packet) {
            self.right.given += 1;
            return Ok(());
        }
        if is_own_write(packet) {
            if !self.right.last.was_twice(packet) {
                self.end_right(&Some(*packet));
            }
        } else if !self.held.push_second(packet)? {
            self.wants = Wants::Done(Verdict::Members(self.block));
        }
        self.right.hear(packet);
        Ok(())
    }

    /// Ends the right block, with the write `end` or with the end of the right list, and compares
    /// the two blocks. If their ends are alike too, the next block of both lists begins.
    fn end_right(&mut self, end: &Option<Packet>)
        requires numbered { IfSome end.now (λ _. self.old.block < 2 ^ 32 - 1) }
        ensures { EndsRight self.old end.now self.new }
    {
        match self.verdict_at(end) {
            Some(verdict) => self.wants = Wants::Done(verdict),
            None => {
                self.held.clear();
                self.block += 1;
                self.wants = Wants::Left;
            }
        }
    }

    /// Returns the verdict after the right block ended with `right_end`, which is `None` at the end
    /// of the right list. Returns `None` if later blocks decide the verdict.
    fn verdict_at(&mut self, right_end: &Option<Packet>) -> Option<Verdict>
        ensures some { IfSome result
            (λ v. IsVerdictAtEnds self.old.block self.old.held.first self.old.left_end self.old.held.second
            right_end.now v) }
        ensures none { IfNone result
            (AlikeBlocks self.old.held.first self.old.held.second × EndAlike self.old.left_end right_end.now) }
        ensures unchanged { self.new ≡ self.old }
    {
        if let Some(verdict) = self.difference() {
            return Some(verdict);
        }
        match (&self.left_end, right_end) {
            (None, None) => Some(Verdict::Alike),
            (None, Some(_)) => Some(Verdict::Writes),
            (Some(_), None) => Some(Verdict::Writes),
            (Some(write), Some(other)) => {
                if write.is(other) {
                    None
                } else {
                    Some(Verdict::Writes)
                }
            }
        }
    }

    /// Returns the difference of the two blocks. Returns `None` if the blocks are alike.
    fn difference(&mut self) -> Option<Verdict>
        ensures found { MatchOption result (AlikeBlocks self.old.held.first self.old.held.second)
            (λ v. BlocksDiffer self.old.block self.old.held.first self.old.held.second v) }
        ensures unchanged { self.new ≡ self.old }
    {
        if !self.held.has_same_members() {
            return Some(Verdict::Members(self.block));
        }
        if !self.held.has_same_order() {
            return Some(Verdict::Order(self.block));
        }
        None
    }
}
