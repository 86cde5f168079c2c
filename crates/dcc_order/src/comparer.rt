//! The type `Comparer`, which compares two lists of packets, packet by packet.

ghost use Rattle.std.specs.Prelude.{◌≡◌, ◌<◌, ◌≤◌, ◌-◌, ◌^◌, true, false, Some, None, OnOk, OnErr, IfSome, IsTrue};
ghost use Rattle.std.specs.Prelude.{length};
ghost use Rattle.dcc_regs.specs.Heard.{hears as is_heard_by};
ghost use Rattle.dcc_order.specs.declared.verdict.Verdict.{Verdict as VerdictOf};

use crate::comparison::Comparison;
use crate::no_memory::NoMemory;
use crate::verdict::Verdict;
use crate::wants::Wants;
use dcc_packet::Packet;
use dcc_regs::Who;
use std::alloc::Global;
use std::marker::Model;

/// Compares two lists of packets for a decoder, packet by packet. The comparer says which list must
/// give the next packet, and stores at most one block of each list. The comparer returns the
/// verdict as soon as two finished blocks decide the verdict.
#[derive(Drop)]
pub struct Comparer {
    comparison: Comparison,
}

impl Model for Comparer {
    ghost use Rattle.dcc_order.specs.declared.comparison.Comparison.{Comparison};

    ghost Value = { Comparison };

    ghost use Rattle.dcc_order.specs.GivenLists.{Lists};
    ghost use Rattle.dcc_order.specs.Comparisons.{ComparerRepresents};

    ghost view = { λ c. c.comparison };

    // Invariant: some pair of lists leads to this state.
    ghost invariant = { λ c. (lists : Lists) × ComparerRepresents c.comparison lists };
}

impl Comparer {
    ghost use Rattle.dcc_order.specs.GivenLists.{Lists, no_lists, with_item, IsVerdictOfAll, most_held};
    ghost use Rattle.dcc_order.specs.Comparisons.{ComparerRepresents};
    ghost use Rattle.dcc_order.specs.InStep.{BecomesBy};

    /// Creates a comparer for the decoder `who`. The function does not allocate.
    pub fn new(alloc: Global, who: Who) -> Comparer
        ensures stands { ComparerRepresents result no_lists }
        ensures who { result.who ≡ who }
    {
        Comparer {
            comparison: Comparison::new(alloc, who),
        }
    }

    /// Returns the list that must give its next packet or its end, or the verdict. The result is
    /// `Done` at the latest after the ends of both lists were given.
    pub fn wants(&self) -> Wants
        ensures is { result ≡ self.now.wants }

        // The result does not name a list whose end was given.
        ensures left { result ≡ Wants.Left → (lists : Lists) → ComparerRepresents self.now lists
            → lists.left_ended ≡ false }
        ensures right { result ≡ Wants.Right → (lists : Lists) → ComparerRepresents self.now lists
            → lists.right_ended ≡ false }
        // If the ends of both lists were given, the result is a verdict.
        ensures ends { (lists : Lists) → ComparerRepresents self.now lists → lists.left_ended ≡ true
            → lists.right_ended ≡ true
            → (v : VerdictOf) × (result ≡ Wants.Done v) }

        // The verdict holds for each pair of lists that begin with the given lists.
        ensures done { (v : VerdictOf) → result ≡ Wants.Done v → (lists : Lists) → ComparerRepresents self.now lists
            → IsVerdictOfAll self.now.who lists v }
        // The verdict is `Alike` only if the ends of both lists were given.
        ensures alike { result ≡ Wants.Done Verdict.Alike → (lists : Lists) → ComparerRepresents self.now lists
            → (lists.left_ended ≡ true) × (lists.right_ended ≡ true) }
    {
        self.comparison.wants
    }

    /// Gives the comparer the next item of the list that [`wants`](Self::wants) names: a packet, or
    /// `None` for the end of the list. After the verdict is decided, the function changes nothing.
    ///
    /// Errors: NoMemory if an allocation fails. If an allocation fails, the comparer is unchanged,
    /// and the caller can pass the item again. The function does not allocate for an end, or for a
    /// packet that the decoder does not hear.
    pub fn give(&mut self, item: Option<Packet>) -> Result<(), NoMemory>
        requires left { self.old.wants ≡ Wants.Left → IfSome item (λ _. self.old.left.given < 2 ^ 32 - 1) }
        requires right { self.old.wants ≡ Wants.Right → IfSome item (λ _. self.old.right.given < 2 ^ 32 - 1) }
        ensures stands { OnOk result
            ((lists : Lists) → ComparerRepresents self.old lists
            → ComparerRepresents self.new (with_item self.old.wants item lists)) }
        ensures who { self.new.who ≡ self.old.who }
        // a caller with its own loop uses this clause with `laws::lists_in_step`
        ensures becomes { OnOk result (BecomesBy self.old item self.new) }
        ensures unchanged { OnErr result (self.new ≡ self.old) }
        ensures end { item ≡ None → result ≡ Ok tt }
        ensures unheard { IfSome item (λ p. is_heard_by self.old.who p ≡ false → result ≡ Ok tt) }
        ensures done { (v : VerdictOf) → self.old.wants ≡ Wants.Done v → (result ≡ Ok tt) × (self.new ≡ self.old) }
    {
        Ok(self.comparison.give(item)?)
    }

    /// Returns two numbers: how many packets of the first list, and how many packets of the second
    /// list, the comparer has got.
    pub fn given(&self) -> (u32, u32)
        ensures is { result ≡ (self.now.left.given, self.now.right.given) }
        ensures given { (lists : Lists) → ComparerRepresents self.now lists
            → result ≡ (length lists.left, length lists.right) }
    {
        (self.comparison.left.given, self.comparison.right.given)
    }

    /// Returns the number of packets that the comparer stores. Count the own writes that have ended
    /// a block in each list so far, and let n be the smaller count. Until the verdict is decided,
    /// the comparer stores the packets of block n of the first list and of block n of the second
    /// list. Blocks are counted from 0.
    pub fn held(&self) -> u64
        ensures { (lists : Lists) → ComparerRepresents self.now lists → ((v : VerdictOf)
            → ¬ (self.now.wants ≡ Wants.Done v))
            → result ≡ most_held self.now.who lists }
    {
        self.comparison.held_len()
    }
}
