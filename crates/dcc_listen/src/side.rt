//! The two sides of a comparison, each of which is a capture or a list of stored packets.
ghost use Rattle.std.specs.Prelude.{◌≡◌, ◌≤◌, ◌<◌, ◌+◌, ◌-◌, ◌^◌, ◌++◌, ℕ, List, [], None, false, true, IfOk, IfErr};
ghost use Rattle.std.specs.Prelude.{IfSome};
ghost use Rattle.std.specs.Prelude.{is_none, length};
ghost use Rattle.std.specs.Option.{option_to_list};
ghost use Rattle.dcc_packet.specs.declared.packet.Packet.{Packet as PacketOf};
ghost use Rattle.dcc_io.specs.declared.fault.ToolFault.{ToolFault as ToolFaultOf};
ghost use Rattle.dcc_io.specs.Faults.{as_tool_fault};
ghost use Rattle.dcc_listen.specs.declared.side.Progress.{Progress as ProgressOf};
ghost use Rattle.dcc_listen.specs.Inner.Sides.{TakesRest};

use crate::pending::Pending;
use crate::taking::next_packet;
use dcc_io::{Input, KeptFault, Source};
use dcc_packet::Packet;
use dcc_wire::Framer;
use std::alloc::Global;
use std::vec::IntoIter;

/// The state of a side that is being read.
#[derive(Drop)]
pub(crate) struct Progress {
    /// The half-bits that were read from the side, and that the framer has not taken yet.
    pub(crate) pending: Pending,

    /// The framer that has taken the half-bits of the side.
    pub(crate) framer: Framer,

    /// True if the end of the side was read.
    pub(crate) ended: bool,
}

/// A side of a comparison, which returns packets one by one.
pub(crate) trait Side {
    // the side stores no error, and a comparison can count its packets
    ghost is_open: { Self → Type 0 };

    // these packets were read between two states of the side
    ghost took: { Self → Self → List PacketOf → ProgressOf → Type 0 };

    // this error occurred between two states of the side
    ghost fails: { Self → Self → ToolFaultOf → Type 0 };

    // termination measure, which decreases with each packet
    ghost left: { Self → ProgressOf → ℕ };

    /// Returns the state of the side before its first packet.
    fn begin(&self) -> Progress
        requires { is_open self.now }
        ensures took { took self.now self.now [] result }
        ensures going { result.ended ≡ false };

    /// Returns the next packet. Returns `None` at the end of the side.
    fn take_next(&mut self, progress: &mut Progress) -> Result<Option<Packet>, KeptFault>
        requires open { is_open self.old }
        requires going { progress.old.ended ≡ false }
        ensures took { IfOk result (λ item. (start : Self) (packets : List PacketOf)
            → took start self.old packets progress.old
            → took start self.new (packets ++ option_to_list item) progress.new) }
        ensures fails { IfErr result (λ fault. (start : Self) (packets : List PacketOf)
            → took start self.old packets progress.old → fails start self.new (as_tool_fault fault)) }
        ensures few { IfOk result (λ item. (start : Self) (packets : List PacketOf)
            → took start self.old packets progress.old → IfSome item (λ _. length packets < 2 ^ 32 - 1)) }
        ensures ends { IfOk result (λ item. progress.new.ended ≡ is_none item) }
        ensures open { IfOk result (λ _. is_open self.new) }
        ensures left { IfOk result (λ item. left self.new progress.new + length (option_to_list item)
            ≤ left self.old progress.old) };
}

impl<R: Source> Side for Input<R> {
    ghost use Rattle.dcc_listen.specs.Gathered.{GatherFails};
    ghost use Rattle.dcc_listen.specs.Inner.Sides.{CaptureTook};

    ghost is_open = { λ input. input.fault ≡ None };

    ghost took = { CaptureTook };

    ghost fails = { λ start now fault. GatherFails start fault now };

    ghost left = { λ input progress. input.bytes + length progress.pending };

    fn begin(&self) -> Progress {
        // each packet takes some of these half-bits, so there are fewer than 2^32 packets
        let most = self.halves_left();
        Progress {
            pending: Pending::new(),
            framer: Framer::new(),
            ended: false,
        }
    }

    fn take_next(&mut self, progress: &mut Progress) -> Result<Option<Packet>, KeptFault> {
        let item = next_packet(self, &mut progress.pending, &mut progress.framer)?;
        progress.ended = item.is_none();
        Ok(item)
    }
}

impl Side for IntoIter<Packet, Global> {
    ghost use Rattle.std.specs.Vec.Iter.{into_iter_items};
    ghost use Rattle.dcc_listen.specs.Inner.Sides.{HeldTook};

    ghost is_open = { λ packets. length (into_iter_items packets) < 2 ^ 32 };

    ghost took = { λ start now packets progress. HeldTook (into_iter_items start)
        (into_iter_items now) packets progress.ended };

    ghost fails = { λ start now fault. ⊥ };

    ghost left = { λ packets progress. length (into_iter_items packets) };

    fn begin(&self) -> Progress {
        Progress {
            pending: Pending::new(),
            framer: Framer::new(),
            ended: false,
        }
    }

    fn take_next(&mut self, progress: &mut Progress) -> Result<Option<Packet>, KeptFault> {
        let item = IntoIter::next(self);
        progress.ended = item.is_none();
        Ok(item)
    }
}

/// Reads a side of a comparison to its end, and ignores its packets. A side is a capture or a list
/// of stored packets.
pub(crate) fn pass_rest<S: Side>(side: &mut S, progress: &mut Progress) -> Result<(), KeptFault>
    requires { S.is_open side.old }
    ensures rest { IfOk result (λ _. (start : S) (packets : List PacketOf) → S.took start side.old packets progress.old
        → TakesRest (S.took start side.new) packets progress.old.ended progress.new) }
    ensures fails { IfErr result (λ fault. (start : S) (packets : List PacketOf)
        → S.took start side.old packets progress.old → S.fails start side.new (as_tool_fault fault)) }
{
    'packets: while !progress.ended {
        side.take_next(progress)?;
    }
    Ok(())
}
