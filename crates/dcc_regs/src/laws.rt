//! Theorems about the definitions, for code that uses decoders.

ghost use Rattle.dcc_regs.specs.Laws.{BoardsArePossible, BoardsTakePackets};
ghost use Rattle.dcc_regs.specs.Laws.{ConflictIsMutual, IdleIsUnheard, ModeStays, NoConflictWithItself};
ghost use Rattle.dcc_regs.specs.Laws.{NoOtherCallTells, NoPacketHeard, NotesTellPackets, OneAddress};
ghost use Rattle.dcc_regs.specs.Laws.{OneMorePacketHeard};
ghost use Rattle.dcc_regs.specs.Laws.{PacketsAreDecided, ResultInParts, StepSets, ValuesAreDecided, WritesSetNoPlain};
ghost use Rattle.dcc_regs.specs.Safety.{CvsChangeByTwoCopies, CvsChangeByWrites, CvsStayWithoutWrites};
ghost use Rattle.dcc_regs.specs.Safety.{LastStopStops, OnlySpeedPacketsMove, ReadOnlyCvsStay, StandingLocoStands};

/// Theorem: the result of a list can be computed in two parts. The result of the first part is then
/// the start of the second part.
pub fn result_in_parts()
    ensures { ResultInParts }
{}

/// Theorem: a decoder that has heard an empty list of packets is unchanged.
pub fn no_packet_heard()
    ensures { NoPacketHeard }
{}

/// Theorem: a decoder that has heard a list of packets, and then one more packet, has heard the
/// list with this packet at its end. The contract of `apply` provides the premise about the last
/// packet.
pub fn one_more_packet_heard()
    ensures { OneMorePacketHeard }
{}

/// Theorem: an accessory decoder of any type meets the contract of
/// [`Decoder::apply`](crate::Decoder::apply) if each heard packet sets its outputs, positions and
/// aspects as `specs/Outputs` says. The state of such a decoder is possible if its aspects are
/// bytes.
pub fn boards_take_packets()
    ensures step { BoardsTakePackets }
    ensures possible { BoardsArePossible }
{}

/// Theorem: a packet sets each register for which `set_from` has a value to this value, in a
/// decoder that hears the packet. All other registers stay unchanged.
pub fn step_sets()
    ensures { StepSets }
{}

/// Theorem: the callback that belongs to a packet notifies of this packet.
pub fn notes_tell_packets()
    ensures { NotesTellPackets }
{}

/// Theorem: if a callback notifies of a packet, it is the callback that `announce` calls for this
/// packet.
pub fn no_other_call_tells()
    ensures { NoOtherCallTells }
{}

/// Theorem: no decoder hears an idle packet.
pub fn idle_is_unheard()
    ensures { IdleIsUnheard }
{}

/// Theorem: all packets to short or long addresses that one decoder hears have the same address.
pub fn one_address()
    ensures { OneAddress }
{}

/// Theorem: a packet that does not write CV29 leaves the speed mode unchanged.
pub fn mode_stays()
    ensures { ModeStays }
{}

/// Theorem: a CV write to a short or long address sets no plain register.
pub fn writes_set_no_plain_register()
    ensures { WritesSetNoPlain }
{}

/// Theorem: if packet p conflicts with packet q, then q conflicts with p.
pub fn conflict_is_mutual()
    ensures { ConflictIsMutual }
{}

/// Theorem: no packet conflicts with itself.
pub fn no_conflict_with_itself()
    ensures { NoConflictWithItself }
{}

/// Theorem: two packets are equal or not equal (equality of packets is decidable).
pub fn packets_are_decided()
    ensures { PacketsAreDecided }
{}

/// Theorem: two values of registers are equal or not equal (equality of values is decidable).
pub fn values_are_decided()
    ensures { ValuesAreDecided }
{}

/// Theorem: a locomotive decoder that stands still keeps standing if it hears no packet for which
/// `can_move` is true. So the decoder keeps standing if it hears no speed packet to its own address
/// and no speed packet of 128 steps to all locomotives.
pub fn standing_loco_stands()
    ensures stands { StandingLocoStands }
    ensures movers { OnlySpeedPacketsMove }
{}

/// Theorem: a locomotive decoder that hears a stop stands still afterwards, whatever it heard
/// before, if no later packet that it hears sets its speed to a step.
pub fn last_stop_stops()
    ensures { LastStopStops }
{}

/// Theorem: a bit of a CV changes only if the decoder hears a write to its own address that sets
/// this bit while an equal write is pending. If no write is pending at the start, the decoder hears
/// two copies of the write and no packet between them. If the decoder hears no write to its own
/// address, no CV changes.
pub fn cvs_change_by_writes()
    ensures writes { CvsChangeByWrites }
    ensures copies { CvsChangeByTwoCopies }
    ensures stay { CvsStayWithoutWrites }
{}

/// Theorem: no list of packets changes CV7 or CV8.
pub fn read_only_cvs_stay()
    ensures { ReadOnlyCvsStay }
{}
