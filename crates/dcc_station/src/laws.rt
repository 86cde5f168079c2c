//! Theorems about the packets that a station sends.

ghost use Rattle.dcc_station.specs.Refresh.{EntriesAreHandedOutInTurn, EntriesForgotten};
ghost use Rattle.dcc_station.specs.Refresh.{HeardIsIntended, NothingHandedOut};
ghost use Rattle.dcc_station.specs.Refresh.{OneMoreAccepted};
ghost use Rattle.dcc_station.specs.Refresh.{OneMoreHandedOut, RefreshIsTransparent};
ghost use Rattle.dcc_station.specs.Refresh.{TransparentWhereNothingWaits, WaitingIsSuffix};
ghost use Rattle.dcc_station.specs.States.{StatesAreNoEntries, StatesConflictWithNoEntry};
ghost use Rattle.dcc_station.specs.Stops.{BroadcastsAreNoEntries, LocosStandAfterStops, LocoStandsUntilItsOwnStep};
ghost use Rattle.dcc_station.specs.Stops.{CommandsWaitForFewPacketsAfterStops, PacketsAreSentInTurn};
ghost use Rattle.dcc_station.specs.LaterStops.{CommandsWaitWithLaterStops};
ghost use Rattle.dcc_station.specs.Stops.{NoStepAfterStops, NoStopWaitsUnasked, NoWithdrawnCommandIsSent};
ghost use Rattle.dcc_station.specs.Stops.{StandingGoesOnByCommands, StandingGoesOnByForgetting};
ghost use Rattle.dcc_station.specs.Stops.{StandingGoesOnByPackets, StandingGoesOnByStops};
ghost use Rattle.dcc_station.specs.Stops.{StationsThatRepresentObey, StopsAreTransparent, StopsLeaveDirections};
ghost use Rattle.dcc_station.specs.Stops.{OutgoingIsSuffix};
ghost use Rattle.dcc_station.specs.WaitingTimes.{CommandsAreSentInMicroseconds, CommandsAreSentInTime};
ghost use Rattle.dcc_station.specs.WaitingTimes.{CommandsAreSentInTurn, CommandsWaitForFewPackets};
ghost use Rattle.dcc_station.specs.WaitingTimes.{ReturnedPacketsAreRuns, RunsGoOnByCommands};
ghost use Rattle.dcc_station.specs.WaitingTimes.{RunsGoOnByForgetting, RunsGoOnByPackets};
ghost use Rattle.dcc_station.specs.WaitingTimes.{SentPacketsAreShort, SentPacketsTakeFewMicroseconds};
ghost use Rattle.dcc_station.specs.WaitingTimes.{longest_time};
ghost use Rattle.dcc_wire.specs.NominalTimings.{main_timing};
ghost use Rattle.std.specs.Prelude.{◌≡◌};

/// Theorem: let a station never have been stopped. Let no command in its queue be partly sent, and
/// let a decoder have heard every packet of the station. Then the decoder has the result of the
/// commands that have left the queue, each command once and each own write twice. The theorem is
/// about each register except Pending.
pub fn refresh_is_transparent()
    ensures { RefreshIsTransparent }
{}

/// Theorem: let a station never have been stopped. If its queue is empty, a decoder that heard
/// every packet has the result of all accepted commands, in each register except Pending. The
/// theorem [`stops_are_transparent`] is about stations that were stopped.
pub fn refresh_is_transparent_where_nothing_waits()
    ensures { TransparentWhereNothingWaits }
{}

/// Theorem: if no stop waits and the queue is empty, the station returns each entry once, in order.
/// After these packets the state of the station is the state before these packets.
pub fn entries_are_handed_out_in_turn()
    ensures { EntriesAreHandedOutInTurn }
{}

/// Theorem: if a station was never stopped, the commands in its queue are a suffix of the list of
/// accepted commands.
pub fn waiting_is_the_end()
    ensures { WaitingIsSuffix }
{}

/// Theorem: the relation `RunsTo` holds for the packets that a station returns, whatever commands
/// the station accepts and whatever entries it forgets between these packets. The clauses are about
/// packets with no command between them, about one more packet, about one more command, and about
/// forgotten entries. A caller with its own loop uses this theorem as the premise of
/// [`commands_are_sent_in_turn`] and [`commands_are_sent_in_time`].
pub fn runs_go_on()
    ensures returned { ReturnedPacketsAreRuns }
    ensures handed_out { RunsGoOnByPackets }
    ensures accepted { RunsGoOnByCommands }
    ensures forgotten { RunsGoOnByForgetting }
{}

/// Theorem: let a station not be stopped, neither earlier nor before the first copy of a command. Its
/// next packets are the remaining copies of the first commands of the queue, and then a copy of the
/// next command. So the number of packets before the first copy of a command is the number of
/// remaining copies of the commands before it. Commands that the station accepts later do not change
/// this number. The theorem is about the states and steps of `Sending`. `Station`, `FixedStation` and
/// the station in C all have these states and steps. The theorem [`commands_are_sent_after_stops`] is
/// about stations that were stopped.
pub fn commands_are_sent_in_turn()
    ensures { CommandsAreSentInTurn }
{}

/// Theorem: let a station not be stopped, neither earlier nor before the first copy of a command. If
/// `k` commands wait when the station accepts this command, its first copy follows after at most
/// `n = k * (repeats + 1)` packets.
/// Let `preamble` be the number of ones before each packet. Then the first copy is complete within
/// `(n + 1) * 2 * (preamble + 55)` half-bits, counted from the end of the last packet that the
/// station returned before it accepted the command. The clause `microseconds` bounds this time by
/// the durations of the half-bits. The theorem is about `Station`, `FixedStation` and the station
/// in C.
pub fn commands_are_sent_in_time()
    ensures packets { CommandsWaitForFewPackets }
    ensures half_bits { CommandsAreSentInTime }
    ensures microseconds { CommandsAreSentInMicroseconds }
{}

/// Theorem: each packet has at most `2 * (preamble + 55)` half-bits: its preamble, 6 bytes of 9
/// bits, and its end bit. Each packet takes no more time than a packet of 6 bytes whose bits
/// between the preamble and the end bit are all zeros. In the nominal timing of the main track this
/// is 12,540 µs.
pub fn sent_packets_are_short()
    ensures half_bits { SentPacketsAreShort }
    ensures microseconds { SentPacketsTakeFewMicroseconds }
    ensures nominal { longest_time main_timing ≡ 12540 }
{}

/// Theorem: a station sends a packet that switches a binary state only as a command, and never
/// refreshes such a packet.
pub fn states_are_no_entries()
    ensures { StatesAreNoEntries }
{}

/// Theorem: a packet that switches a binary state conflicts with no packet that is refreshed.
pub fn states_conflict_with_no_entry()
    ensures { StatesConflictWithNoEntry }
{}

/// Theorem: an entry of a station never has the broadcast address. So a station that forgets the
/// broadcast address does not change. The station can have been stopped any number of times.
pub fn broadcasts_are_no_entries()
    ensures { BroadcastsAreNoEntries }
{}

/// Theorem: let a decoder hear each packet of a [`Station`](crate::Station) that was never stopped.
/// If the queue is empty, the decoder has the result of the commands. A caller with its own loop
/// uses this theorem. The clauses are about the start, each packet that the decoder hears, each
/// accepted command, forgotten entries, and the time when the queue is empty.
pub fn stations_are_heard()
    ensures begins { NothingHandedOut }
    ensures handed_out { OneMoreHandedOut }
    ensures accepted { OneMoreAccepted }
    ensures forgotten { EntriesForgotten }
    ensures intended { HeardIsIntended }
{}

/// Theorem: after [`stop`](crate::StationOver::stop), the first packet of the station is the stop.
/// Until the station accepts a command that sets the speed of a locomotive to a step, no packet
/// sets a speed to a step. So each locomotive decoder that hears the packets of the station stands,
/// whatever packets it heard before, and whatever its address and its speed mode are. The station
/// can accept other commands, forget entries and be stopped again. The theorem is about `Station`,
/// `FixedStation` and the station in C.
pub fn locos_stand_after_stops()
    ensures packets { NoStepAfterStops }
    ensures stand { LocosStandAfterStops }
    // The stop leaves the direction of each locomotive.
    ensures directions { StopsLeaveDirections }
{}

/// Theorem: after [`stop`](crate::StationOver::stop), a locomotive decoder that hears the packets of
/// the station stands until the station accepts a command that this decoder hears and that sets a
/// speed to a step. So an operator can start one locomotive, and the others stand. The decoder keeps
/// its address. The station can accept other commands, forget entries and be stopped again.
pub fn loco_stands_until_its_own_step()
    ensures { LocoStandsUntilItsOwnStep }
{}

/// Theorem: after [`stop`](crate::StationOver::stop), no further copy of a withdrawn command is sent. A
/// withdrawn command sets a speed to a step. An equal command that the station accepts later is
/// another command. The theorem is about any set of commands that set a speed to a step, and of which
/// the station accepts none after the stop.
pub fn no_withdrawn_command_is_sent()
    ensures { NoWithdrawnCommandIsSent }
{}

/// Theorem: the relation `RunsWithout moves` holds for the packets that a station returns, as long
/// as it accepts no command for which `moves` is true. The clauses are about one more packet, one more
/// command, forgotten entries and a stop. A caller with its own loop uses this theorem as the premise
/// of [`locos_stand_after_stops`] and [`loco_stands_until_its_own_step`].
pub fn standing_goes_on()
    ensures handed_out { StandingGoesOnByPackets }
    ensures accepted { StandingGoesOnByCommands }
    ensures forgotten { StandingGoesOnByForgetting }
    ensures stopped { StandingGoesOnByStops }
{}

/// Theorem: let a station be stopped any number of times. If no stop waits and the queue is empty,
/// a decoder that heard every packet has the result of all accepted commands and stops, in each
/// register except Pending. A stop comes before the commands that waited when it was called. The
/// commands that a stop withdrew are left out, except a command of which a copy was sent.
pub fn stops_are_transparent()
    ensures transparent { StopsAreTransparent }
    ensures suffix { OutgoingIsSuffix }
{}

/// Theorem: let a station be stopped any number of times before it accepts a command, and not again
/// before the first copy of this command. Its next packets are the remaining copies of the stop and
/// of the first commands of the queue, and then a copy of the next command. If `k` commands wait when
/// the station accepts a command, the first copy of this command follows after at most
/// `k * (repeats + 1) + repeats` packets.
pub fn commands_are_sent_after_stops()
    ensures in_turn { PacketsAreSentInTurn }
    ensures packets { CommandsWaitForFewPacketsAfterStops }
{}

/// Theorem: let a station accept a command that sets no speed to a step, and let the station then be
/// stopped. A stop withdraws no such command. If `k` commands wait when the station accepts the command,
/// and the station is stopped `j` times before the first copy, the command is sent after at most
/// `k * (repeats + 1) + 2 * j * repeats` packets. The number is `j * repeats` if `k` is 0, and it is
/// `repeats` more if a stop waits when the station accepts the command.
pub fn commands_are_sent_between_stops()
    ensures { CommandsWaitWithLaterStops }
{}

/// Theorem: the relation `StationObeys`, about stations that can have been stopped, holds for each
/// station that was never stopped. In a station that was never stopped, no stop waits.
pub fn stations_without_stops()
    ensures obey { StationsThatRepresentObey }
    ensures no_stop { NoStopWaitsUnasked }
{}
