//! Theorems about C programs that send and hear packets.

ghost use Rattle.dcc_c.specs.BoardDecoders.{IsBoardDecoder};
ghost use Rattle.dcc_c.specs.Decoders.{IsDecoder};
ghost use Rattle.dcc_c.specs.Layouts.{LayoutsObeyCommands, NewFramersAreBetweenBodies};
ghost use Rattle.dcc_c.specs.Layouts.{OutgoingEndsCommands, PacketsEndBetweenBodies};

/// Theorem: let a C program send the packets of a station, and another C program hear them with a
/// decoder that is kept on the main track. If nothing waits, the decoder has the result of all
/// accepted commands and stops, in each register except Pending. The second program measures each
/// half-bit with an error of at most 3 microseconds. The theorem is about any order of calls that
/// `LayoutObeys` allows, with calls on other objects between them.
pub fn layouts_obey_commands()
    ensures locos { LayoutsObeyCommands IsDecoder }
    ensures boards { LayoutsObeyCommands IsBoardDecoder }
    // A stop is called with the stop and the commands that wait at the end of the list.
    ensures loco_outgoing { OutgoingEndsCommands IsDecoder }
    ensures board_outgoing { OutgoingEndsCommands IsBoardDecoder }
{}

/// Theorem: a framer is between two bodies if it is new, and after any noise and a packet.
pub fn framers_are_between_bodies()
    ensures made { NewFramersAreBetweenBodies }
    ensures packet { PacketsEndBetweenBodies }
{}
