//! Theorems about the lines of an input.

ghost use Rattle.dcc_io.specs.FramesSaid.{PacketLinesSayFrames, StationLinesSayFrames};
ghost use Rattle.dcc_io.specs.LineCount.{LinesAreCounted};

/// Theorem: after the whole text was read, the number of used lines is the number of line feeds. If
/// bytes follow the last line feed, the number of used lines is one more.
pub fn lines_are_counted_by_line_feeds()
    ensures { LinesAreCounted }
{}

/// Theorem: each packet line of a text means a frame, and each command to a station means a frame.
/// A frame has 3 to 6 bytes whose exclusive or is zero.
pub fn lines_say_frames()
    ensures packets { PacketLinesSayFrames }
    ensures commands { StationLinesSayFrames }
{}
