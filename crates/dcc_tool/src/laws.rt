//! Theorems about listings, decoder texts, encodings, and the text that each operation writes.

ghost use Rattle.dcc_tool.specs.EncodedShown.{EncodingsAreCaptures, EncodedFramesAreSeen, EncodingsAreShown};
ghost use Rattle.dcc_tool.specs.EncodedShown.{PacketLinesAreShown};
ghost use Rattle.dcc_tool.specs.ListedText.{ShowListsTheText};
ghost use Rattle.dcc_tool.specs.StationShown.{StationPacketsAreShown};
ghost use Rattle.dcc_tool.specs.Written.{EncodeWritesTheEncoding, RunWritesTheDecoders, ShowWritesTheListing};
ghost use Rattle.dcc_tool.specs.Written.{LostWithSpikesWritesTheFoundPackets, LostWritesTheLostPackets};
ghost use Rattle.dcc_tool.specs.Written.{WhatWritesTheSentence};
ghost use Rattle.dcc_tool.specs.Written.{ReadcvWritesTheReading, SameInputWritesTheVerdict, SameWritesTheVerdict};
ghost use Rattle.dcc_tool.specs.Written.{ShowPlainWritesAListing, ShowWritesAListing, StationWritesItsAnswers};
ghost use Rattle.dcc_tool.specs.Written.{TimingWritesTheFigures};

pub use dcc_capture::laws::{outcomes_have_one_listing, without_words_the_listing_is_in_hex};
pub use dcc_listen::laws::outcomes_have_one_plain_listing;
pub use dcc_saved::laws::fleets_are_read_back;

/// Theorem: `show` lists the packets that `encode` wrote as half-bits. Within the limits of `show`,
/// the text of `encode` is a capture of exactly the half-bits that are sent, without an error.
///
/// The listing of this capture has one line for each packet, in order, and no refusal. The line has
/// the number of the last half-bit of the packet. With a station, the listing has the packets that
/// the station returns.
pub fn what_is_encoded_is_shown()
    // for the text of a list of frames
    ensures capture { EncodingsAreCaptures }
    ensures seen { EncodedFramesAreSeen }
    ensures shown { EncodingsAreShown }

    // for the text that a call of `encode` wrote
    ensures packet_lines { PacketLinesAreShown }
    ensures station { StationPacketsAreShown }
{}

/// Theorem: an operation that returns Ok has written exactly the following bytes, if the contracts
/// of its reader and writer give their bytes.
///
/// `show` writes a listing of the capture, with packet lines or with hexadecimal digits.
/// `show_plain` writes a listing of the capture in plain words. `lost` writes the lines of the lost
/// packets of the capture, with packet lines or with hexadecimal digits. `lost_with_spikes` writes
/// the lines of the packets that are found in the joined half-bits. `timing` writes the statistics
/// of the capture. `encode` writes the encoding of the packets, or the answers of the station.
/// `run` writes the decoder text of the fleet, which has heard the capture. `same` writes the line
/// of the verdict. `readcv` writes the questions with their answers, and the value. `what` writes
/// the sentence about its input.
pub fn what_calls_write()
    ensures show { ShowWritesTheListing }
    ensures show_words { ShowWritesAListing }
    ensures show_plain { ShowPlainWritesAListing }
    ensures lost { LostWritesTheLostPackets }
    ensures lost_with_spikes { LostWithSpikesWritesTheFoundPackets }
    ensures timing { TimingWritesTheFigures }
    ensures encode { EncodeWritesTheEncoding }
    ensures station { StationWritesItsAnswers }
    ensures run { RunWritesTheDecoders }
    ensures same { SameWritesTheVerdict }
    ensures same_input { SameInputWritesTheVerdict }
    ensures readcv { ReadcvWritesTheReading }
    ensures what { WhatWritesTheSentence }
{}

/// Theorem: if `show` returns Ok for a capture in memory, it has written `listed_text` of the
/// capture to an empty writer in memory. A proof that unfolds `listed_text` computes the listing of
/// a given capture.
pub fn what_show_lists()
    ensures { ShowListsTheText }
{}
