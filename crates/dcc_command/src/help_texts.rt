//! The texts that `--help` of a subcommand shows after the arguments. Each text describes the
//! input, shows an example, and lists the errors of the input.

/// The help text of the subcommand `show`.
pub const SHOW: &str = "\
It reads a capture from standard input: durations of half-bits in microseconds, or
runs such as 58*28, with # before a comment. tools/to-capture makes a capture of a
VCD or CSV file.

  dcc show --words < capture.txt      84 loco s3 speed28 f 20
  dcc show --plain < capture.txt      84 locomotive 3: step 17 of 28, forward
  echo '58*28 100*2 58*16 100*20 58*18' | dcc show

A line has the number of the last half-bit, and the packet or its error:
  H1  a half-bit of neither a one (52 to 64) nor a zero (90 to 10000)
  H2  the two half-bits of a bit differ in their class
  H3  an end bit after 1 or 2 bytes
  H4  a zero after the sixth byte
  H5  the exclusive or of the bytes is not zero
The program ends with U2 (a word is no duration; the line follows), U4 (a read failed)
or U7 (the input is too long). docs/FORMATS.md has the whole format, docs/CAPTURES.md
says how to make a capture of the file of a logic analyser.";

/// The help text of the subcommand `lost`.
pub const LOST: &str = "\
It reads a capture from standard input, as `dcc show` does, and writes a line for each
packet that a decoder of this toolkit does not hear:

  dcc lost --words < capture.txt
  dcc lost --spikes 5 < capture.txt
  echo '58*16 100*14 58*4 100*4 58*4 100*6 58*2 100*6 58*4 100*8 58*4' | dcc lost

A line has the number of the last half-bit of the packet, the packet, and the causes:
  preamble N               only N half-bits of ones before the packet, fewer than 20
  preamble N after P       half-bit P ends a refusal, and N are left after it
  ones N from A to B       N half-bits of ones outside 52 to 64 microseconds
  zeros N from A to B      N half-bits of zeros outside 90 to 10000 microseconds
No packet is listed both here and by `dcc show`. A packet with a refusal inside it
can be listed here too. With --spikes US, half-bits shorter than US microseconds are
joined with their neighbours, and a packet can have one more cause:
  spikes N                 N such half-bits in the packet and its preamble
The program ends with U2, U4 or U7, as `dcc show` does.
docs/FORMATS.md has the whole format.";

/// The help text of the subcommand `encode`.
pub const ENCODE: &str = "\
It reads packet lines from standard input, with one packet on each line:

  printf 'loco s3 speed28 f 4\\naccessory 12 5 on\\n' | dcc encode | dcc show --words
  printf 'loco s3 speed28 f 4\\nsend 3\\n' | dcc encode --hex --station

At a wrong line the program ends with U3, the number of the line, and its first error:
  P1, P2    a short address that is not 1 to 127, a long address above 10239
  P3, P4    an accessory decoder above 511, an output above 7
  P5        a signal above 2047
  P6, P7    a CV that is not 1 to 1024, a bit place above 7
  P8, P9    speed bits above 31 or 127, function bits wider than their group
  P10       a word that is not allowed, is missing, or is one too many
  P11, P12  a word that is no number or too large, hex digits that form no frame
  P14       a binary state above 127
docs/FORMATS.md has all packet lines.";

/// The help text of the subcommand `run`.
pub const RUN: &str = "\
It reads a decoder text from standard input, which ends with the line `end`, and then
a capture:

  dcc run < examples/fleet_run.txt
  cat decoders.txt capture.txt | dcc run > decoders_afterwards.txt

At a wrong line of the decoder text the program ends with U3, the number of the line,
and its first error:
  P1, P2    a short address that is not 1 to 127, a long address above 10239
  P3, P4    an accessory decoder above 510, an output above 7
  P6        a CV that is not 1 to 1024
  P10       a word that is not allowed, is missing, or is one too many
  P11, P12  a word that is no number or too large, hex digits that form no frame
  P13       a state that no decoder can have
  P14       a binary state that is not 1 to 127
At an error of the capture it ends with U2, U4 or U7, as `dcc show` does.
docs/FORMATS.md has both formats.";

/// The help text of the subcommand `same`.
pub const SAME: &str = "\
It reads two captures from standard input, with a line between them that is ---:

  (cat one.txt; echo ---; cat other.txt) | dcc same --who s3

W is the decoder for which the captures are compared: s3 is the locomotive with the
short address 3, l1000 the locomotive with the long address 1000, none a locomotive
without an address, and b12 accessory decoder 12. The CV writes of this decoder cut
its packets into blocks, which count from 0. The result is `alike`, `writes` if these
writes differ, `members K` if block K has other packets, or `order K` if conflicting
packets of block K alternate in another way.
docs/FORMATS.md has the whole format.";

/// The help text of the subcommand `readcv`.
pub const READCV: &str = "\
It reads a decoder text from standard input, and reads a CV of its first locomotive.
With --empty it reads nothing, and the track is empty:

  dcc readcv --cv 29 < examples/fleet.txt
  dcc readcv --cv 29 --empty

It writes a line for each question, in hex, with yes or no, and then the value or
`no answer`. docs/FORMATS.md has the format of decoder texts.";

/// The help text of the subcommand `timing`.
pub const TIMING: &str = "\
It reads a capture from standard input, as `dcc show` does, and writes one statistic
on each line. Times are in microseconds:

  dcc timing < capture.txt
  dcc timing < capture.txt | grep -e most -e station

  halves, time, packets, refused H1 to H5   half-bits, their time, packets, refusals
  lost         packets that are lost, as `dcc lost` lists them
  gap          from the end of a packet to the end of the next
  preamble     the fewest half-bits of ones before a packet that is seen or lost
  ones, zeros  half-bits of 52 to 64, of 90 to 10000
  differences  between the two half-bits of ones, in packets
  sums         of the two half-bits of zeros, in packets
  below, between, above   half-bits of neither a one nor a zero
Each has its count, the least, the greatest and the mean, or none. Lines with `station`
and `decoder` have the limits of NMRA S-9.1. A capture with an error has no statistics:
the program ends with U2, U4 or U7, as `dcc show` does. docs/FORMATS.md has each statistic.";

/// The help text of the subcommand `what`.
pub const WHAT: &str = "\
It reads any input from standard input, and writes one sentence about it:

  dcc what < capture.txt         a capture of 84 half-bits
  dcc what < session.sr          a zip archive, as sigrok writes: tools/to-capture ..
  echo '58 58 x' | dcc what      a capture with a wrong word: line 1, word 3: x

It knows captures, decoder texts, packet lines, VCD and CSV files, zip archives, files
of gzip, text in UTF-16 and text with a byte order mark. For a capture most of whose
half-bits are longer than 10000 microseconds it asks if they are nanoseconds. A wrong
word has its line, its place in the line, and its first 32 bytes, with \\x and two hex
digits for a byte that is no printable character. The program ends with U4 (a read
failed), U6 (no memory) or U7 (more than 67108864 bytes).";
