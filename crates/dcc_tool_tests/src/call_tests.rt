//! Tests of whole operations. Readers give few bytes, fail or never end, inputs have limits, and
//! writers fail or take few bytes. Each test has a table.
//!
//! Each row of a table has these columns:
//!
//! 1. The name of the row.
//!
//! 2. The operation.
//!
//! 3. The input.
//!
//! 4. The number of bytes that a read gives, the number of reads before a read fails, and `again`
//!    if the input never ends. If this column is empty, the operation runs twice: with an input
//!    that is read byte by byte, and with an input that is read at once.
//!
//! 5. The limits of half-bits and of bytes of the input.
//!
//! 6. The number of bytes that a write takes, and the number of writes before a write fails.
//!
//! 7. The text that the operation must have written.
//!
//! 8. The error that the operation must return.
//!
//! 9. The number of input lines that must have been used.
//!
//! 10. The error that a second call must return. If this column is empty, the second call must
//! return the error of the first call. The second call must write nothing. After a failed write
//! there is no second call.

use crate::calls::{Call, call_of, pair, text_of, told};
use crate::checks::check;
use crate::fakes::{Giving, Taking};
use crate::rows::{column, number};
use dcc_tool::{Input, Limits};
use std::alloc::Global;
use std::process::Abort;

const SHOWN: &str = "\
    a gap | show | 58*28_100*14_58*4_100*4_58*4_100*6_58*2_100*6_58*4_100*8_58*4_ |  |  |  | 84 036261/
    a gap | show | 58*28/100*14/58*4/100*4/58*4/100*6/58*2/100*6/58*4/100*8/58*4/ |  |  |  | 84 036261/
    a gap | show | 58*28^/100*14^/58*4^/100*4^/58*4^/100*6^/58*2^/100*6^/58*4^/100*8^/58*4^/ |  |  |  | 84 036261/
    a gap | show | 58*28~__100*14~__58*4~__100*4~__58*4~__100*6~__58*2~__100*6~__58*4~__100*8~__58*4~__ |  |  |  | 84 036261/
    a gap | show | 58*28_# 58x/100*14_# 58x/58*4_# 58x/100*4_# 58x/58*4_# 58x/100*6_# 58x/58*2_# 58x/100*6_# 58x/58*4_# 58x/100*8_# 58x/58*4_# 58x/ |  |  |  | 84 036261/
    a gap | show | 58*28# 58x 70^/100*14# 58x 70^/58*4# 58x 70^/100*4# 58x 70^/58*4# 58x 70^/100*6# 58x 70^/58*2# 58x 70^/100*6# 58x 70^/58*4# 58x 70^/100*8# 58x 70^/58*4# 58x 70^/ |  |  |  | 84 036261/
    a gap | show | 58*28/#//_/100*14/#//_/58*4/#//_/100*4/#//_/58*4/#//_/100*6/#//_/58*2/#//_/100*6/#//_/58*4/#//_/100*8/#//_/58*4/#//_/ |  |  |  | 84 036261/
    lines | show |  |  |  |  |  |  | 0
    lines | show | 58 58 |  |  |  |  |  | 1
    lines | show | 58 58/ |  |  |  |  |  | 1
    lines | show | 58/58 |  |  |  |  |  | 2
    lines | show | 58//58 100 # x/ |  |  |  |  |  | 3
    lines | show | 58/58 100/# x |  |  |  |  |  | 3
    lines up to a bad word | show | 58/58x/58/ |  |  |  |  | U2 line 2: bad number | 2
    lines up to a bad word before an empty line | show | _58x//58/ |  |  |  |  | U2 line 1: bad number | 1
    no line before the first byte | show | 58/58/58/ | 3 0 again |  |  |  | U4 read failed | 0
    lines up to a failed read | show | 58/58/58/ | 3 2 again |  |  |  | U4 read failed | 2
    lines up to a failed read within a line | show | 58/58/58/ | 4 1 again |  |  |  | U4 read failed | 2
    lines of the bytes that may be taken | show | 58/58/58/ |  | 9 6 |  |  | U7 input too long | 2
    lines of the bytes that may be taken | show | 58/58/58/ |  | 9 7 |  |  | U7 input too long | 3
    lines up to a half too many | show | 58/58*9//58/ |  | 9 99 |  |  | U7 input too long | 2
    lines up to a half too many | show | _58*10//58/ |  | 9 99 |  |  | U7 input too long | 1
    ten halves | show | 58 58 58 58 58 58 58 58 58 58 |  | 10 1000
    an eleventh half | show | 58 58 58 58 58 58 58 58 58 58 58 |  | 10 1000 |  |  | U7 input too long
    the last byte | show | 58_ |  | 1 3
    a byte too many | show | 58 58 |  | 9 3 |  |  | U7 input too long
    a bad word that the limit cuts | show | 58 58x |  | 9 5 |  |  | U7 input too long
    a bad word that just fits | show | 58 58x |  | 9 6 |  |  | U2 line 1: bad number
    a bad word is told before a half too many | show | 58 58x_ |  | 1 9 |  |  | U2 line 1: bad number
    nothing of nothing | show |  |  | 0 0
    a comment of nothing | show | # |  | 0 0 |  |  | U7 input too long
    too many halves | show | 58_ | 1 1000000 again | 100 4000 |  |  | U7 input too long
    a word without an end | show | 58 | 1 1000000 again | 100 4000 |  |  | U7 input too long
    a comment without an end | show | #_ | 1 1000000 again | 100 4000 |  |  | U7 input too long
    spaces for ever | show | _ | 1 1000000 again | 100 1000 |  |  | U7 input too long
    at the first read | show | S_ | 512 0 again |  |  |  | U4 read failed
    behind the first read | show | S_ | 512 1 again |  |  | 84 036261/ | U4 read failed
    behind all bytes | show | S_ | 1 62 again |  |  | 84 036261/ | U4 read failed
    within the last word | show | S_ | 1 61 again |  |  |  | U4 read failed
    within the packet | show | S_ | 20 2 again |  |  |  | U4 read failed
    the third call fails | show | S 58x | 512 |  | 1 2 | 84 | U5 write failed |  | U2 line 1: bad number
    the last call fails | show | S 58x | 512 |  | 1 9 | 84 036261 | U5 write failed |  | U2 line 1: bad number
    one byte at a call | show | S 58x | 512 |  | 1 100 | 84 036261/ | U2 line 1: bad number |  | U2 line 1: bad number
    no byte is taken | show | S 58x | 512 |  | 0 100 |  | U5 write failed |  | U2 line 1: bad number
    the first call fails | show | S 58x | 512 |  | 100 0 |  | U5 write failed |  | U2 line 1: bad number
    a packet | show | 58*28 100*14 58*4 100*4 58*4 100*6 58*2 100*6 58*4 100*8 58*4/ |  | 16777216 67108864 |  | 84 036261/
    a run that goes on behind the packet | show | 58*28 100*14 58*4 100*4 58*4 100*6 58*2 100*6 58*4 100*8 58*30 |  | 16777216 67108864 |  | 84 036261/
    runs and halves in turn | show | 58*9#c/58*19 100*7~100*7 58 58 58*2^100*4 58*4 100*5 100 58*2 100*6 58*4 100*8 58*3 58 |  | 16777216 67108864 |  | 84 036261/
    as many digits as may be | show | 0000000058*00000028 100*14 58*4 100*4 58*4 100*6 58*2 100*6 58*4 100*8 58*4 |  | 16777216 67108864 |  | 84 036261/
    zeros without an end | show | 58*28 100*1000 |  | 16777216 67108864 |  | 138 refused H4/
    three bad halves | show | 58*28 100*2 70*3 |  | 16777216 67108864 |  | 31 refused H1/
    a duration above 65535 | show | 58*28 100*2 9999999999*3 |  | 16777216 67108864 |  | 31 refused H1/
    a bit that is split | show | 58*28 100*3 58*9 |  | 16777216 67108864 |  | 32 refused H2/
    the longest run | show | 58*16777216 |  | 16777216 67108864
    a run of one half | show | 58*1 |  | 16777216 67108864
    as many as may be | show | 58*10 |  | 10 67108864
    one too many | show | 58*11 |  | 10 67108864 |  |  | U7 input too long
    together as many | show | 58*5 58 58*4 |  | 10 67108864
    together one too many | show | 58*5 58*6 |  | 10 67108864 |  |  | U7 input too long
    a half too many | show | 58*10 58 |  | 10 67108864 |  |  | U7 input too long
    a half too many | show | 58*16777216 58 |  | 16777216 67108864 |  |  | U7 input too long
    before a bad word | show | 58*11 58x |  | 10 67108864 |  |  | U7 input too long
    the outcome of a run that fits | show | 58*28 100*2 70*5 |  | 35 67108864 |  | 31 refused H1/
    not even its first half | show | 58*28 100*2 70*5 |  | 34 67108864 |  |  | U7 input too long
    not even its first half | show | 58*28 100*2 70*5 |  | 31 67108864 |  |  | U7 input too long
    a bad word behind a packet | show | S/58x/ |  |  |  | 84 036261/ | U2 line 2: bad number";

const SHOWN_PLAIN: &str = "\
    behind the first read | plain | S_ | 512 1 again |  |  | 84 locomotive 3: step 1 of 28, forward/ | U4 read failed
    within the last word | plain | S_ | 1 61 again |  |  |  | U4 read failed
    a bad word | plain | S/58x/58/ |  |  |  | 84 locomotive 3: step 1 of 28, forward/ | U2 line 2: bad number | 2
    a half too many | plain | S 58 |  | 84 1000 |  | 84 locomotive 3: step 1 of 28, forward/ | U7 input too long
    the outcome of a run that fits | plain | 58*28 100*2 70*5 |  | 35 1000 |  | 31 refused H1/
    the fourth write fails | plain | S 58x | 512 |  | 1 3 | 84_ | U5 write failed |  | U2 line 1: bad number
    no byte is taken | plain | S 58x | 512 |  | 0 100 |  | U5 write failed |  | U2 line 1: bad number
    a wrong error byte | plain | B/I |  |  |  | 84 refused H5 036260/168 idle/";

const TIMED: &str = "\
    at the first read | timing | S_ | 512 0 again |  |  |  | U4 read failed
    behind all bytes | timing | S_ | 1 62 again |  |  |  | U4 read failed
    within the last word | timing | S_ | 1 61 again |  |  |  | U4 read failed
    lines up to a failed read | timing | 58/58/58/ | 3 2 again |  |  |  | U4 read failed | 2
    lines up to a bad word | timing | S/58x/58/ |  |  |  |  | U2 line 2: bad number | 2
    a half too many | timing | 58*11 |  | 10 1000 |  |  | U7 input too long
    a byte too many | timing | 58 58 |  | 9 3 |  |  | U7 input too long
    a bad word that the limit cuts | timing | 58 58x |  | 9 5 |  |  | U7 input too long
    a capture without an end | timing | 58_ | 1 1000000 again | 100 4000 |  |  | U7 input too long
    the first write fails | timing | S | 512 |  | 100 0 |  | U5 write failed
    no byte is taken | timing | S | 512 |  | 0 100 |  | U5 write failed
    two writes | timing | S | 512 |  | 4 2 | halves 8 | U5 write failed
    one write of many bytes | timing | S | 512 |  | 16 1 | halves 84/time 6 | U5 write failed";

const ENCODED: &str = "\
    line feeds for ever | hex | / | 1 5000 again | 0 1000 |  |  | U7 input too long
    the last byte | hex | idle/ |  | 0 5 |  | ff00ff/
    a byte too many | hex | idle/ |  | 0 4 |  |  | U7 input too long
    a failed read behind a line | hex | idle/idle/ | 4 2 |  |  | ff00ff/ | U4 read failed
    a byte a write | hex | idle | 512 |  | 1 100 | ff00ff/
    two writes | hex | idle/x | 512 |  | 2 2 | ff00 | U5 write failed
    no byte is taken | hex | idle | 512 |  | 0 2 |  | U5 write failed
    within the packets of a station | station | send 9/idle | 512 |  | 4 3 | ff00ff/ff00f | U5 write failed
    lines | hex |  |  |  |  |  |  | 0
    lines | hex | idle |  |  |  | ff00ff/ |  | 1
    lines | hex | idle/ |  |  |  | ff00ff/ |  | 1
    lines | hex | / |  |  |  |  |  | 1
    lines | hex | idle/idle |  |  |  | ff00ff/ff00ff/ |  | 2
    lines | hex | idle/idle/ |  |  |  | ff00ff/ff00ff/ |  | 2
    lines | hex | idle// |  |  |  | ff00ff/ |  | 2
    lines | hex | idle//_/# |  |  |  | ff00ff/ |  | 4
    lines | hex | idle/x/idle/ |  |  |  | ff00ff/ | U3 line 2: P10 | 2
    lines up to a failed read | hex | idle/idle/ | 4 2 |  |  | ff00ff/ | U4 read failed | 2
    lines of the bytes that may be taken | hex | idle/idle/ |  | 0 7 |  | ff00ff/ | U7 input too long | 2
    lines up to a bad line of a station | station | send 1//send 0/send 1/ |  |  |  | ff00ff/ | U3 line 3: P11 | 3
    a bad number of a station | station | send 1/send 0/send 1/ |  |  |  | ff00ff/ | U3 line 2: P11
    a bad line | hex | idle/x/idle/ |  |  |  | ff00ff/ | U3 line 2: P10";

const COMPARED: &str = "\
    limits | both | 58 58/---/58 58/ |  | 4 16 |  | alike/
    limits | both | 58 58/---/58 58/ |  | 3 16 |  |  | U7 input too long
    limits | both | 58 58/---/58 58/ |  | 1 16 |  |  | U7 input too long
    limits | both | 58 58/---/58 58/ |  | 4 15 |  |  | U7 input too long
    limits | both | 58 58/---/58 58/ |  | 4 9 |  |  | U7 input too long
    limits | both | --- 58x/ |  | 4 7 |  |  | U7 input too long
    limits | both | 58x 58/ |  | 4 3 |  |  | U7 input too long
    limits | both | 58x 58/ |  | 4 4 |  |  | U2 line 1: bad number
    limits of runs | both | 58*6/---/58*4 |  | 10 100 |  | alike/
    limits of runs | both | 58*6/---/58*5 |  | 10 100 |  |  | U7 input too long
    limits of runs | both | 58*11/---/ |  | 10 100 |  |  | U7 input too long
    limits of runs | both | 58*2 ---/ |  | 10 100 |  |  | U2 line 1: bad number
    three bytes are written | both | 58 58/---__#c/58 58/ | 512 |  | 1 3 | ali | U5 write failed
    a bad word of the second | both | 58/---//58x/ |  |  |  |  | U2 line 4: bad number
    lines up to a word behind the dashes | both | 58/--- 58//58/ |  |  |  |  | U2 line 2: bad number | 2
    lines of both up to a half too many | both | 58/---/58*9/ |  | 9 99 |  |  | U7 input too long | 3
    no dashes | both | 58/58 |  |  |  |  | U3 line 3: P10 | 2";

const PLAYED: &str = "\
    a packet within the limit | run | DS |  | 84 1000 |  | A
    its last run past the limit | run | DS |  | 83 1000 |  |  | U7 input too long
    halves and bytes | run | dcc-decoders 2/end/58 58/ |  | 2 25 |  | dcc-decoders 2/end/
    a half too many | run | dcc-decoders 2/end/58 58/ |  | 1 25 |  |  | U7 input too long
    a byte too many | run | dcc-decoders 2/end/58 58/ |  | 2 24 |  |  | U7 input too long
    lines up to a bad line | run | dcc-decoders 2/x/58/ |  |  |  |  | U3 line 2: P10 | 2
    lines of a text that ends too early | run | dcc-decoders 2/ |  |  |  |  | U3 line 2: P10 | 1
    lines behind the decoders | run | dcc-decoders 2/end/58/58x/ |  |  |  |  | U2 line 4: bad number | 4
    a byte a write | run | D | 512 |  | 1 1000 | D
    two writes | run | D | 512 |  | 2 2 | dcc- | U5 write failed";

/// Performs the operation of a row and checks the results. Each read gives at most `each` bytes.
fn play(rt: &impl Abort, alloc: Global, row: &str, each: u32) {
    let text = text_of(rt, alloc, column(row, 2));
    let reads = column(row, 3);
    let reader = Giving::new(
        text.as_slice(),
        each as usize,
        pair(reads, (each, 1_000_000)).1,
        reads.ends_with("again"),
    );
    let (halves, bytes) = pair(column(row, 4), (16_777_216, 67_108_864));
    let mut input = Input::new(reader, Limits { halves, bytes });
    let call = call_of(column(row, 1));
    play_first(rt, alloc, row, call, &mut input);
    let lines = column(row, 8);
    check(
        rt,
        lines.is_empty() || lines_of(&input) == number(lines),
        row,
    );
    play_again(rt, alloc, row, call, &mut input);
}

fn lines_of(input: &Input<Giving>) -> u32 {
    input.lines()
}

/// Performs the operation of a row for the first time, and checks the error and the written text.
fn play_first(rt: &impl Abort, alloc: Global, row: &str, call: Call, input: &mut Input<Giving>) {
    let (takes, writes) = pair(column(row, 5), (100_000, 100_000));
    let mut writer = Taking::new(alloc, takes as usize, writes);
    let fault = told(rt, alloc, &call.play(rt, alloc, input, &mut writer));
    check(rt, fault.as_str() == column(row, 7), row);
    let written = text_of(rt, alloc, column(row, 6));
    check(rt, writer.taken.as_slice() == written.as_slice(), row);
}

/// Performs the operation of a row for the second time, and checks the error.
fn play_again(rt: &impl Abort, alloc: Global, row: &str, call: Call, input: &mut Input<Giving>) {
    let then = match column(row, 9) {
        "" => column(row, 7),
        then => then,
    };
    if !then.is_empty() && !then.starts_with("U5") {
        let mut writer = Taking::new(alloc, 1000, 1000);
        let fault = told(rt, alloc, &call.play(rt, alloc, input, &mut writer));
        check(rt, fault.as_str() == then && writer.taken.is_empty(), row);
    }
}

#[test]
fn calls(rt: HostRuntime) {
    for table in [SHOWN, SHOWN_PLAIN, TIMED, ENCODED, COMPARED, PLAYED] {
        for row in table.lines() {
            play_row(&rt, rt.alloc(), row);
        }
    }
}

/// Performs the operation of a row with the reads that the row names.
fn play_row(rt: &impl Abort, alloc: Global, row: &str) {
    if column(row, 3).is_empty() {
        play(rt, alloc, row, 1);
        play(rt, alloc, row, 512);
    } else {
        play(rt, alloc, row, pair(column(row, 3), (512, 0)).0);
    }
}
