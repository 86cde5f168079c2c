//! Tests of active addresses with worked examples, for `LocoDecoder` and `PackedLoco`.

use crate::checks::check;
use crate::regs_examples::*;
use dcc_regs::{Decoder, LocoDecoder, PackedLoco, Register, Speed, Value};
use dcc_saved::read_who;
use std::process::Abort;

/// Sets speed step 1 at short address 3. The next constant sets this step at short address 10.
const AS_3: &str = "frame 036261";

const AS_10: &str = "frame 0a6268";

/// Lets both decoders hear packets. Asserts that they then have equal registers, with the speed
/// `speed`.
fn hear_to_speed(
    rt: &impl Abort,
    plain: &mut LocoDecoder,
    packed: &mut PackedLoco,
    lines: &[&str],
    speed: Value,
) {
    hear(rt, plain, lines);
    hear(rt, packed, lines);
    holds(rt, plain, Register::Speed, speed);
    are_same(rt, plain, packed, lines);
}

/// Checks that an address that was written to CV1 is active only after the next power-up.
#[test]
fn address_at_power_up(rt: HostRuntime) {
    let mut plain = LocoDecoder::new(&cvs(2));
    let mut packed = PackedLoco::new(&cvs(2));
    let before = [TO_S10, TO_S10, AS_10];
    hear_to_speed(&rt, &mut plain, &mut packed, &before, STOP);
    hear_to_speed(&rt, &mut plain, &mut packed, &[AS_3], STEP_1);
    plain.power_up();
    packed.power_up();
    hear_to_speed(&rt, &mut plain, &mut packed, &[], STOP);
    hear_to_speed(&rt, &mut plain, &mut packed, &[AS_3], STOP);
    hear_to_speed(&rt, &mut plain, &mut packed, &[AS_10], STEP_1);
}

/// Checks that CV29 = 34, which selects the long address, takes effect only at the next power-up.
#[test]
fn address_kind_at_power_up(rt: HostRuntime) {
    let lines = ["frame 03e81cfd0a", "frame 03e81cfd0a"];
    let three = read_who("s3").expect(&rt, "s3");
    check(
        &rt,
        heard_by_loco(&rt, &cvs(2), &lines).who() == three,
        "plain",
    );
    let mut packed = PackedLoco::new(&cvs(2));
    hear(&rt, &mut packed, &lines);
    check(&rt, packed.who() == three, "packed");
}

/// Returns CVs with the given values of CV1, CV17, CV18 and CV29, and 0 in all other CVs.
fn address_cvs(values: [u8; 4]) -> [u8; 1024] {
    let [cv1, cv17, cv18, cv29] = values;
    let mut bytes = cvs(cv29);
    bytes[0] = cv1;
    bytes[16] = cv17;
    bytes[17] = cv18;
    bytes
}

/// The values of CV1, CV17, CV18 and CV29, and the active address that a decoder with these values
/// must have.
const ACTIVE: [([u8; 4], &str); 8] = [
    ([3, 195, 232, 34], "l1000"),
    ([3, 195, 232, 2], "s3"),
    ([3, 191, 232, 34], "s3"),
    ([3, 232, 0, 34], "s3"),
    ([0, 191, 232, 34], "none"),
    ([128, 0, 0, 2], "none"),
    ([3, 192, 0, 32], "l0"),
    ([3, 231, 255, 32], "l10239"),
];

#[test]
fn active_addresses(rt: HostRuntime) {
    for (values, address) in ACTIVE {
        check(&rt, has_address(&rt, values, address), address);
    }
}

fn has_address(rt: &impl Abort, values: [u8; 4], address: &str) -> bool {
    let bytes = address_cvs(values);
    let who = read_who(address).expect(rt, address);
    LocoDecoder::new(&bytes).who() == who && PackedLoco::new(&bytes).who() == who
}

/// The values of CV1, CV17, CV18 and CV29, a packet line, and the speed and the direction after
/// this packet.
const HEARD: [([u8; 4], &str, Value, Value); 3] = [
    ([3, 195, 232, 34], "frame c3e83f7f6b", AT_126, REVERSE),
    // a decoder without an address
    ([0, 191, 232, 34], "frame 036261", STOP, FORWARD),
    ([0, 191, 232, 34], "frame 003f82bd", AT_1, FORWARD),
];

const AT_126: Value = Value::Speed(Speed::Step126(126));

const AT_1: Value = Value::Speed(Speed::Step126(1));

#[test]
fn heard_by_address(rt: HostRuntime) {
    for (values, line, speed, direction) in HEARD {
        let decoder = heard_by_loco(&rt, &address_cvs(values), &[line]);
        holds(&rt, &decoder, Register::Speed, speed);
        holds(&rt, &decoder, Register::Direction, direction);
    }
}
