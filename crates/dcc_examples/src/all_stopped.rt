//! A station that stops all locomotives. A locomotive that hears the next packets of the station
//! stands.

ghost use Rattle.std.specs.Prelude.{◌≡◌, ◌<◌, Option, true, is_some};
ghost use Rattle.dcc_packet.specs.declared.address.Address.{Address};
ghost use Rattle.dcc_regs.specs.declared.register.Register.TheVariants.{Speed};
ghost use Rattle.dcc_regs.specs.declared.register.Who.TheVariants.{Loco};
ghost use Rattle.dcc_regs.specs.Safety.{is_standing};

use dcc_regs::{Decoder, laws as decoders};
use dcc_station::{Station, laws};

/// Stops all locomotives, and lets a decoder hear the next `count` packets of the station. If
/// `count` is at least 1, a locomotive decoder then stands, whatever commands and entries the station
/// had.
pub fn stop_all<D: Decoder>(station: &mut Station, loco: &mut D, count: u32)
    ensures { (active : Option Address) → D.who loco.old ≡ Loco active
        → is_some (D.registers loco.old Speed) ≡ true → 0 < count
        → is_standing (D.registers loco.new Speed) ≡ true }
{
    laws::locos_stand_after_stops();
    laws::standing_goes_on();
    decoders::no_packet_heard();
    decoders::one_more_packet_heard();
    station.stop();
    'packets: for _n in 0..count {
        loco.apply(&station.next());
    }
}
