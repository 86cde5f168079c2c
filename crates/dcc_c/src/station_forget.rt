//! The function that removes the entries of one address from a command station.

ghost use Rattle.std.specs.Prelude.{◌≡◌, ◌≢◌, Some, List, IfOk};
ghost use Rattle.std.specs.List.{AllByRecursion};
ghost use Rattle.dcc_packet.specs.declared.packet.Packet.{Packet};
ghost use Rattle.dcc_regs.specs.Heard.{address_of as address_of_packet};
ghost use Rattle.dcc_station.specs.Refresh.{StationRepresents};
ghost use Rattle.dcc_station.specs.Sending.{forgotten};
ghost use Rattle.dcc_station.specs.Stops.{StationObeys};
ghost use Rattle.dcc_c.specs.PacketFields.{address_of_numbers, fault_or_zero};
ghost use Rattle.dcc_c.specs.Stations.{sending_of};

use crate::packet_fields::address_of;
use crate::station_numbers::DccStation;
use dcc_packet::Address;
use dcc_station::forget_address;

/// Removes the entries with one address, as `Station::forget` does. The parameter `to` is the kind
/// of the address, and `address` is its number, as in the fields of a `DccPacket`. The waiting
/// commands stay. An entry never has the broadcast address.
///
/// Returns 0 on success, 10 (P10) if `to` is no kind of an address, and 1 (P1) or 2 (P2) if no
/// address has this number. If the result is not 0, nothing changes.
#[unsafe(no_mangle)]
pub extern "C" fn dcc_station_forget(station: &mut DccStation, to: u8, address: u16) -> u8
    ensures answer { result ≡ fault_or_zero (address_of_numbers to address) }
    ensures forgets { IfOk (address_of_numbers to address)
        (λ own. sending_of station.new ≡ forgotten (sending_of station.old) own) }
    ensures gone { IfOk (address_of_numbers to address)
        (λ own. AllByRecursion (λ (entry : Packet). address_of_packet entry ≢ Some own)
        (sending_of station.new).entries) }
    ensures waiting { (sending_of station.new).waiting ≡ (sending_of station.old).waiting }
    ensures stands { (commands packets : List Packet) → StationRepresents (sending_of station.old) commands packets
        → StationRepresents (sending_of station.new) commands packets }
    ensures obeys { (commands packets : List Packet) → StationObeys (sending_of station.old) commands packets
        → StationObeys (sending_of station.new) commands packets }
    ensures kept { result ≢ 0 → station.new ≡ station.old }
{
    match address_of(to, address) {
        Ok(own) => {
            forget(station, &own);
            0
        }
        Err(fault) => fault.number(),
    }
}

fn forget(station: &mut DccStation, own: &Address)
    ensures forgets { sending_of station.new ≡ forgotten (sending_of station.old) own.now }
    ensures gone { AllByRecursion (λ (entry : Packet). address_of_packet entry ≢ Some own.now)
        (sending_of station.new).entries }
    ensures stands { (commands packets : List Packet) → StationRepresents (sending_of station.old) commands packets
        → StationRepresents (sending_of station.new) commands packets }
    ensures obeys { (commands packets : List Packet) → StationObeys (sending_of station.old) commands packets
        → StationObeys (sending_of station.new) commands packets }
{
    forget_address(&mut station.entries, own);
}
