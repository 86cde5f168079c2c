//! The functions of a locomotive that a station remembers (RCN-212, NMRA S-9.2.1).

ghost use Rattle.std.specs.Prelude.{◌≡◌, ◌≤◌, ◌<◌, ◌+◌, ◌↔◌, ℕ, true, Some, IsSome, IfSome};
ghost use Rattle.dcc_packet.specs.Bits.{is_one};
ghost use Rattle.dcc_packet.specs.Group.{group_max};
ghost use Rattle.dcc_packet.specs.declared.functions.GroupBits.{GroupBits};
ghost use Rattle.dcc_regs.specs.FunctionBits.{function_place};
ghost use Rattle.dcc_regs.specs.declared.register.SpeedMode.TheVariants.{Steps28};
ghost use Rattle.dcc_station.specs.Functions.{HasStates, IsTurned};

use dcc_packet::{Address, Group, GroupBits, Packet, What};
use dcc_regs::{Masked, first_function};

/// The functions F0 to F68 of a locomotive, as a station remembers them. A packet sets all
/// functions of a function group. So a station that turns one function needs the states of the
/// other functions of the group.
#[derive(Clone, Copy)]
pub struct Functions {
    /// Bit n is one if function n, 0 to 68, is on. The bits from 69 on are unused.
    pub on: u128,
}

impl Functions {
    ghost use Rattle.std.specs.Prelude.{◌≡◌, ◌≤◌, ◌<◌, ◌↔◌, ◌&&◌, nat_le, true, IsSome, IfSome};
    ghost use Rattle.dcc_packet.specs.Bits.{is_one};
    ghost use Rattle.dcc_packet.specs.declared.functions.GroupBits.{GroupBits};
    ghost use Rattle.dcc_packet.specs.declared.instruction.What.TheVariants.{Functions as SetGroup};
    ghost use Rattle.dcc_packet.specs.declared.packet.Packet.TheVariants.{Loco as ToLoco};
    ghost use Rattle.dcc_regs.specs.FunctionBits.{function_place};
    ghost use Rattle.dcc_regs.specs.Heard.{hears};
    ghost use Rattle.dcc_regs.specs.Result.{RegisterMap, step};
    ghost use Rattle.dcc_regs.specs.Setting.{mode_in};
    ghost use Rattle.dcc_regs.specs.declared.register.SpeedMode.TheVariants.{Steps28};
    ghost use Rattle.dcc_regs.specs.declared.register.Who.{Who};
    ghost use Rattle.dcc_station.specs.Functions.{HasFunctions, HasStates, IsTurned};

    /// Creates the functions of a locomotive, all off.
    pub fn new() -> Functions
        ensures { result.on ≡ 0 }
    {
        Functions { on: 0 }
    }

    /// Returns true if the function is on. Returns false for a function above 68.
    pub fn is_on(&self, function: u8) -> bool
        ensures { result ≡ (nat_le function 68 && is_one self.now.on function) }
    {
        function <= 68 && self.on >> function & 1 == 1
    }

    /// Turns a function on or off. Returns the packet to the address `to` that sets the function
    /// group of this function. The packet has the states of all functions of the group after the
    /// turn. A decoder that has the remembered functions has them still after it hears the packet.
    ///
    /// With 14 speed steps, a decoder takes F0 from the packets of speeds, and ignores the F0 of
    /// the function group.
    ///
    /// Returns `None` and changes nothing if the function is above 68.
    pub fn turn(&mut self, to: Address, function: u8, on: bool) -> Option<Packet>
        ensures found { IsSome result ↔ (function ≤ 68) }
        ensures group { IfSome result (λ packet. (bits : GroupBits) × (packet ≡ ToLoco to (SetGroup bits))
            × IsSome (function_place Steps28 bits.group function) × HasStates self.new.on bits) }
        ensures turned { function ≤ 68 → IsTurned self.old.on function on self.new.on }
        ensures decoder { IfSome result (λ packet. (who : Who) (start : RegisterMap) → hears who packet ≡ true
            → HasFunctions (mode_in start) self.old.on start
            → HasFunctions (mode_in start) self.new.on (step who start packet)) }
        ensures kept { 68 < function → self.new ≡ self.old }
    {
        let group = group_of(function)?;
        self.on = with_function(self.on, function, on);
        let bits = states_of(self.on, group);
        Some(Packet::Loco {
            to,
            what: What::Functions(bits),
        })
    }
}

/// Returns the function group of a function, or `None` if the function is above 68.
fn group_of(function: u8) -> Option<Group>
    ensures found { IsSome result ↔ (function ≤ 68) }
    ensures group { IfSome result (λ group. IsSome (function_place Steps28 group function)) }
{
    match function {
        0..=4 => Some(Group::F0),
        5..=8 => Some(Group::F5),
        9..=12 => Some(Group::F9),
        13..=20 => Some(Group::F13),
        21..=28 => Some(Group::F21),
        29..=36 => Some(Group::F29),
        37..=44 => Some(Group::F37),
        45..=52 => Some(Group::F45),
        53..=60 => Some(Group::F53),
        61..=68 => Some(Group::F61),
        _ => None,
    }
}

/// Returns `functions` with one function turned on or off.
fn with_function(functions: u128, function: u8, on: bool) -> u128
    requires { function ≤ 68 }
    ensures { IsTurned functions function on result }
{
    let bits = if on { u128::MAX } else { 0 };
    let turned = Masked {
        mask: 1 << function,
        bits,
    };
    turned.over(functions)
}

/// Returns the bits of a function group with the states in `functions`.
fn states_of(functions: u128, group: Group) -> GroupBits
    ensures group { result.group ≡ group }
    ensures states { HasStates functions result }
{
    match GroupBits::new(group, bits_of(functions, group)) {
        Ok(bits) => bits,
        Err(_) => unreachable!(),
    }
}

/// Returns the bits of a function group with the states in `functions`, as a byte.
fn bits_of(functions: u128, group: Group) -> u8
    ensures within { result ≤ group_max group }
    ensures states { (n place : ℕ) → function_place Steps28 group n ≡ Some place
        → is_one result place ≡ is_one functions n }
{
    match group {
        Group::F0 => (functions % 2) as u8 * 16 + four_from(functions, 1),
        Group::F5 | Group::F9 => four_from(functions, first_function(group)),
        _ => eight_from(functions, first_function(group)),
    }
}

/// Returns the states of four functions, the first of which is `first`.
fn four_from(functions: u128, first: u8) -> u8
    requires { first ≤ 61 }
    ensures within { result ≤ 15 }
    ensures states { (place : ℕ) → place < 4 → is_one result place ≡ is_one functions (first + place) }
{
    (functions >> first & 15) as u8
}

/// Returns the states of eight functions, the first of which is `first`.
fn eight_from(functions: u128, first: u8) -> u8
    requires { first ≤ 61 }
    ensures { (place : ℕ) → place < 8 → is_one result place ≡ is_one functions (first + place) }
{
    (functions >> first & 255) as u8
}
