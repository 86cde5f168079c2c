//! Functions that return the standard packet that bytes encode.
ghost use Rattle.std.specs.Prelude.{◌≡◌, ◌≢◌, ◌≤◌, ◌<◌, ◌+◌, ◌-◌, ◌*◌, ◌/◌, ◌%◌, ◌++◌, ◌∷◌, [], List, ℕ, IsTrue};
ghost use Rattle.std.specs.Prelude.{IfSome};
ghost use Rattle.std.specs.Prelude.{IfNone};
ghost use Rattle.dcc_packet.specs.Instruction.{is_cv_access};
ghost use Rattle.dcc_packet.specs.Rows.{address_bytes, instruction_bytes};
ghost use Rattle.dcc_packet.specs.declared.address.Address.{Address};
ghost use Rattle.dcc_packet.specs.declared.instruction.What.{What};
ghost use Rattle.dcc_plain.specs.Standard.{IsStandardPacketOf, StandardFits, WhatFits, board_high, board_low};
ghost use Rattle.dcc_plain.specs.Standard.{standard_bytes, what_bytes};
ghost use Rattle.dcc_plain.specs.declared.standard.StandardPacket.{StandardPacket};
ghost use Rattle.dcc_plain.specs.declared.standard.StandardWhat.{StandardWhat};

use crate::StandardPacket;
use crate::what_from_bytes::standard_what;
use dcc_packet::{Address, Board, Output, SignalAddress, What, read_loco};

/// Returns the standard packet whose row has `bytes`, which are the bytes of a packet before the error
/// byte. Returns `None` if no row has these bytes. No bytes are in two rows (NMRA S-9.2.1; RCN-211 to
/// RCN-214).
pub fn standard_read(bytes: &[u8]) -> Option<StandardPacket>
    ensures row { IsStandardPacketOf bytes.now result }
    ensures fits { IfSome result StandardFits }
{
    standard_row(bytes)
}

/// Returns the standard packet whose row has `bytes`. Returns `None` if no row has these bytes.
fn standard_row(bytes: &[u8]) -> Option<StandardPacket>
    ensures found { IfSome result (λ it. StandardFits it × (standard_bytes it ≡ bytes.now)) }
    ensures none { IfNone result ((it : StandardPacket) → StandardFits it → standard_bytes it ≢ bytes.now) }
{
    match *bytes {
        [0x00, 0xC1, first, second, third] => clock_row(first, second, third),
        [0x00, 0xC2, high, low] => Some(StandardPacket::SystemTime {
            milliseconds: u16::from(high) * 256 + u16::from(low),
        }),
        [first @ 0x80..=0xBF, second] => nothing_row(first, second),
        [first @ 0x80..=0xBF, second, kind, low, last] => {
            cv_row(first, second, cv_access(kind, low, last)?)
        }
        _ => loco_row(bytes),
    }
}

/// Returns the model time or the model date of the three bytes after 00000000 11000001.
fn clock_row(first: u8, second: u8, third: u8) -> Option<StandardPacket>
    ensures found { IfSome result (λ it. StandardFits it
        × (standard_bytes it ≡ 0 ∷ 0xC1 ∷ first ∷ second ∷ third ∷ [])) }
    ensures none { IfNone result ((it : StandardPacket) → StandardFits it
        → standard_bytes it ≢ 0 ∷ 0xC1 ∷ first ∷ second ∷ third ∷ []) }
{
    match first {
        0..=59 if second % 32 <= 23 && third % 128 <= 63 => Some(StandardPacket::ModelTime {
            minute: first,
            weekday: second / 32,
            hour: second % 32,
            is_set: third >= 128,
            factor: third % 128,
        }),
        65..=95 if second >= 16 && second <= 207 => Some(StandardPacket::ModelDate {
            day: first - 64,
            month: second / 16,
            year: u16::from(second % 16) * 256 + u16::from(third),
        }),
        _ => None,
    }
}

/// Returns the packet of the bytes 10AAAAAA 0NNN1PP0 or 10AAAAAA 0NNN1PP1. Returns `None` if the
/// second byte has another form.
fn nothing_row(first: u8, second: u8) -> Option<StandardPacket>
    requires low { 0x80 ≤ first }
    requires high { first < 0xC0 }
    ensures found { IfSome result (λ it. StandardFits it × (standard_bytes it ≡ first ∷ second ∷ [])) }
    ensures none { IfNone result ((it : StandardPacket) → StandardFits it
        → standard_bytes it ≢ first ∷ second ∷ []) }
{
    if second >= 128 || second / 8 % 2 == 0 {
        return None;
    }
    let board = board(first, second);
    let pair = second / 2 % 4;
    if second % 2 == 0 {
        Some(StandardPacket::BoardNothing { board, pair })
    } else {
        let address = signal(&board, pair);
        Some(StandardPacket::SignalNothing { address })
    }
}

/// Returns the board of the bytes 10AAAAAA and .NNN....
fn board(first: u8, second: u8) -> Board
    requires low { 0x80 ≤ first }
    requires high { first < 0xC0 }
    ensures low { board_low result.number ≡ first }
    ensures high { board_high result.number ≡ 16 * (second / 16 % 8) }
{
    let number = 64 * u16::from(7 - second / 16 % 8) + u16::from(first % 64);
    match Board::new(number) {
        Ok(board) => board,
        Err(_) => unreachable!(),
    }
}

/// Returns the signal of a board and a pair of its outputs.
fn signal(board: &Board, pair: u8) -> SignalAddress
    requires { pair ≤ 3 }
    ensures board { result.number / 4 ≡ board.now.number }
    ensures pair { result.number % 4 ≡ pair }
{
    match SignalAddress::new(4 * board.number() + u16::from(pair)) {
        Ok(address) => address,
        Err(_) => unreachable!(),
    }
}

/// Returns the access to a CV of a board, an output or a signal, from two bytes of an address and the
/// access of the three bytes after them.
fn cv_row(first: u8, second: u8, access: What) -> Option<StandardPacket>
    requires low { 0x80 ≤ first }
    requires high { first < 0xC0 }
    requires access { IsTrue (is_cv_access access) }
    ensures found { IfSome result (λ it. StandardFits it
        × (standard_bytes it ≡ first ∷ second ∷ instruction_bytes access)) }
    ensures none { IfNone result ((it : StandardPacket) → StandardFits it
        → standard_bytes it ≢ first ∷ second ∷ instruction_bytes access) }
{
    let board = board(first, second);
    match (second / 128, second % 16) {
        (0, 1 | 3 | 5 | 7) => Some(StandardPacket::SignalCv {
            address: signal(&board, second / 2 % 4),
            access,
        }),
        (1, 0) => Some(StandardPacket::BoardCv {
            board,
            output: None,
            access,
        }),
        (1, 8..=15) => Some(StandardPacket::BoardCv {
            board,
            output: Some(output(second % 8)),
            access,
        }),
        _ => None,
    }
}

/// Returns the output with the number `number`.
fn output(number: u8) -> Output
    requires { number ≤ 7 }
    ensures { result.number ≡ number }
{
    match Output::new(number) {
        Ok(output) => output,
        Err(_) => unreachable!(),
    }
}

/// Returns the access to a CV that three bytes encode. Returns `None` if they encode none.
fn cv_access(first: u8, second: u8, third: u8) -> Option<What>
    ensures found { IfSome result (λ what. IsTrue (is_cv_access what)
        × (instruction_bytes what ≡ first ∷ second ∷ third ∷ [])) }
    ensures none { IfNone result ((what : What) → instruction_bytes what ≢ first ∷ second ∷ third ∷ []) }
{
    match read_loco(&[0, first, second, third]) {
        Some((_, what)) => Some(what),
        None => None,
    }
}

/// Returns the packet to locomotive decoders that `bytes` encode.
fn loco_row(bytes: &[u8]) -> Option<StandardPacket>
    ensures found { IfSome result (λ it. StandardFits it × (standard_bytes it ≡ bytes.now)) }
    ensures none { IfNone result ((to : Address) (what : StandardWhat) → WhatFits what
        → address_bytes to ++ what_bytes what ≢ bytes.now) }
{
    let (to, rest) = address(bytes)?;
    let what = standard_what(rest)?;
    Some(StandardPacket::Loco { to, what })
}

/// Returns the address at the beginning of `bytes`, and the bytes after this address. Returns `None`
/// if `bytes` do not begin with the address of a locomotive decoder.
fn address(bytes: &[u8]) -> Option<(Address, &[u8])>
    ensures found { IfSome result (λ told. address_bytes told.0 ++ told.1.now ≡ bytes.now) }
    ensures none { IfNone result ((to : Address) (rest : List ℕ) → address_bytes to ++ rest ≢ bytes.now) }
{
    match bytes {
        [0x00, rest @ ..] => Some((Address::Broadcast, rest)),
        [number @ 0x01..=0x7F, rest @ ..] => Some((short_address(*number), rest)),
        [high @ 0xC0..=0xE7, low, rest @ ..] => Some((long_address(*high, *low), rest)),
        _ => None,
    }
}

/// Returns the short address `number`.
fn short_address(number: u8) -> Address
    requires least { 1 ≤ number }
    requires most { number ≤ 127 }
    ensures { address_bytes result ≡ number ∷ [] }
{
    match Address::short(number) {
        Ok(address) => address,
        Err(_) => unreachable!(),
    }
}

/// Returns the long address that is encoded as the bytes 11AAAAAA AAAAAAAA.
fn long_address(high: u8, low: u8) -> Address
    requires least { 0xC0 ≤ high }
    requires most { high ≤ 0xE7 }
    ensures { address_bytes result ≡ high ∷ low ∷ [] }
{
    match Address::long(u16::from(high - 0xC0) * 256 + u16::from(low)) {
        Ok(address) => address,
        Err(_) => unreachable!(),
    }
}
