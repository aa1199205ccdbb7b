//! The systems whose satellites are used, and the messages that tell of Galileo's.

/// A message of Galileo: its clock is that of one pair of codes, and its group delay that of E1
/// against this pair. Which records are of which is in `rinex_nav`.
#[derive(Clone, Copy, Debug, PartialEq, Eq)]
pub enum Message {
    /// F/NAV, sent on E5a: the clock for E1 and E5a.
    Fnav,
    /// I/NAV, sent on E1 and E5b: the clock for E1 and E5b.
    Inav,
}

/// A system of satellites, and the message where it has several. The constants are in
/// `specs/Systems.antt`.
#[derive(Clone, Copy, Debug, PartialEq, Eq)]
pub enum System {
    /// Codes on L1 and L2, by the ephemerides of LNAV.
    Gps,
    /// Codes on E1 and E5a, or E1 and E5b, by the ephemerides of the message.
    Galileo(Message),
}
