//! The subprotocols of stations (OCPP-J 1.6, section 3.1.2).
ghost use Rattle.std.specs.Prelude.{◌≡◌};
ghost use Rattle.ws_handshake.specs.Subprotocols.{chosen, subprotocol_name};

/// The name of OCPP 1.6 over WebSocket, as a station offers it.
#[derive(Clone, Copy, Debug, PartialEq, Eq, Drop)]
pub enum Subprotocol {
    /// `ocpp1.6`, its name.
    Named,
    /// `OCPP1.6`.
    InCapitals,
    /// `ocpp1.6j`.
    WithJ,
}

impl Subprotocol {
    /// It as it is offered and answered.
    pub fn name(&self) -> &'static str
        ensures { result.now ≡ subprotocol_name self.now }
    {
        match self {
            Subprotocol::Named => "ocpp1.6",
            Subprotocol::InCapitals => "OCPP1.6",
            Subprotocol::WithJ => "ocpp1.6j",
        }
    }
}

/// Which of these names a head offers.
#[derive(Clone, Copy, Debug, PartialEq, Eq, Drop)]
pub struct Offered {
    pub named: bool,
    pub in_capitals: bool,
    pub with_j: bool,
}

impl Offered {
    /// The name that is answered: its own where it is offered, or else, where a station is read tolerantly, another.
    pub fn chosen(&self, is_tolerant: bool) -> Option<Subprotocol>
        ensures { result ≡ chosen is_tolerant self.now }
    {
        if self.named {
            return Some(Subprotocol::Named);
        }
        if !is_tolerant {
            return None;
        }
        if self.in_capitals {
            return Some(Subprotocol::InCapitals);
        }
        if self.with_j {
            return Some(Subprotocol::WithJ);
        }
        None
    }
}
