//! The gateway: connected stations and operators over one hub, and connections whose handshake is
//! not done.
#![tactic(auto)]

mod admit;
mod answer;
mod arrival;
mod events;
mod gateway;
mod lobby;
mod probe;
mod reactor;
mod tell;
mod turn;
mod turn_server;
mod welcome;

pub use arrival::{Arrival, Client};
pub use gateway::Gateway;
pub use lobby::Lobby;
pub use reactor::{Reactor, Written};
pub use turn_server::{State, TurnServer, TurnTime};
