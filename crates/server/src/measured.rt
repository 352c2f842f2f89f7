//! What is measured as the metrics are asked for.

use crate::service::Service;
use hub::Hub;
use hub_rows::Store;
use ocpp_types::Mem;
use ready_streams::ReadyStream;
use station_calls::VendorHandler;
use std::alloc::Global;
use telemetry::Connected;
use ws_server::Gateway;

/// What is counted of each operator, in their order.
pub fn connected_of<S: Store + Drop, V: VendorHandler>(
    alloc: Global,
    service: &Service,
    gateway: &Gateway<ReadyStream>,
    hub: &Hub<S, V>,
) -> Mem<Vec<Connected>> {
    let mut connected = Vec::new(alloc);
    for operator in service.operators() {
        connected.push(Connected {
            stations: 0,
            consoles: 0,
            in_flight: hub.count_in_flight(operator.as_str()) as u64,
        })?;
    }
    for place in 0..gateway.count() {
        let Some(owner) = service.owner_of(gateway, place) else {
            continue;
        };
        if let Some(of) = connected.get_mut(owner) {
            of.add(gateway.route(place));
        }
    }
    Ok(connected)
}
