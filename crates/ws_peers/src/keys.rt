//! The keys of stations.
ghost use Rattle.std.specs.Prelude.{◌≡◌, ◌<◌};
ghost use Rattle.std.specs.List.{fold};
ghost use Rattle.ws_peers.specs.Routes.{mixed, station_key};

/// Each key is less than this prime, so that a step stays within 64 bits.
const KEYS: u64 = 4_294_967_291;

/// A key of a station. Two stations have the same one seldom.
pub(crate) fn station_key(op: &str, station: &str) -> u64
    ensures { result ≡ station_key op.now station.now }
{
    mix(mix(0, op), station)
}

/// A key after the bytes of a text.
fn mix(key: u64, text: &str) -> u64
    requires { key < 4_294_967_291 }
    ensures value { result ≡ fold mixed key text.now }
    ensures bound { result < 4_294_967_291 }
{
    let mut mixed = key;
    for byte in text.as_bytes() {
        mixed = (mixed * 257 + u64::from(*byte)) % KEYS;
    }
    mixed
}
