//! How many bytes the values on an event's way take at most. Each is moved from call to call, and a
//! call clears its locals as it begins, so what is wide and rare is in a box.

use hub_rows::Edit;
use ocpp_frame::Frame;
use ocpp_payload::{Conf, Request};
use operator_cmds::Command;
use plans::{Effect, Plan};
use registry::Decision;

const _: () = prove!(size_of::<Frame>() <= 128);

const _: () = prove!(size_of::<Request>() <= 160);

const _: () = prove!(size_of::<Command>() <= 160);

const _: () = prove!(size_of::<Conf>() <= 128);

const _: () = prove!(size_of::<Decision>() <= 128);

const _: () = prove!(size_of::<Edit>() <= 240);

const _: () = prove!(size_of::<Effect>() <= 160);

const _: () = prove!(size_of::<Plan>() <= 192);
