//! How many bytes events and outputs take at most. Each is moved from call to call, and a call clears
//! its locals as it begins, so what is wide and rare is in a box.

use crate::event::{Event, What};
use crate::out::{Out, Said};

const _: () = prove!(size_of::<Event>() <= 160);

const _: () = prove!(size_of::<What>() <= 128);

const _: () = prove!(size_of::<Said>() <= 144);

const _: () = prove!(size_of::<Out>() <= 176);
