//! What a station may send in its state.
ghost use Rattle.std.specs.Prelude.{◌≡◌};
ghost use Rattle.registry.specs.Allowed.{is_allowed};

use ocpp_payload::Action;
use ocpp_types::State;

/// Whether a station in that state may call the action (OCPP 1.6, section 4.2; docs/RULES.md, Order
/// of checks): before a boot, and after one that was rejected, a boot alone; while its registration
/// is pending, all but Authorize and StartTransaction. It takes no memory.
pub fn is_allowed(state: State, action: Action) -> bool
    ensures { result ≡ is_allowed state action }
{
    match state {
        State::Fresh | State::Rejected => matches!(action, Action::BootNotification),
        State::Pending => !matches!(action, Action::Authorize | Action::StartTransaction),
        State::Accepted => true,
    }
}
