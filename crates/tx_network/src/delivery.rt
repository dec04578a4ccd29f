//! What becomes of the requests that are sent, with a name of its own to hold them under.
ghost use Rattle.std.specs.Prelude.{◌≡◌, IfNone, IfSome, string_bytes};
ghost use Rattle.tx_steps.specs.Steps.{delivered, delivery_named};
ghost use Rattle.tx_network.specs.Networks.{IsHold};

use std::alloc::Global;
use tx_steps::Delivery;

/// The delivery with a name of its own; none where memory for that is refused.
pub(crate) fn own_delivery(alloc: Global, delivery: Delivery<&str>) -> Option<Delivery<String>>
    ensures some { IfSome result (λ own. delivery_named string_bytes own ≡ delivered delivery.entry) }
    ensures none { IfNone result (IsHold (delivered delivery.entry)) }
{
    match delivery {
        Delivery::Taken => Some(Delivery::Taken),
        Delivery::Lost => Some(Delivery::Lost),
        Delivery::Unanswered => Some(Delivery::Unanswered),
        Delivery::Repeated => Some(Delivery::Repeated),
        Delivery::Held(name) => match String::from_str(alloc, name) {
            Ok(name) => Some(Delivery::Held(name)),
            Err(_) => None,
        },
    }
}
