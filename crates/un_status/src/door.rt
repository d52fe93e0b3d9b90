//! The status of a server after its door has ended.
ghost use Rattle.std.specs.Prelude.{◌≡◌, [], ◌∷◌, Contains};
ghost use Rattle.un_status.specs.Statuses.{door_status};

use un_gate::DoorEnd;

/// The status after the door has ended. Without an end no worker had asked the door.
#[tactic(auto, using(crate::proofs::Statuses::door_statuses))]
pub fn door_status(end: Option<DoorEnd>) -> u8
    ensures status { result ≡ door_status end }
    ensures statuses { Contains (0 ∷ 5 ∷ 7 ∷ []) result }
{
    match end {
        Some(DoorEnd::Closed) => 0,
        Some(DoorEnd::Failed) => 5,
        None => 7,
    }
}
