// Instants a distance apart.
ghost use Rattle.std.specs.Prelude.{◌≡◌, nat_le};
ghost use Rattle.distance.specs.Distance.{free};

// Whether an instant lies at least a distance after a permit, if there was one.
pub fn is_after(permit: Option<u32>, distance: u32, at: u32) -> bool
    ensures { result ≡ nat_le (free permit distance) at }
{
    permit.is_none_or(|permit| u64::from(permit) + u64::from(distance) <= u64::from(at))
}
