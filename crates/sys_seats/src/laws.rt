// How much room seats want. The function does nothing: it carries laws.
ghost use Rattle.std.specs.Prelude.{◌≡◌, ◌+◌, ℕ};
ghost use Rattle.std.specs.FinMap as maps;
ghost use Rattle.sys_seats.specs.Seats.{Seated, all_of, count_at};
ghost use Rattle.sys_seats.specs.declared.seat.Seat as kept;

/// What seats count together: none counts nothing; a seat that goes takes its count with it, and one that comes in the place of
/// another, or of none, counts in place of that.
pub fn seats_count_together()
    ensures none { (count : kept.Seat → ℕ) → all_of count maps.empty ≡ 0 }
    ensures taken { (count : kept.Seat → ℕ) (seats : Seated) (tx : ℕ) → all_of count (maps.remove seats tx) + count_at count (maps.get seats tx) ≡ all_of count seats }
    ensures put { (count : kept.Seat → ℕ) (seats : Seated) (tx : ℕ) (seat : kept.Seat) → all_of count (maps.insert seats tx seat) + count_at count (maps.get seats tx) ≡ all_of count seats + count seat }
{}
