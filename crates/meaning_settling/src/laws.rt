// What settling promises. The functions do nothing: they carry laws.
ghost use Rattle.std.specs.Prelude.{◌≡◌, ◌≢◌, ℕ, Bool, List, Option, Some, None};
ghost use Rattle.std.specs.FinMap as maps;
ghost use Rattle.meaning_settling.specs.Apart.{Apart, IsPart, IsReady};
ghost use Rattle.meaning_settling.specs.Settled.{AreApart, AreDistinct, IsIn, settled};
ghost use Rattle.meaning_settling.specs.Settling.{Kept, Moved, copy_after, file_after, held_after, settle_one};

/// What becomes of the file on a path, of the copy under a link number, and of the link that is held on a path, is one function
/// of what stood there and of the links that are given and taken there. Files are settled behind the copies.
pub fn settling_path_by_path()
    ensures files { (m : Moved) (k : Kept) (p : List ℕ) → maps.get (settle_one m k).files p ≡ file_after m (settle_one m k).copies p (maps.get k.files p) }
    ensures copies { (m : Moved) (k : Kept) (n : List ℕ) → maps.get (settle_one m k).copies n ≡ copy_after m k.files n (maps.get k.copies n) }
    ensures held { (m : Moved) (k : Kept) (p : List ℕ) → maps.get (settle_one m k).held p ≡ held_after m p (maps.get k.held p) }
{}

/// Some copies, perhaps the files, perhaps the held links, and then the whole, are the whole.
pub fn a_part_and_then_all_is_all()
    ensures { (m : Moved) (copies : List ℕ → Bool) (files held : Bool) (k later : Kept) → IsReady m k → IsPart copies files held m k later → settle_one m later ≡ settle_one m k }
{}

/// Settling a second time changes nothing, where each link with RECOVERY YES that is given has a copy or a file.
pub fn settling_again_changes_nothing()
    ensures { (m : Moved) (k : Kept) → IsReady m k → settle_one m (settle_one m k) ≡ settle_one m k }
{}

/// Two transactions that have no path and no link number in common may be settled in either order.
pub fn order_is_no_matter_where_they_are_apart()
    ensures { (a b : Moved) (k : Kept) → Apart a b → settle_one a (settle_one b k) ≡ settle_one b (settle_one a k) }
{}

/// All open ones come to the same where a part of one of them was settled before.
pub fn open_ones_after_a_part_of_one()
    ensures { (open_at : ℕ → Option Moved) (ts : List ℕ) (copies : List ℕ → Bool) (files held : Bool) (tx : ℕ) (m : Moved) (k later : Kept)
        → AreApart open_at ts → open_at tx ≡ Some m → IsIn tx ts → IsReady m k → IsPart copies files held m k later → settled open_at ts later ≡ settled open_at ts k }
{}

/// Any open one may be settled first, and is open no more then.
pub fn one_may_be_settled_first()
    ensures { (open_at others : ℕ → Option Moved) (ts : List ℕ) (tx : ℕ) (m : Moved) (k : Kept)
        → AreApart open_at ts → open_at tx ≡ Some m → ((t : ℕ) → t ≢ tx → open_at t ≡ others t) → others tx ≡ None → IsIn tx ts → AreDistinct ts
        → settled open_at ts k ≡ settled others ts (settle_one m k) }
{}
