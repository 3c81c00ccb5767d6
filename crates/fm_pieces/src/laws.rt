// Pieces of a Finish behind the steps of others. The functions do nothing: they carry laws.
ghost use Rattle.std.specs.Prelude.{◌≡◌, ◌≤◌, ℕ, false, Option, Some, None, length};
ghost use Rattle.std.specs.FinMap as maps;
ghost use Rattle.dl_base.specs.declared.step.Step as asked;
ghost use Rattle.fm_manager.specs.Pieces as finishing;
ghost use Rattle.fm_pieces.specs.Keeping.{AreThere, HasPieces, left_of};
ghost use Rattle.fs_files.specs.Batch.{puts};
ghost use Rattle.meaning_areas.specs.Lists.{Folds};
ghost use Rattle.meaning_history.specs.Sound.{AreSound};
ghost use Rattle.meaning_settling.specs.Settling as settling;
ghost use Rattle.meaning_system.specs.Claims.{prepare_refusal};
ghost use Rattle.meaning_system.specs.Machine.{step};
ghost use Rattle.meaning_system.specs.State.{State, Txn, is_active, is_decided, moved_of};

use fm_effects::a_batch_without_fill_puts_no_file;

/// THE PIECES OF A FINISH STAY WHAT THEY ARE while others take their steps: no command changes what a Finish writes on a file of a
/// prepared or decided transaction, no other transaction moves its links or holds its paths, and of its copies some may be stored.
pub fn pieces_stay_what_they_are()
    ensures { (first : ℕ) (f : Folds) (s : State) (x : asked.Step) (tx : ℕ) (t : Txn) (p : Option finishing.Pieces) → AreSound first f s → maps.get s.txs tx ≡ Some t → is_active t.phase ≡ false
        → maps.get (step s x).1.txs tx ≡ Some t → HasPieces s tx t p → HasPieces (step s x).1 tx t p }
{}

/// Pieces as they are made have no copy that is stored already; those of a transaction put no new file, and have at most one for
/// each link that it gives; and what is left of them has no more copies than they had. Where a transaction is voted for there is a
/// file on each of its paths.
pub fn pieces_as_they_are_made()
    ensures made { (m : settling.Moved) (k : settling.Kept) (p : finishing.Pieces) → finishing.AreOf p m k → finishing.AreOf (left_of k.copies p) m k }
    ensures puts { (t : Txn) (k : settling.Kept) (p : finishing.Pieces) → finishing.AreOf p (moved_of t) k → puts p.changes ≡ 0 }
    ensures few { (m : settling.Moved) (k : settling.Kept) (p : finishing.Pieces) → finishing.AreOf p m k → length p.copies ≤ length m.gives }
    ensures fewer { (copies : settling.Copies) (p : finishing.Pieces) → length (left_of copies p).copies ≤ length p.copies }
    ensures there { (first : ℕ) (f : Folds) (s : State) (tx : ℕ) (t : Txn) → AreSound first f s → maps.get s.txs tx ≡ Some t → is_decided t.phase ≡ false → prepare_refusal s t ≡ None → AreThere s.files (moved_of t) }
{
    a_batch_without_fill_puts_no_file();
}
