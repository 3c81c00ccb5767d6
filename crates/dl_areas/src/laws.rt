// Laws of calls that write records into five areas. The functions do nothing: they carry laws. A law on what stands outside speaks of
// benches, each as it is seen.
ghost use Rattle.std.specs.Prelude.{◌≡◌, ℕ, ◌+◌, ◌-◌, ◌<◌, ◌≤◌, ◌^◌, ◌↔◌, min, List, [], ◌∷◌, ◌++◌, length, Option, Some, None, Result, Err, OnOk, OnErr, IfErr};
ghost use Rattle.std.specs.Option.{option_map};
ghost use Rattle.std.specs.Result.{result_err};
ghost use Rattle.dl_base.specs.Areas.{area_number};
ghost use Rattle.dl_base.specs.Faults.{step_fault};
ghost use Rattle.dl_base.specs.Outside.{CrashState, Now, ChangesOnly, Says, AtEveryMoment, FaultCounted};
ghost use Rattle.dl_base.specs.declared.area.Area.{Area};
ghost use Rattle.dl_base.specs.declared.area.Area.TheVariants as areas;
ghost use Rattle.dl_base.specs.declared.fault.AppendFault.{AppendFault};
ghost use Rattle.dl_base.specs.declared.fault.AppendFault.TheVariants as appends;
ghost use Rattle.dl_base.specs.declared.fault.Full.{Full};
ghost use Rattle.dl_base.specs.declared.fault.Full.TheVariants as fulls;
ghost use Rattle.dl_base.specs.declared.fault.StepFault.{StepFault};
ghost use Rattle.dl_base.specs.declared.fault.StepFault.TheVariants as steps;
ghost use Rattle.dl_journal.specs.Extent.{Extent};
ghost use Rattle.dl_journal.specs.Open.{AddsOne, IsOpen, Keeps, grown};
ghost use Rattle.dl_journal.specs.Records.{records};
ghost use Rattle.dl_areas.specs.Lists.{AreKept, AreReady, Journals, Lists, Write, all_grown, by_area, puts, with_journal, write_of};
ghost use Rattle.dl_areas.specs.Opening.{AreOpened, AreRead, IsBegun, IsInBegin, IsInOpening, IsOpened, Opens, OpensOne, journals_with};
ghost use Rattle.dl_areas.specs.Writing.{Does, DoesAlone, Doing, Ends, EndsAlone, LeavesPrefix, IsTelling, fitting, full_in};

use dl_base::Bench;

/// Some records and then others are all of them, for the lists, for the journals, for what is full, and for those that fit.
pub fn records_in_parts()
    ensures puts { (ws vs : List Write) (lists : Lists) → puts (ws ++ vs) lists ≡ puts vs (puts ws lists) }
    ensures grown { (ws vs : List Write) (js : Journals) → all_grown (ws ++ vs) js ≡ all_grown vs (all_grown ws js) }
    ensures full { (ws vs : List Write) (js : Journals) → full_in js ws ≡ None → full_in js (ws ++ vs) ≡ full_in (all_grown ws js) vs }
    ensures fitting { (ws vs : List Write) (js : Journals) → full_in js ws ≡ None → fitting js (ws ++ vs) ≡ ws ++ fitting (all_grown ws js) vs }
    ensures full_before { (ws vs : List Write) (js : Journals) (f : Full) → full_in js ws ≡ Some f → full_in js (ws ++ vs) ≡ Some f }
    ensures fitting_before { (ws vs : List Write) (js : Journals) (f : Full) → full_in js ws ≡ Some f → fitting js (ws ++ vs) ≡ fitting js ws }
    ensures all_fit { (ws : List Write) (js : Journals) → full_in js ws ≡ None → fitting js ws ≡ ws }
{}

/// A journal in its place among five is the five with it in that place.
pub fn journals_in_their_places()
    ensures rows { (k r l f a b : Extent) → k.area ≡ areas.Rows → with_journal k (by_area r l f a b) ≡ by_area k l f a b }
    ensures links { (k r l f a b : Extent) → k.area ≡ areas.Links → with_journal k (by_area r l f a b) ≡ by_area r k f a b }
    ensures files { (k r l f a b : Extent) → k.area ≡ areas.Files → with_journal k (by_area r l f a b) ≡ by_area r l k a b }
    ensures archive { (k r l f a b : Extent) → k.area ≡ areas.Archive → with_journal k (by_area r l f a b) ≡ by_area r l f k b }
    ensures backups { (k r l f a b : Extent) → k.area ≡ areas.Backups → with_journal k (by_area r l f a b) ≡ by_area r l f a k }
{}

/// A call that writes nothing writes no records. One behind another writes the records of both, in their order; where the first of them
/// meets a fault, so do both.
pub fn calls_follow_one_another<B: Bench>()
    ensures none { (js : Journals) (o : B) → Does js js [] None (B.outside o) (B.outside o) }
    ensures then { (js ks ls : Journals) (ws vs : List Write) (fault : Option AppendFault) (o m n : B) → Does js ks ws None (B.outside o) (B.outside m) → Does ks ls vs fault (B.outside m) (B.outside n)
        → Does js ls (ws ++ vs) fault (B.outside o) (B.outside n) }
    ensures stop { (js ks : Journals) (ws vs : List Write) (fault : AppendFault) (o n : B) → Does js ks ws (Some fault) (B.outside o) (B.outside n) → Does js ks (ws ++ vs) (Some fault) (B.outside o) (B.outside n) }
    ensures same { (js ks : Journals) (ws vs : List Write) (f e : Option AppendFault) (o n : B) → ws ≡ vs → f ≡ e → Does js ks ws f (B.outside o) (B.outside n) → Does js ks vs e (B.outside o) (B.outside n) }
{}

/// A loop that writes records: before its first turn all are left; a turn writes the first of those that are left; the last turn
/// writes none, or meets a fault.
pub fn a_loop_writes_its_records<B: Bench>()
    ensures first { (js : Journals) (all : List Write) (o : B) → Doing js js all all (B.outside o) (B.outside o) }
    ensures more { (js ks ls : Journals) (all left ws later : List Write) (o m n : B) → Doing js ks all left (B.outside o) (B.outside m) → left ≡ ws ++ later → Does ks ls ws None (B.outside m) (B.outside n)
        → Doing js ls all later (B.outside o) (B.outside n) }
    ensures end { (js ks ls : Journals) (all left : List Write) (o m n : B) → Doing js ks all left (B.outside o) (B.outside m) → left ≡ [] → Does ks ls [] None (B.outside m) (B.outside n)
        → Does js ls all None (B.outside o) (B.outside n) }
    ensures fault { (js ks ls : Journals) (all left ws later : List Write) (fault : AppendFault) (o m n : B) → Doing js ks all left (B.outside o) (B.outside m) → left ≡ ws ++ later
        → Does ks ls ws (Some fault) (B.outside m) (B.outside n) → Does js ls all (Some fault) (B.outside o) (B.outside n) }
{}

/// One append writes one record, whichever area it is: the premises are the clauses of `Journal::append`. Where a number in a record
/// is exhausted, a call that does nothing is full at that record. On one journal, calls follow one another as on five.
pub fn an_append_writes_one_record<B: Bench>()
    ensures one { (j k : Extent) (body : List ℕ) (result : Result Unit AppendFault) (o n : B)
        → OnOk result ((bodies : List (List ℕ)) → Keeps j bodies (B.outside o) → Keeps k (bodies ++ body ∷ []) (B.outside n))
        → ChangesOnly j.area (AddsOne j body (B.outside o)) (B.outside o) (B.outside n)
        → OnOk result (IsOpen k (B.outside n))
        → OnOk result (k ≡ grown j (length body))
        → OnErr result (k ≡ j)
        → ((j.limit < j.length + 9 + length body) ↔ (result ≡ Err (appends.Full (fulls.Area j.area (min (j.length + 9 + length body) (2 ^ 64 - 1))))))
        → (j.length + 9 + length body ≤ j.limit → IfErr result (λ fault. fault ≡ appends.Device))
        → (j.limit < j.length + 9 + length body → n ≡ o)
        → (result ≡ Err appends.Device → FaultCounted (B.outside o) (B.outside n))
        → OnOk result ((B.outside n).faults ≡ (B.outside o).faults)
        → DoesAlone j k (write_of j.area body None ∷ []) (result_err result) (B.outside o) (B.outside n) }
    ensures exhausted { (j : Extent) (w : Write) (f : Full) (o : B) → w.exhausted ≡ Some f → DoesAlone j j (w ∷ []) (Some (appends.Full f)) (B.outside o) (B.outside o) }
    ensures none { (j : Extent) (o : B) → DoesAlone j j [] None (B.outside o) (B.outside o) }
    ensures then { (j k l : Extent) (ws vs : List Write) (fault : Option AppendFault) (o m n : B) → DoesAlone j k ws None (B.outside o) (B.outside m) → DoesAlone k l vs fault (B.outside m) (B.outside n)
        → DoesAlone j l (ws ++ vs) fault (B.outside o) (B.outside n) }
    ensures stop { (j k : Extent) (ws vs : List Write) (fault : AppendFault) (o n : B) → DoesAlone j k ws (Some fault) (B.outside o) (B.outside n) → DoesAlone j k (ws ++ vs) (Some fault) (B.outside o) (B.outside n) }
{}

/// How a step ends: as its records were written, or for want of memory, before the first of them. Whatever the end, at each moment a
/// prefix of its records is there and nothing is told.
pub fn steps_end_so<B: Bench>()
    ensures written { (js ks : Journals) (ws : List Write) (fault : Option AppendFault) (o n : B) → Does js ks ws fault (B.outside o) (B.outside n) → Ends js ks ws (option_map step_fault fault) (B.outside o) (B.outside n) }
    ensures memory { (js : Journals) (ws : List Write) (o : B) → Ends js js ws (Some steps.Memory) (B.outside o) (B.outside o) }
    ensures images { (js ks : Journals) (ws : List Write) (fault : Option StepFault) (o n : B) → Ends js ks ws fault (B.outside o) (B.outside n)
        → (lists : Lists) → AreKept js lists (B.outside o) → AtEveryMoment (LeavesPrefix lists ws (B.outside o)) (B.outside o) (B.outside n) }
    ensures told { (js ks : Journals) (ws : List Write) (fault : Option StepFault) (o n : B) → Ends js ks ws fault (B.outside o) (B.outside n) → (B.outside n).told ≡ (B.outside o).told }
    ensures alone { (j k : Extent) (ws : List Write) (fault : Option AppendFault) (o n : B) → DoesAlone j k ws fault (B.outside o) (B.outside n) → EndsAlone j k ws (option_map step_fault fault) (B.outside o) (B.outside n) }
    ensures alone_memory { (j : Extent) (ws : List Write) (o : B) → EndsAlone j j ws (Some steps.Memory) (B.outside o) (B.outside o) }
{}

/// Whatever a crash leaves since the begin of a call that writes, or behind its end, are the lists with a prefix of its records: also
/// where the device failed.
pub fn a_crash_finds_a_prefix<B: Bench>()
    ensures since { (js : Journals) (lists : Lists) (ws : List Write) (o n : B) → AreReady js (B.outside o) → AreKept js lists (B.outside o) → AtEveryMoment (LeavesPrefix lists ws (B.outside o)) (B.outside o) (B.outside n)
        → (p : CrashState) → (B.outside n).since (B.outside o).moment p → LeavesPrefix lists ws (B.outside o) p }
    ensures now { (js : Journals) (lists : Lists) (ws : List Write) (o n : B) → AreReady js (B.outside o) → AreKept js lists (B.outside o) → AtEveryMoment (LeavesPrefix lists ws (B.outside o)) (B.outside o) (B.outside n)
        → (p : CrashState) → Now (B.outside n) p → LeavesPrefix lists ws (B.outside o) p }
{}

/// Telling leaves journals and lists as they are: at each moment of it each area has its list, and a front of the bytes is told.
pub fn telling_leaves_the_areas<B: Bench>()
    ensures ready { (js : Journals) (bytes : List ℕ) (o n : B) → Says bytes (B.outside o) (B.outside n) → AreReady js (B.outside o) → AreReady js (B.outside n) }
    ensures kept { (js : Journals) (bytes : List ℕ) (o n : B) → Says bytes (B.outside o) (B.outside n) → (lists : Lists) → AreKept js lists (B.outside o) → AreKept js lists (B.outside n) }
    ensures images { (js : Journals) (bytes : List ℕ) (o n : B) → Says bytes (B.outside o) (B.outside n) → (lists : Lists) → AreReady js (B.outside o) → AreKept js lists (B.outside o)
        → AtEveryMoment (IsTelling lists bytes (B.outside o)) (B.outside o) (B.outside n) }
{}

/// Areas are opened in the order of their numbers. At each moment before a record is written each area has an image of the begin, or
/// one with the list that it read.
pub fn areas_are_opened_in_order<B: Bench>()
    ensures none { (o : B) → Opens 0 (B.outside o) (B.outside o) }
    ensures more { (k : ℕ) (a : Area) (o m n : B) → k ≤ area_number a → Opens k (B.outside o) (B.outside m) → OpensOne a (B.outside m) (B.outside n) → Opens (area_number a + 1) (B.outside o) (B.outside n) }
    ensures at_most { (k l : ℕ) (o n : B) → k ≤ l → Opens k (B.outside o) (B.outside n) → Opens l (B.outside o) (B.outside n) }
    ensures one { (o m1 : B) → OpensOne areas.Rows (B.outside o) (B.outside m1) → Opens 1 (B.outside o) (B.outside m1) }
    ensures two { (o m1 m2 : B) → OpensOne areas.Rows (B.outside o) (B.outside m1) → OpensOne areas.Links (B.outside m1) (B.outside m2) → Opens 2 (B.outside o) (B.outside m2) }
    ensures three { (o m1 m2 m3 : B) → OpensOne areas.Rows (B.outside o) (B.outside m1) → OpensOne areas.Links (B.outside m1) (B.outside m2) → OpensOne areas.Files (B.outside m2) (B.outside m3)
        → Opens 3 (B.outside o) (B.outside m3) }
    ensures four { (o m1 m2 m3 m4 : B) → OpensOne areas.Rows (B.outside o) (B.outside m1) → OpensOne areas.Links (B.outside m1) (B.outside m2) → OpensOne areas.Files (B.outside m2) (B.outside m3)
        → OpensOne areas.Archive (B.outside m3) (B.outside m4) → Opens 4 (B.outside o) (B.outside m4) }
    ensures five { (o m1 m2 m3 m4 m5 : B) → OpensOne areas.Rows (B.outside o) (B.outside m1) → OpensOne areas.Links (B.outside m1) (B.outside m2) → OpensOne areas.Files (B.outside m2) (B.outside m3)
        → OpensOne areas.Archive (B.outside m3) (B.outside m4) → OpensOne areas.Backups (B.outside m4) (B.outside m5) → Opens 5 (B.outside o) (B.outside m5) }
{}

/// At a moment of an opening before its records, the areas have the lists of some images of the begin.
pub fn an_opening_finds_the_lists_of_its_begin<B: Bench>()
    ensures { (o : B) (p : CrashState) → IsInOpening (B.outside o) p → (q : Area → List ℕ) × ((a : Area) → (B.outside o).image a (q a)) × ((a : Area) → records (q a) ≡ records (p.areas a)) }
{}

/// An area that is open stays so while others are opened. Once all five are, their journals are ready, and what a crash leaves are
/// their lists; and these are the lists that the areas read at the begin, where that is told.
pub fn open_areas_have_their_lists<B: Bench>()
    ensures none { (limit : ℕ) (js : Journals) (lists : Lists) (o : B) → AreOpened 0 limit js lists (B.outside o) (B.outside o) }
    ensures more { (a : Area) (limit : ℕ) (js : Journals) (lists : Lists) (o m n : B) → AreOpened (area_number a) limit js lists (B.outside o) (B.outside m) → OpensOne a (B.outside m) (B.outside n)
        → IsOpened a limit (js a) (lists a) (B.outside m) (B.outside n) → AreOpened (area_number a + 1) limit js lists (B.outside o) (B.outside n) }
    ensures five { (limit : ℕ) (js : Journals) (lists : Lists) (o m1 m2 m3 m4 m5 : B) → OpensOne areas.Rows (B.outside o) (B.outside m1) → IsOpened areas.Rows limit (js areas.Rows) (lists areas.Rows) (B.outside o) (B.outside m1)
        → OpensOne areas.Links (B.outside m1) (B.outside m2) → IsOpened areas.Links limit (js areas.Links) (lists areas.Links) (B.outside m1) (B.outside m2)
        → OpensOne areas.Files (B.outside m2) (B.outside m3) → IsOpened areas.Files limit (js areas.Files) (lists areas.Files) (B.outside m2) (B.outside m3)
        → OpensOne areas.Archive (B.outside m3) (B.outside m4) → IsOpened areas.Archive limit (js areas.Archive) (lists areas.Archive) (B.outside m3) (B.outside m4)
        → OpensOne areas.Backups (B.outside m4) (B.outside m5) → IsOpened areas.Backups limit (js areas.Backups) (lists areas.Backups) (B.outside m4) (B.outside m5)
        → AreOpened 5 limit js lists (B.outside o) (B.outside m5) }
    ensures ready { (limit : ℕ) (js : Journals) (lists : Lists) (o n : B) → AreOpened 5 limit js lists (B.outside o) (B.outside n) → AreReady js (B.outside n) }
    ensures kept { (limit : ℕ) (js : Journals) (lists : Lists) (o n : B) → AreOpened 5 limit js lists (B.outside o) (B.outside n) → AreKept js lists (B.outside n) }
    ensures journals { (limit : ℕ) (js : Journals) (lists : Lists) (o n : B) → AreOpened 5 limit js lists (B.outside o) (B.outside n) → js ≡ journals_with limit lists }
    ensures lists { (limit : ℕ) (js : Journals) (lists read : Lists) (o n : B) → AreOpened 5 limit js lists (B.outside o) (B.outside n) → AreRead read (B.outside o) → lists ≡ read }
{}

/// An opening of all five areas that then writes records: what is there at each moment of it, at its end, and where it is full.
pub fn an_opening_writes_its_records<B: Bench>()
    ensures images { (limit : ℕ) (js ks : Journals) (lists read : Lists) (ws : List Write) (fault : Option AppendFault) (o m n : B) → AreOpened 5 limit js lists (B.outside o) (B.outside m)
        → Does js ks ws fault (B.outside m) (B.outside n) → AreRead read (B.outside o) → AtEveryMoment (IsInBegin limit read ws (B.outside o)) (B.outside o) (B.outside n) }
    ensures begun { (limit : ℕ) (js ks : Journals) (lists : Lists) (ws : List Write) (o m n : B) → AreOpened 5 limit js lists (B.outside o) (B.outside m)
        → Does js ks ws None (B.outside m) (B.outside n) → IsBegun limit ks ws (B.outside o) (B.outside n) }
    ensures full { (limit : ℕ) (js ks : Journals) (lists read : Lists) (ws : List Write) (f : Full) (o m n : B) → AreOpened 5 limit js lists (B.outside o) (B.outside m)
        → Does js ks ws (Some (appends.Full f)) (B.outside m) (B.outside n) → AreRead read (B.outside o) → full_in (journals_with limit read) ws ≡ Some f }
{}
