//! Laws of private runs and of histories. Each law is the contract of a function that does nothing.
ghost use Rattle.std.specs.Prelude.{◌≡◌, ◌≢◌, ◌↔◌, ℕ, Bool, true, List, ◌++◌, Option, Some, None, map};
ghost use Rattle.std.specs.Prelude.{nat_eq};
ghost use Rattle.std.specs.FinSet.{contains};
ghost use Rattle.std.specs.List.{list_any};
ghost use Rattle.tx_control.specs.declared.causes.Why.{Why};
ghost use Rattle.tx_journal.specs.declared.entries.Entry.{Entry};
ghost use Rattle.tx_serial.specs.Alike.{track_of, touched_addresses, AreAlike};
ghost use Rattle.tx_serial.specs.Apply.{apply};
ghost use Rattle.tx_serial.specs.Attempt.{Run, footprint};
ghost use Rattle.tx_serial.specs.Fate.{Goes, Passes, fate};
ghost use Rattle.z_instr.specs.declared.instr.Instr.{Instr};
ghost use Rattle.tx_serial.specs.Changes.{cpu_of_entry, ChangesOnly, ChangeAlike};
ghost use Rattle.tx_serial.specs.Ending.{ending, fits, is_same_cause};
ghost use Rattle.tx_serial.specs.Flat.{FlatState, Storage, bytes_of, laid_over, operand_bytes};
ghost use Rattle.tx_serial.specs.Flat.{operand_stores};
ghost use Rattle.tx_serial.specs.History.{replay_from, replay, start_of};
ghost use Rattle.tx_serial.specs.Stored.{has_store_in};
ghost use Rattle.tx_serial.specs.Text.{SameText, IsKept};
ghost use Rattle.tx_footprint.specs.Sizes.{line_size, block_size};
ghost use Rattle.tx_journal.specs.Content.{Content};
ghost use Rattle.tx_journal.specs.Image.{IsImage};
ghost use Rattle.tx_serial.specs.Remains.{remains};
ghost use Rattle.tx_serial.specs.Run.{run};
ghost use Rattle.store_cache.specs.Overlay.{Store};
ghost use Rattle.z_effect.specs.After.{AreInside, touched, with_stored};
ghost use Rattle.z_regs.specs.Prefix.{is_prefix};
ghost use Rattle.z_regs.specs.Seen.{seen_by};
ghost use Rattle.z_regs.specs.declared.ranges.Range.{Range};
ghost use Rattle.z_touch.specs.Refusals.{span_of};

/// The next instruction of a run goes, with its operands, exactly where its bytes can be fetched and read as
/// it, and no other test refuses it.
pub fn an_instruction_goes_where_no_test_refuses_it()
    ensures { (text : List ℕ) (p : Run) (i : Instr) (ranges : List Range)
        → (fate text p ≡ Goes i ranges) ↔ Passes text p i ranges }
{}

/// A private run depends on the bytes that it touches alone. Take two flat states that agree on these
/// bytes, on that CPU, on the text pages and on the bytes there. The runs of as many instructions show the
/// same in all but their copies of storage; where there is no such run on the one, there is none on the other,
/// since no instruction with operands in storage divides or aborts. The attempt ends alike in both, by itself
/// and by any cause. What remains of it changes both states alike.
pub fn a_run_depends_on_what_it_touches()
    ensures run { (f g : FlatState) (i k : ℕ) → AreAlike i (touched_addresses (run f i k)) f g
        → track_of (run g i k) ≡ track_of (run f i k) }
    ensures ending { (f g : FlatState) (i k : ℕ) → AreAlike i (touched_addresses (run f i k)) f g
        → ending g.text (run g i k) ≡ ending f.text (run f i k) }
    ensures causes { (f g : FlatState) (i k : ℕ) (why : Why) → AreAlike i (touched_addresses (run f i k)) f g
        → fits g.text (run g i k) why ≡ fits f.text (run f i k) why }
    ensures remains { (f g : FlatState) (i k : ℕ) (why : Why) → AreAlike i (touched_addresses (run f i k)) f g
        → ChangeAlike i f g (remains f i (run f i k) why) (remains g i (run g i k) why) }
{}

/// The copy of a run is storage with the stores of the run laid over it in order, and the stores of NTSTG
/// are among these.
pub fn a_copy_is_made_by_stores()
    ensures copy { (f : FlatState) (i k : ℕ) → (run f i k).copy ≡ laid_over f.storage (run f i k).stores }
    ensures lasting { (f : FlatState) (i k : ℕ) (test : Store → Bool)
        → list_any test (run f i k).lasting ≡ true → list_any test (run f i k).stores ≡ true }
{}

/// The bytes of operands are those of the list of storage that the CPU sees by its real addresses, as the
/// instructions have it; and what is stored there is seen there.
pub fn operands_are_seen()
    ensures bytes { (prefix : Option ℕ) (storage : Storage) (ranges : List Range) → is_prefix prefix ≡ true
        → AreInside (map span_of ranges) (seen_by prefix (bytes_of storage))
        → operand_bytes prefix storage ranges
        ≡ touched (map span_of ranges) (seen_by prefix (bytes_of storage)) }
    ensures stores { (prefix : Option ℕ) (storage : Storage) (ranges : List Range) (bytes : List ℕ)
        → is_prefix prefix ≡ true
        → AreInside (map span_of ranges) (seen_by prefix (bytes_of storage))
        → seen_by prefix (bytes_of (laid_over storage (operand_stores prefix ranges bytes)))
        ≡ with_stored (map span_of ranges) bytes (seen_by prefix (bytes_of storage)) }
{}

/// No instruction of a run changes the prefix of its CPU.
pub fn a_run_keeps_the_prefix()
    ensures { (f : FlatState) (i k : ℕ) → (run f i k).cpu.prefix ≡ (f.cpus i).prefix }
{}

/// An entry changes its own CPU alone, and no list of text pages.
pub fn an_entry_changes_its_cpu_alone()
    ensures { (f after : FlatState) (e : Entry) → apply f e ≡ Some after
        → ChangesOnly (cpu_of_entry e) f after }
{}

/// Entries that are applied in two parts leave what all of them together do; and behind an entry that does
/// not fit, no other fits.
pub fn histories_go_on()
    ensures parts { (first rest : List Entry) (state : Option FlatState)
        → replay_from (first ++ rest) state ≡ replay_from rest (replay_from first state) }
    ensures none { (rest : List Entry) → replay_from rest None ≡ None }
{}

/// Causes are told apart exactly.
pub fn causes_are_told_apart()
    ensures { (a b : Why) → (is_same_cause a b ≡ true) ↔ (a ≡ b) }
{}

/// No byte of a text page ever changes, so an instruction's bytes are those of the image: not in the copy of
/// a run, and not by an entry. For entries this rests on what holds of a state: it does at the start of every
/// image, and every entry keeps it.
pub fn text_never_changes()
    ensures copy { (f : FlatState) (i k : ℕ) → is_prefix (f.cpus i).prefix ≡ true
        → SameText f.text f.storage (run f i k).copy }
    ensures start { (image : Content) → IsImage image → IsKept (start_of image) }
    ensures kept { (f after : FlatState) (e : Entry) → IsKept f → apply f e ≡ Some after → IsKept after }
    ensures entry { (f after : FlatState) (e : Entry) → IsKept f → apply f e ≡ Some after
        → SameText f.text f.storage after.storage }
    ensures pages { (image : Content) (history : List Entry) (after : FlatState) → IsImage image
        → replay image history ≡ Some after → after.text ≡ (start_of image).text }
    ensures history { (image : Content) (history : List Entry) (after : FlatState) → IsImage image
        → replay image history ≡ Some after
        → SameText (start_of image).text (start_of image).storage after.storage }
    ensures replayed { (image : Content) (history : List Entry) (after : FlatState) → IsImage image
        → replay image history ≡ Some after → IsKept after }
{}

/// The lines and the blocks that a run has stored into are those of the absolute addresses of its stores; and
/// the lines of the stores of NTSTG are among them.
pub fn stored_places_are_those_of_stores()
    ensures lines { (f : FlatState) (i k line : ℕ) → is_prefix (f.cpus i).prefix ≡ true
        → (footprint (run f i k)).stored line ≡ has_store_in line_size (run f i k).stores line }
    ensures blocks { (f : FlatState) (i k block : ℕ) → is_prefix (f.cpus i).prefix ≡ true
        → (footprint (run f i k)).blocks block ≡ has_store_in block_size (run f i k).stores block }
    ensures lasting { (f : FlatState) (i k line : ℕ) → is_prefix (f.cpus i).prefix ≡ true
        → has_store_in line_size (run f i k).lasting line ≡ true
        → (footprint (run f i k)).stored line ≡ true }
{}

/// The text pages with which an image starts are those of its guard, as a set.
pub fn text_pages_are_guarded()
    ensures { (image : Content) (page : ℕ)
        → list_any (nat_eq page) (start_of image).text ≡ contains image.guard page }
{}
