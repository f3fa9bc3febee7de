//! What the definitions of edits mean. Each law is the contract of a function that does nothing.
//!
//! The laws of the kinds say what is shown after the operation of an edit is applied. It is applied to the state from which the edit
//! was made, at a stamp that knows of all that is in there. An edit that another member makes meanwhile may still change what comes
//! of it, as the table of its kind says: these laws speak of the moment after the edit.
ghost use Rattle.std.specs.Prelude.{◌≡◌, ◌≢◌, ◌^◌, ◌<◌, ◌≤◌, ◌⊎◌, ◌↔◌, ◌∷◌, ◌++◌, [], ℕ, ℤ, pos, ◌+ℤ◌, ◌*ℤ◌, FitsSigned, List, Option, Some, Ok, true, false, length, codes, slice_get, IsTrue, IsFalse, IfOk, IfSome, IsOkAnd};
ghost use Rattle.std.specs.Fmt.{decimal, signed_decimal};
ghost use Rattle.std.specs.Int.{w64};
ghost use Rattle.std.specs.List.{All, AllPairs};
ghost use Rattle.serde_json.specs.Data.{boolean, no_items, item, array, number, string};
ghost use Rattle.serde_json.specs.Find.{get, of_integer};
ghost use Rattle.vector_clock.specs.declared.clock.Clock.{Clock};
ghost use Rattle.vector_clock.specs.declared.stamp.Stamp.{Stamp};
ghost use Rattle.vector_clock.specs.Stamp.{IsAfter, is_less, key_of};
ghost use Rattle.crdt_laws.specs.Present.{apply_all};
ghost use Rattle.crdt_laws.specs.declared.small.Entry.{Entry};
ghost use Rattle.action_tables.specs.Table.{ActionTable, next_of, table_meaning};
ghost use Rattle.flag_crdts.specs.Flags.{off_table, on_table};
ghost use Rattle.flag_crdts.specs.Ladder.{ladder_meaning};
ghost use Rattle.map_crdt.specs.Keyed.{keyed_meaning, max_key, state_at};
ghost use Rattle.map_crdt.specs.declared.keyed.KeyOp.{KeyOp};
ghost use Rattle.map_crdt.specs.declared.keyed.KeyState.{KeyState};
ghost use Rattle.register_crdts.specs.Latest.{latest_meaning};
ghost use Rattle.register_crdts.specs.Several.{several_meaning};
ghost use Rattle.register_crdts.specs.Text.{max_text};
ghost use Rattle.register_crdts.specs.declared.latest.Set.{Set};
ghost use Rattle.register_crdts.specs.declared.several.Held.{Held};
ghost use Rattle.number_crdts.specs.Number.{NumberOp, modulus_of, number_meaning, shown_mod};
ghost use Rattle.kind_edits.specs.Accepted.{IsNumberEdit};
ghost use Rattle.kind_edits.specs.FlagEdit.{off_flag_edit, on_flag_edit};
ghost use Rattle.kind_edits.specs.KeyEdit.{entry_edit, tally_edit};
ghost use Rattle.kind_edits.specs.NameEdit.{choice_edit, table_edit};
ghost use Rattle.kind_edits.specs.NumberEdit.{number_edit};
ghost use Rattle.kind_edits.specs.Shown.{flag_shown, name_shown};
ghost use Rattle.kind_edits.specs.Spelled.{count_of, residue, signed_of};
ghost use Rattle.kind_edits.specs.TextEdit.{register_edit};
ghost use Rattle.kind_edits.specs.Words.{IsWord, first_word, only_word};

/// A text is cut into a first word and what follows exactly where it is that word alone, or that word, one space and what follows.
/// It is one word exactly where it has a byte and no space.
pub fn words_of_edits()
    ensures first { (text word after : List ℕ) → (first_word text ≡ Some (word, after))
        ↔ (IsWord word × ((text ≡ word ++ 32 ∷ after) ⊎ ((text ≡ word) × (after ≡ [])))) }
    ensures only { (text word : List ℕ) → (only_word text ≡ Some word) ↔ (IsWord word × (text ≡ word)) }
{}

/// Each number is read from its one spelling, in which it is printed, and from no other text.
pub fn spelled_numbers()
    ensures count { (text : List ℕ) (n : ℕ) → (count_of text ≡ Some n) ↔ ((n < 2 ^ 32) × (text ≡ decimal n)) }
    ensures signed { (text : List ℕ) (z : ℤ) → (signed_of text ≡ Some z) ↔ (FitsSigned w64 z × (text ≡ signed_decimal z)) }
{}

/// The residue of a signed number is below the modulus. A number below the modulus is its own, and the modulus may be added to any
/// number without a change of its residue. Sums and products may be taken of residues. By 2^64, the residue of a signed number of
/// 64 bits is shown as that number: so a number that shows y shows the sum of y and z after `add z`, where that has 64 bits.
pub fn residues_of_numbers()
    ensures below { (m : ℕ) (z : ℤ) → residue m z < modulus_of m }
    ensures own { (m n : ℕ) → n < modulus_of m → residue m (pos n) ≡ n }
    ensures round { (m : ℕ) (z : ℤ) → residue m (pos (modulus_of m) +ℤ z) ≡ residue m z }
    ensures sum { (m : ℕ) (y z : ℤ) → residue m (pos (residue m y) +ℤ z) ≡ residue m (y +ℤ z) }
    ensures product { (m : ℕ) (y z : ℤ) → residue m (pos (residue m y) *ℤ z) ≡ residue m (y *ℤ z) }
    ensures shown { (z : ℤ) → FitsSigned w64 z → shown_mod 0 (residue 0 z) ≡ of_integer z }
{}

/// An edit is accepted exactly where its words have one of these forms, and then it stands for this operation. A flag's `on` is
/// operation 2 where on wins, and 1 where off wins. A value and an operation of a table stand for their numbers.
pub fn accepted_edits()
    ensures number { (m : ℕ) (verb rest : List ℕ) (op : NumberOp) → (number_edit m verb rest ≡ Ok op)
        ↔ ((z : ℤ) × FitsSigned w64 z × (rest ≡ signed_decimal z) × IsNumberEdit m verb z op) }
    ensures on_flag { (verb rest : List ℕ) (op : ℕ) → (on_flag_edit verb rest ≡ Ok op)
        ↔ ((rest ≡ []) × (((verb ≡ codes "on") × (op ≡ 2)) ⊎ ((verb ≡ codes "off") × (op ≡ 1)))) }
    ensures off_flag { (verb rest : List ℕ) (op : ℕ) → (off_flag_edit verb rest ≡ Ok op)
        ↔ ((rest ≡ []) × (((verb ≡ codes "on") × (op ≡ 1)) ⊎ ((verb ≡ codes "off") × (op ≡ 2)))) }
    ensures choice { (values : List (List ℕ)) (verb rest : List ℕ) (op : ℕ) → AllPairs (λ a b. a ≢ b) values
        → (choice_edit values verb rest ≡ Ok op) ↔ ((verb ≡ codes "set") × (slice_get values op ≡ Some rest)) }
    ensures table { (ops : List (List ℕ)) (verb rest : List ℕ) (op : ℕ) → AllPairs (λ a b. a ≢ b) ops
        → (table_edit ops verb rest ≡ Ok op) ↔ ((verb ≡ codes "do") × (slice_get ops op ≡ Some rest)) }
    ensures register { (verb rest op : List ℕ) → (register_edit verb rest ≡ Ok op)
        ↔ ((verb ≡ codes "set") × (length rest ≤ max_text) × (op ≡ rest)) }
    ensures tally { (m : ℕ) (verb rest : List ℕ) (op : KeyOp NumberOp) → (tally_edit m verb rest ≡ Ok op)
        ↔ ((z : ℤ) × IsWord op.key × (length op.key ≤ max_key) × FitsSigned w64 z × (rest ≡ op.key ++ 32 ∷ signed_decimal z) × IsNumberEdit m verb z op.op) }
    ensures entry { (verb rest : List ℕ) (op : KeyOp (List ℕ)) → (entry_edit verb rest ≡ Ok op)
        ↔ ((verb ≡ codes "put") × (length op.key ≤ max_key) × (length op.op ≤ max_text) × (first_word rest ≡ Some (op.key, op.op))) }
{}

/// `add` and the spelling of a number show the sum of what was there and the number, and `mul` shows the product, each by the
/// modulus.
pub fn numbers_are_changed()
    ensures add { (m s : ℕ) (z : ℤ) (p : Stamp) → FitsSigned w64 z → let t = number_meaning m in
        IsOkAnd (number_edit m (codes "add") (signed_decimal z))
        (λ op. t.show (t.apply s p op) ≡ number (shown_mod m (residue m (pos s +ℤ z)))) }
    ensures mul { (m s : ℕ) (z : ℤ) (p : Stamp) → FitsSigned w64 z → let t = number_meaning m in
        IsOkAnd (number_edit m (codes "mul") (signed_decimal z))
        (λ op. t.show (t.apply s p op) ≡ number (shown_mod m (residue m (pos s *ℤ z)))) }
{}

/// On a flag on which on wins, `on` shows true and `off` false, whatever it showed. Where another member switches on meanwhile, an
/// `off` does nothing any more, and an `on` stays what it is.
pub fn on_flags_are_switched()
    ensures on { (s : ℕ) (p : Stamp) → s < 2 → let t = table_meaning on_table in
        IsOkAnd (on_flag_edit (codes "on") []) (λ op. flag_shown (t.apply s p op) ≡ boolean true) }
    ensures off { (s : ℕ) (p : Stamp) → s < 2 → let t = table_meaning on_table in
        IsOkAnd (on_flag_edit (codes "off") []) (λ op. flag_shown (t.apply s p op) ≡ boolean false) }
    ensures off_loses { (s : ℕ) (p : Stamp) → s < 2 → let t = table_meaning on_table in
        IsOkAnd (on_flag_edit (codes "on") []) (λ on. IsOkAnd (on_flag_edit (codes "off") []) (λ off. t.apply s p (t.act on off) ≡ s)) }
    ensures on_stays { let t = table_meaning on_table in
        IsOkAnd (on_flag_edit (codes "on") []) (λ on. IsOkAnd (on_flag_edit (codes "off") []) (λ off. t.act off on ≡ on)) }
{}

/// On a flag on which off wins, `on` shows true and `off` false, whatever it showed. Where another member switches off meanwhile, an
/// `on` does nothing any more, and an `off` stays what it is.
pub fn off_flags_are_switched()
    ensures on { (s : ℕ) (p : Stamp) → s < 2 → let t = table_meaning off_table in
        IsOkAnd (off_flag_edit (codes "on") []) (λ op. flag_shown (t.apply s p op) ≡ boolean true) }
    ensures off { (s : ℕ) (p : Stamp) → s < 2 → let t = table_meaning off_table in
        IsOkAnd (off_flag_edit (codes "off") []) (λ op. flag_shown (t.apply s p op) ≡ boolean false) }
    ensures on_loses { (s : ℕ) (p : Stamp) → s < 2 → let t = table_meaning off_table in
        IsOkAnd (off_flag_edit (codes "on") []) (λ on. IsOkAnd (off_flag_edit (codes "off") []) (λ off. t.apply s p (t.act off on) ≡ s)) }
    ensures off_stays { let t = table_meaning off_table in
        IsOkAnd (off_flag_edit (codes "on") []) (λ on. IsOkAnd (off_flag_edit (codes "off") []) (λ off. t.act on off ≡ off)) }
{}

/// `set` and the name of a value show that name, whatever was chosen. Where another member sets a higher value meanwhile, the
/// setting of the lower one does nothing any more, and the higher one stays what it is.
pub fn choices_are_set()
    ensures set { (values : List (List ℕ)) (name : List ℕ) (s v : ℕ) (p : Stamp) → slice_get values v ≡ Some name
        → let t = ladder_meaning (length values) in
        IsOkAnd (choice_edit values (codes "set") name) (λ op. name_shown values (t.apply s p op) ≡ string name) }
    ensures lower_loses { (n v w s : ℕ) (p : Stamp) → v < w → w < n → let t = ladder_meaning n in t.apply s p (t.act w v) ≡ s }
    ensures higher_stays { (n v w : ℕ) → v < w → w < n → (ladder_meaning n).act v w ≡ w }
{}

/// `do` and the name of an operation lead to the state that the table says, and show its name. What becomes of it where another
/// member does something meanwhile, the table says too.
pub fn tables_are_done()
    ensures { (t : ActionTable) (states ops : List (List ℕ)) (name : List ℕ) (s o : ℕ) (p : Stamp) → AllPairs (λ a b. a ≢ b) ops
        → slice_get ops o ≡ Some name → IsOkAnd (table_edit ops (codes "do") name)
        (λ op. name_shown states ((table_meaning t).apply s p op) ≡ name_shown states (next_of t s o)) }
{}

/// `set` and a text show that text on a register of one text, where what is there has a lesser key than the edit. That holds after
/// any sets of which the edit's member knew. A set of a greater key stays: only one who did not know of the edit can have made it.
pub fn latest_is_set()
    ensures set { (s : Option Set) (p : Stamp) (text : List ℕ) → length text ≤ max_text → IfSome s (λ old. IsTrue (is_less old.key (key_of p)))
        → IsOkAnd (register_edit (codes "set") text) (λ op. latest_meaning.show (latest_meaning.apply s p op) ≡ string text) }
    ensures known { (xs : List (Entry (List ℕ))) (p : Stamp) → All (λ e. IsAfter e.stamp.clock p) xs
        → IfSome (apply_all latest_meaning latest_meaning.init xs) (λ old. IsTrue (is_less old.key (key_of p))) }
    ensures greater_stays { (s : Set) (p : Stamp) (text : List ℕ) → IsFalse (is_less s.key (key_of p)) → latest_meaning.apply (Some s) p text ≡ Some s }
{}

/// `set` and a text show that text alone on a register of several texts, where the edit knows of all that is there.
pub fn several_are_set()
    ensures { (d : Clock) (s : List Held) (p : Stamp) (text : List ℕ) → length text ≤ max_text → several_meaning.good_at d s → IsAfter d p
        → IsOkAnd (register_edit (codes "set") text) (λ op. several_meaning.show (several_meaning.apply s p op) ≡ array (item (string text) no_items)) }
{}

/// `add`, a key and the spelling of a number show at that key the sum of what was there and the number, and `mul` shows the
/// product, each by the modulus, where a key that is absent stands for 0. At every other key an edit of a tally shows what it showed.
pub fn tallies_are_changed()
    ensures add { (m : ℕ) (es : List (KeyState ℕ)) (key : List ℕ) (z : ℤ) (p : Stamp) → IsWord key → length key ≤ max_key → FitsSigned w64 z
        → let t = keyed_meaning (number_meaning m) in
        IsOkAnd (tally_edit m (codes "add") (key ++ 32 ∷ signed_decimal z))
        (λ op. get key (t.show (t.apply es p op)) ≡ Some (number (shown_mod m (residue m (pos (state_at (number_meaning m) es key) +ℤ z))))) }
    ensures mul { (m : ℕ) (es : List (KeyState ℕ)) (key : List ℕ) (z : ℤ) (p : Stamp) → IsWord key → length key ≤ max_key → FitsSigned w64 z
        → let t = keyed_meaning (number_meaning m) in
        IsOkAnd (tally_edit m (codes "mul") (key ++ 32 ∷ signed_decimal z))
        (λ op. get key (t.show (t.apply es p op)) ≡ Some (number (shown_mod m (residue m (pos (state_at (number_meaning m) es key) *ℤ z))))) }
    ensures others { (m : ℕ) (es : List (KeyState ℕ)) (verb rest key after k : List ℕ) (p : Stamp) → first_word rest ≡ Some (key, after) → k ≢ key
        → let t = keyed_meaning (number_meaning m) in
        IfOk (tally_edit m verb rest) (λ op. get k (t.show (t.apply es p op)) ≡ get k (t.show es)) }
{}

/// `put`, a key and a text show that text at that key, where what is there has a lesser key than the edit. That holds after any
/// edits of which the edit's member knew. At every other key they show what was shown.
pub fn entries_are_put()
    ensures put { (es : List (KeyState (Option Set))) (rest key text : List ℕ) (p : Stamp) → first_word rest ≡ Some (key, text)
        → length key ≤ max_key → length text ≤ max_text → IfSome (state_at latest_meaning es key) (λ old. IsTrue (is_less old.key (key_of p)))
        → let t = keyed_meaning latest_meaning in
        IsOkAnd (entry_edit (codes "put") rest) (λ op. get key (t.show (t.apply es p op)) ≡ Some (string text)) }
    ensures known { (xs : List (Entry (KeyOp (List ℕ)))) (key : List ℕ) (p : Stamp) → All (λ e. IsAfter e.stamp.clock p) xs
        → let t = keyed_meaning latest_meaning in
        IfSome (state_at latest_meaning (apply_all t t.init xs) key) (λ old. IsTrue (is_less old.key (key_of p))) }
    ensures others { (es : List (KeyState (Option Set))) (verb rest key text k : List ℕ) (p : Stamp) → first_word rest ≡ Some (key, text) → k ≢ key
        → let t = keyed_meaning latest_meaning in
        IfOk (entry_edit verb rest) (λ op. get k (t.show (t.apply es p op)) ≡ get k (t.show es)) }
{}
