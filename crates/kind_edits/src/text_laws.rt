//! What the definitions of edits of texts mean, as `laws` for the other kinds: what is shown after the operations of an edit are applied,
//! each at its stamp, to the state from which the edit was made.
ghost use Rattle.std.specs.Prelude.{◌≡◌, ◌≢◌, ◌^◌, ◌<◌, ◌≤◌, ◌↔◌, ◌-◌, ◌∷◌, ◌++◌, ℕ, Bool, List, Some, Ok, length, codes, take, drop, map, remove, replicate, slice_get, IfOk, IfErr, IsOk, IsOkAnd};
ghost use Rattle.std.specs.Prelude.{encode_utf8_all};
ghost use Rattle.std.specs.Fmt.{decimal};
ghost use Rattle.std.specs.List.{All, AllPairs};
ghost use Rattle.std.specs.Str.{chars};
ghost use Rattle.serde_json.specs.Data.{string};
ghost use Rattle.vector_clock.specs.declared.clock.Clock.{Clock};
ghost use Rattle.vector_clock.specs.declared.stamp.Stamp.{Stamp};
ghost use Rattle.vector_clock.specs.Clock.{IsClock};
ghost use Rattle.vector_clock.specs.Stamp.{IsAfter, IsStamp};
ghost use Rattle.crdt_laws.specs.Present.{apply_all, document};
ghost use Rattle.crdt_laws.specs.Sets.{AreApart, AreIssued, IsClosed, IsHonest, canonical};
ghost use Rattle.crdt_laws.specs.declared.small.Entry.{Entry};
ghost use Rattle.forgetting_model.specs.Made.{entries_from, stamp_after};
ghost use Rattle.list_crdt.specs.declared.text.Cell.{Cell};
ghost use Rattle.list_crdt.specs.Text.{IsText, text_meaning};
ghost use Rattle.register_crdts.specs.Text.{max_text};
ghost use Rattle.semidirect_product.specs.declared.stack.StackOp.{StackOp};
ghost use Rattle.semidirect_product.specs.declared.stack.StackOp.TheVariants.{Low};
ghost use Rattle.rich_text.specs.declared.marked.RichCell.{RichCell};
ghost use Rattle.rich_text.specs.declared.marked.RichOp.{RichOp};
ghost use Rattle.rich_text.specs.declared.over.MarkRange.{MarkRange};
ghost use Rattle.rich_text.specs.ByIndex.{characters, shows};
ghost use Rattle.rich_text.specs.Marked.{IsRichText};
ghost use Rattle.rich_text.specs.Over.{rich_meaning};
ghost use Rattle.rich_text.specs.Shown.{AreFromRanges};
ghost use Rattle.kind_edits.specs.Accepted.{AreMarkWords, IsFull, IsInsertWords};
ghost use Rattle.kind_edits.specs.Forms.{delete_words, insert_words, mark_words};
ghost use Rattle.kind_edits.specs.PlainEdit.{text_edit};
ghost use Rattle.kind_edits.specs.RichEdit.{AreLesser, inserts_at, mark_verb, rich_edit};
ghost use Rattle.kind_edits.specs.Shown.{letters, rich_letters, shown_before, spliced};
ghost use Rattle.kind_edits.specs.Stamps.{clock_before};
ghost use Rattle.kind_edits.specs.Words.{IsWord};
ghost use Rattle.kind_edits.specs.declared.forms.MarkWords.{MarkWords};

/// Before its next operation a member has just what it had after the last one, and an operation is new to what its member had before
/// it.
pub fn clocks_before_operations()
    ensures next { (k : Clock) (me : ℕ) → IsClock k → me < k.n → clock_before (stamp_after k me) ≡ k }
    ensures after { (p : Stamp) → IsStamp p → IsAfter (clock_before p) p }
{}

/// The words of an insert, of a delete and of an edit of marks are read exactly where they are spelled so.
pub fn words_of_text_edits()
    ensures insert { (words text : List ℕ) (index : ℕ) → (insert_words words ≡ Ok (index, text)) ↔ IsInsertWords words index text }
    ensures delete { (words : List ℕ) (index : ℕ) → (delete_words words ≡ Ok index) ↔ ((index < 2 ^ 32) × (words ≡ decimal index)) }
    ensures mark { (names : List (List ℕ)) (words : List ℕ) (m : MarkWords) → AllPairs (λ a b. a ≢ b) names
        → (mark_words names words ≡ Ok m) ↔ AreMarkWords names words m }
{}

/// `insert`, an index and a text show the old text with this one put in at the index, and `delete` and an index show it without the
/// character there. An insert of 1 to 1,024 bytes at an index up to the length is refused only where a position would have more than
/// 32 steps. A delete at an index below the length is accepted.
pub fn texts_are_edited()
    ensures insert { (n : ℕ) (p : Stamp) (s : List Cell) (i : ℕ) (t : List ℕ) → IsText n s → i < 2 ^ 32 → 1 ≤ length t → length t ≤ max_text
        → IfOk (text_edit p s (codes "insert") (decimal i ++ 32 ∷ t))
        (λ ops. text_meaning.show (apply_all text_meaning s (entries_from p ops)) ≡ string (encode_utf8_all (spliced (letters s) i (chars t)))) }
    ensures room { (p : Stamp) (s : List Cell) (i : ℕ) (t : List ℕ) → i < 2 ^ 32 → i ≤ length s → 1 ≤ length t → length t ≤ max_text
        → IfErr (text_edit p s (codes "insert") (decimal i ++ 32 ∷ t)) IsFull }
    ensures delete { (n : ℕ) (p : Stamp) (s : List Cell) (i : ℕ) → IsText n s → i < 2 ^ 32 → i < length s
        → IsOkAnd (text_edit p s (codes "delete") (decimal i))
        (λ ops. text_meaning.show (apply_all text_meaning s (entries_from p ops)) ≡ string (encode_utf8_all (remove (letters s) i))) }
{}

/// The same of rich texts. What is put in shows the marks of the character before it, none at the start, and all other characters show
/// what they showed. Each character is inserted at the next index of the text as those before it have left it.
pub fn rich_texts_are_edited()
    ensures insert { (number n : ℕ) (p : Stamp) (names : List (List ℕ)) (s : List RichCell) (i : ℕ) (t : List ℕ) → IsRichText number n s → i < 2 ^ 32 → 1 ≤ length t → length t ≤ max_text
        → IfOk (rich_edit p names s (codes "insert") (decimal i ++ 32 ∷ t))
        (λ ops. (rich_meaning number).show (apply_all (rich_meaning number) s (entries_from p ops)) ≡ string (encode_utf8_all (spliced (rich_letters s) i (chars t)))) }
    ensures marks { (number n mark : ℕ) (p : Stamp) (names : List (List ℕ)) (s : List RichCell) (i : ℕ) (t : List ℕ) → IsRichText number n s → i < 2 ^ 32 → 1 ≤ length t → length t ≤ max_text
        → IfOk (rich_edit p names s (codes "insert") (decimal i ++ 32 ∷ t))
        (λ ops. shows mark (apply_all (rich_meaning number) s (entries_from p ops)) ≡ spliced (shows mark s) i (replicate (length (chars t)) (shown_before mark s i))) }
    ensures by_index { (number n : ℕ) (p : Stamp) (names : List (List ℕ)) (s : List RichCell) (i : ℕ) (t : List ℕ) → IsStamp p → IsRichText number n s → i < 2 ^ 32 → 1 ≤ length t → length t ≤ max_text
        → IfOk (rich_edit p names s (codes "insert") (decimal i ++ 32 ∷ t)) (λ ops. ops ≡ map Low (inserts_at p s i (chars t))) }
    ensures room { (p : Stamp) (names : List (List ℕ)) (s : List RichCell) (i : ℕ) (t : List ℕ) → i < 2 ^ 32 → i ≤ length s → 1 ≤ length t → length t ≤ max_text
        → IfErr (rich_edit p names s (codes "insert") (decimal i ++ 32 ∷ t)) IsFull }
    ensures delete { (number n : ℕ) (p : Stamp) (names : List (List ℕ)) (s : List RichCell) (i : ℕ) → IsRichText number n s → i < 2 ^ 32 → i < length s
        → IsOkAnd (rich_edit p names s (codes "delete") (decimal i))
        (λ ops. apply_all (rich_meaning number) s (entries_from p ops) ≡ remove s i) }
{}

/// `mark`, two indexes and the name of a mark put the mark on the characters from the first index to before the second, and `unmark`
/// takes it off them. Everywhere else the mark shows as before, other marks show as before everywhere, and the characters stay. That
/// holds where the entries that are there have lesser keys than the edit.
pub fn marks_are_put()
    ensures accepted { (p : Stamp) (names : List (List ℕ)) (s : List RichCell) (words : List ℕ) (m : MarkWords) (on : Bool) → AllPairs (λ a b. a ≢ b) names
        → AreMarkWords names words m → m.from < m.to → m.to ≤ length s → IsOk (rich_edit p names s (mark_verb on) words) }
    ensures shown { (number n : ℕ) (p : Stamp) (names : List (List ℕ)) (s : List RichCell) (words : List ℕ) (m : MarkWords) (on : Bool) → AllPairs (λ a b. a ≢ b) names
        → IsRichText number n s → AreLesser s p → AreMarkWords names words m
        → IfOk (rich_edit p names s (mark_verb on) words) (λ ops. shows m.mark (apply_all (rich_meaning number) s (entries_from p ops))
        ≡ take m.from (shows m.mark s) ++ (replicate (m.to - m.from) on ++ drop m.to (shows m.mark s))) }
    ensures others { (number mark : ℕ) (p : Stamp) (names : List (List ℕ)) (s : List RichCell) (words : List ℕ) (m : MarkWords) (on : Bool) → AllPairs (λ a b. a ≢ b) names
        → AreMarkWords names words m → mark ≢ m.mark
        → IfOk (rich_edit p names s (mark_verb on) words) (λ ops. shows mark (apply_all (rich_meaning number) s (entries_from p ops)) ≡ shows mark s) }
    ensures characters { (number : ℕ) (p : Stamp) (names : List (List ℕ)) (s : List RichCell) (words : List ℕ) (on : Bool)
        → IfOk (rich_edit p names s (mark_verb on) words) (λ ops. characters (apply_all (rich_meaning number) s (entries_from p ops)) ≡ characters s) }
{}

/// Where the entries of a set's inserts are those of its ranges, the document of the set has only entries of lesser keys than the next
/// edit of a member that knows the whole set. And the operations of edits of that document keep this of the set. So where nothing but
/// such edits is made, `mark` and `unmark` show at once.
pub fn edits_keep_entries_of_ranges()
    ensures lesser { (number n : ℕ) (xs : List (Entry (StackOp RichOp MarkRange))) (p : Stamp) → AreIssued (rich_meaning number) n xs → AreApart xs → IsHonest xs → IsClosed xs → AreFromRanges xs
        → All (λ e. IsAfter e.stamp.clock p) xs → AreLesser (document (rich_meaning number) (canonical xs)) p }
    ensures kept { (number n : ℕ) (xs : List (Entry (StackOp RichOp MarkRange))) (p : Stamp) (names : List (List ℕ)) (verb rest : List ℕ) → AreIssued (rich_meaning number) n xs → AreApart xs → IsHonest xs → IsClosed xs → AreFromRanges xs
        → IfOk (rich_edit p names (document (rich_meaning number) (canonical xs)) verb rest) (λ ops. AreFromRanges (entries_from p ops ++ xs)) }
{}

/// An edit is the same on a text and on that text settled.
pub fn edits_of_settled_texts()
    ensures text { (p : Stamp) (s : List Cell) (k : Clock) (verb rest : List ℕ) → text_edit p (text_meaning.settle s k) verb rest ≡ text_edit p s verb rest }
    ensures rich { (number : ℕ) (p : Stamp) (names : List (List ℕ)) (s : List RichCell) (k : Clock) (verb rest : List ℕ)
        → rich_edit p names ((rich_meaning number).settle s k) verb rest ≡ rich_edit p names s verb rest }
{}
