ghost use Rattle.std.specs.Prelude.{◌≡◌, ◌≢◌, ◌<◌, ◌↔◌, ◌⊎◌, ℕ, List, Some, IsTrue, false};
ghost use Rattle.serde_json.specs.Data.{Data};
ghost use Rattle.action_tables.specs.TableForm.{HasKeys, WritesOp, WritesTable, table_keys};
ghost use Rattle.action_tables.specs.TableText.{Spells, HasTextFault, IsJson, op_of, written_of};
ghost use Rattle.action_tables.specs.declared.written.WrittenOp.{WrittenOp};
ghost use Rattle.action_tables.specs.declared.written.WrittenTable.{WrittenTable};
ghost use Rattle.action_tables.specs.declared.named.TableFault.{TableFault};
ghost use Rattle.crdt_laws.specs.Tower.{IsLawful};
ghost use Rattle.action_tables.specs.Table.{ActionTable, IsTable, KeepsLaws, Case, is_earlier, level_of, next_of, act_of, op_count, table_meaning};
ghost use Rattle.action_tables.specs.Verdict.{IsVerdict, HasFault};
ghost use Rattle.action_tables.specs.declared.table.Verdict.{Verdict};
ghost use Rattle.action_tables.specs.declared.table.Shape.{Shape};

use crate::lawful::LawfulTable;

/// A lawful table is a lawful tower, whose operations have the exchange law at every pair and every state.
pub fn table_is_lawful(table: &LawfulTable)
    ensures tower { IsLawful (table_meaning table.now.table) }
    ensures exchange { let t = table.now.table in
        (y x s : ℕ) → y < op_count t → x < op_count t → s < t.states → level_of t x < level_of t y
        → next_of t (next_of t s x) y ≡ next_of t (next_of t s y) (act_of t y x) }
{}

/// A table has one verdict: the least broken case is below every other. It is `Lawful` exactly where the five laws hold.
pub fn one_verdict()
    ensures whole { (t : ActionTable) → (v : Verdict) × IsVerdict t v }
    ensures one { (t : ActionTable) (v w : Verdict) → IsVerdict t v → IsVerdict t w → v ≡ w }
    ensures lawful { (t : ActionTable) → IsVerdict t Verdict.Lawful ↔ KeepsLaws t }
{}

/// Cases stand in a strict order, and each two different ones are in order.
pub fn order_of_cases()
    ensures asymmetric { (j k : Case) → IsTrue (is_earlier j k) → is_earlier k j ≡ false }
    ensures transitive { (i j k : Case) → IsTrue (is_earlier i j) → IsTrue (is_earlier j k) → IsTrue (is_earlier i k) }
    ensures total { (j k : Case) → j ≢ k → is_earlier j k ≡ false → IsTrue (is_earlier k j) }
{}

/// Parts that make no table have one fault, and those that make one have none.
pub fn one_fault()
    ensures whole { (t : ActionTable) → IsTable t ⊎ ((f : Shape) × HasFault t f) }
    ensures one { (t : ActionTable) (f g : Shape) → HasFault t f → HasFault t g → f ≡ g }
    ensures none { (t : ActionTable) (f : Shape) → IsTable t → ¬ HasFault t f }
{}

/// Each text spells a table or has a fault, where running out of memory is none. It spells one table with one name for each state
/// and operation, and then has no fault, or it has one fault.
pub fn one_reading()
    ensures whole { (text : List ℕ) → ((t : ActionTable) × (states : List (List ℕ)) × (ops : List (List ℕ)) × Spells text t states ops)
        ⊎ ((fault : TableFault) × (fault ≢ TableFault.NoMemory) × HasTextFault text fault) }
    ensures one { (text : List ℕ) (t t' : ActionTable) (states ops states' ops' : List (List ℕ)) → Spells text t states ops
        → Spells text t' states' ops' → (t ≡ t') × (states ≡ states') × (ops ≡ ops') }
    ensures no_fault { (text : List ℕ) (t : ActionTable) (states ops : List (List ℕ)) (fault : TableFault)
        → Spells text t states ops → HasTextFault text fault → fault ≡ TableFault.NoMemory }
    ensures one_fault { (text : List ℕ) (f g : TableFault) → HasTextFault text f → HasTextFault text g
        → f ≢ TableFault.NoMemory → g ≢ TableFault.NoMemory → f ≡ g }
{}

/// A table is read of a JSON value exactly where the value writes it down: it is an object with exactly the keys `ops`, `start`
/// and `states`, and each of its operations an object with exactly the keys `act`, `level`, `name` and `next`.
pub fn form_of_tables()
    ensures table { (d : Data) (w : WrittenTable) → (written_of d ≡ Some w) ↔ WritesTable d w }
    ensures op { (d : Data) (o : WrittenOp) → (op_of d ≡ Some o) ↔ WritesOp d o }
    ensures keys { (text : List ℕ) (t : ActionTable) (states ops : List (List ℕ)) → Spells text t states ops
        → (d : Data) × IsJson text d × HasKeys table_keys d }
{}
