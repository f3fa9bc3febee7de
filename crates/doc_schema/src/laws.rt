ghost use Rattle.std.specs.Prelude.{◌≡◌, ◌≤◌, ◌⊎◌, ℕ, List, Ok, Some, codes, length};
ghost use Rattle.serde_json.specs.Data.{Data};
ghost use Rattle.action_tables.specs.TableText.{IsJson};
ghost use Rattle.doc_schema.specs.BuiltIn.{pair, trio};
ghost use Rattle.doc_schema.specs.Canonical.{canonical_text};
ghost use Rattle.action_tables.specs.TableForm.{HasKeys};
ghost use Rattle.doc_schema.specs.Form.{Head, field_form, head_form};
ghost use Rattle.doc_schema.specs.Keys.{keys_of_field, schema_keys};
ghost use Rattle.doc_schema.specs.declared.written.WrittenField.{WrittenField};
ghost use Rattle.doc_schema.specs.Schema.{HasFault, SchemaParts, Spells, ValueResult};
ghost use Rattle.doc_schema.specs.Sound.{IsSchema};
ghost use Rattle.doc_schema.specs.declared.fault.SchemaError.{SchemaError};

/// Each text spells one schema, or has one fault, and never both.
pub fn one_reading()
    ensures whole { (text : List ℕ) → ((s : SchemaParts) × Spells text s) ⊎ ((fault : SchemaError) × HasFault text fault) }
    ensures one { (text : List ℕ) (s t : SchemaParts) → Spells text s → Spells text t → s ≡ t }
    ensures one_fault { (text : List ℕ) (f g : SchemaError) → HasFault text f → HasFault text g → f ≡ g }
    ensures no_fault { (text : List ℕ) (s : SchemaParts) (fault : SchemaError) → Spells text s → ¬ HasFault text fault }
{}

/// The JSON value of a text is what counts: two texts of one value, neither of them too long, spell one schema, or have one fault.
pub fn one_value()
    ensures same { (text other : List ℕ) (d : Data) (s : SchemaParts) → IsJson text d → IsJson other d
        → length other ≤ 65536 → Spells text s → Spells other s }
    ensures same_fault { (text other : List ℕ) (d : Data) (fault : SchemaError) → IsJson text d → IsJson other d
        → length text ≤ 65536 → length other ≤ 65536 → HasFault text fault → HasFault other fault }
{}

/// What has the form of a schema is an object with exactly the keys of one, and what has the form of a field an object with
/// exactly the keys of such a field.
pub fn form_of_schemas()
    ensures schema { (d : Data) (h : Head) → head_form d ≡ Some h → HasKeys schema_keys d }
    ensures field { (d : Data) (w : WrittenField) → field_form d ≡ Some w → HasKeys (keys_of_field w) d }
{}

/// The canonical bytes of a schema are JSON, and their value gives the schema again, so where they are not too long they spell it.
/// Two schemas of the same canonical bytes are the same.
pub fn canonical_form()
    ensures value { (s : SchemaParts) → IsSchema s → (d : Data) × IsJson (canonical_text s) d × ValueResult d (Ok s) }
    ensures spelled { (s : SchemaParts) → IsSchema s → length (canonical_text s) ≤ 65536 → Spells (canonical_text s) s }
    ensures one { (s t : SchemaParts) → IsSchema s → IsSchema t → canonical_text s ≡ canonical_text t → s ≡ t }
{}

/// The canonical bytes of the two schemas that need no file, each with one number, called n. They spell these schemas.
pub fn built_in_bytes()
    ensures pair { canonical_text pair ≡ codes "{\"doc\":\"pair\",\"fields\":[{\"kind\":\"number\",\"name\":\"n\"}],\"members\":2}" }
    ensures trio { canonical_text trio ≡ codes "{\"doc\":\"trio\",\"fields\":[{\"kind\":\"number\",\"name\":\"n\"}],\"members\":3}" }
    ensures pair_spelled { Spells (canonical_text pair) pair }
    ensures trio_spelled { Spells (canonical_text trio) trio }
{}
