//! What registers show after sets in some order. Each law is the contract of a function that does nothing.
ghost use Rattle.std.specs.Prelude.{◌≡◌, ℕ, List, map};
ghost use Rattle.std.specs.List.{filter};
ghost use Rattle.serde_json.specs.Data.{null, string};
ghost use Rattle.crdt_laws.specs.declared.small.Entry.{Entry};
ghost use Rattle.crdt_laws.specs.Present.{apply_all};
ghost use Rattle.crdt_laws.specs.Sets.{AreApart, IsCausal, IsHonest, canonical};
ghost use Rattle.crdt_laws.specs.Tower.{IsLawful};
ghost use Rattle.register_crdts.specs.Latest.{IsGreatest, latest_meaning};
ghost use Rattle.register_crdts.specs.Several.{is_unseen, several_meaning, texts_of};

use crate::latest::Latest;
use crate::several::Several;
use crdt_laws::is_lawful;

/// The register of one text is a lawful tower.
pub fn latest_is_lawful()
    ensures { IsLawful latest_meaning }
{
    is_lawful(&Latest);
}

/// The register of several texts is a lawful tower.
pub fn several_is_lawful()
    ensures { IsLawful several_meaning }
{
    is_lawful(&Several);
}

/// After sets in any order, the register of one text shows the text of the greatest key, and null where there is none.
pub fn latest_shows_the_greatest()
    ensures unset { latest_meaning.show latest_meaning.init ≡ null }
    ensures greatest { (xs : List (Entry (List ℕ))) (e : Entry (List ℕ)) → IsGreatest xs e
        → latest_meaning.show (apply_all latest_meaning latest_meaning.init xs) ≡ string e.op }
{}

/// After the sets of an honest set in any causal order, the register of several texts shows by rising key the texts of
/// exactly those whose id no other set of it covers.
pub fn several_shows_the_unseen()
    ensures { (xs : List (Entry (List ℕ))) → IsHonest xs → AreApart xs → IsCausal xs
        → several_meaning.show (apply_all several_meaning several_meaning.init xs) ≡ texts_of (filter (is_unseen xs) (canonical xs)) }
{}
