//! What is due for `create` and `mkdir`, with nothing to run.
ghost use Rattle.std.specs.Prelude.{◌≡◌, ℕ, Bool, List, Err, Ok};
ghost use Rattle.volume_def.specs.Sound.{IsSound};
ghost use Rattle.volume_def.specs.View.{VolumeView};
ghost use Rattle.tree_model.specs.Facts.{TellsFacts};
ghost use Rattle.tree_model.specs.Paths.{Place};
ghost use Rattle.tree_model.specs.Reading.{read};
ghost use Rattle.tree_model.specs.Refusals.{Facts, outcome};
ghost use Rattle.tree_model.specs.declared.opens.OpenEntry.{OpenEntry};
ghost use Rattle.tree_model.specs.declared.reply.No.{No};
ghost use Rattle.made_owed.specs.MadeOwed.{made_command};
ghost use Rattle.name_places.specs.Places.{place_wanted};
ghost use Rattle.make_places.specs.Makes.{at_place, make_wanted, machine_at};

/// On a sound volume the words of the command lead to the new name, where that is what is
/// wanted (`found`), and else it is refused so (`refused`).
pub fn make_laws()
    ensures found { (facts : Facts) (view : VolumeView) (opens : List OpenEntry) (now session : ℕ) (path : List (List ℕ)) (place : Place)
        (directory : Bool) (dir : ℕ) → TellsFacts view facts → IsSound view → place_wanted (read view) path ≡ Ok place
        → make_wanted view directory path ≡ Ok dir
        → outcome facts (machine_at view opens now) session (made_command directory path) ≡ Ok (at_place place) }
    ensures refused { (facts : Facts) (view : VolumeView) (opens : List OpenEntry) (now session : ℕ) (path : List (List ℕ)) (why : No)
        (directory : Bool) → TellsFacts view facts → IsSound view → make_wanted view directory path ≡ Err why
        → outcome facts (machine_at view opens now) session (made_command directory path) ≡ Err why }
{}
