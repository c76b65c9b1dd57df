//! Laws of what this crate reads and writes. A call does nothing: its contract is the law.
ghost use Rattle.std.specs.Prelude.{◌≡◌, ◌<◌, ℕ, List, [], ◌∷◌, All, Ok, Some, true};
ghost use Rattle.std.specs.Cmp.{IsTotalOrder};
ghost use Rattle.std.specs.declared.cmp.Ordering.TheVariants.{Equal};
ghost use Rattle.uug_taylor_text.specs.CommandLines.{Line, command_of};
ghost use Rattle.uug_taylor_text.specs.CommandTexts.{IsLine, line_of};
ghost use Rattle.uug_taylor_text.specs.Quoting.{is_well_quoted, quoted, unquoted};
ghost use Rattle.uug_taylor_text.specs.Operations.{folder_synced, unlinked};
ghost use Rattle.uug_taylor_text.specs.Standings.{IsGoneThere, Standing, after_all};
ghost use Rattle.uug_taylor_text.specs.StatusTexts.{IsStatus, status_line, status_of};
ghost use Rattle.uug_taylor_text.specs.StoredSafely.{StoredSafely, is_place};
ghost use Rattle.uug_taylor_text.specs.WorkOrder.{work_order};
ghost use Rattle.uug_taylor_text.specs.declared.status.Status.{Status};
ghost use Rattle.uug_taylor_text.specs.declared.spool_names.Spot.{Spot};
ghost use Rattle.uug_taylor_text.specs.declared.spool_names.TheConstants.{FAR_NAME_MAX, OWN_DATA_MAX, OWN_TEXT_MAX};

/// States the limits of names.
pub fn limits()
    ensures own_data { OWN_DATA_MAX ≡ 6 }
    ensures own_text { OWN_TEXT_MAX ≡ 7 }
    ensures far_name { FAR_NAME_MAX ≡ 14 }
{}

/// States that the order in which C. files are taken is total, and that only equal names are equal in it.
pub fn jobs_are_taken_in_one_order()
    ensures order { IsTotalOrder work_order }
    ensures names { (name other : List ℕ) → work_order name other ≡ Equal → name ≡ other }
{}

/// States that the quoted word of a name is well quoted, and reads back as the name.
pub fn what_is_quoted_is_read()
    ensures well { (name : List ℕ) → All (λ b. b < 256) name → is_well_quoted (quoted name) ≡ true }
    ensures name { (name : List ℕ) → All (λ b. b < 256) name → unquoted (quoted name) ≡ name }
{}

/// States that the line of a command reads back as the command. Each of its words must have no space, and at least one
/// byte except in NOTIFY. Its names must be well quoted, and the name of its copy and its mode valid.
pub fn written_commands_are_read()
    ensures { (line : Line) → IsLine line → command_of (line_of line) ≡ Ok line }
{}

/// States that the line of a status reads back as the status, whatever the name of the system.
pub fn written_statuses_are_read()
    ensures { (s : Status) (system : List ℕ) → IsStatus s
        → status_of (status_line s system) ≡ Some s }
{}

/// States that a received file never appears in part, whatever was in the folders before and wherever a power cut stops
/// `store`. The place of the file holds what it held before, or the complete file. A new file is never there without
/// its marker. Once all is done, the complete file is there.
pub fn a_file_that_came_is_whole()
    ensures { (temp : List ℕ) (target : Spot) (text bytes : List ℕ) (s : Standing) → is_place target.room ≡ true
        → StoredSafely temp target text bytes s }
{}

/// States that a removed file stays removed once its folder is synced to disk.
pub fn a_file_stays_away()
    ensures { (place : Spot) (s : Standing)
        → IsGoneThere place (after_all (unlinked place ∷ folder_synced place.room ∷ []) s) }
{}
