//! Laws of scripts. A call does nothing: its contract is the law.
ghost use Rattle.std.specs.Prelude.{◌≡◌, ℕ, List, Ok, Err, IsSome};
ghost use Rattle.std.specs.Result.{result_err};
ghost use Rattle.uug_sim_script.specs.declared.fields.TheConstants.{MODE_DIGITS};
ghost use Rattle.uug_sim_script.specs.declared.line.TheConstants.{BYTES_MAX, TURNS_MAX};
ghost use Rattle.uug_sim_script.specs.declared.remark.TheConstants.{SHOWN_MAX};
ghost use Rattle.uug_conversation.specs.declared.side.Side.{Side};
ghost use Rattle.uug_conversation.specs.declared.job.Job.{Job};
ghost use Rattle.uug_conversation.specs.Party.{HasNames};
ghost use Rattle.uug_sim_script.specs.IsScript.{IsScript, IsFirstBad};
ghost use Rattle.uug_sim_script.specs.JobWords.{job_words};
ghost use Rattle.uug_sim_script.specs.Complaints.{Wrong};
ghost use Rattle.uug_sim_script.specs.LineSays.{LineSays, TextSays};
ghost use Rattle.uug_sim_script.specs.Meaning.{LineMeaning, of_end, job};
ghost use Rattle.uug_sim_script.specs.ReadLine.{line_of};
ghost use Rattle.uug_sim_script.specs.Script.{ScriptSays};
ghost use Rattle.uug_sim_script.specs.ScriptOf.{script_of};

/// States that a text has one reading: it is one script, or has one first bad line. The reader finds it, and what the
/// reader finds is so.
pub fn one_reading_of_scripts()
    ensures script { (text : List ℕ) (script : ScriptSays) →
        IsScript text script → script_of text ≡ Ok script }
    ensures bad { (text : List ℕ) (n : ℕ) → IsFirstBad text n → script_of text ≡ Err n }
    ensures read_script { (text : List ℕ) (script : ScriptSays) →
        script_of text ≡ Ok script → IsScript text script }
    ensures read_bad { (text : List ℕ) (n : ℕ) → script_of text ≡ Err n → IsFirstBad text n }
{}

/// States that each line either says something or has a complaint. A good line has no complaint, and a bad one has one.
pub fn a_bad_line_has_a_complaint()
    ensures good { (line : List ℕ) (m : LineMeaning) → TextSays line m → line_of line ≡ Ok m }
    ensures says { (line : List ℕ) (m : LineMeaning) → line_of line ≡ Ok m → TextSays line m }
    ensures bad { (line : List ℕ) → ((m : LineMeaning) → TextSays line m → ⊥)
        → IsSome (result_err (line_of line)) }
    ensures complaint { (line : List ℕ) (w : Wrong) (m : LineMeaning) → line_of line ≡ Err w
        → TextSays line m → ⊥ }
{}

/// States that the words written for a job are those of a line that gives it.
pub fn a_job_is_written_as_a_line_says_it()
    ensures { (side : Side) (given : Job) → HasNames given
        → LineSays (job_words side given) (of_end side (job given)) }
{}

/// States the limits of a script: the bytes that one event passes or drops, the turns of one `flow`, the octal digits
/// of a mode, and the bytes of a word that a remark shows. The limit of a line is in `uug_talk`.
pub fn limits()
    ensures bytes { BYTES_MAX ≡ 1000000000 }
    ensures turns { TURNS_MAX ≡ 100000 }
    ensures mode_digits { MODE_DIGITS ≡ 4 }
    ensures shown { SHOWN_MAX ≡ 40 }
{}
